//! The candidate codes of texts of rows T9 to T11 and T20.

ghost use Rattle.hm_text32_codes.specs.Asked.{ArithCodes};

use crate::fields::of_three;
use crate::memory_codes::code_memory;
use crate::names::{accumulate_name, bits_name, long_name, operation_name, select_name};
use crate::operands::Operands;
use hm_enc32_data::{
    base_of_accumulate, base_of_bits, base_of_long_product, base_of_operation, base_of_select,
    base_of_wide_extend,
};
use hm_text_rows::extend_name;

/// Rows T9 to T11 and T20, and those of `code_memory`.
pub fn code_arith(mnemonic: &[u8], o: &Operands) -> Option<u64>
    ensures { ArithCodes mnemonic.now o.now result }
{
    if let Some(name) = extend_name(mnemonic) {
        let base = u64::from(base_of_wide_extend(name)) + (u64::from(o.fourth / 8) << 4);
        return Some(of_three(base, 0, 0, o.first, o.second));
    }
    if let Some(name) = bits_name(mnemonic) {
        let base = u64::from(base_of_bits(name));
        return Some(of_three(base, o.second, 0, o.first, o.second));
    }
    if let Some(name) = operation_name(mnemonic) {
        let base = u64::from(base_of_operation(name));
        return Some(of_three(base, o.second, 0, o.first, o.third));
    }
    if let Some(name) = accumulate_name(mnemonic) {
        let base = u64::from(base_of_accumulate(name));
        return Some(of_three(base, o.second, o.fourth, o.first, o.third));
    }
    if let Some(name) = long_name(mnemonic) {
        let base = u64::from(base_of_long_product(name));
        return Some(of_three(base, o.third, o.first, o.second, o.fourth));
    }
    if let Some(name) = select_name(mnemonic) {
        let base = u64::from(base_of_select(name)) + (u64::from(o.fourth) << 4);
        return Some(of_three(base, o.second, 0, o.first, o.third));
    }
    code_memory(mnemonic, o)
}
