//! What texts of rows share: their shapes, as what they are printed from; their operands, as numbers; and their labels.
#![tactic(auto)]

mod addresses;
mod labels;
mod lists;
mod mnemonics;
mod names;
mod operands;
mod shapes;

pub use addresses::{Index, back, indexed, inside, open, scaled};
pub use labels::{behind, distance, is_label, split_last};
pub use lists::{is_listed, with_list};
pub use mnemonics::{access_mnemonic, element_suffix, extend_mnemonic};
pub use names::{access_name, extend_name, named};
pub use operands::{
    added, back_in, before, braced_bits, branch_condition_in, first_of, first_word, is, is_vector,
    operand, size_of, token_behind, value_by,
};
pub use shapes::{
    alone, and, and_any_shift, and_constant, and_shift, first, four, marked, one, or_zero, q, r,
    three, two, with,
};
