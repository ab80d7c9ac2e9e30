//! The candidate code of a text: whether the row of this code has the text is asked later.

ghost use Rattle.std.specs.Prelude.{◌≡◌, ℕ, ◌<◌, ◌+◌, ◌^◌, if◌then◌else◌, ◌==◌, codes, map};
ghost use Rattle.hm_isa.specs.Code.{add_base, bitwise_base, code_compare_scalar, code_compare_vectors, code_long_bytes, code_long_full, code_long_halves};
ghost use Rattle.hm_isa.specs.Code.{code_v15, doubling_base, high_base, mask_code, signed_base, step_code};
ghost use Rattle.hm_isa.specs.Letters.{constant_shift_amount, constant_shift_size};
ghost use Rattle.hm_isa.specs.Standing.{◌↑◌};
ghost use Rattle.hm_isa.specs.declared.Vector.TheVariants as vector;
ghost use Rattle.hm_isa.specs.declared.vectors.AddName.{AddName};
ghost use Rattle.hm_isa.specs.declared.vectors.BitwiseName.{BitwiseName};
ghost use Rattle.hm_isa.specs.declared.vectors.CompareScalar.{CompareScalar};
ghost use Rattle.hm_isa.specs.declared.vectors.CompareVectors.{CompareVectors};
ghost use Rattle.hm_isa.specs.declared.vectors.DoublingName.{DoublingName};
ghost use Rattle.hm_isa.specs.declared.vectors.Element.{Element};
ghost use Rattle.hm_isa.specs.declared.vectors.HighName.{HighName};
ghost use Rattle.hm_isa.specs.declared.vectors.LongBytes.{LongBytes};
ghost use Rattle.hm_isa.specs.declared.vectors.LongFull.{LongFull};
ghost use Rattle.hm_isa.specs.declared.vectors.LongHalves.{LongHalves};
ghost use Rattle.hm_isa.specs.declared.vectors.SignedName.{SignedName};
ghost use Rattle.hm_isa.specs.declared.vectors.V11.{V11};
ghost use Rattle.hm_isa.specs.declared.vectors.V12.TheVariants as v12;
ghost use Rattle.hm_isa.specs.declared.vectors.V13.TheVariants as v13;
ghost use Rattle.hm_isa.specs.declared.vectors.V15.{V15};
ghost use Rattle.hm_isa.specs.declared.vectors.V19.TheVariants as v19;
ghost use Rattle.hm_isa.specs.declared.vectors.V20.TheVariants as v20;
ghost use Rattle.hm_isa.specs.declared.vectors.V21.TheVariants as v21;
ghost use Rattle.hm_isa.specs.declared.vectors.V22.TheVariants as v22;
ghost use Rattle.hm_textv_codes.specs.Asked.{AsksConstant, IsCodeIn, IsCodeOf, IsOtherCodeOf, operands_of};
ghost use Rattle.hm_textv_rows.specs.Mnemonics.{add_mnemonic, bitwise_mnemonic, doubling_mnemonic, high_mnemonic, long_product_mnemonic, signed_mnemonic};
ghost use Rattle.hm_textv_rows.specs.Mnemonics.{size_number};
ghost use Rattle.hm_tokens.specs.Tokens.{tok};

use crate::access::{code_at_addresses, code_at_base};
use crate::names::{
    add_name, bit_by, bitwise_name, block_mask, carry_name, compare_mask, complex_sum_name,
    constant_in, constant_shift_name, dot_bit, doubling_name, extreme_name, high_name,
    long_shift_part, narrowing_in, offsets_name, one_name, reverse_name, scalar_name, signed_name,
    vector_shift_name, wrapped_name,
};
use crate::operands::{Kind, Operands, read_vector_operands};
use hm_encv_registers::{
    base_of_dot, base_of_dup, base_of_extreme, base_of_offsets, base_of_scalar,
};
use hm_encv_vectors::{
    base_of_add, base_of_bitwise, base_of_carry, base_of_complex_sum, base_of_constant_shift,
    base_of_doubling, base_of_high, base_of_narrowing, base_of_one, base_of_reverse,
    base_of_signed, base_of_vector_shift,
};
use hm_isa::{BitwiseName, ConstantShiftName, Element};
use hm_text_base::span;
use hm_text_rows::{first_word, is};
use hm_tokens::Token;

/// Fields of a row of three vectors.
fn of_vectors(base: u64, u: u32, z: u32, n: u32, d: u32, m: u32) -> u64
    requires { base < 2 ^ 62 }
    ensures { result ≡ base + u ↑ 28 + z ↑ 20 + n ↑ 17 + d ↑ 13 + m ↑ 1 }
{
    base + (u64::from(u) << 28)
        + (u64::from(z) << 20)
        + (u64::from(n) << 17)
        + (u64::from(d) << 13)
        + (u64::from(m) << 1)
}

/// Fields of a row of two vectors and a core register.
fn of_core(base: u64, u: u32, z: u32, n: u32, d: u32, m: u32) -> u64
    requires { base < 2 ^ 62 }
    ensures { result ≡ base + u ↑ 28 + z ↑ 20 + n ↑ 17 + d ↑ 13 + m }
{
    base + (u64::from(u) << 28)
        + (u64::from(z) << 20)
        + (u64::from(n) << 17)
        + (u64::from(d) << 13)
        + u64::from(m)
}

/// Fields of a row of two vectors.
fn of_one(base: u64, u: u32, z: u32, d: u32, m: u32) -> u64
    requires { base < 2 ^ 62 }
    ensures { result ≡ base + u ↑ 28 + z ↑ 18 + d ↑ 13 + m ↑ 1 }
{
    base + (u64::from(u) << 28) + (u64::from(z) << 18) + (u64::from(d) << 13) + (u64::from(m) << 1)
}

/// How many bits elements of a size have.
fn bits_in(size: u32) -> u32
    ensures value { result ≡ (if size == 0 then 8 else (if size == 1 then 16 else 32)) }
    ensures small { result < 64 }
{
    match size {
        0 => 8,
        1 => 16,
        _ => 32,
    }
}

/// The size of elements by its number.
fn element_in(size: u32) -> Element
    ensures { (e : Element) → size ≡ size_number e → result ≡ e }
{
    match size {
        0 => Element::Bytes,
        1 => Element::Halves,
        _ => Element::Words,
    }
}

/// The mask of a block, where it stands in a code.
fn place_mask(k: u32) -> u64
    ensures value { result ≡ mask_code k }
    ensures small { result < 2 ^ 60 }
{
    (u64::from(k / 8) << 22) + (u64::from(k % 8) << 13)
}

/// The code of a row V1 to V3 or V5 to V7, or of `vpsel`, with a sign, a size and registers that are 0.
fn three_base(mnemonic: &[u8]) -> u32
    ensures v1 { (name : AddName) → mnemonic.now ≡ add_mnemonic name → result ≡ add_base name }
    ensures v2 { (name : BitwiseName) → mnemonic.now ≡ bitwise_mnemonic name → result ≡ bitwise_base name }
    ensures v3 { (name : SignedName) → mnemonic.now ≡ signed_mnemonic name → result ≡ signed_base name }
    ensures v5 { (name : DoublingName) → mnemonic.now ≡ doubling_mnemonic name → result ≡ doubling_base name }
    ensures v6 { (t : ℕ) → t < 2 → mnemonic.now ≡ long_product_mnemonic t → result ≡ 0xee010e00 + t ↑ 12 }
    ensures v7 { (name : HighName) → mnemonic.now ≡ high_mnemonic name → result ≡ high_base name }
    ensures select { mnemonic.now ≡ codes "vpsel" → result ≡ 0xfe310f01 }
{
    if let Some(name) = add_name(mnemonic) {
        return base_of_add(name);
    }
    if let Some(name) = bitwise_name(mnemonic) {
        return base_of_bitwise(name);
    }
    if let Some(name) = signed_name(mnemonic) {
        return base_of_signed(name);
    }
    if let Some(name) = doubling_name(mnemonic) {
        return base_of_doubling(name);
    }
    if let Some(name) = high_name(mnemonic) {
        return base_of_high(name);
    }
    if let Some(t) = bit_by(mnemonic, "vmullb", "vmullt") {
        return 0xee01_0e00 + (u32::from(t) << 12);
    }
    // What is left is vpsel.
    0xfe31_0f01
}

/// Rows V1 to V9, and `vpsel`.
fn code_three(mnemonic: &[u8], o: &Operands) -> Option<u64>
    ensures v1 { IsCodeOf vector.V1 mnemonic.now o.now result }
    ensures v2 { IsCodeOf vector.V2 mnemonic.now o.now result }
    ensures v3 { IsCodeOf vector.V3 mnemonic.now o.now result }
    ensures v4 { IsCodeOf vector.V4 mnemonic.now o.now result }
    ensures v5 { IsCodeOf vector.V5 mnemonic.now o.now result }
    ensures v6 { IsCodeOf vector.V6 mnemonic.now o.now result }
    ensures v7 { IsCodeOf vector.V7 mnemonic.now o.now result }
    ensures v8 { IsCodeOf vector.V8 mnemonic.now o.now result }
    ensures v9 { IsCodeOf vector.V9 mnemonic.now o.now result }
    ensures select { IsCodeOf (λ i. vector.V21 (v21.Select i)) mnemonic.now o.now result }
{
    if let Some(name) = vector_shift_name(mnemonic) {
        let base = u64::from(base_of_vector_shift(name));
        return Some(of_vectors(base, o.sign, o.size, o.third, o.first, o.second));
    }
    if let Some(name) = carry_name(mnemonic) {
        return Some(of_vectors(
            u64::from(base_of_carry(name)),
            0,
            0,
            o.second,
            o.first,
            o.third,
        ));
    }
    if let Some(name) = complex_sum_name(mnemonic) {
        let base = u64::from(base_of_complex_sum(name)) + (u64::from(o.fourth / 270) << 12);
        return Some(of_vectors(base, 0, o.size, o.second, o.first, o.third));
    }
    let base = u64::from(three_base(mnemonic));
    Some(of_vectors(base, o.sign, o.size, o.second, o.first, o.third))
}

/// A row V20 of two vectors, with the mask k.
fn compared_vectors(k: u32, o: &Operands) -> u64
    ensures { (i : CompareVectors) → k ≡ i.k.value → o.now ≡ operands_of (vector.V20 (v20.Vectors i)) → result ≡ code_compare_vectors i }
{
    let c = u64::from(o.first);
    let base = 0xfe01_0f00 + place_mask(k) + ((c / 4) << 12) + ((c % 2) << 7) + c / 2 % 2;
    of_vectors(base, 0, o.size, o.second, 0, o.third)
}

/// A row V20 of a vector and a core register, with the mask k.
fn compared_core(k: u32, o: &Operands) -> u64
    ensures { (i : CompareScalar) → k ≡ i.k.value → o.now ≡ operands_of (vector.V20 (v20.Scalar i)) → result ≡ code_compare_scalar i }
{
    let c = u64::from(o.first);
    let base = 0xfe01_0f40 + place_mask(k) + ((c / 4) << 12) + ((c % 2) << 7) + ((c / 2 % 2) << 5);
    of_core(base, 0, o.size, o.second, 0, o.third)
}

/// Rows with no address whose third operand is a vector.
#[tactic(auto, using(crate::proofs::Told::compare_told))]
fn code_of_vectors(mnemonic: &[u8], o: &Operands) -> Option<u64>
    ensures v1 { IsCodeOf vector.V1 mnemonic.now o.now result }
    ensures v2 { IsCodeOf vector.V2 mnemonic.now o.now result }
    ensures v3 { IsCodeOf vector.V3 mnemonic.now o.now result }
    ensures v4 { IsCodeOf vector.V4 mnemonic.now o.now result }
    ensures v5 { IsCodeOf vector.V5 mnemonic.now o.now result }
    ensures v6 { IsCodeOf vector.V6 mnemonic.now o.now result }
    ensures v7 { IsCodeOf vector.V7 mnemonic.now o.now result }
    ensures v8 { IsCodeOf vector.V8 mnemonic.now o.now result }
    ensures v9 { IsCodeOf vector.V9 mnemonic.now o.now result }
    ensures compared { IsCodeOf (λ i. vector.V20 (v20.Vectors i)) mnemonic.now o.now result }
    ensures select { IsCodeOf (λ i. vector.V21 (v21.Select i)) mnemonic.now o.now result }
    ensures dot { IsCodeOf (λ i. vector.V22 (v22.Dot i)) mnemonic.now o.now result }
    ensures other_dot { IsOtherCodeOf (λ i. vector.V22 (v22.Dot i)) mnemonic.now o.now result }
    ensures long_sum { IsCodeOf (λ i. vector.V22 (v22.LongSum i)) mnemonic.now o.now result }
    ensures long_dot { IsCodeOf (λ i. vector.V22 (v22.LongDot i)) mnemonic.now o.now result }
{
    if let Some(k) = compare_mask(mnemonic) {
        return Some(compared_vectors(k, o));
    }
    if let Some(a) = dot_bit(mnemonic) {
        let base = u64::from(base_of_dot(element_in(o.size))) + (u64::from(a) << 5);
        return Some(of_vectors(base, o.sign, 0, o.second, o.first / 2, o.third));
    }
    if let Some(a) = bit_by(mnemonic, "vaddlv", "vaddlva") {
        let base = 0xee89_0f00 + (u64::from(a) << 5);
        return Some(of_vectors(base, o.sign, o.second / 2, 0, o.first / 2, o.third));
    }
    if let Some(a) = bit_by(mnemonic, "vmlaldav", "vmlaldava") {
        let base = 0xee80_0e00 + (u64::from(a) << 5) + (u64::from(o.size.saturating_sub(1)) << 16);
        return Some(of_vectors(base, o.sign, o.second / 2, o.third, o.first / 2, o.fourth));
    }
    code_three(mnemonic, o)
}

/// The field of a row V11, which is its size of elements z and its shift n in one.
#[tactic(auto, using(crate::proofs::Fields::field_back))]
fn shift_field(name: ConstantShiftName, z: u32, n: u32) -> u64
    ensures value { (i : V11) → name ≡ i.name → z ≡ constant_shift_size i.x.value → n ≡ constant_shift_amount i.name i.x.value → result ≡ i.x.value }
    ensures small { result < 2 ^ 40 }
{
    let bits = u64::from(bits_in(z));
    match name {
        ConstantShiftName::Shr | ConstantShiftName::Rshr | ConstantShiftName::Sri => {
            (2 * bits).saturating_sub(u64::from(n))
        }
        ConstantShiftName::Qshl
        | ConstantShiftName::Qshlu
        | ConstantShiftName::Shl
        | ConstantShiftName::Sli => bits + u64::from(n),
    }
}

/// A row V12 of the part t; a shift by all bits of an element has an encoding of its own.
fn long_code(t: u8, o: &Operands) -> u64
    ensures bytes { (i : LongBytes) → t ≡ i.t.value → o.now ≡ operands_of (vector.V12 (v12.Bytes i)) → result ≡ code_long_bytes i }
    ensures halves { (i : LongHalves) → t ≡ i.t.value → o.now ≡ operands_of (vector.V12 (v12.Halves i)) → result ≡ code_long_halves i }
    ensures full { (i : LongFull) → t ≡ i.t.value → o.now ≡ operands_of (vector.V12 (v12.Full i)) → result ≡ code_long_full i }
{
    let part = u64::from(t) << 12;
    if o.third == bits_in(o.size) {
        return of_one(0xee31_0e01 + part, o.sign, o.size, o.first, o.second);
    }
    let base = 0xeea8_0f40 + part + (u64::from(o.size) << 19) + (u64::from(o.third) << 16);
    of_one(base, o.sign, 0, o.first, o.second)
}

/// The power of a step, where it stands in a code.
#[tactic(auto, using(crate::proofs::Fields::step_back))]
fn step_in(n: u32) -> u64
    ensures value { (k : ℕ) → k < 4 → n ≡ 2 ^ k → result ≡ step_code k }
    ensures small { result < 256 }
{
    match n {
        2 => 1,
        4 => 0x80,
        8 => 0x81,
        _ => 0,
    }
}

/// Rows with no address whose third operand is a number.
fn code_of_number(mnemonic: &[u8], o: &Operands) -> Option<u64>
    ensures v11 { IsCodeOf vector.V11 mnemonic.now o.now result }
    ensures bytes { IsCodeOf (λ i. vector.V12 (v12.Bytes i)) mnemonic.now o.now result }
    ensures halves { IsCodeOf (λ i. vector.V12 (v12.Halves i)) mnemonic.now o.now result }
    ensures full { IsCodeOf (λ i. vector.V12 (v12.Full i)) mnemonic.now o.now result }
    ensures v17 { IsCodeOf vector.V17 mnemonic.now o.now result }
    ensures free { IsCodeOf (λ i. vector.V19 (v19.Free i)) mnemonic.now o.now result }
{
    if is(mnemonic, "vshlc") {
        let base = 0xeea0_0fc0 + (u64::from(o.third % 32) << 16);
        return Some(of_core(base, 0, 0, 0, o.first, o.second));
    }
    if let Some(name) = offsets_name(mnemonic) {
        let base = u64::from(base_of_offsets(name)) + 0xe + step_in(o.third);
        return Some(of_core(base, 0, o.size, o.second / 2, o.first, 0));
    }
    if let Some(t) = long_shift_part(mnemonic) {
        return Some(long_code(t, o));
    }
    let name = constant_shift_name(mnemonic)?;
    let base = u64::from(base_of_constant_shift(name)) + (shift_field(name, o.size, o.third) << 16);
    Some(of_one(base, o.sign, 0, o.first, o.second))
}

/// The field cm of a row V15: how wide the elements are, where the immediate stands in them, and whether it is merged.
#[tactic(auto, using(crate::proofs::Fields::asks_constant))]
fn constant_mode(k: u32, o: &Operands) -> u64
    ensures value { (i : V15) → AsksConstant i k o.now → result ≡ i.cm.value }
    ensures small { result < 2 ^ 40 }
{
    if o.size == 0 {
        return 14;
    }
    if o.size == 3 {
        return 14;
    }
    let shift = u64::from(o.fourth) / 8;
    if o.third == 1 {
        return 11 + shift;
    }
    u64::from(o.size) % 2 * 8 + shift * 2 + u64::from(k) / 2
}

/// The field op of a row V15: which of two operations it is.
#[tactic(auto, using(crate::proofs::Fields::asks_constant))]
fn constant_operation(k: u32, o: &Operands) -> u64
    ensures value { (i : V15) → AsksConstant i k o.now → result ≡ i.op.value }
    ensures small { result < 2 }
{
    if o.size == 3 {
        return 1;
    }
    u64::from(k) % 2
}

/// A row V15, where k is the number of its mnemonic.
#[tactic(auto, using(crate::proofs::Fields::asks_constant))]
fn constant_code(k: u32, o: &Operands) -> u64
    ensures { (i : V15) → AsksConstant i k o.now → result ≡ code_v15 i }
{
    let x = u64::from(o.second);
    let base = 0xef80_0050
        + (constant_mode(k, o) << 8)
        + (constant_operation(k, o) << 5)
        + ((x / 16 % 8) << 16)
        + x % 16;
    of_one(base, o.second / 128, 0, o.first, 0)
}

/// Rows with no address whose third operand is a word that names no vector.
#[tactic(auto, using(crate::proofs::Told::compare_told, crate::proofs::Told::constant_told))]
fn code_of_word(mnemonic: &[u8], o: &Operands) -> Option<u64>
    ensures v10 { IsCodeOf vector.V10 mnemonic.now o.now result }
    ensures v15 { IsCodeOf vector.V15 mnemonic.now o.now result }
    ensures wrapped { IsCodeOf (λ i. vector.V19 (v19.Wrapped i)) mnemonic.now o.now result }
    ensures compared { IsCodeOf (λ i. vector.V20 (v20.Scalar i)) mnemonic.now o.now result }
{
    if let Some(k) = compare_mask(mnemonic) {
        return Some(compared_core(k, o));
    }
    if let Some(k) = constant_in(mnemonic) {
        return Some(constant_code(k, o));
    }
    if let Some(name) = wrapped_name(mnemonic) {
        let base = u64::from(base_of_offsets(name)) + step_in(o.fourth);
        return Some(of_vectors(base, 0, o.size, o.second / 2, o.first, o.third / 2));
    }
    let base = base_of_scalar(scalar_name(mnemonic)?);
    Some(of_core(u64::from(base), o.sign, o.size, o.second, o.first, o.third))
}

/// Rows of at most two operands whose first word has no point.
#[tactic(auto, using(crate::proofs::Told::block_told))]
fn code_bare(mnemonic: &[u8], o: &Operands) -> Option<u64>
    ensures moved { IsOtherCodeOf vector.V2 mnemonic.now o.now result }
    ensures inverted { IsCodeOf (λ i. vector.V13 (v13.Not i)) mnemonic.now o.now result }
    ensures block { IsCodeOf (λ i. vector.V21 (v21.Block i)) mnemonic.now o.now result }
{
    if let Some(k) = block_mask(mnemonic) {
        return Some(0xfe31_0f4d + place_mask(k));
    }
    if is(mnemonic, "vmvn") {
        return Some(of_one(0xffb0_05c0, 0, 0, o.first, o.second));
    }
    // What is left is vmov, which is vorr of a register with itself.
    let base = u64::from(base_of_bitwise(BitwiseName::Orr));
    Some(of_vectors(base, 0, 0, o.second, o.first, o.second))
}

/// Rows of at most two operands whose first word tells the size of the elements: V13, V14, V18, V23, `vaddv`, `vaddva` and `vctp`.
fn code_elements(mnemonic: &[u8], o: &Operands) -> Option<u64>
    ensures elements { IsCodeOf (λ i. vector.V13 (v13.Elements i)) mnemonic.now o.now result }
    ensures v14 { IsCodeOf vector.V14 mnemonic.now o.now result }
    ensures v18 { IsCodeOf vector.V18 mnemonic.now o.now result }
    ensures tail { IsCodeOf (λ i. vector.V21 (v21.Tail i)) mnemonic.now o.now result }
    ensures sum { IsCodeOf (λ i. vector.V22 (v22.Sum i)) mnemonic.now o.now result }
    ensures v23 { IsCodeOf vector.V23 mnemonic.now o.now result }
{
    if let Some(a) = bit_by(mnemonic, "vaddv", "vaddva") {
        let base = 0xeef1_0f00 + (u64::from(a) << 5);
        return Some(of_one(base, o.sign, o.size, o.first / 2, o.second));
    }
    if let Some(name) = extreme_name(mnemonic) {
        let base = u64::from(base_of_extreme(name)) + (u64::from(o.first) << 12);
        return Some(of_one(base, o.sign, o.size, 0, o.second));
    }
    if is(mnemonic, "vdup") {
        let base = u64::from(base_of_dup(element_in(o.size))) + (u64::from(o.second) << 12);
        return Some(of_vectors(base, 0, 0, o.first, 0, 0));
    }
    if is(mnemonic, "vctp") {
        return Some(of_core(0xf000_e801 + (u64::from(o.first) << 16), 0, o.size, 0, 0, 0));
    }
    if let Some(name) = one_name(mnemonic) {
        return Some(of_one(u64::from(base_of_one(name)), 0, o.size, o.first, o.second));
    }
    let base = base_of_reverse(reverse_name(mnemonic)?);
    Some(of_one(u64::from(base), 0, o.size, o.first, o.second))
}

/// Rows of at most two operands whose first word has a point.
#[tactic(auto, using(crate::proofs::Told::constant_told))]
fn code_of_two(mnemonic: &[u8], o: &Operands) -> Option<u64>
    ensures bytes { IsCodeOf (λ i. vector.V12 (v12.Bytes i)) mnemonic.now o.now result }
    ensures halves { IsCodeOf (λ i. vector.V12 (v12.Halves i)) mnemonic.now o.now result }
    ensures elements { IsCodeOf (λ i. vector.V13 (v13.Elements i)) mnemonic.now o.now result }
    ensures v14 { IsCodeOf vector.V14 mnemonic.now o.now result }
    ensures v15 { IsCodeOf vector.V15 mnemonic.now o.now result }
    ensures v16 { IsCodeOf vector.V16 mnemonic.now o.now result }
    ensures v18 { IsCodeOf vector.V18 mnemonic.now o.now result }
    ensures tail { IsCodeOf (λ i. vector.V21 (v21.Tail i)) mnemonic.now o.now result }
    ensures sum { IsCodeOf (λ i. vector.V22 (v22.Sum i)) mnemonic.now o.now result }
    ensures v23 { IsCodeOf vector.V23 mnemonic.now o.now result }
{
    if let Some(k) = constant_in(mnemonic) {
        return Some(constant_code(k, o));
    }
    if let Some((name, t)) = narrowing_in(mnemonic) {
        let base = u64::from(base_of_narrowing(name)) + (u64::from(t) << 12);
        let size = o.size.saturating_sub(1);
        return Some(of_one(base, o.sign, size, o.first, o.second));
    }
    if let Some(t) = long_shift_part(mnemonic) {
        return Some(long_code(t, o));
    }
    code_elements(mnemonic, o)
}

/// All rows.
fn code_of(mnemonic: &[u8], o: &Operands) -> Option<u64>
    ensures rows { IsCodeOf (λ v. v) mnemonic.now o.now result }
    ensures moved { IsOtherCodeOf vector.V2 mnemonic.now o.now result }
    ensures other_dot { IsOtherCodeOf (λ i. vector.V22 (v22.Dot i)) mnemonic.now o.now result }
{
    match o.base_kind {
        Kind::Vector => code_at_addresses(mnemonic, o),
        Kind::Word | Kind::Missing => code_at_base(mnemonic, o),
        Kind::Number => match o.third_kind {
            Kind::Vector => code_of_vectors(mnemonic, o),
            Kind::Number => code_of_number(mnemonic, o),
            Kind::Word => code_of_word(mnemonic, o),
            Kind::Missing if o.is_bare => code_bare(mnemonic, o),
            Kind::Missing => code_of_two(mnemonic, o),
        },
    }
}

/// A number for tokens: the code of the row with these tokens, where there is one; else any, or None.
pub fn code_in(tokens: &[Token<'_>]) -> Option<u64>
    ensures code { IsCodeIn (map tok tokens.now) result }
{
    let (mnemonic, suffix) = span(b'.', first_word(tokens));
    code_of(mnemonic, &read_vector_operands(suffix, tokens))
}
