//! What stands behind the point of a mnemonic: the kind of the elements and their size, where 0, 1, 2 and 3 are 8, 16, 32 and 64 bits.

ghost use Rattle.std.specs.Prelude.{◌≡◌, ◌<◌};
ghost use Rattle.hm_textv_rows.specs.Mnemonics.{access_suffix, by_sign, compare_suffix, constant_shift_suffix, integer, narrowing_suffix, one_suffix};
ghost use Rattle.hm_textv_rows.specs.Mnemonics.{scalar_suffix};
ghost use Rattle.hm_textv_rows.specs.Mnemonics.{signed, size_number, complex_sum_suffix, unsigned};

use hm_isa::{
    Below, Bit, ComplexSumName, ConstantShiftName, Element, ElementSize, NarrowingName, OneName,
    ScalarName,
};
use hm_text_rows::element_suffix;

/// Integers.
pub fn integer(z: u32) -> &'static str
    requires { z < 3 }
    ensures { result.now ≡ integer z }
{
    match z {
        0 => ".i8",
        1 => ".i16",
        _ => ".i32",
    }
}

/// Signed numbers.
pub fn signed(z: u32) -> &'static str
    requires { z < 3 }
    ensures { result.now ≡ signed z }
{
    match z {
        0 => ".s8",
        1 => ".s16",
        _ => ".s32",
    }
}

/// Unsigned numbers.
pub fn unsigned(z: u32) -> &'static str
    requires { z < 3 }
    ensures { result.now ≡ unsigned z }
{
    match z {
        0 => ".u8",
        1 => ".u16",
        _ => ".u32",
    }
}

/// The suffix of elements of size z: of signed ones where u is 0, and else of unsigned ones.
pub fn by_sign(u: Bit, z: u32) -> &'static str
    requires { z < 3 }
    ensures value { result.now ≡ by_sign u.value z }
{
    if u.get() == 0 { signed(z) } else { unsigned(z) }
}

/// The number of an element size.
pub fn size_number(size: Element) -> u32
    ensures value { result ≡ size_number size }
    ensures below { result < 3 }
{
    match size {
        Element::Bytes => 0,
        Element::Halves => 1,
        Element::Words => 2,
    }
}

/// Of a row V9.
pub fn complex_sum_suffix(name: ComplexSumName, z: ElementSize) -> &'static str
    ensures { result.now ≡ complex_sum_suffix name z.value }
{
    match name {
        ComplexSumName::Cadd => integer(z.get()),
        ComplexSumName::Hcadd => signed(z.get()),
    }
}

/// Of a row V10.
pub fn scalar_suffix(name: ScalarName, u: Bit, z: ElementSize) -> &'static str
    ensures { result.now ≡ scalar_suffix name u.value z.value }
{
    match name {
        ScalarName::Add | ScalarName::Sub | ScalarName::Mul => integer(z.get()),
        ScalarName::Qdmulh | ScalarName::Qrdmulh => signed(z.get()),
        ScalarName::Hadd
        | ScalarName::Hsub
        | ScalarName::Qadd
        | ScalarName::Qsub
        | ScalarName::Mla
        | ScalarName::Mlas => by_sign(u, z.get()),
    }
}

/// Of a row V11.
pub fn constant_shift_suffix(name: ConstantShiftName, u: Bit, z: u32) -> &'static str
    requires { z < 3 }
    ensures { result.now ≡ constant_shift_suffix name u.value z }
{
    match name {
        ConstantShiftName::Shr | ConstantShiftName::Rshr | ConstantShiftName::Qshl => by_sign(u, z),
        ConstantShiftName::Qshlu => signed(z),
        ConstantShiftName::Shl => integer(z),
        ConstantShiftName::Sri | ConstantShiftName::Sli => element_suffix(z),
    }
}

/// Of a row V13.
pub fn one_suffix(name: OneName, z: ElementSize) -> &'static str
    ensures { result.now ≡ one_suffix name z.value }
{
    match name {
        OneName::Clz => integer(z.get()),
        OneName::Cls | OneName::Abs | OneName::Neg | OneName::Qabs | OneName::Qneg => signed(
            z.get(),
        ),
    }
}

/// Of a row V16: the size of the wide elements.
pub fn narrowing_suffix(name: NarrowingName, z: Bit) -> &'static str
    ensures { result.now ≡ narrowing_suffix name z.value }
{
    match name {
        NarrowingName::Plain => integer(z.get() + 1),
        NarrowingName::ToUnsigned | NarrowingName::Signed => signed(z.get() + 1),
        NarrowingName::Unsigned => unsigned(z.get() + 1),
    }
}

/// Of a comparison, by its condition: eq and ne are of integers, cs and hi of unsigned numbers, and ge, lt, gt and le of signed
/// ones.
pub fn compare_suffix(c: Below<8>, z: ElementSize) -> &'static str
    ensures { result.now ≡ compare_suffix c.value z.value }
{
    match c.get() {
        0 | 1 => integer(z.get()),
        2 | 3 => unsigned(z.get()),
        _ => signed(z.get()),
    }
}

/// Of a load or store: a store, where l is 0, has no sign.
pub fn access_suffix(l: Bit, u: Bit, z: u32) -> &'static str
    requires { z < 3 }
    ensures { result.now ≡ access_suffix l.value u.value z }
{
    if l.get() == 0 {
        element_suffix(z)
    } else {
        by_sign(u, z)
    }
}
