//! The rows T1 to T7, written.

ghost use Rattle.std.specs.Prelude.{◌≡◌, ◌<◌};
ghost use Rattle.hm_isa.specs.DataCodes.{data_operation, wide_sum_base, half_base, saturate_base, extract_base, code_t1, code_t2, code_t3, code_t4, code_t5};
ghost use Rattle.hm_isa.specs.DataCodes.{code_t6, code_t7};

use hm_isa::{DataName, ExtractName, HalfName, SaturateName, SumName, T1, T2, T3, T4, T5, T6, T7};

/// The number of an operation of the rows T1 and T2.
pub fn data_operation(name: DataName) -> u32
    ensures value { result ≡ data_operation name }
    ensures below { result < 16 }
{
    match name {
        DataName::And => 0,
        DataName::Bic => 1,
        DataName::Orr => 2,
        DataName::Orn => 3,
        DataName::Eor => 4,
        DataName::Add => 8,
        DataName::Adc => 10,
        DataName::Sbc => 11,
        DataName::Sub => 13,
        DataName::Rsb => 14,
    }
}

/// The code of an operation with a constant, as `and.w rd,rn,#c`, with the first halfword in bits 31 to 16.
pub fn encode_t1(r: &T1) -> u32
    ensures value { result ≡ code_t1 r.now }
{
    0xf000_0000
        + (r.i.get() << 26)
        + (data_operation(r.name) << 21)
        + (r.s.get() << 20)
        + (r.n.get() << 16)
        + (r.i3.get() << 12)
        + (r.d.get() << 8)
        + r.i8.get()
}

/// The code of an operation with a shifted register, as `and.w rd,rn,rm,lsl #k`, with the first halfword in bits 31 to 16.
pub fn encode_t2(r: &T2) -> u32
    ensures value { result ≡ code_t2 r.now }
{
    0xea00_0000
        + (data_operation(r.name) << 21)
        + (r.s.get() << 20)
        + (r.n.get() << 16)
        + (r.i3.get() << 12)
        + (r.d.get() << 8)
        + (r.i2.get() << 6)
        + (r.ty.get() << 4)
        + r.m.get()
}

/// The code of a name of the row T3 without its fields.
pub fn base_of_wide_sum(name: SumName) -> u32
    ensures value { result ≡ wide_sum_base name }
{
    match name {
        SumName::Add => 0xf200_0000,
        SumName::Sub => 0xf2a0_0000,
    }
}

/// The code of `addw`, `subw rd,rn,#i12`, with the first halfword in bits 31 to 16.
pub fn encode_t3(r: &T3) -> u32
    ensures value { result ≡ code_t3 r.now }
{
    base_of_wide_sum(r.name)
        + (r.i.get() << 26)
        + (r.n.get() << 16)
        + (r.i3.get() << 12)
        + (r.d.get() << 8)
        + r.i8.get()
}

/// The code of a name of the row T4 without its fields.
pub fn base_of_half(name: HalfName) -> u32
    ensures value { result ≡ half_base name }
{
    match name {
        HalfName::Movw => 0xf240_0000,
        HalfName::Movt => 0xf2c0_0000,
    }
}

/// The code of `movw`, `movt rd,#i16`, with the first halfword in bits 31 to 16.
pub fn encode_t4(r: &T4) -> u32
    ensures value { result ≡ code_t4 r.now }
{
    base_of_half(r.name)
        + (r.i4.get() << 16)
        + (r.i.get() << 26)
        + (r.i3.get() << 12)
        + (r.d.get() << 8)
        + r.i8.get()
}

/// The code of a name of the row T5 without its fields.
pub fn base_of_saturate(name: SaturateName) -> u32
    ensures value { result ≡ saturate_base name }
{
    match name {
        SaturateName::Ssat => 0xf300_0000,
        SaturateName::Usat => 0xf380_0000,
    }
}

/// The code of `ssat rd,#s+1,rn`, `usat rd,#s,rn`, with the first halfword in bits 31 to 16.
pub fn encode_t5(r: &T5) -> u32
    ensures value { result ≡ code_t5 r.now }
{
    base_of_saturate(r.name)
        + (r.sh.get() << 21)
        + (r.n.get() << 16)
        + (r.i3.get() << 12)
        + (r.d.get() << 8)
        + (r.i2.get() << 6)
        + r.s.get()
}

/// The code of a name of the row T6 without its fields.
pub fn base_of_extract(name: ExtractName) -> u32
    ensures value { result ≡ extract_base name }
{
    match name {
        ExtractName::Sbfx => 0xf340_0000,
        ExtractName::Ubfx => 0xf3c0_0000,
    }
}

/// The code of `sbfx`, `ubfx rd,rn,#lsb,#w+1`, with the first halfword in bits 31 to 16.
pub fn encode_t6(r: &T6) -> u32
    ensures value { result ≡ code_t6 r.now }
{
    base_of_extract(r.name)
        + (r.n.get() << 16)
        + (r.i3.get() << 12)
        + (r.d.get() << 8)
        + (r.i2.get() << 6)
        + r.w.get()
}

/// The code of `bfi rd,rn,#lsb,#width`, `bfc rd,#lsb,#width`, with the first halfword in bits 31 to 16.
pub fn encode_t7(r: &T7) -> u32
    ensures value { result ≡ code_t7 r.now }
{
    0xf360_0000
        + (r.n.get() << 16)
        + (r.i3.get() << 12)
        + (r.d.get() << 8)
        + (r.i2.get() << 6)
        + r.e.get()
}
