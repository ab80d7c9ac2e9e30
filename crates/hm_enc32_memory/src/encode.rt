//! The rows T12, T13 and T15, written.

ghost use Rattle.std.specs.Prelude.{◌≡◌};
ghost use Rattle.hm_isa.specs.Code.{wide_access_base, pair_base, stack_base, code_offset, code_indexed, code_shifted, code_literal, code_t12, code_t13};
ghost use Rattle.hm_isa.specs.Code.{code_t15};

use hm_isa::{AccessName, Indexed, Literal, Offset, PairName, Shifted, StackName, T12, T13, T15};

/// The code of a name of the row T12 without its fields.
pub fn base_of_wide_access(name: AccessName) -> u32
    ensures value { result ≡ wide_access_base name }
{
    match name {
        AccessName::Strb => 0xf800_0000,
        AccessName::Strh => 0xf820_0000,
        AccessName::Str => 0xf840_0000,
        AccessName::Ldrb => 0xf810_0000,
        AccessName::Ldrh => 0xf830_0000,
        AccessName::Ldr => 0xf850_0000,
        AccessName::Ldrsb => 0xf910_0000,
        AccessName::Ldrsh => 0xf930_0000,
    }
}

/// The code of `[rn,#i]`.
fn encode_offset(r: &Offset) -> u32
    ensures { result ≡ code_offset r.now }
{
    base_of_wide_access(r.name) + 0x80_0000 + (r.n.get() << 16) + (r.t.get() << 12) + r.i.get()
}

/// The code of `[rn,#-i]`, `[rn,#i]!`, `[rn],#i`.
fn encode_indexed(r: &Indexed) -> u32
    ensures { result ≡ code_indexed r.now }
{
    base_of_wide_access(r.name)
        + 0x800
        + (r.n.get() << 16)
        + (r.t.get() << 12)
        + (r.p.get() << 10)
        + (r.u.get() << 9)
        + (r.w.get() << 8)
        + r.i.get()
}

/// The code of `[rn,rm,lsl #i]`.
fn encode_shifted(r: &Shifted) -> u32
    ensures { result ≡ code_shifted r.now }
{
    base_of_wide_access(r.name)
        + (r.n.get() << 16)
        + (r.t.get() << 12)
        + (r.i.get() << 4)
        + r.m.get()
}

/// The code of `[pc,#i]`.
fn encode_literal(r: &Literal) -> u32
    ensures { result ≡ code_literal r.now }
{
    base_of_wide_access(r.name) + 0xf_0000 + (r.u.get() << 23) + (r.t.get() << 12) + r.i.get()
}

/// The code of `str.w`, `strh.w`, `strb.w`, `ldr.w`, `ldrh.w`, `ldrb.w`, `ldrsh.w` or `ldrsb.w`, with the first
/// halfword in bits 31 to 16.
pub fn encode_t12(r: &T12) -> u32
    ensures value { result ≡ code_t12 r.now }
{
    match r {
        T12::Offset(r) => encode_offset(r),
        T12::Indexed(r) => encode_indexed(r),
        T12::Shifted(r) => encode_shifted(r),
        T12::Literal(r) => encode_literal(r),
    }
}

/// The code of a name of the row T13 without its fields.
pub fn base_of_pair(name: PairName) -> u32
    ensures value { result ≡ pair_base name }
{
    match name {
        PairName::Strd => 0xe840_0000,
        PairName::Ldrd => 0xe850_0000,
    }
}

/// The code of `strd`, `ldrd rt,ru,[rn,#4i]`, with the first halfword in bits 31 to 16.
pub fn encode_t13(r: &T13) -> u32
    ensures value { result ≡ code_t13 r.now }
{
    base_of_pair(r.name)
        + (r.p.get() << 24)
        + (r.add.get() << 23)
        + (r.w.get() << 21)
        + (r.n.get() << 16)
        + (r.t.get() << 12)
        + (r.u.get() << 8)
        + r.i.get()
}

/// The code of a name of the row T15 without its fields.
pub fn base_of_stack(name: StackName) -> u32
    ensures value { result ≡ stack_base name }
{
    match name {
        StackName::Vpush => 0xed2d_0b00,
        StackName::Vpop => 0xecbd_0b00,
    }
}

/// The code of `vpush`, `vpop`, with the first halfword in bits 31 to 16.
pub fn encode_t15(r: &T15) -> u32
    ensures value { result ≡ code_t15 r.now }
{
    base_of_stack(r.name) + (r.v.get() << 12) + (r.k.get() << 1)
}
