//! The rows T12, T13 and T15, read, and the instruction of the rows T12 to T15 that a code has.

ghost use Rattle.std.specs.Prelude.{◌≡◌, ◌<◌, IfSome, IfNone};
ghost use Rattle.hm_isa.specs.declared.narrow.AccessName.{AccessName};
ghost use Rattle.hm_isa.specs.declared.wide.PairName.{PairName};
ghost use Rattle.hm_isa.specs.declared.wide.Offset.{Offset};
ghost use Rattle.hm_isa.specs.declared.wide.Indexed.{Indexed};
ghost use Rattle.hm_isa.specs.declared.wide.Shifted.{Shifted};
ghost use Rattle.hm_isa.specs.declared.wide.Literal.{Literal};
ghost use Rattle.hm_isa.specs.declared.wide.T12.{T12};
ghost use Rattle.hm_isa.specs.declared.wide.T13.{T13};
ghost use Rattle.hm_isa.specs.declared.wide.T14.{T14};
ghost use Rattle.hm_isa.specs.declared.wide.T15.{T15};
ghost use Rattle.hm_isa.specs.Rules.{is_load, is_data, is_indexed, is_pair};
ghost use Rattle.hm_isa.specs.Code.{wide_access_base, pair_base, code_offset, code_indexed, code_shifted, code_literal, code_t12, code_t13, code_t14, code_t15};
ghost use Rattle.hm_layout.specs.Wide.{HasWord};

use crate::lists::decode_t14;
use hm_code_fields::{bits, is_general};
use hm_isa::{
    AccessName, Below, Indexed, Instr, Literal, Offset, PairName, Scalar, Shifted, StackName, T12,
    T13, T15,
};

/// Whether an operation loads.
fn loads(x: AccessName) -> bool
    ensures { result ≡ is_load x }
{
    !matches!(x, AccessName::Str | AccessName::Strh | AccessName::Strb)
}

/// Whether an operation loads or stores this register.
fn may_be_data(x: AccessName, t: u32) -> bool
    ensures { result ≡ is_data x t }
{
    match x {
        AccessName::Ldr => true,
        AccessName::Str => t != 15,
        _ => is_general(t),
    }
}

/// The operation of the row T12 whose code without its fields is this.
fn access_name(rest: u32) -> Option<AccessName>
    ensures found { IfSome result (λ x. wide_access_base x ≡ rest) }
    ensures none { IfNone result ((x : AccessName) → wide_access_base x ≡ rest → ⊥) }
{
    match rest {
        0xf800_0000 => Some(AccessName::Strb),
        0xf820_0000 => Some(AccessName::Strh),
        0xf840_0000 => Some(AccessName::Str),
        0xf810_0000 => Some(AccessName::Ldrb),
        0xf830_0000 => Some(AccessName::Ldrh),
        0xf850_0000 => Some(AccessName::Ldr),
        0xf910_0000 => Some(AccessName::Ldrsb),
        0xf930_0000 => Some(AccessName::Ldrsh),
        _ => None,
    }
}

/// `[rn,#i]`
fn decode_offset(w: u32) -> Option<Offset>
    ensures found { IfSome result (λ r. code_offset r ≡ w) }
    ensures none { IfNone result ((r : Offset) → code_offset r ≡ w → ⊥) }
{
    let n = bits(w, 16, 4);
    let t = bits(w, 12, 4);
    let i = bits(w, 0, 12);
    if n == 15 || bits(w, 23, 1) == 0 {
        return None;
    }
    let name = access_name(w - 0x80_0000 - (n << 16) - (t << 12) - i)?;
    if !may_be_data(name, t) {
        return None;
    }
    Some(Offset {
        name,
        n: Below::new(n),
        t: Below::new(t),
        i: Below::new(i),
    })
}

/// Whether the row has an index of these letters.
fn may_be_indexed(x: AccessName, n: u32, t: u32, p: u32, u: u32, w: u32) -> bool
    ensures { result ≡ is_indexed x n t p u w }
{
    if n == 15 || !may_be_data(x, t) {
        return false;
    }
    if w == 1 { n != t } else { p == 1 && u == 0 }
}

/// `[rn,#-i]`, `[rn,#i]!`, `[rn],#i`
fn decode_indexed(w: u32) -> Option<Indexed>
    ensures found { IfSome result (λ r. code_indexed r ≡ w) }
    ensures none { IfNone result ((r : Indexed) → code_indexed r ≡ w → ⊥) }
{
    let n = bits(w, 16, 4);
    let t = bits(w, 12, 4);
    let before = bits(w, 10, 1);
    let up = bits(w, 9, 1);
    let back = bits(w, 8, 1);
    let i = bits(w, 0, 8);
    if bits(w, 11, 1) == 0 {
        return None;
    }
    let rest = w - 0x800 - (n << 16) - (t << 12) - (before << 10) - (up << 9) - (back << 8) - i;
    let name = access_name(rest)?;
    if !may_be_indexed(name, n, t, before, up, back) {
        return None;
    }
    Some(Indexed {
        name,
        n: Below::new(n),
        t: Below::new(t),
        p: Below::new(before),
        u: Below::new(up),
        w: Below::new(back),
        i: Below::new(i),
    })
}

/// `[rn,rm,lsl #i]`
fn decode_shifted(w: u32) -> Option<Shifted>
    ensures found { IfSome result (λ r. code_shifted r ≡ w) }
    ensures none { IfNone result ((r : Shifted) → code_shifted r ≡ w → ⊥) }
{
    let n = bits(w, 16, 4);
    let t = bits(w, 12, 4);
    let i = bits(w, 4, 2);
    let m = bits(w, 0, 4);
    if n == 15 || !is_general(m) {
        return None;
    }
    let name = access_name(w - (n << 16) - (t << 12) - (i << 4) - m)?;
    if !may_be_data(name, t) {
        return None;
    }
    Some(Shifted {
        name,
        n: Below::new(n),
        t: Below::new(t),
        i: Below::new(i),
        m: Below::new(m),
    })
}

/// `[pc,#i]`
fn decode_literal(w: u32) -> Option<Literal>
    ensures found { IfSome result (λ r. code_literal r ≡ w) }
    ensures none { IfNone result ((r : Literal) → code_literal r ≡ w → ⊥) }
{
    let u = bits(w, 23, 1);
    let t = bits(w, 12, 4);
    let i = bits(w, 0, 12);
    if bits(w, 16, 4) != 15 {
        return None;
    }
    let name = access_name(w - 0xf_0000 - (u << 23) - (t << 12) - i)?;
    if !loads(name) {
        return None;
    }
    if !may_be_data(name, t) {
        return None;
    }
    Some(Literal {
        name,
        u: Below::new(u),
        t: Below::new(t),
        i: Below::new(i),
    })
}

/// `str.w`, `strh.w`, `strb.w`, `ldr.w`, `ldrh.w`, `ldrb.w`, `ldrsh.w` or `ldrsb.w`
fn decode_t12(w: u32) -> Option<T12>
    ensures found { IfSome result (λ r. code_t12 r ≡ w) }
    ensures none { IfNone result ((r : T12) → code_t12 r ≡ w → ⊥) }
{
    if let Some(r) = decode_offset(w) {
        return Some(T12::Offset(r));
    }
    if let Some(r) = decode_indexed(w) {
        return Some(T12::Indexed(r));
    }
    if let Some(r) = decode_shifted(w) {
        return Some(T12::Shifted(r));
    }
    if let Some(r) = decode_literal(w) {
        return Some(T12::Literal(r));
    }
    None
}

/// Whether the row T13 has these letters.
fn may_be_pair(x: PairName, p: u32, w: u32, n: u32, t: u32, u: u32) -> bool
    requires p { p < 2 }
    requires w { w < 2 }
    ensures { result ≡ is_pair x p w n t u }
{
    if p + w == 0 || !is_general(t) || !is_general(u) {
        return false;
    }
    if w != 0 && (n == t || n == u) {
        return false;
    }
    match x {
        PairName::Strd => n != 15,
        PairName::Ldrd => t != u && (n != 15 || (p == 1 && w == 0)),
    }
}

/// The operation of the row T13 whose code without its fields is this.
fn pair_name(rest: u32) -> Option<PairName>
    ensures found { IfSome result (λ x. pair_base x ≡ rest) }
    ensures none { IfNone result ((x : PairName) → pair_base x ≡ rest → ⊥) }
{
    match rest {
        0xe840_0000 => Some(PairName::Strd),
        0xe850_0000 => Some(PairName::Ldrd),
        _ => None,
    }
}

/// `strd`, `ldrd rt,ru,[rn,#4i]`
fn decode_t13(w: u32) -> Option<T13>
    ensures found { IfSome result (λ r. code_t13 r ≡ w) }
    ensures none { IfNone result ((r : T13) → code_t13 r ≡ w → ⊥) }
{
    let before = bits(w, 24, 1);
    let add = bits(w, 23, 1);
    let back = bits(w, 21, 1);
    let n = bits(w, 16, 4);
    let t = bits(w, 12, 4);
    let u = bits(w, 8, 4);
    let i = bits(w, 0, 8);
    let rest = w
        - (before << 24)
        - (add << 23)
        - (back << 21)
        - (n << 16)
        - (t << 12)
        - (u << 8)
        - i;
    let name = pair_name(rest)?;
    if !may_be_pair(name, before, back, n, t, u) {
        return None;
    }
    Some(T13 {
        name,
        p: Below::new(before),
        add: Below::new(add),
        w: Below::new(back),
        n: Below::new(n),
        t: Below::new(t),
        u: Below::new(u),
        i: Below::new(i),
    })
}

/// `vpush`, `vpop`
fn decode_t15(w: u32) -> Option<T15>
    ensures found { IfSome result (λ r. code_t15 r ≡ w) }
    ensures none { IfNone result ((r : T15) → code_t15 r ≡ w → ⊥) }
{
    let v = bits(w, 12, 4);
    let k = bits(w, 1, 5);
    if k == 0 || v + k > 16 {
        return None;
    }
    let name = match w - (v << 12) - (k << 1) {
        0xed2d_0b00 => StackName::Vpush,
        0xecbd_0b00 => StackName::Vpop,
        _ => return None,
    };
    Some(T15 {
        name,
        v: Below::new(v),
        k: Below::new(k),
    })
}

/// The instruction of the rows T12 to T15 whose code is w, with the first halfword in bits 31 to 16, or None exactly where none of them
/// has it: DDI0553, "T32 instruction set encoding", the 32-bit codes.
pub fn find_memory(w: u32) -> Option<Instr>
    ensures found { IfSome result (λ i. HasWord i w) }
    ensures no_t12 { IfNone result ((r : T12) → code_t12 r ≡ w → ⊥) }
    ensures no_t13 { IfNone result ((r : T13) → code_t13 r ≡ w → ⊥) }
    ensures no_t14 { IfNone result ((r : T14) → code_t14 r ≡ w → ⊥) }
    ensures no_t15 { IfNone result ((r : T15) → code_t15 r ≡ w → ⊥) }
{
    if let Some(r) = decode_t12(w) {
        return Some(Instr::Scalar(Scalar::T12(r)));
    }
    if let Some(r) = decode_t13(w) {
        return Some(Instr::Scalar(Scalar::T13(r)));
    }
    if let Some(r) = decode_t14(w) {
        return Some(Instr::Scalar(Scalar::T14(r)));
    }
    if let Some(r) = decode_t15(w) {
        return Some(Instr::Scalar(Scalar::T15(r)));
    }
    None
}
