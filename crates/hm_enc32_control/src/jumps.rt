//! The rows of branches, read and written.

ghost use Rattle.std.specs.Prelude.{◌≡◌, ◌<◌, ◌+◌, ◌*◌, ◌/◌, ◌%◌, IfSome, IfNone};
ghost use Rattle.hm_isa.specs.declared.jumps.WideConditional.{WideConditional};
ghost use Rattle.hm_isa.specs.declared.jumps.WideAlways.{WideAlways};
ghost use Rattle.hm_isa.specs.declared.jumps.T16.{T16};
ghost use Rattle.hm_isa.specs.declared.jumps.T17.{T17};
ghost use Rattle.hm_isa.specs.declared.jumps.Dls.{Dls};
ghost use Rattle.hm_isa.specs.declared.jumps.Wls.{Wls};
ghost use Rattle.hm_isa.specs.declared.jumps.Dlstp.{Dlstp};
ghost use Rattle.hm_isa.specs.declared.jumps.Wlstp.{Wlstp};
ghost use Rattle.hm_isa.specs.declared.jumps.LoopEnd.{LoopEnd};
ghost use Rattle.hm_isa.specs.declared.jumps.T23.{T23};
ghost use Rattle.hm_isa.specs.JumpCodes.{code_wide_conditional, wide_branch_base, code_wide_always, code_t16, table_base, code_t17, label_field, code_dls};
ghost use Rattle.hm_isa.specs.JumpCodes.{code_wls, code_dlstp, code_wlstp, loop_end_base, code_loop_end, code_t23};
ghost use Rattle.hm_layout.specs.Wide.{HasWord};

use hm_code_fields::{bits, is_general};
use hm_isa::{
    Below, Branch, Dls, Dlstp, Instr, LoopEnd, LoopEndName, T16, T17, T23, TableName, WideAlways,
    WideBranchName, WideConditional, Wls, Wlstp,
};

/// A branch of two halfwords under a condition, as `beq.w label`
fn decode_wide_conditional(w: u32) -> Option<WideConditional>
    ensures found { IfSome result (λ r. code_wide_conditional r ≡ w) }
    ensures none { IfNone result ((r : WideConditional) → code_wide_conditional r ≡ w → ⊥) }
{
    let s = bits(w, 26, 1);
    let c = bits(w, 22, 4);
    let i6 = bits(w, 16, 6);
    let j1 = bits(w, 13, 1);
    let j2 = bits(w, 11, 1);
    let i11 = bits(w, 0, 11);
    if c >= 14 {
        return None;
    }
    if w - (s << 26) - (c << 22) - (i6 << 16) - (j1 << 13) - (j2 << 11) - i11 != 0xf000_8000 {
        return None;
    }
    Some(WideConditional {
        s: Below::new(s),
        c: Below::new(c),
        i6: Below::new(i6),
        j1: Below::new(j1),
        j2: Below::new(j2),
        i11: Below::new(i11),
    })
}

/// `b.w`, `bl label`
fn decode_wide_always(w: u32) -> Option<WideAlways>
    ensures found { IfSome result (λ r. code_wide_always r ≡ w) }
    ensures none { IfNone result ((r : WideAlways) → code_wide_always r ≡ w → ⊥) }
{
    let s = bits(w, 26, 1);
    let i10 = bits(w, 16, 10);
    let j1 = bits(w, 13, 1);
    let j2 = bits(w, 11, 1);
    let i11 = bits(w, 0, 11);
    let name = match w - (s << 26) - (i10 << 16) - (j1 << 13) - (j2 << 11) - i11 {
        0xf000_9000 => WideBranchName::B,
        0xf000_d000 => WideBranchName::Bl,
        _ => return None,
    };
    Some(WideAlways {
        name,
        s: Below::new(s),
        i10: Below::new(i10),
        j1: Below::new(j1),
        j2: Below::new(j2),
        i11: Below::new(i11),
    })
}

/// Wide branches
fn decode_t16(w: u32) -> Option<T16>
    ensures found { IfSome result (λ r. code_t16 r ≡ w) }
    ensures none { IfNone result ((r : T16) → code_t16 r ≡ w → ⊥) }
{
    if let Some(r) = decode_wide_conditional(w) {
        return Some(T16::Conditional(r));
    }
    if let Some(r) = decode_wide_always(w) {
        return Some(T16::Always(r));
    }
    None
}

/// `tbb`, `tbh`
fn decode_t17(w: u32) -> Option<T17>
    ensures found { IfSome result (λ r. code_t17 r ≡ w) }
    ensures none { IfNone result ((r : T17) → code_t17 r ≡ w → ⊥) }
{
    let n = bits(w, 16, 4);
    let m = bits(w, 0, 4);
    if n == 13 || !is_general(m) {
        return None;
    }
    let name = match w - (n << 16) - m {
        0xe8d0_f000 => TableName::Tbb,
        0xe8d0_f010 => TableName::Tbh,
        _ => return None,
    };
    Some(T17 {
        name,
        n: Below::new(n),
        m: Below::new(m),
    })
}

/// `dls`
fn decode_dls(w: u32) -> Option<Dls>
    ensures found { IfSome result (λ r. code_dls r ≡ w) }
    ensures none { IfNone result ((r : Dls) → code_dls r ≡ w → ⊥) }
{
    let n = bits(w, 16, 4);
    if !is_general(n) || w - (n << 16) != 0xf040_e001 {
        return None;
    }
    Some(Dls { n: Below::new(n) })
}

/// Half the distance to the label of w: its bits 10 to 1 are bits 10 to 1 of w, and its bit 0 is bit 11.
fn label_in(w: u32) -> u32
    ensures value { result ≡ w / 2 % 1024 * 2 + w / 2048 % 2 }
    ensures small { result < 2048 }
{
    bits(w, 1, 10) * 2 + bits(w, 11, 1)
}

/// The field of a label, half the distance to which is v.
fn label_field(v: u32) -> u32
    requires { v < 2048 }
    ensures value { result ≡ label_field v }
    ensures small { result < 4096 }
{
    ((v >> 1) << 1) + ((v & 1) << 11)
}

/// `wls`
fn decode_wls(w: u32) -> Option<Wls>
    ensures found { IfSome result (λ r. code_wls r ≡ w) }
    ensures none { IfNone result ((r : Wls) → code_wls r ≡ w → ⊥) }
{
    let n = bits(w, 16, 4);
    let v = label_in(w);
    if !is_general(n) || w - (n << 16) - label_field(v) != 0xf040_c001 {
        return None;
    }
    Some(Wls {
        n: Below::new(n),
        v: Below::new(v),
    })
}

/// `dlstp`
fn decode_dlstp(w: u32) -> Option<Dlstp>
    ensures found { IfSome result (λ r. code_dlstp r ≡ w) }
    ensures none { IfNone result ((r : Dlstp) → code_dlstp r ≡ w → ⊥) }
{
    let z = bits(w, 20, 2);
    let n = bits(w, 16, 4);
    if !is_general(n) || w - (z << 20) - (n << 16) != 0xf000_e001 {
        return None;
    }
    Some(Dlstp {
        z: Below::new(z),
        n: Below::new(n),
    })
}

/// `wlstp`
fn decode_wlstp(w: u32) -> Option<Wlstp>
    ensures found { IfSome result (λ r. code_wlstp r ≡ w) }
    ensures none { IfNone result ((r : Wlstp) → code_wlstp r ≡ w → ⊥) }
{
    let z = bits(w, 20, 2);
    let n = bits(w, 16, 4);
    let v = label_in(w);
    if !is_general(n) {
        return None;
    }
    if w - (z << 20) - (n << 16) - label_field(v) != 0xf000_c001 {
        return None;
    }
    Some(Wlstp {
        z: Below::new(z),
        n: Below::new(n),
        v: Below::new(v),
    })
}

/// `le lr`, `letp` and `le`
fn decode_loop_end(w: u32) -> Option<LoopEnd>
    ensures found { IfSome result (λ r. code_loop_end r ≡ w) }
    ensures none { IfNone result ((r : LoopEnd) → code_loop_end r ≡ w → ⊥) }
{
    let v = label_in(w);
    let name = match w - label_field(v) {
        0xf00f_c001 => LoopEndName::LeLr,
        0xf01f_c001 => LoopEndName::Letp,
        0xf02f_c001 => LoopEndName::Le,
        _ => return None,
    };
    Some(LoopEnd {
        name,
        v: Below::new(v),
    })
}

/// Low-overhead loops
fn decode_t23(w: u32) -> Option<T23>
    ensures found { IfSome result (λ r. code_t23 r ≡ w) }
    ensures none { IfNone result ((r : T23) → code_t23 r ≡ w → ⊥) }
{
    if let Some(r) = decode_dls(w) {
        return Some(T23::Dls(r));
    }
    if let Some(r) = decode_wls(w) {
        return Some(T23::Wls(r));
    }
    if let Some(r) = decode_dlstp(w) {
        return Some(T23::Dlstp(r));
    }
    if let Some(r) = decode_wlstp(w) {
        return Some(T23::Wlstp(r));
    }
    if let Some(r) = decode_loop_end(w) {
        return Some(T23::End(r));
    }
    if w == 0xf00f_e001 {
        return Some(T23::Lctp);
    }
    None
}

/// The branch of the rows T16, T17 and T23 whose code is w, with the first halfword in bits 31 to 16, or None exactly where none of them
/// has it: DDI0553, "T32 instruction set encoding", the 32-bit codes.
pub fn find_branch(w: u32) -> Option<Instr>
    ensures found { IfSome result (λ i. HasWord i w) }
    ensures no_t16 { IfNone result ((r : T16) → code_t16 r ≡ w → ⊥) }
    ensures no_t17 { IfNone result ((r : T17) → code_t17 r ≡ w → ⊥) }
    ensures no_t23 { IfNone result ((r : T23) → code_t23 r ≡ w → ⊥) }
{
    if let Some(r) = decode_t16(w) {
        return Some(Instr::Branch(Branch::T16(r)));
    }
    if let Some(r) = decode_t17(w) {
        return Some(Instr::Branch(Branch::T17(r)));
    }
    if let Some(r) = decode_t23(w) {
        return Some(Instr::Branch(Branch::T23(r)));
    }
    None
}

/// The code of a branch of two halfwords under a condition, as `beq.w label`.
fn encode_wide_conditional(r: &WideConditional) -> u32
    ensures { result ≡ code_wide_conditional r.now }
{
    0xf000_8000
        + (r.s.get() << 26)
        + (r.c.get() << 22)
        + (r.i6.get() << 16)
        + (r.j1.get() << 13)
        + (r.j2.get() << 11)
        + r.i11.get()
}

/// The code of a name of a branch with no condition without its fields.
pub fn base_of_wide_branch(name: WideBranchName) -> u32
    ensures value { result ≡ wide_branch_base name }
{
    match name {
        WideBranchName::B => 0xf000_9000,
        WideBranchName::Bl => 0xf000_d000,
    }
}

/// The code of `b.w`, `bl label`.
fn encode_wide_always(r: &WideAlways) -> u32
    ensures { result ≡ code_wide_always r.now }
{
    base_of_wide_branch(r.name)
        + (r.s.get() << 26)
        + (r.i10.get() << 16)
        + (r.j1.get() << 13)
        + (r.j2.get() << 11)
        + r.i11.get()
}

/// The code of a wide branch, with the first halfword in bits 31 to 16.
pub fn encode_t16(r: &T16) -> u32
    ensures value { result ≡ code_t16 r.now }
{
    match r {
        T16::Conditional(r) => encode_wide_conditional(r),
        T16::Always(r) => encode_wide_always(r),
    }
}

/// The code of a name of the row T17 without its fields.
pub fn base_of_table(name: TableName) -> u32
    ensures value { result ≡ table_base name }
{
    match name {
        TableName::Tbb => 0xe8d0_f000,
        TableName::Tbh => 0xe8d0_f010,
    }
}

/// The code of `tbb`, `tbh`, with the first halfword in bits 31 to 16.
pub fn encode_t17(r: &T17) -> u32
    ensures value { result ≡ code_t17 r.now }
{
    base_of_table(r.name) + (r.n.get() << 16) + r.m.get()
}

/// The code of a name of the end of a loop without its fields.
pub fn base_of_loop_end(name: LoopEndName) -> u32
    ensures value { result ≡ loop_end_base name }
{
    match name {
        LoopEndName::LeLr => 0xf00f_c001,
        LoopEndName::Letp => 0xf01f_c001,
        LoopEndName::Le => 0xf02f_c001,
    }
}

/// The code of an instruction of a low-overhead loop, with the first halfword in bits 31 to 16.
pub fn encode_t23(r: &T23) -> u32
    ensures value { result ≡ code_t23 r.now }
{
    match r {
        T23::Dls(r) => 0xf040_e001 + (r.n.get() << 16),
        T23::Wls(r) => 0xf040_c001 + (r.n.get() << 16) + label_field(r.v.get()),
        T23::Dlstp(r) => 0xf000_e001 + (r.z.get() << 20) + (r.n.get() << 16),
        T23::Wlstp(r) => {
            0xf000_c001 + (r.z.get() << 20) + (r.n.get() << 16) + label_field(r.v.get())
        }
        T23::End(r) => base_of_loop_end(r.name) + label_field(r.v.get()),
        T23::Lctp => 0xf00f_e001,
    }
}
