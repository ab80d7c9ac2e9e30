//! Special registers, barriers, and scalar instructions on vector registers, read and written.

ghost use Rattle.std.specs.Prelude.{◌≡◌, IfSome, IfNone};
ghost use Rattle.hm_isa.specs.declared.system.ReadName.{ReadName};
ghost use Rattle.hm_isa.specs.declared.system.WrittenName.{WrittenName};
ghost use Rattle.hm_isa.specs.declared.system.BarrierName.{BarrierName};
ghost use Rattle.hm_isa.specs.declared.system.SystemMoveName.{SystemMoveName};
ghost use Rattle.hm_isa.specs.declared.system.LaneMoveName.{LaneMoveName};
ghost use Rattle.hm_isa.specs.declared.system.Mrs.{Mrs};
ghost use Rattle.hm_isa.specs.declared.system.Msr.{Msr};
ghost use Rattle.hm_isa.specs.declared.system.T18.{T18};
ghost use Rattle.hm_isa.specs.declared.system.Barrier.{Barrier};
ghost use Rattle.hm_isa.specs.declared.system.T19.{T19};
ghost use Rattle.hm_isa.specs.declared.system.T21.{T21};
ghost use Rattle.hm_isa.specs.declared.system.T22.{T22};
ghost use Rattle.hm_isa.specs.Rules.{is_system_move};
ghost use Rattle.hm_isa.specs.SystemCodes.{read_base, code_mrs, written_base, code_msr, code_t18, barrier_base, code_barrier, code_t19, system_move_base};
ghost use Rattle.hm_isa.specs.SystemCodes.{code_t21, lane_move_base, code_t22};
ghost use Rattle.hm_layout.specs.Wide.{HasWord};

use hm_code_fields::{bits, is_general};
use hm_isa::{
    Barrier, BarrierName, Below, Instr, LaneMoveName, Mrs, Msr, ReadName, Scalar, SystemMoveName,
    T18, T19, T21, T22, WrittenName,
};

/// The register of `mrs` whose code without the other field is this.
fn read_name(rest: u32) -> Option<ReadName>
    ensures found { IfSome result (λ x. read_base x ≡ rest) }
    ensures none { IfNone result ((x : ReadName) → read_base x ≡ rest → ⊥) }
{
    match rest {
        0xf3ef_8000 => Some(ReadName::Apsr),
        0xf3ef_8005 => Some(ReadName::Ipsr),
        0xf3ef_8008 => Some(ReadName::Msp),
        0xf3ef_8009 => Some(ReadName::Psp),
        0xf3ef_8010 => Some(ReadName::Primask),
        0xf3ef_8011 => Some(ReadName::Basepri),
        0xf3ef_8014 => Some(ReadName::Control),
        _ => None,
    }
}

/// `mrs rd,NAME`
fn decode_mrs(w: u32) -> Option<Mrs>
    ensures found { IfSome result (λ r. code_mrs r ≡ w) }
    ensures none { IfNone result ((r : Mrs) → code_mrs r ≡ w → ⊥) }
{
    let d = bits(w, 8, 4);
    if !is_general(d) {
        return None;
    }
    let rest = w - (d << 8);
    let name = read_name(rest)?;
    Some(Mrs {
        name,
        d: Below::new(d),
    })
}

/// The register of `msr` whose code without the other field is this.
fn written_name(rest: u32) -> Option<WrittenName>
    ensures found { IfSome result (λ x. written_base x ≡ rest) }
    ensures none { IfNone result ((x : WrittenName) → written_base x ≡ rest → ⊥) }
{
    match rest {
        0xf380_8800 => Some(WrittenName::Apsr),
        0xf380_8808 => Some(WrittenName::Msp),
        0xf380_8809 => Some(WrittenName::Psp),
        0xf380_8810 => Some(WrittenName::Primask),
        0xf380_8811 => Some(WrittenName::Basepri),
        0xf380_8814 => Some(WrittenName::Control),
        _ => None,
    }
}

/// `msr NAME,rn`
fn decode_msr(w: u32) -> Option<Msr>
    ensures found { IfSome result (λ r. code_msr r ≡ w) }
    ensures none { IfNone result ((r : Msr) → code_msr r ≡ w → ⊥) }
{
    let n = bits(w, 16, 4);
    if !is_general(n) {
        return None;
    }
    let rest = w - (n << 16);
    let name = written_name(rest)?;
    Some(Msr {
        name,
        n: Below::new(n),
    })
}

/// `mrs`, `msr`
fn decode_t18(w: u32) -> Option<T18>
    ensures found { IfSome result (λ r. code_t18 r ≡ w) }
    ensures none { IfNone result ((r : T18) → code_t18 r ≡ w → ⊥) }
{
    if let Some(r) = decode_mrs(w) {
        return Some(T18::Read(r));
    }
    if let Some(r) = decode_msr(w) {
        return Some(T18::Write(r));
    }
    None
}

/// The operation of the row T19 whose code without its fields is this.
fn barrier_name(rest: u32) -> Option<BarrierName>
    ensures found { IfSome result (λ x. barrier_base x ≡ rest) }
    ensures none { IfNone result ((x : BarrierName) → barrier_base x ≡ rest → ⊥) }
{
    match rest {
        0xf3bf_8f40 => Some(BarrierName::Dsb),
        0xf3bf_8f50 => Some(BarrierName::Dmb),
        0xf3bf_8f60 => Some(BarrierName::Isb),
        _ => None,
    }
}

/// `dsb`, `dmb`, `isb #o`
fn decode_barrier(w: u32) -> Option<Barrier>
    ensures found { IfSome result (λ r. code_barrier r ≡ w) }
    ensures none { IfNone result ((r : Barrier) → code_barrier r ≡ w → ⊥) }
{
    let o = bits(w, 0, 4);
    let rest = w - o;
    let name = barrier_name(rest)?;
    Some(Barrier {
        name,
        o: Below::new(o),
    })
}

/// `nop.w`, `dsb`, `dmb`, `isb`
fn decode_t19(w: u32) -> Option<T19>
    ensures found { IfSome result (λ r. code_t19 r ≡ w) }
    ensures none { IfNone result ((r : T19) → code_t19 r ≡ w → ⊥) }
{
    if w == 0xf3af_8000 {
        return Some(T19::Nop);
    }
    if let Some(r) = decode_barrier(w) {
        return Some(T19::Barrier(r));
    }
    None
}

/// Whether the row T21 has these letters.
fn may_be_system_move(x: SystemMoveName, t: u32) -> bool
    ensures { result ≡ is_system_move x t }
{
    match x {
        SystemMoveName::ReadFpscr => t != 13,
        _ => is_general(t),
    }
}

/// The operation of the row T21 whose code without its fields is this.
fn system_move_name(rest: u32) -> Option<SystemMoveName>
    ensures found { IfSome result (λ x. system_move_base x ≡ rest) }
    ensures none { IfNone result ((x : SystemMoveName) → system_move_base x ≡ rest → ⊥) }
{
    match rest {
        0xeef1_0a10 => Some(SystemMoveName::ReadFpscr),
        0xeefc_0a10 => Some(SystemMoveName::ReadVpr),
        0xeefd_0a10 => Some(SystemMoveName::ReadP0),
        0xeee1_0a10 => Some(SystemMoveName::WriteFpscr),
        0xeeec_0a10 => Some(SystemMoveName::WriteVpr),
        0xeeed_0a10 => Some(SystemMoveName::WriteP0),
        _ => None,
    }
}

/// `vmrs`, `vmsr`
fn decode_t21(w: u32) -> Option<T21>
    ensures found { IfSome result (λ r. code_t21 r ≡ w) }
    ensures none { IfNone result ((r : T21) → code_t21 r ≡ w → ⊥) }
{
    let t = bits(w, 12, 4);
    let name = system_move_name(w - (t << 12))?;
    if !may_be_system_move(name, t) {
        return None;
    }
    Some(T21 {
        name,
        t: Below::new(t),
    })
}

/// The operation of the row T22 whose code without its fields is this.
fn lane_move_name(rest: u32) -> Option<LaneMoveName>
    ensures found { IfSome result (λ x. lane_move_base x ≡ rest) }
    ensures none { IfNone result ((x : LaneMoveName) → lane_move_base x ≡ rest → ⊥) }
{
    match rest {
        0xee00_0b10 => Some(LaneMoveName::ToLane),
        0xee10_0b10 => Some(LaneMoveName::FromLane),
        _ => None,
    }
}

/// `vmov.32` of a lane
fn decode_t22(w: u32) -> Option<T22>
    ensures found { IfSome result (λ r. code_t22 r ≡ w) }
    ensures none { IfNone result ((r : T22) → code_t22 r ≡ w → ⊥) }
{
    let low = bits(w, 21, 1);
    let q = bits(w, 17, 3);
    let high = bits(w, 16, 1);
    let t = bits(w, 12, 4);
    if !is_general(t) {
        return None;
    }
    let rest = w - (low << 21) - (q << 17) - (high << 16) - (t << 12);
    let name = lane_move_name(rest)?;
    Some(T22 {
        name,
        x: Below::new(2 * high + low),
        q: Below::new(q),
        t: Below::new(t),
    })
}

/// The instruction of the rows T18, T19, T21 and T22 whose code is w, with the first halfword in bits 31 to 16, or None exactly where none of them
/// has it: DDI0553, "T32 instruction set encoding", the 32-bit codes.
pub fn find_system(w: u32) -> Option<Instr>
    ensures found { IfSome result (λ i. HasWord i w) }
    ensures no_t18 { IfNone result ((r : T18) → code_t18 r ≡ w → ⊥) }
    ensures no_t19 { IfNone result ((r : T19) → code_t19 r ≡ w → ⊥) }
    ensures no_t21 { IfNone result ((r : T21) → code_t21 r ≡ w → ⊥) }
    ensures no_t22 { IfNone result ((r : T22) → code_t22 r ≡ w → ⊥) }
{
    if let Some(r) = decode_t18(w) {
        return Some(Instr::Scalar(Scalar::T18(r)));
    }
    if let Some(r) = decode_t19(w) {
        return Some(Instr::Scalar(Scalar::T19(r)));
    }
    if let Some(r) = decode_t21(w) {
        return Some(Instr::Scalar(Scalar::T21(r)));
    }
    if let Some(r) = decode_t22(w) {
        return Some(Instr::Scalar(Scalar::T22(r)));
    }
    None
}

/// The code of a register of `mrs` without the other field.
pub fn base_of_read(name: ReadName) -> u32
    ensures value { result ≡ read_base name }
{
    match name {
        ReadName::Apsr => 0xf3ef_8000,
        ReadName::Ipsr => 0xf3ef_8005,
        ReadName::Msp => 0xf3ef_8008,
        ReadName::Psp => 0xf3ef_8009,
        ReadName::Primask => 0xf3ef_8010,
        ReadName::Basepri => 0xf3ef_8011,
        ReadName::Control => 0xf3ef_8014,
    }
}

/// The code of `mrs rd,NAME`.
fn encode_mrs(r: &Mrs) -> u32
    ensures { result ≡ code_mrs r.now }
{
    base_of_read(r.name) + (r.d.get() << 8)
}

/// The code of a register of `msr` without the other field.
pub fn base_of_written(name: WrittenName) -> u32
    ensures value { result ≡ written_base name }
{
    match name {
        WrittenName::Apsr => 0xf380_8800,
        WrittenName::Msp => 0xf380_8808,
        WrittenName::Psp => 0xf380_8809,
        WrittenName::Primask => 0xf380_8810,
        WrittenName::Basepri => 0xf380_8811,
        WrittenName::Control => 0xf380_8814,
    }
}

/// The code of `msr NAME,rn`.
fn encode_msr(r: &Msr) -> u32
    ensures { result ≡ code_msr r.now }
{
    base_of_written(r.name) + (r.n.get() << 16)
}

/// The code of `mrs`, `msr`, with the first halfword in bits 31 to 16.
pub fn encode_t18(r: &T18) -> u32
    ensures value { result ≡ code_t18 r.now }
{
    match r {
        T18::Read(r) => encode_mrs(r),
        T18::Write(r) => encode_msr(r),
    }
}

/// The code of a name of the row T19 without its fields.
pub fn base_of_barrier(name: BarrierName) -> u32
    ensures value { result ≡ barrier_base name }
{
    match name {
        BarrierName::Dsb => 0xf3bf_8f40,
        BarrierName::Dmb => 0xf3bf_8f50,
        BarrierName::Isb => 0xf3bf_8f60,
    }
}

/// The code of `dsb`, `dmb`, `isb #o`.
fn encode_barrier(r: &Barrier) -> u32
    ensures { result ≡ code_barrier r.now }
{
    base_of_barrier(r.name) + r.o.get()
}

/// The code of `nop.w`, `dsb`, `dmb`, `isb`, with the first halfword in bits 31 to 16.
pub fn encode_t19(r: &T19) -> u32
    ensures value { result ≡ code_t19 r.now }
{
    match r {
        T19::Nop => 0xf3af_8000,
        T19::Barrier(r) => encode_barrier(r),
    }
}

/// The code of a name of the row T21 without its fields.
pub fn base_of_system_move(name: SystemMoveName) -> u32
    ensures value { result ≡ system_move_base name }
{
    match name {
        SystemMoveName::ReadFpscr => 0xeef1_0a10,
        SystemMoveName::ReadVpr => 0xeefc_0a10,
        SystemMoveName::ReadP0 => 0xeefd_0a10,
        SystemMoveName::WriteFpscr => 0xeee1_0a10,
        SystemMoveName::WriteVpr => 0xeeec_0a10,
        SystemMoveName::WriteP0 => 0xeeed_0a10,
    }
}

/// The code of `vmrs`, `vmsr`, with the first halfword in bits 31 to 16.
pub fn encode_t21(r: &T21) -> u32
    ensures value { result ≡ code_t21 r.now }
{
    base_of_system_move(r.name) + (r.t.get() << 12)
}

/// The code of a name of the row T22 without its fields.
pub fn base_of_lane_move(name: LaneMoveName) -> u32
    ensures value { result ≡ lane_move_base name }
{
    match name {
        LaneMoveName::ToLane => 0xee00_0b10,
        LaneMoveName::FromLane => 0xee10_0b10,
    }
}

/// The code of `vmov.32` of a lane, with the first halfword in bits 31 to 16.
pub fn encode_t22(r: &T22) -> u32
    ensures value { result ≡ code_t22 r.now }
{
    let x = r.x.get();
    base_of_lane_move(r.name)
        + ((x % 2) << 21)
        + (r.q.get() << 17)
        + ((x / 2) << 16)
        + (r.t.get() << 12)
}
