//! The codes of the vector rows that load and store, V24 to V28, read and written: DDI0553, "M-profile Vector Extension".
#![tactic(auto)]

ghost use Rattle.std.specs.Prelude.{◌≡◌, ◌+◌, ◌*◌, ◌/◌, ◌%◌, ◌^◌, IfSome, IfNone};
ghost use Rattle.hm_isa.specs.declared.memory.V24.{V24};
ghost use Rattle.hm_isa.specs.declared.memory.V25.{V25};
ghost use Rattle.hm_isa.specs.declared.memory.V26.{V26};
ghost use Rattle.hm_isa.specs.declared.memory.V27.{V27};
ghost use Rattle.hm_isa.specs.declared.memory.V28.{V28};
ghost use Rattle.hm_isa.specs.Code.{vector_code};
ghost use Rattle.hm_isa.specs.MemoryCodes.{code_v24, code_v25, code_v26, code_v27, code_v28};
ghost use Rattle.hm_isa.specs.MemoryRules.{is_access, is_at_addresses, is_at_offsets, is_contiguous, is_interleaved, is_widening};

use hm_code_fields::{bit, bits, q_register, size_at};
use hm_isa::{Below, Bit, ElementSize, QRegister, Register, V24, V25, V26, V27, V28, Vector};

/// How an offset is used, where it stands in a code.
fn place_index(p: Bit, a: Bit, w: Bit) -> u32
    ensures value { result ≡ p.value * 2 ^ 24 + a.value * 2 ^ 23 + w.value * 2 ^ 21 }
{
    (p.get() << 24) + (a.get() << 23) + (w.get() << 21)
}

/// Whether the row V24 has these letters.
fn may_be_contiguous(p: Bit, w: Bit, n: Register) -> bool
    ensures value { result ≡ is_contiguous p.value w.value n.value }
{
    p.get() + w.get() > 0 && n.get() != 15
}

/// `vldrb`, `vldrh`, `vldrw`, `vstrb`, `vstrh` or `vstrw` of elements one after another
fn decode_v24(w: u32) -> Option<V24>
    ensures found { IfSome result (λ r. code_v24 r ≡ w) }
    ensures none { IfNone result ((r : V24) → code_v24 r ≡ w → ⊥) }
{
    let p = bit(w, 24);
    let a = bit(w, 23);
    let written_back = bit(w, 21);
    let l = bit(w, 20);
    let n = Below::new(bits(w, 16, 4));
    let d = q_register(w, 13);
    let z = size_at(w, 7)?;
    let i = Below::new(bits(w, 0, 7));
    if !may_be_contiguous(p, written_back, n) {
        return None;
    }
    let r = V24 {
        p,
        a,
        w: written_back,
        l,
        n,
        d,
        z,
        i,
    };
    if encode_v24(&r) != w {
        return None;
    }
    Some(r)
}

/// The code of `vldrb`, `vldrh`, `vldrw`, `vstrb`, `vstrh` or `vstrw` of elements one after another, with the first halfword in bits 31 to 16.
pub fn encode_v24(r: &V24) -> u32
    ensures value { result ≡ code_v24 r.now }
{
    0xec00_1e00
        + place_index(r.p, r.a, r.w)
        + (r.l.get() << 20)
        + (r.n.get() << 16)
        + (r.d.get() << 13)
        + (r.z.get() << 7)
        + r.i.get()
}

/// Whether the row V25 has these letters.
fn may_be_widening(u: Bit, p: Bit, w: Bit, l: Bit, h: Bit, z: ElementSize) -> bool
    ensures value { result ≡ is_widening u.value p.value w.value l.value h.value z.value }
{
    p.get() + w.get() > 0 && h.get() < z.get() && (l.get() == 1 || u.get() == 0)
}

/// `vldrb`, `vldrh`, `vstrb` or `vstrh` of narrower elements in memory
fn decode_v25(w: u32) -> Option<V25>
    ensures found { IfSome result (λ r. code_v25 r ≡ w) }
    ensures none { IfNone result ((r : V25) → code_v25 r ≡ w → ⊥) }
{
    let u = bit(w, 28);
    let p = bit(w, 24);
    let a = bit(w, 23);
    let written_back = bit(w, 21);
    let l = bit(w, 20);
    let h = bit(w, 19);
    let n = Below::new(bits(w, 16, 3));
    let d = q_register(w, 13);
    let z = size_at(w, 7)?;
    let i = Below::new(bits(w, 0, 7));
    if !may_be_widening(u, p, written_back, l, h, z) {
        return None;
    }
    let r = V25 {
        u,
        p,
        a,
        w: written_back,
        l,
        h,
        n,
        d,
        z,
        i,
    };
    if encode_v25(&r) != w {
        return None;
    }
    Some(r)
}

/// The code of `vldrb`, `vldrh`, `vstrb` or `vstrh` of narrower elements in memory, with the first halfword in bits 31 to 16.
pub fn encode_v25(r: &V25) -> u32
    ensures value { result ≡ code_v25 r.now }
{
    0xec00_0e00
        + (r.u.get() << 28)
        + place_index(r.p, r.a, r.w)
        + (r.l.get() << 20)
        + (r.h.get() << 19)
        + (r.n.get() << 16)
        + (r.d.get() << 13)
        + (r.z.get() << 7)
        + r.i.get()
}

/// The size in memory, whose bit 1 is bit 6 of w, and bit 0 bit 4, or None where it is 3.
fn memory_size(w: u32) -> Option<ElementSize>
    ensures value { IfSome result (λ y. y.value ≡ w / 2 ^ 6 % 2 * 2 + w / 2 ^ 4 % 2) }
    ensures none { IfNone result (w / 2 ^ 6 % 2 * 2 + w / 2 ^ 4 % 2 ≡ 3) }
{
    let y = bits(w, 6, 1) * 2 + bits(w, 4, 1);
    if y == 3 {
        return None;
    }
    Some(Below::new(y))
}

/// The size in memory, where it stands in a code.
fn place_memory_size(y: ElementSize) -> u32
    ensures value { result ≡ y.value / 2 * 2 ^ 6 + y.value % 2 * 2 ^ 4 }
{
    ((y.get() / 2) << 6) + ((y.get() % 2) << 4)
}

/// Whether the row V26 has an address of these letters.
fn may_be_at_offsets(n: Register, z: ElementSize, y: ElementSize, o: Bit) -> bool
    ensures value { result ≡ is_at_offsets n.value z.value y.value o.value }
{
    n.get() != 15 && y.get() <= z.get() && (o.get() == 0 || y.get() > 0)
}

/// Whether the row V26 has a load or a store of these letters.
fn may_be_access(u: Bit, l: Bit, d: QRegister, z: ElementSize, y: ElementSize, m: QRegister) -> bool
    ensures value { result ≡ is_access u.value l.value d.value z.value y.value m.value }
{
    if l.get() == 1 {
        d.get() != m.get() && (y.get() < z.get() || u.get() == 1)
    } else {
        u.get() == 0
    }
}

/// `vldrb`, `vldrh`, `vldrw`, `vstrb`, `vstrh` or `vstrw` at offsets in a vector
fn decode_v26(w: u32) -> Option<V26>
    ensures found { IfSome result (λ r. code_v26 r ≡ w) }
    ensures none { IfNone result ((r : V26) → code_v26 r ≡ w → ⊥) }
{
    let u = bit(w, 28);
    let l = bit(w, 20);
    let n = Below::new(bits(w, 16, 4));
    let d = q_register(w, 13);
    let z = size_at(w, 7)?;
    let y = memory_size(w)?;
    let m = q_register(w, 1);
    let o = bit(w, 0);
    if !may_be_at_offsets(n, z, y, o) {
        return None;
    }
    if !may_be_access(u, l, d, z, y, m) {
        return None;
    }
    let r = V26 {
        u,
        l,
        n,
        d,
        z,
        y,
        m,
        o,
    };
    if encode_v26(&r) != w {
        return None;
    }
    Some(r)
}

/// The code of `vldrb`, `vldrh`, `vldrw`, `vstrb`, `vstrh` or `vstrw` at offsets in a vector, with the first halfword in bits 31 to 16.
pub fn encode_v26(r: &V26) -> u32
    ensures value { result ≡ code_v26 r.now }
{
    0xec80_0e00
        + (r.u.get() << 28)
        + (r.l.get() << 20)
        + (r.n.get() << 16)
        + (r.d.get() << 13)
        + (r.z.get() << 7)
        + place_memory_size(r.y)
        + (r.m.get() << 1)
        + r.o.get()
}

/// Whether the row V27 has these letters.
fn may_be_at_addresses(l: Bit, m: QRegister, d: QRegister) -> bool
    ensures value { result ≡ is_at_addresses l.value m.value d.value }
{
    l.get() == 0 || d.get() != m.get()
}

/// `vldrw.u32`, `vstrw.32` at addresses in a vector
fn decode_v27(w: u32) -> Option<V27>
    ensures found { IfSome result (λ r. code_v27 r ≡ w) }
    ensures none { IfNone result ((r : V27) → code_v27 r ≡ w → ⊥) }
{
    let a = bit(w, 23);
    let back = bit(w, 21);
    let l = bit(w, 20);
    let m = q_register(w, 17);
    let d = q_register(w, 13);
    let i = Below::new(bits(w, 0, 7));
    if !may_be_at_addresses(l, m, d) {
        return None;
    }
    let r = V27 {
        a,
        w: back,
        l,
        m,
        d,
        i,
    };
    if encode_v27(&r) != w {
        return None;
    }
    Some(r)
}

/// The code of `vldrw.u32`, `vstrw.32` at addresses in a vector, with the first halfword in bits 31 to 16.
pub fn encode_v27(r: &V27) -> u32
    ensures value { result ≡ code_v27 r.now }
{
    0xfd00_1e00
        + (r.a.get() << 23)
        + (r.w.get() << 21)
        + (r.l.get() << 20)
        + (r.m.get() << 17)
        + (r.d.get() << 13)
        + r.i.get()
}

/// Whether the row V28 has these letters.
fn may_be_interleaved(n: Register, d: QRegister, p: Below<4>, f: Bit) -> bool
    ensures value { result ≡ is_interleaved n.value d.value p.value f.value }
{
    if n.get() == 15 {
        return false;
    }
    if f.get() == 1 {
        d.get() <= 4
    } else {
        p.get() < 2 && d.get() <= 6
    }
}

/// `vld20`, `vld21`, `vld40`, `vld41`, `vld42`, `vld43`, `vst20`, `vst21`, `vst40`, `vst41`, `vst42` or `vst43`
fn decode_v28(w: u32) -> Option<V28>
    ensures found { IfSome result (λ r. code_v28 r ≡ w) }
    ensures none { IfNone result ((r : V28) → code_v28 r ≡ w → ⊥) }
{
    let back = bit(w, 21);
    let l = bit(w, 20);
    let n = Below::new(bits(w, 16, 4));
    let d = q_register(w, 13);
    let z = size_at(w, 7)?;
    let p = Below::new(bits(w, 5, 2));
    let f = bit(w, 0);
    if !may_be_interleaved(n, d, p, f) {
        return None;
    }
    let r = V28 {
        w: back,
        l,
        n,
        d,
        z,
        p,
        f,
    };
    if encode_v28(&r) != w {
        return None;
    }
    Some(r)
}

/// The code of `vld20`, `vld21`, `vld40`, `vld41`, `vld42`, `vld43`, `vst20`, `vst21`, `vst40`, `vst41`, `vst42` or `vst43`, with the
/// first halfword in bits 31 to 16.
pub fn encode_v28(r: &V28) -> u32
    ensures value { result ≡ code_v28 r.now }
{
    0xfc80_1e00
        + (r.w.get() << 21)
        + (r.l.get() << 20)
        + (r.n.get() << 16)
        + (r.d.get() << 13)
        + (r.z.get() << 7)
        + (r.p.get() << 5)
        + r.f.get()
}

/// The instruction of the rows V24 to V28 whose code is w, with the first halfword in bits 31 to 16, or None exactly where none of them
/// has it: DDI0553, "T32 instruction set encoding", the 32-bit codes.
pub fn decode_memory(w: u32) -> Option<Vector>
    ensures found { IfSome result (λ v. vector_code v ≡ w) }
    ensures no_v24 { IfNone result ((r : V24) → code_v24 r ≡ w → ⊥) }
    ensures no_v25 { IfNone result ((r : V25) → code_v25 r ≡ w → ⊥) }
    ensures no_v26 { IfNone result ((r : V26) → code_v26 r ≡ w → ⊥) }
    ensures no_v27 { IfNone result ((r : V27) → code_v27 r ≡ w → ⊥) }
    ensures no_v28 { IfNone result ((r : V28) → code_v28 r ≡ w → ⊥) }
{
    if let Some(r) = decode_v24(w) {
        return Some(Vector::V24(r));
    }
    if let Some(r) = decode_v25(w) {
        return Some(Vector::V25(r));
    }
    if let Some(r) = decode_v26(w) {
        return Some(Vector::V26(r));
    }
    if let Some(r) = decode_v27(w) {
        return Some(Vector::V27(r));
    }
    if let Some(r) = decode_v28(w) {
        return Some(Vector::V28(r));
    }
    None
}
