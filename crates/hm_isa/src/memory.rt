//! The rows of the vector codes that load and store: DDI0553, "M-profile Vector Extension".

ghost use Rattle.std.specs.Prelude.{IsTrue};
ghost use Rattle.hm_isa.specs.MemoryRules.{is_access, is_at_addresses, is_at_offsets, is_contiguous, is_interleaved, is_widening};

use crate::fields::{Below, Bit, ElementSize, Low, QRegister, Register};

/// `vldrb`, `vldrh`, `vldrw`, `vstrb`, `vstrh`, `vstrw` of elements one after another, as `vldrb.u8 qd,[rn,#i]` and
/// `vstrw.32 qd,[rn],#-4i`: DDI0553, "VLDRB, VLDRH, VLDRW" and "VSTRB, VSTRH, VSTRW", encodings T5 to T7.
#[derive(Clone, Copy)]
pub struct V24 {
    /// Whether the offset goes to the address of the access.
    pub p: Bit,
    /// Whether the offset is added.
    pub a: Bit,
    /// Whether the base gets the address with the offset.
    pub w: Bit,
    /// 1 for a load, 0 for a store.
    pub l: Bit,
    /// The register of the base.
    pub n: Register,
    /// The register that is loaded or stored.
    pub d: QRegister,
    /// The size of the elements.
    pub z: ElementSize,
    /// The offset, in elements.
    pub i: Below<128>,
    pub ghost rule: { IsTrue (is_contiguous p.value w.value n.value) },
}

/// `vldrb`, `vldrh` that widen and `vstrb`, `vstrh` that narrow elements one after another, as `vldrb.u16 qd,[rn,#i]` and
/// `vstrh.32 qd,[rn],#-2i`: DDI0553, "VLDRB, VLDRH, VLDRW" and "VSTRB, VSTRH, VSTRW", encodings T1 and T2.
#[derive(Clone, Copy)]
pub struct V25 {
    /// 1 for a load of unsigned elements; 0 for a store.
    pub u: Bit,
    /// Whether the offset goes to the address of the access.
    pub p: Bit,
    /// Whether the offset is added.
    pub a: Bit,
    /// Whether the base gets the address with the offset.
    pub w: Bit,
    /// 1 for a load, 0 for a store.
    pub l: Bit,
    /// The size of the elements in memory: 0 and 1 are 8 and 16 bits.
    pub h: Bit,
    /// The register of the base.
    pub n: Low,
    /// The register that is loaded or stored.
    pub d: QRegister,
    /// The size of the elements in the register.
    pub z: ElementSize,
    /// The offset, in elements of memory.
    pub i: Below<128>,
    pub ghost rule: { IsTrue (is_widening u.value p.value w.value l.value h.value z.value) },
}

/// `vldrb`, `vldrh`, `vldrw`, `vstrb`, `vstrh`, `vstrw` of elements at offsets in a vector, as `vldrh.u32 qd,[rn,qm]` and
/// `vstrw.32 qd,[rn,qm,uxtw #2]`: DDI0553, "VLDRB, VLDRH, VLDRW, VLDRD (vector)", encodings T1 to T3, and "VSTRB, VSTRH, VSTRW, VSTRD
/// (vector)", encodings T1 to T3.
#[derive(Clone, Copy)]
pub struct V26 {
    /// 1 for a load of unsigned elements, or of elements as wide in memory; 0 for a store.
    pub u: Bit,
    /// 1 for a load, 0 for a store.
    pub l: Bit,
    /// The register of the base.
    pub n: Register,
    /// The register that is loaded or stored.
    pub d: QRegister,
    /// The size of the elements in the registers.
    pub z: ElementSize,
    /// The size of the elements in memory.
    pub y: ElementSize,
    /// The register of the offsets.
    pub m: QRegister,
    /// 1 for offsets in elements of memory, 0 for offsets in bytes.
    pub o: Bit,
    pub ghost offsets: { IsTrue (is_at_offsets n.value z.value y.value o.value) },
    pub ghost access: { IsTrue (is_access u.value l.value d.value z.value y.value m.value) },
}

/// `vldrw`, `vstrw` of words at addresses in a vector, as `vldrw.u32 qd,[qm,#4i]` and `vstrw.32 qd,[qm,#-4i]!`: DDI0553, "VLDRB,
/// VLDRH, VLDRW, VLDRD (vector)", encoding T5, and "VSTRB, VSTRH, VSTRW, VSTRD (vector)", encoding T5.
#[derive(Clone, Copy)]
pub struct V27 {
    /// Whether the offset is added.
    pub a: Bit,
    /// Whether the vector of addresses gets those with the offset.
    pub w: Bit,
    /// 1 for a load, 0 for a store.
    pub l: Bit,
    /// The register of the addresses.
    pub m: QRegister,
    /// The register that is loaded or stored.
    pub d: QRegister,
    /// The offset, in words.
    pub i: Below<128>,
    pub ghost rule: { IsTrue (is_at_addresses l.value m.value d.value) },
}

/// `vld20`, `vld21`, `vld40`, `vld41`, `vld42`, `vld43`, `vst20`, `vst21`, `vst40`, `vst41`, `vst42`, `vst43`: a part of a load or store
/// of two or four registers whose elements take turns in memory, as `vld20.8 {q0,q1},[rn]` and `vst43.32 {q0,q1,q2,q3},[rn]!`: DDI0553,
/// "VLD2", "VLD4", "VST2" and "VST4".
#[derive(Clone, Copy)]
pub struct V28 {
    /// Whether the base gets the address behind all elements: 32 bytes on, or 64.
    pub w: Bit,
    /// 1 for a load, 0 for a store.
    pub l: Bit,
    /// The register of the base.
    pub n: Register,
    /// The first of the registers that are loaded or stored.
    pub d: QRegister,
    /// The size of the elements.
    pub z: ElementSize,
    /// Which part: 0 and 1 of two registers, 0 to 3 of four.
    pub p: Below<4>,
    /// 1 for four registers, 0 for two.
    pub f: Bit,
    pub ghost rule: { IsTrue (is_interleaved n.value d.value p.value f.value) },
}
