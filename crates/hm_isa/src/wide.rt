//! The rows of 32-bit codes that are no vector rows.

ghost use Rattle.std.specs.Prelude.{ℕ, IsTrue};
ghost use Rattle.hm_isa.specs.Rules.{is_indexed, is_literal, is_offset, is_pair, is_shifted, is_stacked, is_wide_list};

use crate::fields::{Below, Bit, Byte, Register};
use crate::narrow::AccessName;

/// `strb.w`, `strh.w`, `str.w`, `ldrb.w`, `ldrh.w`, `ldr.w`, `ldrsb.w`, `ldrsh.w rt,[rn,#i]`. T12: DDI0553, the immediate form of each,
/// as "LDR (immediate)".
#[derive(Clone, Copy)]
pub struct Offset {
    pub name: AccessName,
    pub n: Register,
    pub t: Register,
    pub i: Below<4096>,
    pub ghost rules: { IsTrue (is_offset name n.value t.value) },
}

/// `strb.w`, `strh.w`, `str.w`, `ldrb.w`, `ldrh.w`, `ldr.w`, `ldrsb.w`, `ldrsh.w rt,[rn,#-i]`, or `[rn,#i]!`, `[rn],#i` and so
/// with `#-i`, as p, u and w say. T12: DDI0553, the immediate form of each, as "LDR (immediate)".
#[derive(Clone, Copy)]
pub struct Indexed {
    pub name: AccessName,
    pub n: Register,
    pub t: Register,
    /// Whether the offset goes to the address of the access.
    pub p: Bit,
    /// Whether the offset is added.
    pub u: Bit,
    /// Whether the base gets the address with the offset.
    pub w: Bit,
    pub i: Byte,
    pub ghost rules: { IsTrue (is_indexed name n.value t.value p.value u.value w.value) },
}

/// `strb.w`, `strh.w`, `str.w`, `ldrb.w`, `ldrh.w`, `ldr.w`, `ldrsb.w`, `ldrsh.w rt,[rn,rm,lsl #i]`. T12: DDI0553, the register form
/// of each, as "LDR (register)".
#[derive(Clone, Copy)]
pub struct Shifted {
    pub name: AccessName,
    pub n: Register,
    pub t: Register,
    pub i: Below<4>,
    pub m: Register,
    pub ghost rules: { IsTrue (is_shifted name n.value t.value m.value) },
}

/// `ldrb.w`, `ldrh.w`, `ldr.w`, `ldrsb.w`, `ldrsh.w rt,[pc,#i]`, from pc rounded down to a word. T12: DDI0553, the literal form of
/// each, as "LDR (literal)".
#[derive(Clone, Copy)]
pub struct Literal {
    pub name: AccessName,
    /// Whether the offset is added.
    pub u: Bit,
    pub t: Register,
    pub i: Below<4096>,
    pub ghost rules: { IsTrue (is_literal name t.value) },
}

/// A load or store of a byte, a halfword or a word, `strb.w`, `strh.w`, `str.w`, `ldrb.w`, `ldrh.w`, `ldr.w`, `ldrsb.w` or `ldrsh.w`:
/// DDI0553, the immediate and register form of each, and the literal form of each load, as "LDR (immediate)", "LDR (register)" and "LDR
/// (literal)", encodings T1 to T4.
#[derive(Clone, Copy)]
pub enum T12 {
    Offset(Offset),
    Indexed(Indexed),
    Shifted(Shifted),
    Literal(Literal),
}

/// The operation of the row T13, `strd` or `ldrd`: DDI0553, "STRD (immediate)", "LDRD (immediate)" and "LDRD (literal)".
#[derive(Clone, Copy)]
pub enum PairName {
    Strd,
    Ldrd,
}

/// `strd`, `ldrd rt,ru,[rn,#4i]` and its other forms of address: DDI0553, "STRD (immediate)", "LDRD (immediate)" and "LDRD (literal)",
/// encodings T1.
#[derive(Clone, Copy)]
pub struct T13 {
    pub name: PairName,
    /// Whether the offset goes to the address of the access.
    pub p: Bit,
    /// Whether the offset is added.
    pub add: Bit,
    /// Whether the base gets the address with the offset.
    pub w: Bit,
    pub n: Register,
    pub t: Register,
    pub u: Register,
    pub i: Byte,
    pub ghost rules: { IsTrue (is_pair name p.value w.value n.value t.value u.value) },
}

/// A store or a load of several registers, from the base up or up to it. The operation of the row T14, `stmia.w`, `ldmia.w`, `stmdb` or
/// `ldmdb`: DDI0553, "STM, STMIA, STMEA", "LDM, LDMIA, LDMFD", "STMDB, STMFD" and "LDMDB, LDMEA".
#[derive(Clone, Copy)]
pub enum WideListName {
    Stmia,
    Ldmia,
    Stmdb,
    Ldmdb,
}

/// `stmia.w`, `ldmia.w`, `stmdb`, `ldmdb rn,{..}`: DDI0553, "STM, STMIA, STMEA", "LDM, LDMIA, LDMFD", "STMDB, STMFD" and "LDMDB,
/// LDMEA", encodings T2 and T1. Bit k of `list` is register k.
#[derive(Clone, Copy)]
pub struct T14 {
    pub name: WideListName,
    /// Whether the base gets the address at the other end of the list.
    pub w: Bit,
    pub n: Register,
    pub list: Below<65536>,
    pub ghost rules: { IsTrue (is_wide_list name w.value n.value list.value) },
}

/// The operation of the row T15, `vpush` or `vpop`: DDI0553, "VPUSH" and "VPOP".
#[derive(Clone, Copy)]
pub enum StackName {
    Vpush,
    Vpop,
}

/// `vpush`, `vpop {dv-dw}` of `k` registers from `v` on: DDI0553, "VPUSH" and "VPOP", encodings T1.
#[derive(Clone, Copy)]
pub struct T15 {
    pub name: StackName,
    pub v: Below<16>,
    pub k: Below<17>,
    pub ghost rules: { IsTrue (is_stacked v.value k.value) },
}
