//! Special registers, barriers, and what scalar instructions do to vector registers: rows of 32-bit codes.

ghost use Rattle.std.specs.Prelude.{ℕ, IsTrue, ◌≢◌};
ghost use Rattle.hm_isa.specs.Rules.{is_system_move};

use crate::fields::{Below, QRegister, Register};

/// A special register that the row T18 reads, by `mrs`: DDI0553, "MRS".
#[derive(Clone, Copy)]
pub enum ReadName {
    Apsr,
    Ipsr,
    Msp,
    Psp,
    Primask,
    Basepri,
    Control,
}

/// `mrs rd,NAME`. T18: DDI0553, "MRS".
#[derive(Clone, Copy)]
pub struct Mrs {
    pub name: ReadName,
    pub d: Register,
    pub ghost not_sp: { d.value ≢ 13 },
    pub ghost not_pc: { d.value ≢ 15 },
}

/// A special register that the row T18 writes, by `msr`: DDI0553, "MSR (register)".
#[derive(Clone, Copy)]
pub enum WrittenName {
    Apsr,
    Msp,
    Psp,
    Primask,
    Basepri,
    Control,
}

/// `msr NAME,rn`. T18: DDI0553, "MSR (register)".
#[derive(Clone, Copy)]
pub struct Msr {
    pub name: WrittenName,
    pub n: Register,
    pub ghost not_sp: { n.value ≢ 13 },
    pub ghost not_pc: { n.value ≢ 15 },
}

/// A special register, read by `mrs` or written by `msr`: DDI0553, "MRS" and "MSR (register)", encodings T1.
#[derive(Clone, Copy)]
pub enum T18 {
    Read(Mrs),
    Write(Msr),
}

/// A barrier of the row T19, `dsb`, `dmb` or `isb`, in the order of the codes: DDI0553, "DSB", "DMB" and "ISB".
#[derive(Clone, Copy)]
pub enum BarrierName {
    Dsb,
    Dmb,
    Isb,
}

/// `dsb`, `dmb`, `isb #o`. T19: DDI0553, "DSB", "DMB" and "ISB".
#[derive(Clone, Copy)]
pub struct Barrier {
    pub name: BarrierName,
    pub o: Below<16>,
}

/// An instruction that does nothing, `nop.w`, `dsb`, `dmb` or `isb`: DDI0553, "NOP", encoding T2, and "DSB", "DMB" and "ISB", encodings
/// T1.
#[derive(Clone, Copy)]
pub enum T19 {
    /// `nop.w`
    Nop,
    Barrier(Barrier),
}

/// The operation of the row T21, `vmrs` or `vmsr` of FPSCR, VPR or P0: DDI0553, "VMRS" and "VMSR".
#[derive(Clone, Copy)]
pub enum SystemMoveName {
    /// `vmrs rt,fpscr`, and with 15 as `t` `vmrs apsr_nzcv,fpscr`
    ReadFpscr,
    /// `vmrs rt,vpr`
    ReadVpr,
    /// `vmrs rt,p0`
    ReadP0,
    /// `vmsr fpscr,rt`
    WriteFpscr,
    /// `vmsr vpr,rt`
    WriteVpr,
    /// `vmsr p0,rt`
    WriteP0,
}

/// A move between a core register and FPSCR, VPR or its P0, `vmrs` or `vmsr`: DDI0553, "VMRS" and "VMSR", encodings T1.
#[derive(Clone, Copy)]
pub struct T21 {
    pub name: SystemMoveName,
    pub t: Register,
    pub ghost rules: { IsTrue (is_system_move name t.value) },
}

/// The operation of the row T22, `vmov.32` to a lane or from one: DDI0553, "VMOV (general-purpose register to vector lane)" and "VMOV
/// (vector lane to general-purpose register)".
#[derive(Clone, Copy)]
pub enum LaneMoveName {
    /// `vmov.32 qd[x],rt`
    ToLane,
    /// `vmov.32 rt,qd[x]`
    FromLane,
}

/// A move between a core register and word `x` of a vector register, `vmov.32`: DDI0553, "VMOV (general-purpose register to vector lane)"
/// and "VMOV (vector lane to general-purpose register)", encodings T1.
#[derive(Clone, Copy)]
pub struct T22 {
    pub name: LaneMoveName,
    pub x: Below<4>,
    pub q: QRegister,
    pub t: Register,
    pub ghost not_sp: { t.value ≢ 13 },
    pub ghost not_pc: { t.value ≢ 15 },
}
