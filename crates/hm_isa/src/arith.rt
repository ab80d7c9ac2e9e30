//! Shifts, products, quotients and choices: rows of 32-bit codes on core registers.

ghost use Rattle.std.specs.Prelude.{ℕ, IsTrue};
ghost use Rattle.hm_isa.specs.Rules.{are_general, is_accumulated, is_chosen, is_long_product, is_operation};

use crate::fields::{Below, Bit, Register};
use crate::narrow::ExtendName;

/// The operation of the row T8, `lsl.w`, `lsr.w`, `asr.w` or `ror.w`, in the order of its codes: DDI0553, "LSL (register)", "LSR
/// (register)", "ASR (register)" and "ROR (register)".
#[derive(Clone, Copy)]
pub enum WideShiftName {
    Lsl,
    Lsr,
    Asr,
    Ror,
}

/// `lsl.w`, `lsr.w`, `asr.w`, `ror.w rd,rn,rm`: DDI0553, "LSL (register)", "LSR (register)", "ASR (register)" and "ROR (register)",
/// encodings T2.
#[derive(Clone, Copy)]
pub struct T8 {
    pub name: WideShiftName,
    /// Whether the flags tell the result.
    pub s: Bit,
    /// The register that is shifted.
    pub n: Register,
    pub d: Register,
    /// The register whose low byte is the count.
    pub m: Register,
    pub ghost rules: { IsTrue (is_operation n.value d.value m.value) },
}

/// `sxth.w`, `uxth.w`, `sxtb.w`, `uxtb.w rd,rm,ror #8r`: DDI0553, "SXTH", "UXTH", "SXTB" and "UXTB", encodings T2.
#[derive(Clone, Copy)]
pub struct T9 {
    pub name: ExtendName,
    pub d: Register,
    /// By how many bytes the operand is rotated right.
    pub r: Below<4>,
    pub m: Register,
    pub ghost rules: { IsTrue (are_general d.value m.value) },
}

/// The operation of the row T10, `rev.w`, `rev16.w`, `rbit`, `revsh.w` or `clz`: DDI0553, "REV", "REV16", "REVSH", "RBIT" and "CLZ".
#[derive(Clone, Copy)]
pub enum BitsName {
    Rev,
    Rev16,
    Rbit,
    Revsh,
    Clz,
}

/// `rev.w`, `rev16.w`, `rbit`, `revsh.w`, `clz rd,rm`: DDI0553, "REV", "REV16" and "REVSH", encodings T2, "RBIT" and "CLZ", encodings T1.
#[derive(Clone, Copy)]
pub struct T10 {
    pub name: BitsName,
    pub d: Register,
    pub m: Register,
    pub ghost rules: { IsTrue (are_general d.value m.value) },
}

/// An operation of the row T11 on two registers, `mul`, `sdiv` or `udiv`: DDI0553, "MUL", "SDIV" and "UDIV".
#[derive(Clone, Copy)]
pub enum OperationName {
    Mul,
    Sdiv,
    Udiv,
}

/// `mul`, `sdiv`, `udiv rd,rn,rm`. T11: DDI0553, "MUL", "SDIV" and "UDIV".
#[derive(Clone, Copy)]
pub struct Operation {
    pub name: OperationName,
    pub n: Register,
    pub d: Register,
    pub m: Register,
    pub ghost rules: { IsTrue (is_operation n.value d.value m.value) },
}

/// Whether a product of the row T11 is added, by `mla`, or taken off, by `mls`: DDI0553, "MLA" and "MLS".
#[derive(Clone, Copy)]
pub enum AccumulateName {
    Mla,
    Mls,
}

/// `mla`, `mls rd,rn,rm,ra`. T11: DDI0553, "MLA" and "MLS".
#[derive(Clone, Copy)]
pub struct Accumulate {
    pub name: AccumulateName,
    pub n: Register,
    /// The register that the product is added to or taken off.
    pub a: Register,
    pub d: Register,
    pub m: Register,
    pub ghost rules: { IsTrue (is_accumulated n.value a.value d.value m.value) },
}

/// A product of 64 bits of the row T11, alone, by `smull` or `umull`, or added, by `smlal` or `umlal`: DDI0553, "SMULL", "UMULL", "SMLAL"
/// and "UMLAL".
#[derive(Clone, Copy)]
pub enum LongProductName {
    Smull,
    Umull,
    Smlal,
    Umlal,
}

/// `smull`, `umull`, `smlal`, `umlal rl,rh,rn,rm`. T11: DDI0553, "SMULL", "UMULL", "SMLAL" and "UMLAL".
#[derive(Clone, Copy)]
pub struct LongProduct {
    pub name: LongProductName,
    pub n: Register,
    /// The register of the low word.
    pub l: Register,
    /// The register of the high word.
    pub h: Register,
    pub m: Register,
    pub ghost rules: { IsTrue (is_long_product n.value l.value h.value m.value) },
}

/// A product or a quotient, `mul`, `mla`, `mls`, `smull`, `umull`, `smlal`, `umlal`, `sdiv` or `udiv`: DDI0553, "MUL", encoding T2, and
/// "MLA", "MLS", "SMULL", "UMULL", "SMLAL", "UMLAL", "SDIV" and "UDIV", encodings T1.
#[derive(Clone, Copy)]
pub enum T11 {
    Operation(Operation),
    Accumulate(Accumulate),
    Long(LongProduct),
}

/// The operation of the row T20, `csel`, `csinc`, `csinv` or `csneg`, in the order of its codes: DDI0553, "CSEL", "CSINC", "CSINV" and
/// "CSNEG".
#[derive(Clone, Copy)]
pub enum SelectName {
    Csel,
    Csinc,
    Csinv,
    Csneg,
}

/// `csel`, `csinc`, `csinv`, `csneg rd,rn,rm,cond`, where 15 as an operand stands for 0: DDI0553, "CSEL", "CSINC", "CSINV" and "CSNEG",
/// encodings T1.
#[derive(Clone, Copy)]
pub struct T20 {
    pub name: SelectName,
    /// The operand where the condition holds.
    pub n: Register,
    pub d: Register,
    /// The condition.
    pub c: Below<14>,
    /// The operand where it does not hold.
    pub m: Register,
    pub ghost rules: { IsTrue (is_chosen n.value d.value m.value) },
}
