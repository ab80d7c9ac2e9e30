//! The rows of 32-bit codes that combine a register with a constant or with another register.

ghost use Rattle.std.specs.Prelude.{ℕ, IsTrue};
ghost use Rattle.hm_isa.specs.DataRules.{is_bit_field, is_inserted, is_constant_row, is_saturated, is_shifted_row, is_wide_sum};
ghost use Rattle.hm_isa.specs.Rules.{is_general};

use crate::fields::{Below, Bit, Byte, Register};
use crate::narrow::SumName;

/// The operation of the rows T1 and T2, `and`, `bic`, `orr`, `orn`, `eor`, `add`, `adc`, `sbc`, `sub` or `rsb`, and so `tst`, `teq`,
/// `cmn` and `cmp`, `mov` and `mvn`, and of T2 `lsl`, `lsr`, `asr`, `ror` and `rrx`: DDI0553, "Data-processing (modified immediate)" and
/// "Data-processing (shifted register)".
#[derive(Clone, Copy)]
pub enum DataName {
    /// `and`, and `tst`
    And,
    /// `bic`
    Bic,
    /// `orr`, and `mov`
    Orr,
    /// `orn`, and `mvn`
    Orn,
    /// `eor`, and `teq`
    Eor,
    /// `add`, and `cmn`
    Add,
    /// `adc`
    Adc,
    /// `sbc`
    Sbc,
    /// `sub`, and `cmp`
    Sub,
    /// `rsb`
    Rsb,
}

/// `and.w`, `bic.w`, `orr.w`, `orn.w`, `eor.w`, `add.w`, `adc.w`, `sbc.w`, `sub.w`, `rsb.w rd,rn,#c`, where `i`, `i3` and `i8` stand
/// for the constant: DDI0553, "Data-processing (modified immediate)".
///
/// With `s` and `d` 15 it is `tst.w`, `teq.w`, `cmn.w` or `cmp.w rn,#c`, and with `n` 15 it is `mov.w` or `mvn.w`.
#[derive(Clone, Copy)]
pub struct T1 {
    pub name: DataName,
    /// Whether the flags tell the result.
    pub s: Bit,
    pub n: Register,
    pub d: Register,
    pub i: Bit,
    pub i3: Below<8>,
    pub i8: Byte,
    pub ghost rules: { IsTrue (is_constant_row name s.value n.value d.value i.value i3.value i8.value) },
}

/// `and.w`, `bic.w`, `orr.w`, `orn.w`, `eor.w`, `add.w`, `adc.w`, `sbc.w`, `sub.w`, `rsb.w rd,rn,rm,lsl #k`, where `i3` and
/// `i2` make k: DDI0553, "Data-processing (shifted register)".
///
/// With `s` and `d` 15 it is `tst.w`, `teq.w`, `cmn.w` or `cmp.w rn,rm`, and with `n` 15 it is `mvn.w`, `mov.w`, `lsl.w`, `lsr.w`,
/// `asr.w`, `ror.w` or `rrx`.
#[derive(Clone, Copy)]
pub struct T2 {
    pub name: DataName,
    /// Whether the flags tell the result.
    pub s: Bit,
    pub n: Register,
    pub d: Register,
    pub i3: Below<8>,
    pub i2: Below<4>,
    /// How to shift: 0 to 3 are `lsl`, `lsr`, `asr` and `ror`.
    pub ty: Below<4>,
    pub m: Register,
    pub ghost rules: { IsTrue (is_shifted_row name s.value n.value d.value i3.value i2.value ty.value m.value) },
}

/// `addw`, `subw rd,rn,#i12`, where `i`, `i3` and `i8` make the number: DDI0553, "ADD (immediate)" and "ADD (SP plus
/// immediate)", encodings T4, "SUB (immediate)", encoding T4, "SUB (SP minus immediate)", encoding T3, and "ADR", encodings T2 and T3.
#[derive(Clone, Copy)]
pub struct T3 {
    pub name: SumName,
    pub n: Register,
    pub d: Register,
    pub i: Bit,
    pub i3: Below<8>,
    pub i8: Byte,
    pub ghost rules: { IsTrue (is_wide_sum n.value d.value) },
}

/// The operation of the row T4, `movw` or `movt`: DDI0553, "MOV (immediate)" and "MOVT".
#[derive(Clone, Copy)]
pub enum HalfName {
    Movw,
    Movt,
}

/// `movw`, `movt rd,#i16`, where `i4`, `i`, `i3` and `i8` make the number: DDI0553, "MOV (immediate)", encoding T3, and "MOVT".
#[derive(Clone, Copy)]
pub struct T4 {
    pub name: HalfName,
    pub d: Register,
    pub i4: Below<16>,
    pub i: Bit,
    pub i3: Below<8>,
    pub i8: Byte,
    pub ghost rules: { IsTrue (is_general d.value) },
}

/// The operation of the row T5, `ssat` or `usat`: DDI0553, "SSAT" and "USAT".
#[derive(Clone, Copy)]
pub enum SaturateName {
    Ssat,
    Usat,
}

/// `ssat rd,#s+1,rn,lsl #k`, `usat rd,#s,rn,lsl #k`, or `asr` for `lsl`, where `i3` and `i2` make k: DDI0553, "SSAT" and "USAT".
#[derive(Clone, Copy)]
pub struct T5 {
    pub name: SaturateName,
    /// How to shift: 0 is `lsl`, 1 is `asr`.
    pub sh: Bit,
    pub n: Register,
    pub d: Register,
    pub i3: Below<8>,
    pub i2: Below<4>,
    pub s: Below<32>,
    pub ghost rules: { IsTrue (is_saturated sh.value n.value d.value i3.value i2.value) },
}

/// The operation of the row T6, `sbfx` or `ubfx`: DDI0553, "SBFX" and "UBFX".
#[derive(Clone, Copy)]
pub enum ExtractName {
    Sbfx,
    Ubfx,
}

/// `sbfx`, `ubfx rd,rn,#lsb,#w+1`, where `i3` and `i2` make lsb: DDI0553, "SBFX" and "UBFX".
#[derive(Clone, Copy)]
pub struct T6 {
    pub name: ExtractName,
    pub n: Register,
    pub d: Register,
    pub i3: Below<8>,
    pub i2: Below<4>,
    pub w: Below<32>,
    pub ghost rules: { IsTrue (is_bit_field n.value d.value i3.value i2.value w.value) },
}

/// `bfi rd,rn,#lsb,#width`, and with `n` 15 `bfc rd,#lsb,#width`, where `i3` and `i2` make lsb and `e` is the highest bit of the
/// field: DDI0553, "BFI" and "BFC".
#[derive(Clone, Copy)]
pub struct T7 {
    pub n: Register,
    pub d: Register,
    pub i3: Below<8>,
    pub i2: Below<4>,
    pub e: Below<32>,
    pub ghost rules: { IsTrue (is_inserted n.value d.value i3.value i2.value e.value) },
}
