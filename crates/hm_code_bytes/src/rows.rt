//! Instructions of programs that are generated, as values.

ghost use Rattle.std.specs.Prelude.{◌<◌};
ghost use Rattle.hm_code_bytes.specs.Instructions.{IsAddRow, IsBitwiseRow, IsBreakpointRow, IsByteRow, IsDuplicateRow, IsHalfRow, IsSignedRow};
ghost use Rattle.hm_isa.specs.declared.data.HalfName.{HalfName};
ghost use Rattle.hm_isa.specs.declared.narrow.ByteName.{ByteName};
ghost use Rattle.hm_isa.specs.declared.vectors.AddName.{AddName};
ghost use Rattle.hm_isa.specs.declared.vectors.BitwiseName.{BitwiseName};
ghost use Rattle.hm_isa.specs.declared.vectors.Element.{Element};
ghost use Rattle.hm_isa.specs.declared.vectors.SignedName.{SignedName};

use hm_isa::{
    AddName, Below, BitwiseName, ByteName, Element, HalfName, Instr, S4, S18, Scalar, SignedName,
    T4, V1, V2, V3, V18, Vector,
};

/// `movs`, `cmp`, `adds` or `subs rd,#x`, where d is below 8 and x below 256: DDI0553, the sections named at the type S4.
pub fn byte_row(name: ByteName, d: u32, x: u32) -> Instr
    requires target { d < 8 }
    requires byte { x < 256 }
    ensures row { IsByteRow name d x result }
{
    let row = S4 {
        name,
        d: Below::new(d),
        i: Below::new(x),
    };
    Instr::Scalar(Scalar::S4(row))
}

/// `movw` or `movt rd,#x`, where d is below 13 and x has 16 bits: DDI0553, "MOV (immediate)", encoding T3, and "MOVT".
#[tactic(auto, using(crate::proofs::Made::half_made))]
pub fn half_row(name: HalfName, d: u32, x: u32) -> Instr
    requires target { d < 13 }
    requires half { x < 65536 }
    ensures row { IsHalfRow name d x result }
{
    let row = T4 {
        name,
        d: Below::new(d),
        i4: Below::new(x / 4096),
        i: Below::new(x / 2048 % 2),
        i3: Below::new(x / 256 % 8),
        i8: Below::new(x % 256),
    };
    Instr::Scalar(Scalar::T4(row))
}

/// `bkpt #x`, where x is below 256: it halts a program, but with 171 it asks something of the host (Arm's semihosting). DDI0553, "BKPT".
pub fn breakpoint_row(x: u32) -> Instr
    requires byte { x < 256 }
    ensures row { IsBreakpointRow x result }
{
    let row = S18 { i: Below::new(x) };
    Instr::Scalar(Scalar::S18(row))
}

/// `vdup qd,rt` of elements of a size, where d is below 8 and t below 13: DDI0553, "VDUP".
#[tactic(auto, using(crate::proofs::Made::duplicate_made))]
pub fn duplicate_row(size: Element, d: u32, t: u32) -> Instr
    requires target { d < 8 }
    requires source { t < 13 }
    ensures row { IsDuplicateRow size d t result }
{
    let row = V18 {
        size,
        d: Below::new(d),
        t: Below::new(t),
    };
    Instr::Vector(Vector::V18(row))
}

/// `vadd`, `vsub` or `vmul qd,qn,qm` of elements of 8 * 2^z bits, where z is below 3, and d, n and m below 8: DDI0553, "VADD (vector)",
/// "VSUB (vector)" and "VMUL (vector)".
pub fn add_row(z: u32, name: AddName, d: u32, n: u32, m: u32) -> Instr
    requires size { z < 3 }
    requires target { d < 8 }
    requires first { n < 8 }
    requires second { m < 8 }
    ensures row { IsAddRow z name d n m result }
{
    let row = V1 {
        name,
        z: Below::new(z),
        n: Below::new(n),
        d: Below::new(d),
        m: Below::new(m),
    };
    Instr::Vector(Vector::V1(row))
}

/// `vand`, `vbic`, `vorr`, `vorn` or `veor qd,qn,qm`, where d, n and m are below 8: DDI0553, "VAND", "VBIC (register)", "VORR", "VORN"
/// and "VEOR".
pub fn bitwise_row(name: BitwiseName, d: u32, n: u32, m: u32) -> Instr
    requires target { d < 8 }
    requires first { n < 8 }
    requires second { m < 8 }
    ensures row { IsBitwiseRow name d n m result }
{
    let row = V2 {
        name,
        n: Below::new(n),
        d: Below::new(d),
        m: Below::new(m),
    };
    Instr::Vector(Vector::V2(row))
}

/// `vmax`, `vmin` or one of their kin, `qd,qn,qm` of elements of 8 * 2^z bits, without a sign where u is 1, else 0; z is below 3, and d, n
/// and m below 8: DDI0553, the sections named at the type V3.
pub fn signed_row(u: u32, z: u32, name: SignedName, d: u32, n: u32, m: u32) -> Instr
    requires sign { u < 2 }
    requires size { z < 3 }
    requires target { d < 8 }
    requires first { n < 8 }
    requires second { m < 8 }
    ensures row { IsSignedRow u z name d n m result }
{
    let row = V3 {
        name,
        u: Below::new(u),
        z: Below::new(z),
        n: Below::new(n),
        d: Below::new(d),
        m: Below::new(m),
    };
    Instr::Vector(Vector::V3(row))
}
