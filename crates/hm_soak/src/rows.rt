//! The instructions of a soak, as values.

ghost use Rattle.std.specs.Prelude.{◌<◌};
ghost use Rattle.hm_soak_laws.specs.Image.{IsBx, IsItem, IsNop, IsStr};
ghost use Rattle.hm_soak_laws.specs.Soak.{operation};

use hm_code_bytes::rows::{add_row, bitwise_row, signed_row};
use hm_isa::{
    AddName, Below, BitwiseName, Branch, HintName, Instr, JumpName, PlainName, S16, S19, S23,
    Scalar, SignedName,
};

/// Elements of 32 bits, as the field z of V1 and V3 has them.
const WORDS: u32 = 2;

/// Elements with a sign, as the field u of V3 has them.
const SIGNED: u32 = 0;

/// `str rt,[rn,#0]`.
pub fn store(t: u32, n: u32) -> Instr
    requires from { t < 8 }
    requires to { n < 8 }
    ensures row { IsStr t n result }
{
    let row = S16 {
        name: PlainName::Str,
        i: Below::new(0),
        n: Below::new(n),
        t: Below::new(t),
    };
    Instr::Scalar(Scalar::S16(row))
}

/// Operation k of a draw v, whose bits say which one it is and which registers its operands stand in.
pub fn operation(k: u32, v: u32) -> Instr
    ensures row { IsItem (operation k v) result }
{
    let d = k % 4;
    let n = 4 + v / 65536 % 4;
    let m = 4 + v / 262144 % 4;
    match v / 256 % 5 {
        0 => add_row(WORDS, AddName::Add, d, n, m),
        1 => add_row(WORDS, AddName::Sub, d, n, m),
        2 => add_row(WORDS, AddName::Mul, d, n, m),
        3 => bitwise_row(BitwiseName::Eor, d, n, m),
        _ => signed_row(SIGNED, WORDS, SignedName::Max, d, n, m),
    }
}

/// `nop`.
pub fn no_operation() -> Instr
    ensures row { IsNop result }
{
    let row = S19 {
        name: HintName::Nop,
    };
    Instr::Scalar(Scalar::S19(row))
}

/// `bx lr`.
pub fn branch_to_link() -> Instr
    ensures row { IsBx 14 result }
{
    let row = S23 {
        name: JumpName::Bx,
        m: Below::new(14),
    };
    Instr::Branch(Branch::S23(row))
}
