//! Codes of instructions as bytes: halfwords one behind another, each with its low byte first; and instructions and images of programs that
//! are generated.
#![tactic(auto)]

ghost use Rattle.std.specs.Prelude.{◌≡◌, ◌++◌, [], ◌∷◌, IfOk};
ghost use Rattle.hm_code_bytes.specs.Bytes.{code_bytes, half_bytes, word_bytes};
ghost use Rattle.hm_isa.specs.Code.{halfwords, two_halves};

mod flat;
pub mod rows;

use arrayvec::ArrayVec;
pub use flat::flat_image;
use hm_base::OutOfMemory;
use hm_enc16::encode16;
use hm_enc32::encode32;
use hm_encv::encodev;
use hm_isa::{ByWidth, Instr, by_width};

/// The bytes of a code: two or four.
pub type Code = ArrayVec<u8, 4>;

/// Adds a little-endian word.
pub fn add_word(out: &mut Vec<u8>, word: u32) -> Result<(), OutOfMemory>
    ensures added { IfOk result (λ _. out.new.items ≡ out.old.items ++ word_bytes word) }
{
    out.extend_from_slice(&word.to_le_bytes())?;
    Ok(())
}

/// The bytes of a code of one halfword.
fn narrow(half: u16) -> Code
    ensures bytes { result.items ≡ half_bytes (half ∷ []) }
{
    let [low, high] = half.to_le_bytes();
    let mut out = ArrayVec::new();
    out.push(low);
    out.push(high);
    out
}

/// The bytes of a code of two halfwords, the first in bits 31 to 16.
fn wide(word: u32) -> Code
    ensures bytes { result.items ≡ half_bytes (two_halves word) }
{
    let [first, second] = ((word / 65536) as u16).to_le_bytes();
    let [third, fourth] = ((word % 65536) as u16).to_le_bytes();
    let mut out = ArrayVec::new();
    out.push(first);
    out.push(second);
    out.push(third);
    out.push(fourth);
    out
}

/// The bytes of the code of an instruction: each halfword with its low byte first.
pub fn code_bytes(i: &Instr) -> Code
    ensures bytes { result.items ≡ code_bytes i.now }
{
    match by_width(i) {
        ByWidth::Narrow(_) => narrow(encode16(i)),
        ByWidth::Wide(_) => wide(encode32(i)),
        ByWidth::Vector(v) => wide(encodev(&v)),
    }
}

/// Adds the code of an instruction.
pub fn add_code(out: &mut Vec<u8>, i: &Instr) -> Result<(), OutOfMemory>
    ensures added { IfOk result (λ _. out.new.items ≡ out.old.items ++ half_bytes (halfwords i.now)) }
{
    let code = code_bytes(i);
    out.extend_from_slice(code.as_slice())?;
    Ok(())
}
