//! The lines of the registers, but for those of the system, and what such lines share.

ghost use Rattle.std.specs.Prelude.{◌≡◌, ◌+◌, ◌*◌, ◌<◌, ◌≤◌, ◌++◌, length, IfOk};
ghost use Rattle.hm_text_base.specs.Texts.{hex8, separator};
ghost use Rattle.hm_run.specs.Report.{low_lines, word_line, pointer_lines, position_line, flags_line, bit_line, state_lines, vector_words};
ghost use Rattle.hm_run.specs.Report.{vector_line, vector_lines};

use crate::outcome_text::number_text;
use hm_base::OutOfMemory;
use hm_regs::Regs;
use hm_text_base::{binary_digit, decimal, hex2, hex8, separator, text};
use hm_window::Window;
use std::alloc::Global;

/// Adds a word behind a separator, as eight hexadecimal digits.
pub fn next_word(out: &mut Vec<u8>, x: u32) -> Result<(), OutOfMemory>
    ensures { IfOk result (λ _. out.new.items ≡ out.old.items ++ separator ++ hex8 x) }
{
    separator(out)?;
    hex8(out, x)
}

/// Adds the lines of r0 to r12.
pub fn low_lines(alloc: Global, out: &mut Vec<u8>, r: &[u32; 13]) -> Result<(), OutOfMemory>
    ensures { IfOk result (λ _. out.new.items ≡ low_lines 13 r.now out.old.items) }
{
    for k in 0..13_usize {
        number_text(alloc, out, b"r", k as u64)?;
        next_word(out, r[k])?;
        text(out, b"\n")?;
    }
    Ok(())
}

/// Adds a line of a name and a word.
fn word_line(out: &mut Vec<u8>, name: &[u8], x: u32) -> Result<(), OutOfMemory>
    ensures { IfOk result (λ _. out.new.items ≡ word_line name.now x out.old.items) }
{
    text(out, name)?;
    next_word(out, x)?;
    text(out, b"\n")
}

/// Adds a line of a name and a bit.
fn bit_line(out: &mut Vec<u8>, name: &[u8], b: bool) -> Result<(), OutOfMemory>
    ensures { IfOk result (λ _. out.new.items ≡ bit_line name.now b out.old.items) }
{
    text(out, name)?;
    separator(out)?;
    binary_digit(out, b)?;
    text(out, b"\n")
}

/// Adds the lines of sp, lr and pc.
pub fn pointer_lines(out: &mut Vec<u8>, regs: &Regs) -> Result<(), OutOfMemory>
    ensures { IfOk result (λ _. out.new.items ≡ pointer_lines regs.now out.old.items) }
{
    word_line(out, b"sp", regs.sp)?;
    word_line(out, b"lr", regs.lr)?;
    word_line(out, b"pc", regs.pc)
}

/// Adds the line of the position: how many beats are done of the older instruction, and of the younger.
pub fn position_line(alloc: Global, out: &mut Vec<u8>, position: Window) -> Result<(), OutOfMemory>
    ensures { IfOk result (λ _. out.new.items ≡ position_line position.a position.b out.old.items) }
{
    number_text(alloc, out, b"position ", position.a as u64)?;
    separator(out)?;
    decimal(alloc, out, position.b as u64)?;
    text(out, b"\n")
}

/// Adds the line of N, Z, C, V and Q.
pub fn flags_line(out: &mut Vec<u8>, regs: &Regs) -> Result<(), OutOfMemory>
    ensures { IfOk result (λ _. out.new.items ≡ flags_line regs.now out.old.items) }
{
    text(out, b"flags ")?;
    binary_digit(out, regs.n)?;
    binary_digit(out, regs.z)?;
    binary_digit(out, regs.c)?;
    binary_digit(out, regs.v)?;
    binary_digit(out, regs.q)?;
    text(out, b"\n")
}

/// Adds the lines of the IT byte, FPSCR, VPR, whether there is a context, and PRIMASK.
pub fn state_lines(out: &mut Vec<u8>, regs: &Regs) -> Result<(), OutOfMemory>
    ensures { IfOk result (λ _. out.new.items ≡ state_lines regs.now out.old.items) }
{
    text(out, b"it ")?;
    hex2(out, regs.it)?;
    text(out, b"\n")?;
    word_line(out, b"fpscr", regs.fpscr)?;
    word_line(out, b"vpr", regs.vpr)?;
    bit_line(out, b"fpca", regs.fpca)?;
    bit_line(out, b"primask", regs.primask)
}

/// Adds the words of vector register k.
fn vector_words(out: &mut Vec<u8>, k: usize, words: &[u32]) -> Result<(), OutOfMemory>
    requires { 4 * k + 3 < length words.now }
    ensures { IfOk result (λ _. out.new.items ≡ vector_words k words.now out.old.items) }
{
    hex8(out, words[4 * k])?;
    next_word(out, words[4 * k + 1])?;
    next_word(out, words[4 * k + 2])?;
    next_word(out, words[4 * k + 3])
}

/// Adds the line of vector register k.
fn vector_line(alloc: Global, out: &mut Vec<u8>, k: usize, words: &[u32]) -> Result<(), OutOfMemory>
    requires { 4 * k + 3 < length words.now }
    ensures { IfOk result (λ _. out.new.items ≡ vector_line k words.now out.old.items) }
{
    number_text(alloc, out, b"q", k as u64)?;
    separator(out)?;
    vector_words(out, k, words)?;
    text(out, b"\n")
}

/// Adds the lines of the vector registers, of each of which `words` has four words, the lowest first.
pub fn vector_lines(alloc: Global, out: &mut Vec<u8>, words: &[u32; 32]) -> Result<(), OutOfMemory>
    ensures { IfOk result (λ _. out.new.items ≡ vector_lines 8 words.now out.old.items) }
{
    for k in 0..8_usize {
        vector_line(alloc, out, k, words)?;
    }
    Ok(())
}
