//! The lines of a report, but for that of the system registers: how the run ended, the mode, the registers, the position and the output.
#![tactic(auto)]

mod laws;
mod outcome_text;
mod registers_text;

ghost use Rattle.std.specs.Prelude.{◌≡◌, IfOk};
ghost use Rattle.hm_run.specs.Report.{mode_line, output_lines};

use hm_base::OutOfMemory;
use hm_text_base::{hex_bytes, text};
pub use laws::report_law;
use outcome_text::number_text;
pub use outcome_text::{halted_text, kind_text, outcome_line, slot_text, who_text, word_text};
pub use registers_text::{
    flags_line, low_lines, next_word, pointer_lines, position_line, state_lines, vector_lines,
};
use std::alloc::Global;

/// Adds the line of the mode: the thread, or a handler and how many exceptions are active.
pub fn mode_line(
    alloc: Global,
    out: &mut Vec<u8>,
    depth: usize,
    ipsr: u16,
) -> Result<(), OutOfMemory>
    ensures { IfOk result (λ _. out.new.items ≡ mode_line depth ipsr out.old.items) }
{
    if depth == 0 {
        return text(out, b"mode thread\n");
    }
    number_text(alloc, out, b"mode handler ", ipsr as u64)?;
    number_text(alloc, out, b" depth ", depth as u64)?;
    text(out, b"\n")
}

/// Adds the lines of the output: how many bytes, and the bytes.
pub fn output_lines(alloc: Global, out: &mut Vec<u8>, bytes: &[u8]) -> Result<(), OutOfMemory>
    ensures { IfOk result (λ _. out.new.items ≡ output_lines bytes.now out.old.items) }
{
    number_text(alloc, out, b"output ", bytes.len() as u64)?;
    text(out, b"\n")?;
    hex_bytes(alloc, out, bytes)?;
    text(out, b"\n")
}
