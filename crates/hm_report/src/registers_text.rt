//! The line of the system registers, and the lines of all registers.

ghost use Rattle.std.specs.Prelude.{◌≡◌, IfOk};
ghost use Rattle.hm_run.specs.Report.{system_line, special_lines, register_lines};

use hm_base::OutOfMemory;
use hm_regs::Regs;
use hm_report_lines::{
    flags_line, low_lines, next_word, pointer_lines, position_line, state_lines, vector_lines,
};
use hm_text_base::{binary_digit, hex2, hex8, separator, text};
use hm_window::Window;
use std::alloc::Global;

/// Adds the line of both stack pointers, SPSEL and BASEPRI.
fn system_line(out: &mut Vec<u8>, regs: &Regs) -> Result<(), OutOfMemory>
    ensures { IfOk result (λ _. out.new.items ≡ system_line regs.now out.old.items) }
{
    text(out, b"system ")?;
    hex8(out, regs.main_pointer())?;
    next_word(out, regs.process_pointer())?;
    separator(out)?;
    binary_digit(out, regs.spsel)?;
    separator(out)?;
    hex2(out, regs.basepri)?;
    text(out, b"\n")
}

/// Adds the lines of the state, and that of the system.
fn special_lines(out: &mut Vec<u8>, regs: &Regs) -> Result<(), OutOfMemory>
    ensures { IfOk result (λ _. out.new.items ≡ special_lines regs.now out.old.items) }
{
    state_lines(out, regs)?;
    system_line(out, regs)
}

/// Adds the lines of the registers, at a position.
#[tactic(auto, unfolding(hm_run::specs::Report::register_lines))]
pub fn register_lines(
    alloc: Global,
    out: &mut Vec<u8>,
    regs: &Regs,
    position: Window,
) -> Result<(), OutOfMemory>
    ensures { IfOk result (λ _. out.new.items ≡ register_lines regs.now position.a position.b out.old.items) }
{
    low_lines(alloc, out, &regs.r)?;
    pointer_lines(out, regs)?;
    position_line(alloc, out, position)?;
    flags_line(out, regs)?;
    special_lines(out, regs)?;
    vector_lines(alloc, out, &regs.qw)
}
