//! The text of a report: how a run ended, and then the registers, the position and the output.
#![tactic(auto)]

mod registers_text;

ghost use Rattle.std.specs.Prelude.{◌≡◌, IfOk};
ghost use Rattle.hm_run.specs.Report.{report_of};

use hm_base::OutOfMemory;
use hm_regs::Regs;
use hm_report_lines::{mode_line, outcome_line, output_lines};
use hm_run::Outcome;
use hm_window::Window;
use registers_text::register_lines;
use std::alloc::Global;

/// The report of a run that ended so (or runs still), with so many active exceptions, these registers, this position
/// and this output.
pub fn report(
    alloc: Global,
    outcome: Option<Outcome>,
    depth: usize,
    regs: &Regs,
    position: Window,
    output: &[u8],
) -> Result<Vec<u8>, OutOfMemory>
    ensures { IfOk result (λ out. out.items ≡ report_of outcome depth regs.now position.a position.b output.now) }
{
    let mut out = outcome_line(alloc, outcome)?;
    mode_line(alloc, &mut out, depth, regs.ipsr)?;
    register_lines(alloc, &mut out, regs, position)?;
    output_lines(alloc, &mut out, output)?;
    Ok(out)
}
