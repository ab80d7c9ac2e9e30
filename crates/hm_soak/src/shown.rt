//! The line of a soak.

ghost use Rattle.std.specs.Prelude.{◌≡◌, ◌↔◌, ◌++◌, ℕ, true, List, IfOk, IsTrue, Some};
ghost use Rattle.std.specs.Fmt.{decimal};
ghost use Rattle.hm_base.specs.Image.{Segment, flash_byte};
ghost use Rattle.hm_codes.specs.Listing.{IsListing, Listing};
ghost use Rattle.hm_machine.specs.Shown.{timed_of};
ghost use Rattle.hm_run.specs.declared.Outcome.TheVariants.{Halted};
ghost use Rattle.hm_run.specs.declared.Reason.{Reason};
ghost use Rattle.hm_soak_laws.specs.Image.{IsSoak};
ghost use Rattle.hm_soak_laws.specs.Schedule.{schedule};
ghost use Rattle.hm_soak_laws.specs.Summary.{IsSoakLine, SameShown, entered, scheduled, summary_text};

use crate::making::make;
use crate::runs::{load, run_counting, run_plainly};
use hm_base::OutOfMemory;
use hm_machine::Machine;
use hm_text_base::{decimal, text};
use std::alloc::Global;

/// Whether two machines show the same registers, and the same output.
fn same_shown(x: &Machine, y: &Machine) -> bool
    ensures same { IsTrue result ↔ SameShown (timed_of x.now).config.state (timed_of y.now).config.state }
{
    x.regs() == y.regs() && x.output() == y.output()
}

/// Adds a word and a number.
fn add_number(alloc: Global, out: &mut Vec<u8>, name: &[u8], n: u64) -> Result<(), OutOfMemory>
    ensures added { IfOk result (λ _. out.new.items ≡ out.old.items ++ name.now ++ decimal n) }
{
    text(out, name)?;
    decimal(alloc, out, n)
}

/// The line that says how many instructions were retired, ticks begun and handlers entered, and whether both runs show the same.
fn line(
    alloc: Global,
    number: u32,
    retired: u64,
    ticks: u32,
    entries: u32,
    same: bool,
) -> Result<Vec<u8>, OutOfMemory>
    ensures value { IfOk result (λ out. out.items ≡ summary_text number retired ticks entries same) }
{
    let mut out = Vec::new(alloc);
    add_number(alloc, &mut out, b"soak ", number as u64)?;
    add_number(alloc, &mut out, b" instructions ", retired)?;
    add_number(alloc, &mut out, b" ticks ", ticks as u64)?;
    add_number(alloc, &mut out, b" entries ", entries as u64)?;
    text(&mut out, if same { b" equal" } else { b" differ" })?;
    text(&mut out, b"\n")?;
    Ok(out)
}

/// The line of the soak of a number: `soak N instructions n ticks t entries e equal`, or `differ` in place of `equal`. The run under the soak's schedule
/// says n, t and e, and all its registers (the flags, IT, FPSCR, VPR and the vector registers are among them) and its output are compared with those of
/// its instructions in order.
pub fn summary(alloc: Global, number: u32) -> Result<Vec<u8>, OutOfMemory>
    ensures line { IfOk result (λ out. IsSoakLine number out.items) }
    // It never says `differ` where the run under the schedule halts.
    ensures equal { IfOk result (λ out. (image : List Segment) (listing : Listing) (r : Reason) (n : ℕ) → IsSoak number image
        → IsListing (flash_byte image) listing
        → (scheduled listing image).outcome ≡ Some (Halted r n)
        → out.items ≡ (let x = scheduled listing image in summary_text number 4113 x.ticks (entered listing image schedule x.ticks) true)) }
{
    let (image, schedule) = make(alloc, number)?;
    let mut scheduled = load(alloc, &image, schedule)?;
    let entries = run_counting(&mut scheduled);
    let plainly = run_plainly(alloc, &image)?;
    let same = same_shown(&scheduled, &plainly);
    line(
        alloc,
        number,
        scheduled.retired(),
        scheduled.ticks(),
        entries,
        same,
    )
}
