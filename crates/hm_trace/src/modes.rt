//! Who runs, as text.

ghost use Rattle.std.specs.Prelude.{◌≡◌, ◌++◌, IfOk, reverse};
ghost use Rattle.hm_machine.specs.Shown.{timed_of};
ghost use Rattle.hm_trace.specs.Lines.{mode_text, numbers_text};

use hm_base::OutOfMemory;
use hm_exc::Activation;
use hm_machine::Machine;
use hm_text_base::{decimal, separator, text};
use std::alloc::Global;

/// Adds a space and the number of each handler that is active, the oldest first.
fn add_numbers(alloc: Global, out: &mut Vec<u8>, active: &[Activation]) -> Result<(), OutOfMemory>
    ensures added { IfOk result (λ _. out.new.items ≡ out.old.items ++ numbers_text (reverse active.now)) }
{
    for x in active {
        separator(out)?;
        decimal(alloc, out, u64::from(x.number))?;
    }
    Ok(())
}

/// Adds who runs: the thread, or the handlers that are active.
pub fn add_mode(alloc: Global, out: &mut Vec<u8>, machine: &Machine) -> Result<(), OutOfMemory>
    ensures added { IfOk result (λ _. out.new.items ≡ out.old.items ++ mode_text (timed_of machine.now).acts) }
{
    let active = machine.active();
    if active.is_empty() {
        return text(out, b"thread");
    }
    text(out, b"handler")?;
    add_numbers(alloc, out, active)
}
