//! The timer SysTick, interrupts that arrive, and the exception that enters.
#![tactic(auto)]

mod exceptions;

ghost use Rattle.std.specs.Prelude.{◌≡◌, ◌/◌, ◌%◌, ◌==◌, ◌||◌};
ghost use Rattle.hm_sys.specs.Ticks.{at_zero, counted, is_counting};

pub use exceptions::{accept, arrive, arrive_all, candidate, priority};
use hm_mem::{COUNTFLAG, Dev};

/// Whether SysTick counts: ENABLE of SYST_CSR.
fn is_counting(d: &Dev) -> bool
    ensures { result ≡ is_counting d.now }
{
    d.csr % 2 == 1
}

/// Whether SysTick is pending once it has come to 0: it was, or TICKINT of SYST_CSR is set.
fn is_pending(d: &Dev) -> bool
    ensures { result ≡ (d.now.tick_pending || (d.now.csr / 2 % 2 == 1)) }
{
    d.tick_pending || d.csr / 2 % 2 == 1
}

/// SysTick comes to 0.
fn expire(d: &mut Dev)
    ensures { d.new ≡ at_zero d.old }
{
    let pending = is_pending(d);
    d.csr |= COUNTFLAG;
    d.tick_pending = pending;
}

/// SysTick counts once (DDI0553, "SysTick Control and Status Register"): where it is enabled it goes down by 1, and from 0 to the reload
/// value. Where it comes to 0 it sets COUNTFLAG, and is pending where TICKINT is set.
pub fn count(d: &mut Dev)
    ensures { d.new ≡ counted d.old }
{
    if !is_counting(d) {
        return;
    }
    if d.cvr == 0 {
        d.cvr = d.rvr;
        return;
    }
    d.cvr -= 1;
    if d.cvr == 0 {
        expire(d);
    }
}
