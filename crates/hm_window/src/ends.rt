//! The ends of ticks, and the ECI values of positions.

ghost use Rattle.std.specs.Prelude.{◌≡◌, cond, IsTrue, None, Some};
ghost use Rattle.hm_window.specs.Overlap.{judged};
ghost use Rattle.hm_window.specs.Positions.{may_end, window_of};

use crate::rule::{Rule, Window};

/// Whether a tick may end at a position: only where there is an ECI value for it (DDI0553, "ECI").
pub fn ending(at: Window) -> Result<(), Rule>
    ensures value { result ≡ judged (cond (may_end at.a at.b) None (Some (Rule.Ending at.a at.b))) }
{
    if (at.b == 0 && at.a < 4) || (at.a == 3 && at.b == 1) {
        Ok(())
    } else {
        Err(Rule::Ending { a: at.a, b: at.b })
    }
}

/// The ECI value of a position at which a tick may end.
pub fn eci(at: Window) -> u8
    requires { IsTrue (may_end at.a at.b) }
    ensures value { window_of result ≡ Some at }
{
    if at.b == 1 {
        5
    } else if at.a == 3 {
        4
    } else {
        at.a
    }
}

/// The position that an ECI value stands for: none exactly for 3, and for 6 and above.
pub fn window(eci: u8) -> Option<Window>
    ensures value { result ≡ window_of eci }
{
    let (a, b) = match eci {
        0..=2 => (eci, 0),
        4 => (3, 0),
        5 => (3, 1),
        _ => return None,
    };
    Some(Window { a, b })
}
