//! How many steps the code of a text takes.

ghost use Rattle.std.specs.Prelude.{◌≡◌, ◌+◌, ◌<◌, ◌≤◌, ◌^◌};
ghost use Rattle.hm_kernel_lang.specs.Language.{line_steps, names, numbers, rounds, steps};
ghost use Rattle.hm_kernel_lang.specs.Texts.{IsText};

use crate::parts::parts_of;
use hm_kernel_lang::text::{ElementType, Expr, Text};

/// How many vectors of 128 bits hold so many elements.
fn rounds_of(t: ElementType, count: u32) -> u32
    requires few { count ≤ 65536 }
    ensures value { result ≡ rounds t count }
    ensures few { result ≤ 16384 }
{
    (count * (8 * t.bytes())).div_ceil(128)
}

/// How many steps a line takes with so many elements.
fn line_steps(t: ElementType, count: u32, e: &Expr) -> u64
    requires count { count ≤ 65536 }
    requires few { names e.now + numbers e.now ≤ 64 }
    ensures value { result ≡ line_steps t count e.now }
    ensures small { result < 2 ^ 24 }
{
    let parts = parts_of(e);
    let round = 4 * parts.names + 3 * parts.numbers + parts.operations + 6;
    (4 + rounds_of(t, count) * round) as u64
}

/// How many steps the code of a text takes to its end, the breakpoint among them.
pub fn steps_of(text: &Text) -> u64
    requires text { IsText text.now }
    ensures value { result ≡ steps text.now }
{
    let mut total = 1;
    for line in text.lines.iter() {
        total += line_steps(text.element, text.count, &line.expr);
    }
    total
}
