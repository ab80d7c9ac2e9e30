//! What an expression is made of, and how much room its code takes.

ghost use Rattle.std.specs.Prelude.{◌≡◌, ℕ, ◌+◌, ◌<◌, ◌≤◌, ◌++◌};
ghost use Rattle.hm_kernel_lang.specs.Code.{end_code, expr_code, halves_of};
ghost use Rattle.hm_kernel_lang.specs.Language.{names, numbers, operations};

use hm_kernel_lang::text::Expr;

/// How many names, numbers and operations an expression has.
#[derive(Clone, Copy)]
pub struct Parts {
    pub names: u32,
    pub numbers: u32,
    pub operations: u32,
}

/// The parts of an expression, which has one operation fewer than names and numbers.
pub fn parts_of(e: &Expr) -> Parts
    requires few { names e.now + numbers e.now ≤ 64 }
    ensures names { result.names ≡ names e.now }
    ensures numbers { result.numbers ≡ numbers e.now }
    ensures operations { result.operations ≡ operations e.now }
    ensures fewer { result.operations + 1 ≡ result.names + result.numbers }
{
    match e {
        Expr::Name(_) => Parts {
            names: 1,
            numbers: 0,
            operations: 0,
        },
        Expr::Number(_) => Parts {
            names: 0,
            numbers: 1,
            operations: 0,
        },
        Expr::Apply(_, left, right) => {
            let one = parts_of(left);
            let other = parts_of(right);
            Parts {
                names: one.names + other.names,
                numbers: one.numbers + other.numbers,
                operations: one.operations + other.operations + 1,
            }
        }
    }
}

/// How many halfwords lie between the instruction that begins the loop of a line and the one behind its end: 7 for each name, 6 for
/// each number, 2 for each operation, 8 that store the value and go on, and 2 of the branch back.
pub fn loop_halves(e: &Expr) -> u32
    requires few { names e.now + numbers e.now ≤ 64 }
    ensures value { (at : ℕ → ℕ) (a : ℕ) → result ≡ halves_of (expr_code at e.now 0 ++ end_code a) + 2 }
    ensures near { result < 2048 }
{
    let parts = parts_of(e);
    7 * parts.names + 6 * parts.numbers + 2 * parts.operations + 10
}
