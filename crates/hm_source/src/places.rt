//! Which addresses a line takes.

ghost use Rattle.std.specs.Prelude.{◌≡◌, ◌<◌, ◌^◌, ◌+◌, ◌*◌, ◌↔◌, ℕ, List, IsTrue, IsSome, IfSome, MatchOption};
ghost use Rattle.hm_source.specs.Directives.{Directed};
ghost use Rattle.hm_source.specs.Places.{HasPlace, HasRoom, next_place, padding};
ghost use Rattle.hm_source.specs.Shown.{ShowsSaid, ShowsDirected};
ghost use Rattle.hm_source.specs.Statements.{Said, directive};

use crate::directives::Directive;
use crate::statements::Statement;
use hm_base::{FLASH_SIZE, SRAM_SIZE, SRAM_START};

/// How many bytes there are from an address up to a multiple of n.
pub fn padding(n: u32, at: u32) -> u32
    requires some { 0 < n }
    ensures value { result ≡ padding n at }
    ensures below { result < n }
{
    (n - at % n) % n
}

/// Whether so many bytes from an address on lie whole in flash or whole in SRAM, or there are none.
fn has_room(at: u32, count: u64) -> bool
    requires few { count < 2 ^ 40 }
    ensures value { IsTrue result ↔ HasRoom at count }
{
    let start = u64::from(at);
    let end = start + count;
    let sram = u64::from(SRAM_START);
    count == 0
        || end <= u64::from(FLASH_SIZE)
        || (sram <= start && end <= sram + u64::from(SRAM_SIZE))
}

/// Where so many bytes end, from an address on, if there is room for them.
fn behind(at: u32, count: u64) -> Option<u32>
    requires few { count < 2 ^ 40 }
    ensures room { IsSome result ↔ HasRoom at count }
    ensures end { IfSome result (λ b. b ≡ at + count) }
{
    if has_room(at, count) {
        Some((u64::from(at) + count) as u32)
    } else {
        None
    }
}

/// Where the line behind a directive stands, if the directive has its place.
fn behind_directive(asked: Directive<'_>, at: u32) -> Option<u32>
    ensures place { (text : List ℕ) (a : Directed) → ShowsDirected text asked.entry a
        → MatchOption result (HasPlace (directive a) at → ⊥) (λ b. HasPlace (directive a) at × (b ≡ next_place (directive a) at)) }
{
    match asked {
        Directive::Org(to) => { if at <= to { Some(to) } else { None } }
        Directive::Align(multiple) => behind(at, u64::from(padding(multiple.bytes(), at))),
        Directive::Space(n) => behind(at, u64::from(n)),
        Directive::Values(values) => behind(
            at,
            u64::from(values.size.bytes()) * u64::from(values.count),
        ),
    }
}

/// Where the next line stands behind one at an address, if this has its place there.
pub fn behind_statement(statement: Statement<'_>, at: u32) -> Option<u32>
    ensures place { (text : List ℕ) (said : Said) → ShowsSaid text statement.entry said
        → MatchOption result (HasPlace said at → ⊥) (λ b. HasPlace said at × (b ≡ next_place said at)) }
{
    match statement {
        Statement::Nothing => Some(at),
        Statement::Instruction(width) => {
            if at % 2 == 0 {
                behind(at, u64::from(width))
            } else {
                None
            }
        }
        Statement::Directive(asked) => behind_directive(asked, at),
    }
}
