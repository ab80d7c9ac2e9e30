//! The place of a run in its schedule.

ghost use Rattle.std.specs.Prelude.{◌≡◌, ◌+◌, ◌-◌, ◌<◌, ◌≤◌, [], ◌∷◌, drop, suc, length, slice_get, Some, IfSome, IfNone};
ghost use Rattle.hm_machine.specs.Machines.{left_at, StandsIn};
ghost use Rattle.hm_sched.specs.Schedule.{line_of, repeat, ticks_of};

use hm_sched::{Line, Schedule};

/// A line of a schedule, and how many of its ticks are done.
#[derive(Clone, Copy)]
pub struct Cursor {
    pub line: usize,
    pub used: u32,
}

/// The line in which a cursor stands: that of the first tick that is left.
pub fn line_at<'a>(schedule: &'a Schedule, cursor: Cursor) -> &'a Line
    requires { StandsIn schedule.now.lines cursor }
    ensures first { left_at schedule.now.lines cursor ≡ line_of result.now ∷ drop 1 (left_at schedule.now.lines cursor) }
    ensures others { drop 1 (left_at schedule.now.lines cursor)
        ≡ repeat (result.now.count - (cursor.used + 1)) (line_of result.now) (ticks_of (drop (suc cursor.line) schedule.now.lines)) }
    ensures here { slice_get schedule.now.lines cursor.line ≡ Some (line_of result.now) }
    ensures some { cursor.used < result.now.count }
    ensures few { length result.now.letters.items ≤ 8 }
{
    let _known = schedule.lines();
    schedule.line(cursor.line)
}

/// The cursor after one more tick of the line in which it stands; None where that was the last.
pub fn after_tick(schedule: &Schedule, line: &Line, cursor: Cursor) -> Option<Cursor>
    requires stands { StandsIn schedule.now.lines cursor }
    requires here { slice_get schedule.now.lines cursor.line ≡ Some (line_of line.now) }
    requires some { cursor.used < line.now.count }
    ensures none { IfNone result (drop 1 (left_at schedule.now.lines cursor) ≡ []) }
    ensures left { IfSome result (λ next. left_at schedule.now.lines next ≡ drop 1 (left_at schedule.now.lines cursor)) }
    ensures stands { IfSome result (λ next. StandsIn schedule.now.lines next) }
{
    let lines = schedule.lines();
    let count = line.count;
    if cursor.used + 1 < count {
        return Some(Cursor {
            line: cursor.line,
            used: cursor.used + 1,
        });
    }
    if cursor.line + 1 < lines {
        return Some(Cursor {
            line: cursor.line + 1,
            used: 0,
        });
    }
    None
}
