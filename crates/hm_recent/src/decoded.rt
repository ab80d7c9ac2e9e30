//! Instructions as they are executed: done whole, or by beats.

ghost use Rattle.std.specs.Prelude.{◌≡◌, ◌<◌, ◌≤◌, not, option_map, IsTrue};
ghost use Rattle.hm_exec.specs.Families.{row_of};
ghost use Rattle.hm_thumb.specs.Families.{is_vector_row};

use hm_exec::{Any, any};
use hm_isa::Instr;

/// An instruction that is no vector row.
#[derive(Clone, Copy)]
pub struct Whole {
    pub instr: Instr,
    pub ghost other: { IsTrue (not (is_vector_row instr)) },
}

/// An instruction that was decoded, with what its beats take where it is done by beats.
#[derive(Clone, Copy)]
pub enum Decoded {
    /// It is done whole.
    Whole(Whole),
    /// It is done by beats.
    Beats(Any),
}

impl Decoded {
    ghost use Rattle.hm_recent.specs.Decodings.{instr_of};
    ghost use Rattle.hm_run.specs.Program.{steps_left, vector_in};

    /// This instruction as it is executed.
    pub fn of(i: Instr) -> Decoded
        ensures instr { instr_of result ≡ i }
    {
        match i {
            Instr::Scalar(_) | Instr::Branch(_) => Decoded::Whole(Whole { instr: i }),
            Instr::Vector(v) => Decoded::Beats(any(&v)),
        }
    }

    /// How many steps it has left as the older, of which so many beats are done: its beats that are left, or one where it has no beats.
    pub fn steps_left(&self, done: u8) -> u8
        requires position { done < 4 }
        ensures value { result ≡ steps_left (vector_in (instr_of self.now)) done }
        ensures few { result ≤ 4 }
    {
        match self {
            Decoded::Whole(_) => 1,
            Decoded::Beats(_) => 4 - done,
        }
    }

    /// The vector instruction that it is, where it is one.
    pub fn as_vector(&self) -> Option<Any>
        ensures value { option_map row_of result ≡ vector_in (instr_of self.now) }
    {
        match self {
            Decoded::Whole(_) => None,
            Decoded::Beats(v) => Some(*v),
        }
    }
}
