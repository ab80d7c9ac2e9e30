//! What the words of the command line ask for.

ghost use Rattle.std.specs.Prelude.{◌≤◌};

/// What the words ask for: so many runs of an image, made from a seed, under the head of a schedule.
#[derive(Clone, Copy)]
pub struct Command<'a> {
    pub image: &'a str,
    pub schedule: &'a str,
    pub runs: u32,
    pub seed: u32,
    pub ghost some: { 1 ≤ runs },
    pub ghost few: { runs ≤ 1000000 },
}
