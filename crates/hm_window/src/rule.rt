//! Where two instructions stand, and the rules of overlap.

use hm_base::Place;

/// The position: how many beats of the older and of the younger of two overlapped instructions are done.
#[derive(Clone, Copy)]
pub struct Window {
    pub a: u8,
    pub b: u8,
}

/// A rule of overlap that a schedule breaks.
#[derive(Clone, Copy, Debug)]
pub enum Rule {
    /// One of the two addresses holds no vector instruction.
    NotVector,
    /// The younger may not do its next beat yet.
    Order,
    /// The younger beat meets an older one at a place.
    Register { place: Place },
    /// The younger beat meets an older one at a byte.
    Memory { addr: u32 },
    /// The younger beat has a fault.
    YoungerFault,
    /// No tick may end at this position.
    Ending { a: u8, b: u8 },
}
