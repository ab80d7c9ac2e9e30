//! What entered or returned in a tick.

ghost use Rattle.std.specs.Prelude.{◌≡◌};
ghost use Rattle.hm_trace.specs.Marks.{enters, mark_of, returns};

/// What entered or returned in a tick.
#[derive(Clone, Copy)]
pub enum Mark {
    /// Nothing did.
    Nothing,
    /// An exception entered at its end.
    Entry,
    /// A handler returned.
    Return,
    /// A handler returned, and an exception entered at its end.
    Both,
}

impl Mark {
    /// Whether an exception entered.
    pub fn enters(self) -> bool
        ensures value { result ≡ enters self }
    {
        match self {
            Mark::Entry | Mark::Both => true,
            Mark::Nothing | Mark::Return => false,
        }
    }

    /// Whether a handler returned.
    pub fn returns(self) -> bool
        ensures value { result ≡ returns self }
    {
        match self {
            Mark::Return | Mark::Both => true,
            Mark::Nothing | Mark::Entry => false,
        }
    }
}

/// What entered or returned, by how many handlers were active before a tick and after it, and by whether an exception entered at its end. A handler returned
/// where, without the one that entered, fewer are active than before.
pub fn mark_of(old: usize, new: usize, entered: bool) -> Mark
    ensures value { result ≡ mark_of old new entered }
{
    if entered {
        if old < new { Mark::Entry } else { Mark::Both }
    } else if new < old {
        Mark::Return
    } else {
        Mark::Nothing
    }
}
