//! What an entry puts away, and how entries and returns are refused.

use arrayvec::ArrayVec;
use hm_base::Place;
use hm_regs::Regs;

/// What a handler has to leave as it was.
#[derive(Clone, Copy, Debug, PartialEq, Eq)]
pub enum Slot {
    /// SP, one of R4 to R11, or a word of one of Q4 to Q7.
    Reg(Place),
    /// PRIMASK, as a truth value.
    Primask,
    /// PSP, the process stack pointer.
    Psp,
    /// BASEPRI.
    Basepri,
}

/// How a return differs from its entry.
#[derive(Clone, Copy, Debug)]
pub enum Broken {
    /// It goes to another value than the entry left in LR.
    ExcReturn { value: u32 },
    /// A register differs; of a truth value these are 0 and 1.
    Register { name: Slot, entry: u32, now: u32 },
    /// The byte of the frame at this address differs.
    Frame { addr: u32 },
}

/// Why an exception does not enter.
#[derive(Clone, Copy)]
pub enum EnterErr {
    /// There is no room for the frame below this stack pointer.
    StackSpent { sp: u32 },
    /// The word of the vector table at this address is no address of Thumb code.
    Vector { addr: u32 },
}

/// What an entry puts away (DDI0553, "Exception entry, context stacking").
#[derive(Clone, Copy)]
pub struct Activation {
    /// The registers as they were.
    pub regs: Regs,
    /// The address of the frame's first byte.
    pub frame: u32,
    /// Whether the frame has the vector registers: 104 bytes, and else 32.
    pub long: bool,
    /// The frame's bytes, and 0 past its end.
    pub bytes: [u8; 104],
    /// The exception that entered.
    pub number: u16,
    /// EXC_RETURN, the value to which the handler has to return.
    pub value: u32,
}

impl Default for Activation {
    fn default() -> Self {
        Activation {
            regs: Regs::start(0, 0),
            frame: 0,
            long: false,
            bytes: [0; 104],
            number: 0,
            value: 0,
        }
    }
}

/// The activations, the newest last. No more than eight handlers are active, since there are eight priorities.
pub type Acts = ArrayVec<Activation, 8>;
