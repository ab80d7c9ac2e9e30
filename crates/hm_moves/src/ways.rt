//! What a row that loads or stores moves, and where it finds its elements.

ghost use Rattle.std.specs.Prelude.{◌≡◌, ◌≤◌, ◌<◌, ◌+◌, cond};

use hm_lane::Size;

/// Elements that stand one behind another in memory, for a vector register.
#[derive(Clone, Copy)]
pub struct Contiguous {
    /// The vector register.
    pub d: u8,
    /// The base register.
    pub n: u8,
    /// What is added to the base, modulo 2^32.
    pub offset: u32,
    /// The elements begin at the base with the offset added, and else at the base.
    pub before: bool,
    /// The base register gets the base with the offset added.
    pub back: bool,
    pub ghost vector: { d < 8 },
    pub ghost core: { n ≤ 14 },
}

/// Elements at offsets from a base, which stand in a vector register.
#[derive(Clone, Copy)]
pub struct Offsets {
    /// The vector register that is filled or stored.
    pub d: u8,
    /// The base register.
    pub n: u8,
    /// The vector register with the offsets.
    pub m: u8,
    /// An offset is multiplied by 2 to this power.
    pub scale: u8,
    pub ghost vector: { d < 8 },
    pub ghost core: { n ≤ 14 },
    pub ghost offsets: { m < 8 },
    pub ghost power: { scale ≤ 2 },
}

/// Words at addresses that stand in a vector register.
#[derive(Clone, Copy)]
pub struct Addresses {
    /// The vector register that is filled or stored.
    pub d: u8,
    /// The vector register with the addresses.
    pub m: u8,
    /// What is added to each address, modulo 2^32.
    pub offset: u32,
    /// Each word of the register gets its address with the offset added, active or not.
    pub back: bool,
    pub ghost vector: { d < 8 },
    pub ghost addresses: { m < 8 },
}

/// Elements that go in turn to two or four vector registers.
#[derive(Clone, Copy)]
pub struct Interleaved {
    /// The first of the vector registers.
    pub d: u8,
    /// The base register.
    pub n: u8,
    /// There are four registers, and else two.
    pub four: bool,
    /// Which four words of memory are moved, of as many fours as there are registers.
    pub part: u8,
    /// The base register is moved past all that the parts move.
    pub back: bool,
    pub ghost vectors: { d + cond four 4 2 ≤ 8 },
    pub ghost core: { n ≤ 14 },
    pub ghost parts: { part < cond four 4 2 },
}

/// Where the elements of a row are found.
#[derive(Clone, Copy)]
pub enum Way {
    Contiguous(Contiguous),
    Offsets(Offsets),
    Addresses(Addresses),
    Interleaved(Interleaved),
}

/// A row that loads or stores, V24 to V28, `vldrb`, `vldrh`, `vldrw`, `vstrb`, `vstrh`, `vstrw`, `vld20`, `vld21`, `vld40`, `vld41`, `vld42`,
/// `vld43`, `vst20`, `vst21`, `vst40`, `vst41`, `vst42` or `vst43`. It is under the predicate, unless it is interleaved: DDI0553,
/// "VLDRB, VLDRH, VLDRW", "VSTRB, VSTRH, VSTRW", "VLDRB, VLDRH, VLDRW, VLDRD (vector)", "VSTRB, VSTRH, VSTRW, VSTRD (vector)", "VLD2",
/// "VLD4", "VST2" and "VST4".
#[derive(Clone, Copy)]
pub struct Move {
    /// It stores, and else it loads.
    pub store: bool,
    /// The size of an element in memory.
    pub memory: Size,
    /// The size of an element in its register, which is not below that in memory.
    pub register: Size,
    /// What is loaded is extended with its sign.
    pub signed: bool,
    pub way: Way,
}

impl Move {
    ghost use Rattle.hm_moves.specs.Ways.{way_of, way_writes_lr};

    /// Whether one of its beats writes lr.
    pub fn writes_lr(&self) -> bool
        ensures { result ≡ way_writes_lr (way_of self.now.way) }
    {
        match &self.way {
            Way::Contiguous(w) => w.back && w.n == 14,
            Way::Offsets(_) => false,
            Way::Addresses(_) => false,
            Way::Interleaved(w) => w.back && w.n == 14,
        }
    }
}
