//! The words of vector registers as lanes.

ghost use Rattle.std.specs.Prelude.{◌≡◌, ◌≤◌};
ghost use Rattle.hm_lane.specs.Lanes.{bytes_of, per_word, word_of};

/// The size of a lane (DDI0553, "Vector registers and elements").
#[derive(Clone, Copy)]
pub enum Size {
    Byte,
    Half,
    Word,
}

/// How many lanes a word has.
pub fn per_word(z: Size) -> u32
    ensures value { result ≡ per_word z }
    ensures at_most { result ≤ 4 }
{
    match z {
        Size::Byte => 4,
        Size::Half => 2,
        Size::Word => 1,
    }
}

/// The four bytes of a word, lowest first.
pub fn bytes(x: u32) -> [u8; 4]
    ensures { result ≡ bytes_of x }
{
    [
        (x % 256) as u8,
        ((x >> 8) % 256) as u8,
        ((x >> 16) % 256) as u8,
        (x >> 24) as u8,
    ]
}

/// The word of four bytes, lowest first.
pub fn word(v: [u8; 4]) -> u32
    ensures { result ≡ word_of v }
{
    let [a, b, c, d] = v;
    a as u32 + ((b as u32) << 8) + ((c as u32) << 16) + ((d as u32) << 24)
}
