//! Numbers and ranges that words give.

ghost use Rattle.std.specs.Prelude.{◌≡◌, ◌≤◌, ◌%◌};
ghost use Rattle.hm_base.specs.Image.{flash_size};

/// A number of ticks that a schedule may have: at most 16,777,216.
#[derive(Clone, Copy)]
pub struct Ticks {
    pub count: u32,
    pub ghost few: { count ≤ 16777216 },
}

/// A distance in ticks: at least 1, and at most 16,777,216.
#[derive(Clone, Copy)]
pub struct Every {
    pub ticks: u32,
    pub ghost some: { 1 ≤ ticks },
    pub ghost few: { ticks ≤ 16777216 },
}

/// A number of instructions that may be planned: at most 262,144.
#[derive(Clone, Copy)]
pub struct Planned {
    pub count: u32,
    pub ghost few: { count ≤ 262144 },
}

/// A range of flash, from an even address up to another, which is at most the size of flash.
#[derive(Clone, Copy)]
pub struct Range {
    pub lo: u32,
    pub hi: u32,
    pub ghost even: { (lo % 2 ≡ 0) × (hi % 2 ≡ 0) },
    pub ghost order: { lo ≤ hi },
    pub ghost within: { hi ≤ flash_size },
}
