//! The registers that tests name, and what stands in them.

ghost use Rattle.std.specs.Prelude.{◌≡◌, ◌<◌, ◌≤◌};
ghost use Rattle.hm_base.specs.Place.{IsPlace};

use hm_base::Place;
use hm_isa::Below;
use hm_regs::Regs;
use std::fmt;
use std::str::SplitWhitespace;

/// A register, by the name that tests give it.
#[derive(Clone, Copy)]
pub enum Register {
    /// r0 to r12, sp as 13 and lr as 14
    Core(Below<15>),
    /// N, Z, C, V and Q of APSR, in bits 4 to 0
    Flags,
    Fpscr,
    Vpr,
    Pc,
    /// The state of an IT block
    It,
    Primask,
    /// The number of the exception that is handled
    Ipsr,
    /// Whether there is a context
    Fpca,
    /// q0 to q7
    Vector(Below<8>),
}

/// The registers that have no number.
const OTHERS: [Register; 8] = [
    Register::Flags,
    Register::Fpscr,
    Register::Vpr,
    Register::Pc,
    Register::It,
    Register::Primask,
    Register::Ipsr,
    Register::Fpca,
];

/// How many registers a line tells at most.
const MOST: u32 = 64;

/// The words of a vector register from the lowest on; all other registers have the first alone.
pub type Value = [u32; 4];

/// What stands in a register.
#[derive(Clone, Copy)]
pub struct Told {
    register: Register,
    pub value: Value,
}

impl fmt::Display for Told {
    fn fmt<W: fmt::Write>(&self, f: &mut fmt::Formatter<W>) -> fmt::Result {
        let [word, b, c, d] = self.value;
        match self.register {
            Register::Core(n) => write!(f, "r{} {word:08x}", n.get()),
            Register::Vector(n) => write!(f, "q{} {word:08x} {b:08x} {c:08x} {d:08x}", n.get()),
            other => write_other(f, other, word),
        }
    }
}

/// Writes a register that has no number, and what stands in it.
fn write_other<W: fmt::Write>(
    f: &mut fmt::Formatter<W>,
    register: Register,
    word: u32,
) -> fmt::Result {
    let name = register.name();
    let width = register.width();
    match register {
        Register::Flags => write!(f, "{name} {word:0width$b}"),
        _ => write!(f, "{name} {word:0width$x}"),
    }
}

/// A number with this one bit where the flag is set.
fn flag_bit(flag: bool, bit: u32) -> u32 {
    if flag { bit } else { 0 }
}

/// N, Z, C, V and Q as one number.
fn flags(regs: &Regs) -> u32 {
    flag_bit(regs.n, 16)
        | flag_bit(regs.z, 8)
        | flag_bit(regs.c, 4)
        | flag_bit(regs.v, 2)
        | flag_bit(regs.q, 1)
}

/// Sets N, Z, C, V and Q.
fn set_flags(regs: &mut Regs, number: u32) {
    regs.n = number & 16 != 0;
    regs.z = number & 8 != 0;
    regs.c = number & 4 != 0;
    regs.v = number & 2 != 0;
    regs.q = number & 1 != 0;
}

/// The place of word `k` of a vector register.
fn word_place(n: Below<8>, k: u8) -> Place
    requires { k < 4 }
    ensures { IsPlace result }
{
    Place::QWord(4 * n.get() as u8 + k)
}

/// The words of a vector register.
fn words(n: Below<8>, regs: &Regs) -> Value {
    [
        regs.get(word_place(n, 0)),
        regs.get(word_place(n, 1)),
        regs.get(word_place(n, 2)),
        regs.get(word_place(n, 3)),
    ]
}

/// The register of a letter and a number.
fn numbered(name: &str) -> Option<Register> {
    let (letter, digits) = name.split_at_checked(1)?;
    let number = digits.parse::<u32>().ok()?;
    match letter {
        "r" => Some(Register::Core(Below::of(number)?)),
        "q" => Some(Register::Vector(Below::of(number)?)),
        _ => None,
    }
}

impl Register {
    /// All registers, in the order in which they are compared.
    pub fn all() -> [Register; 31] {
        let mut all = [Register::Flags; 31];
        for n in 0_u32..15 {
            all[n as usize] = Register::Core(Below::new(n));
        }
        all[15..23].copy_from_slice(&OTHERS);
        for n in 0_u32..8 {
            all[23 + n as usize] = Register::Vector(Below::new(n));
        }
        all
    }

    /// The register of a name.
    pub fn of(name: &str) -> Option<Register> {
        for register in OTHERS {
            if register.name() == name {
                return Some(register);
            }
        }
        match name {
            "sp" => Some(Register::Core(Below::new(13))),
            "lr" => Some(Register::Core(Below::new(14))),
            _ => numbered(name),
        }
    }

    /// Its name, without a number.
    fn name(self) -> &'static str {
        match self {
            Register::Core(_) => "r",
            Register::Flags => "flags",
            Register::Fpscr => "fpscr",
            Register::Vpr => "vpr",
            Register::Pc => "pc",
            Register::It => "it",
            Register::Primask => "primask",
            Register::Ipsr => "ipsr",
            Register::Fpca => "fpca",
            Register::Vector(_) => "q",
        }
    }

    /// How many digits of a word of it are written at least.
    fn width(self) -> usize {
        match self {
            Register::Primask | Register::Ipsr | Register::Fpca => 1,
            Register::It => 2,
            Register::Flags => 5,
            _ => 8,
        }
    }

    /// A number with one bit, which no other register has.
    pub fn flag(self) -> u32 {
        match self {
            Register::Core(n) => 1 << n.get(),
            Register::Vector(n) => 1 << (15 + n.get()),
            Register::Flags => 1 << 23,
            Register::Fpscr => 1 << 24,
            Register::Vpr => 1 << 25,
            Register::Pc => 1 << 26,
            Register::It => 1 << 27,
            Register::Primask => 1 << 28,
            Register::Ipsr => 1 << 29,
            Register::Fpca => 1 << 30,
        }
    }

    /// How many words a value of it has.
    fn word_count(self) -> usize
        ensures { result ≤ 4 }
    {
        match self {
            Register::Vector(_) => 4,
            _ => 1,
        }
    }

    /// The base of its numbers in a test.
    fn radix(self) -> u32
        ensures low { 2 ≤ result }
        ensures high { result ≤ 36 }
    {
        match self {
            Register::Flags => 2,
            _ => 16,
        }
    }

    /// The value that the next words of a line tell.
    fn read(self, words: &mut SplitWhitespace<'_>) -> Option<Value> {
        let mut value = [0; 4];
        for word in &mut value[..self.word_count()] {
            *word = u32::from_str_radix(words.next()?, self.radix()).ok()?;
        }
        Some(value)
    }

    /// What stands in it.
    fn get(self, regs: &Regs) -> Value {
        match self {
            Register::Core(n) => [regs.get(Place::R(n.get() as u8)), 0, 0, 0],
            Register::Flags => [flags(regs), 0, 0, 0],
            Register::Fpscr => [regs.fpscr, 0, 0, 0],
            Register::Vpr => [regs.vpr, 0, 0, 0],
            Register::Pc => [regs.pc, 0, 0, 0],
            Register::It => [regs.it as u32, 0, 0, 0],
            Register::Primask => [flag_bit(regs.primask, 1), 0, 0, 0],
            Register::Ipsr => [regs.ipsr as u32, 0, 0, 0],
            Register::Fpca => [flag_bit(regs.fpca, 1), 0, 0, 0],
            Register::Vector(n) => words(n, regs),
        }
    }

    /// What stands in it, with its name.
    pub fn told(self, regs: &Regs) -> Told {
        Told {
            register: self,
            value: self.get(regs),
        }
    }

    /// Puts a value into it.
    fn set(self, value: Value, regs: &mut Regs) {
        match self {
            Register::Core(n) => regs.set(Place::R(n.get() as u8), value[0]),
            Register::Flags => set_flags(regs, value[0]),
            Register::Fpscr => regs.fpscr = value[0],
            Register::Vpr => regs.vpr = value[0],
            Register::Pc => regs.pc = value[0],
            Register::It => regs.it = (value[0] % 256) as u8,
            Register::Primask => regs.primask = value[0] != 0,
            Register::Ipsr => regs.ipsr = (value[0] % 65536) as u16,
            Register::Fpca => regs.fpca = value[0] != 0,
            Register::Vector(n) => {
                for k in 0_u8..4 {
                    regs.set(word_place(n, k), value[k as usize]);
                }
            }
        }
    }
}

/// Puts into a register what the next words of a line tell of it.
fn set_register(name: &str, words: &mut SplitWhitespace<'_>, regs: &mut Regs) -> Option<()> {
    let register = Register::of(name)?;
    register.set(register.read(words)?, regs);
    Some(())
}

/// Puts into registers what a line tells of them, each by its name.
pub fn set_registers(line: &str, regs: &mut Regs) -> Option<()> {
    let mut words = line.split_whitespace();
    let mut name = words.next()?;
    for _ in 0..MOST {
        set_register(name, &mut words, regs)?;
        match words.next() {
            Some(next) => name = next,
            None => return Some(()),
        }
    }
    None
}

/// Puts into r0 to r12, sp and lr what a text tells of them in this order.
pub fn set_core(text: &str, regs: &mut Regs) -> Option<()> {
    let mut words = text.split_whitespace();
    for n in 0_u32..15 {
        let register = Register::Core(Below::new(n));
        register.set(register.read(&mut words)?, regs);
    }
    if words.next().is_some() {
        return None;
    }
    Some(())
}
