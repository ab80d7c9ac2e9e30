//! What there is to execute at an address: the instruction that stands there, or a fault.
#![tactic(auto)]

ghost use Rattle.std.specs.Prelude.{◌≡◌, ◌+◌, ◌≤◌, ◌<◌, false, IfSome, IfNone, [], ◌∷◌};
ghost use Rattle.hm_base.specs.Image.{flash_size};
ghost use Rattle.hm_isa.specs.declared.Instr.{Instr};
ghost use Rattle.hm_isa.specs.declared.Vector.{Vector};
ghost use Rattle.hm_isa.specs.Code.{halfwords, two_halves, vector_code};
ghost use Rattle.hm_mem.specs.Memory.{memory_of, flash_at};
ghost use Rattle.hm_codes.specs.Listing.{half_at, is_long, missing, Stands, IsFetched};

use hm_base::{FLASH_SIZE, Fault, FaultKind, bits};
use hm_enc16::decode16;
use hm_enc32::decode32;
use hm_encv::decodev;
use hm_isa::{Instr, Vector};
use hm_mem::Mem;

/// Whether a vector instruction may have the code w. Bits 27 and 26 of all their codes are set (DDI0553, "T32 instruction set encoding": the
/// coprocessor, floating-point and vector instructions), but of those of VCTP, which has a second halfword of its own.
fn may_be_vector(w: u32) -> bool
    ensures refused { result ≡ false → (v : Vector) → vector_code v ≡ w → ⊥ }
{
    let class = bits(w, 27, 26);
    let second = bits(w, 15, 0);
    class == 3 || second == 0xe801
}

/// The vector instruction whose code is w. Most other codes are told from all of theirs by a few bits.
fn find_vector(w: u32) -> Option<Vector>
    ensures found { IfSome result (λ v. vector_code v ≡ w) }
    ensures none { IfNone result ((v : Vector) → vector_code v ≡ w → ⊥) }
{
    if may_be_vector(w) {
        return decodev(w);
    }
    None
}

/// The instruction whose code is two halfwords, the first in bits 31 to 16 of w.
fn find_word(w: u32) -> Option<Instr>
    ensures found { IfSome result (λ i. halfwords i ≡ two_halves w) }
    ensures none { IfNone result ((i : Instr) → halfwords i ≡ two_halves w → ⊥) }
{
    if let Some(v) = find_vector(w) {
        return Some(Instr::Vector(v));
    }
    decode32(w)
}

/// The instruction whose code is two halfwords, high and low.
fn find_wide(high: u16, low: u16) -> Option<Instr>
    ensures found { IfSome result (λ i. halfwords i ≡ high ∷ low ∷ []) }
    ensures none { IfNone result ((i : Instr) → halfwords i ≡ high ∷ low ∷ [] → ⊥) }
{
    let w = ((high as u32) << 16) + low as u32;
    find_word(w)
}

/// Whether a halfword begins a code of two.
fn begins_two(half: u16) -> bool
    ensures { result ≡ is_long half }
{
    half >> 11 >= 29
}

/// The byte of flash at an address.
fn flash_byte(m: &Mem, addr: u32) -> u8
    requires { addr < flash_size }
    ensures { result ≡ flash_at (memory_of m.now) addr }
{
    m.byte(addr).unwrap()
}

/// Whether the halfword of flash at an address, odd or even, begins a code of two.
fn begins_long(m: &Mem, addr: u32) -> bool
    requires { addr + 2 ≤ flash_size }
    ensures { result ≡ is_long (half_at (flash_at (memory_of m.now)) addr) }
{
    begins_two(flash_byte(m, addr) as u16 + 256 * flash_byte(m, addr + 1) as u16)
}

/// The kind of the fault at an address where no instruction stands.
fn missing_kind(m: &Mem, pc: u32) -> FaultKind
    ensures { result ≡ missing (flash_at (memory_of m.now)) pc }
{
    if pc > FLASH_SIZE - 2 {
        return FaultKind::Fetch;
    }
    if begins_long(m, pc) && pc > FLASH_SIZE - 4 {
        FaultKind::Fetch
    } else {
        FaultKind::Undefined
    }
}

/// The instruction that stands at `pc`.
fn find_at(m: &Mem, pc: u32) -> Option<Instr>
    ensures found { IfSome result (λ i. Stands (flash_at (memory_of m.now)) pc i) }
    ensures none { IfNone result ((i : Instr) → Stands (flash_at (memory_of m.now)) pc i → ⊥) }
{
    let first = m.half(pc)?;
    if !begins_two(first) {
        return decode16(first);
    }
    let second = m.half(pc + 2)?;
    find_wide(first, second)
}

/// The instruction that stands at `pc`, or the fault where none does.
///
/// The fault has the address `pc`. It is Fetch exactly where a half of the code is not in flash, and else Undefined: a first half whose bits
/// 15 to 11 are 11101, 11110 or 11111 begins a code of two halves (DDI0553, "T32 instruction set encoding"). No instruction stands at an odd
/// address.
pub fn fetch(m: &Mem, pc: u32) -> Result<Instr, Fault>
    ensures { IsFetched (flash_at (memory_of m.now)) pc result }
{
    match find_at(m, pc) {
        Some(i) => Ok(i),
        None => Err(Fault {
            kind: missing_kind(m, pc),
            addr: pc,
        }),
    }
}
