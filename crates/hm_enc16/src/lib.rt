//! The codes of one halfword, read and written.
#![tactic(auto)]

ghost use Rattle.std.specs.Prelude.{◌≡◌, ◌↔◌, IfSome, IfNone, length, [], ◌∷◌};
ghost use Rattle.hm_isa.specs.declared.Instr.{Instr};
ghost use Rattle.hm_isa.specs.Code.{halfwords};

mod decode;
mod encode;

use decode::find;
use encode::narrow_code;
pub use encode::{
    base_of_access, base_of_address, base_of_byte, base_of_extend, base_of_hint, base_of_jump,
    base_of_list, base_of_logic, base_of_masking, base_of_plain, base_of_shift, base_of_stack_sum,
    base_of_sum, base_of_swap, base_of_word, base_of_zero,
};
use hm_isa::{ByWidth, Instr, by_width};

/// The instruction whose code is the halfword h, or None exactly where no instruction has it for its whole code: DDI0553,
/// "T32 instruction set encoding", the 16-bit codes.
pub fn decode16(h: u16) -> Option<Instr>
    ensures found { IfSome result (λ i. halfwords i ≡ h ∷ []) }
    ensures none { IfNone result ((i : Instr) → halfwords i ≡ h ∷ [] → ⊥) }
    ensures exact { (i : Instr) → (result ≡ Some i) ↔ (halfwords i ≡ h ∷ []) }
{
    find(h)
}

/// The code of an instruction whose code is one halfword. `decode16` gives the instruction of this code again.
pub fn encode16(i: &Instr) -> u16
    requires one_half { length (halfwords i.now) ≡ 1 }
    ensures code { halfwords i.now ≡ result ∷ [] }
{
    match by_width(i) {
        ByWidth::Narrow(r) => narrow_code(&r),
        ByWidth::Wide(_) | ByWidth::Vector(_) => unreachable!(),
    }
}
