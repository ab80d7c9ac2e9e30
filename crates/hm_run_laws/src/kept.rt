//! What every instruction that is no vector row leaves: the exception number; an IT byte that an exception may be entered with; a handler
//! on the main stack; stores of one, two or four bytes; and priorities of three bits.

ghost use Rattle.std.specs.Prelude.{◌≡◌, IfOk};
ghost use Rattle.hm_base.specs.declared.Fault.{Fault};
ghost use Rattle.hm_base.specs.declared.Stop.{Stop};
ghost use Rattle.hm_isa.specs.declared.Instr.{Instr};
ghost use Rattle.hm_run_laws.specs.Blocks.{EndsKeep, IsBlockByte};
ghost use Rattle.hm_run_laws.specs.Levels.{HasLevels};
ghost use Rattle.hm_mem.specs.Memory.{Around, first_devices};
ghost use Rattle.hm_mem.specs.Seen.{Seen};
ghost use Rattle.hm_regs.specs.Stacks.{HandlerOnMain};
ghost use Rattle.hm_regs.specs.declared.Regs.{Regs};
ghost use Rattle.hm_thumb.specs.Does.{Runner, in_machine};
ghost use Rattle.hm_thumb.specs.Rows.{instr_does};
ghost use Rattle.hm_thumb.specs.Steps.{step};

/// At every end of an instruction the exception number is what it was; and the IT byte, but where the instruction opens a block:
/// then it is a byte, and has a bit among its lowest four. In a handler it stays which stack a thread uses. Each number that it stores has
/// one, two or four bytes.
pub fn rows_keep()
    ensures ends { (i : Instr) (r : Regs) → EndsKeep r (instr_does i r) }
{}

/// A step leaves the exception number, whoever runs it (with stops as in the machine, or with faults as alone); and where the IT byte was below 256, and 0 or
/// with a bit among its lowest four, it is so after the step. Where a handler was on the main stack, it is so after the step.
pub fn steps_keep()
    ensures number { (R : Runner Stop) (i : Instr) (r : Regs) (s : Seen) → IfOk (step R i r s) (λ x. x.regs.ipsr ≡ r.ipsr) }
    ensures block { (R : Runner Stop) (i : Instr) (r : Regs) (s : Seen)
        → IsBlockByte r.it → IfOk (step R i r s) (λ x. IsBlockByte x.regs.it) }
    ensures main { (R : Runner Stop) (i : Instr) (r : Regs) (s : Seen)
        → HandlerOnMain r → IfOk (step R i r s) (λ x. HandlerOnMain x.regs) }
    ensures number_alone { (R : Runner Fault) (i : Instr) (r : Regs) (s : Seen) → IfOk (step R i r s) (λ x. x.regs.ipsr ≡ r.ipsr) }
    ensures block_alone { (R : Runner Fault) (i : Instr) (r : Regs) (s : Seen)
        → IsBlockByte r.it → IfOk (step R i r s) (λ x. IsBlockByte x.regs.it) }
    ensures main_alone { (R : Runner Fault) (i : Instr) (r : Regs) (s : Seen)
        → HandlerOnMain r → IfOk (step R i r s) (λ x. HandlerOnMain x.regs) }
{}

/// Priorities have three bits after a reset, and after each step of whoever accesses the memory where they had before.
pub fn priorities_keep()
    ensures start { HasLevels first_devices }
    ensures kept { (x : Around) (i : Instr) (r : Regs) (s : Seen)
        → HasLevels s.devices → IfOk (step (in_machine x) i r s) (λ y. HasLevels y.seen.devices) }
{}
