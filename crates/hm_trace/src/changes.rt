//! The registers that changed, each with its new value.

ghost use Rattle.std.specs.Prelude.{◌≡◌, ◌++◌, IfOk};
ghost use Rattle.hm_trace.specs.Changes.{bit_change, byte_change, changes, control_changes, core_changes, flags_change, flags_text, pointer_changes};
ghost use Rattle.hm_trace.specs.Changes.{same_flags, status_changes, vector_changes, word_change, word_name};

use hm_base::OutOfMemory;
use hm_regs::Regs;
use hm_report_lines::word_text;
use hm_text_base::{binary_digit, decimal, hex2, hex8, separator, text};
use std::alloc::Global;

/// A word of the registers.
#[derive(Clone, Copy)]
enum Word {
    /// A register of r0 to r12.
    Core(usize),
    /// A word of all vector registers, of which four are a register.
    Vector(usize),
    Sp,
    Other,
    Lr,
    Fpscr,
    Vpr,
}

/// Adds the name of a word.
fn add_name(alloc: Global, out: &mut Vec<u8>, word: Word) -> Result<(), OutOfMemory>
    ensures added { IfOk result (λ _. out.new.items ≡ out.old.items ++ word_name word) }
{
    match word {
        Word::Core(n) => {
            text(out, b"r")?;
            decimal(alloc, out, n as u64)
        }
        Word::Vector(k) => word_text(alloc, out, k),
        Word::Sp => text(out, b"sp"),
        Word::Other => text(out, b"other"),
        Word::Lr => text(out, b"lr"),
        Word::Fpscr => text(out, b"fpscr"),
        Word::Vpr => text(out, b"vpr"),
    }
}

/// Adds a word under its name, where it changed.
fn add_word(
    alloc: Global,
    out: &mut Vec<u8>,
    word: Word,
    before: u32,
    after: u32,
) -> Result<(), OutOfMemory>
    ensures added { IfOk result (λ _. out.new.items ≡ out.old.items ++ word_change word before after) }
{
    if before == after {
        return Ok(());
    }
    separator(out)?;
    add_name(alloc, out, word)?;
    separator(out)?;
    hex8(out, after)
}

/// Adds a truth value under its name, where it changed.
fn add_bit(out: &mut Vec<u8>, name: &[u8], before: bool, after: bool) -> Result<(), OutOfMemory>
    ensures added { IfOk result (λ _. out.new.items ≡ out.old.items ++ bit_change name.now before after) }
{
    if before == after {
        return Ok(());
    }
    separator(out)?;
    text(out, name)?;
    separator(out)?;
    binary_digit(out, after)
}

/// Adds those of r0 to r12 that changed.
fn add_cores(
    alloc: Global,
    out: &mut Vec<u8>,
    before: &Regs,
    after: &Regs,
) -> Result<(), OutOfMemory>
    ensures added { IfOk result (λ _. out.new.items ≡ out.old.items ++ core_changes before.now.r after.now.r) }
{
    for k in 0..13_usize {
        add_word(alloc, out, Word::Core(k), before.r[k], after.r[k])?;
    }
    Ok(())
}

/// Adds the words of vector registers that changed.
fn add_vectors(
    alloc: Global,
    out: &mut Vec<u8>,
    before: &Regs,
    after: &Regs,
) -> Result<(), OutOfMemory>
    ensures added { IfOk result (λ _. out.new.items ≡ out.old.items ++ vector_changes before.now.qw after.now.qw) }
{
    for k in 0..32_usize {
        add_word(alloc, out, Word::Vector(k), before.qw[k], after.qw[k])?;
    }
    Ok(())
}

/// Whether the flags N, Z, C, V and Q are the same.
#[tactic(auto, unfolding(crate::specs::Changes::same_flags))]
fn same_flags(before: &Regs, after: &Regs) -> bool
    ensures value { result ≡ same_flags before.now after.now }
{
    before.n == after.n
        && before.z == after.z
        && before.c == after.c
        && before.v == after.v
        && before.q == after.q
}

/// Adds the flags.
#[tactic(auto, unfolding(crate::specs::Changes::flags_text))]
fn add_bits(out: &mut Vec<u8>, regs: &Regs) -> Result<(), OutOfMemory>
    ensures added { IfOk result (λ _. out.new.items ≡ out.old.items ++ flags_text regs.now) }
{
    binary_digit(out, regs.n)?;
    binary_digit(out, regs.z)?;
    binary_digit(out, regs.c)?;
    binary_digit(out, regs.v)?;
    binary_digit(out, regs.q)
}

/// Adds the flags, where one of them changed.
fn add_flags(out: &mut Vec<u8>, before: &Regs, after: &Regs) -> Result<(), OutOfMemory>
    ensures added { IfOk result (λ _. out.new.items ≡ out.old.items ++ flags_change before.now after.now) }
{
    if same_flags(before, after) {
        return Ok(());
    }
    text(out, b" flags ")?;
    add_bits(out, after)
}

/// Adds a byte under its name, where it changed.
fn add_byte(out: &mut Vec<u8>, name: &[u8], before: u8, after: u8) -> Result<(), OutOfMemory>
    ensures added { IfOk result (λ _. out.new.items ≡ out.old.items ++ byte_change name.now before after) }
{
    if before == after {
        return Ok(());
    }
    separator(out)?;
    text(out, name)?;
    separator(out)?;
    hex2(out, after)
}

/// Adds the stack pointers and the link register, where they changed.
#[tactic(auto, unfolding(crate::specs::Changes::pointer_changes))]
fn add_pointers(
    alloc: Global,
    out: &mut Vec<u8>,
    before: &Regs,
    after: &Regs,
) -> Result<(), OutOfMemory>
    ensures added { IfOk result (λ _. out.new.items ≡ out.old.items ++ pointer_changes before.now after.now) }
{
    add_word(alloc, out, Word::Sp, before.sp, after.sp)?;
    add_word(alloc, out, Word::Other, before.other, after.other)?;
    add_word(alloc, out, Word::Lr, before.lr, after.lr)
}

/// Adds the flags, the IT byte, FPSCR and VPR, where they changed.
#[tactic(auto, unfolding(crate::specs::Changes::status_changes))]
fn add_status(
    alloc: Global,
    out: &mut Vec<u8>,
    before: &Regs,
    after: &Regs,
) -> Result<(), OutOfMemory>
    ensures added { IfOk result (λ _. out.new.items ≡ out.old.items ++ status_changes before.now after.now) }
{
    add_flags(out, before, after)?;
    add_byte(out, b"it", before.it, after.it)?;
    add_word(alloc, out, Word::Fpscr, before.fpscr, after.fpscr)?;
    add_word(alloc, out, Word::Vpr, before.vpr, after.vpr)
}

/// Adds what controls the context, the stacks and the priority, where it changed.
#[tactic(auto, unfolding(crate::specs::Changes::control_changes))]
fn add_control(out: &mut Vec<u8>, before: &Regs, after: &Regs) -> Result<(), OutOfMemory>
    ensures added { IfOk result (λ _. out.new.items ≡ out.old.items ++ control_changes before.now after.now) }
{
    add_bit(out, b"fpca", before.fpca, after.fpca)?;
    add_bit(out, b"primask", before.primask, after.primask)?;
    add_bit(out, b"spsel", before.spsel, after.spsel)?;
    add_byte(out, b"basepri", before.basepri, after.basepri)
}

/// Adds all registers that changed, but pc and the number of the exception.
#[tactic(auto, unfolding(crate::specs::Changes::changes))]
pub fn add_changes(
    alloc: Global,
    out: &mut Vec<u8>,
    before: &Regs,
    after: &Regs,
) -> Result<(), OutOfMemory>
    ensures added { IfOk result (λ _. out.new.items ≡ out.old.items ++ changes before.now after.now) }
{
    add_cores(alloc, out, before, after)?;
    add_pointers(alloc, out, before, after)?;
    add_status(alloc, out, before, after)?;
    add_control(out, before, after)?;
    add_vectors(alloc, out, before, after)
}
