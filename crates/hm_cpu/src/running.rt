//! The steps of what runs: the thread, or the handler of the newest activation.
//!
//! Results are tested for Err first, and `?` is not used: so a letter's way is one run of code without copies of results. What is rare (handlers,
//! the younger, a fault) stands in functions of its own, which are not inlined.

ghost use Rattle.std.specs.Prelude.{◌≡◌, ◌+◌, ◌^◌, ◌<◌, ◌≤◌, not, List, ◌∷◌, map, Err, IsTrue, OnOk, Ok, length};
ghost use Rattle.std.specs.Vec.{vec_capacity};
ghost use Rattle.hm_codes.specs.Listing.{IsFetched, IsListing, Listing, Stands};
ghost use Rattle.hm_cpu.specs.Cpus.{config_of, nested_of, returns, state_in, stepped, AreEntered, CountsOne, IsHandler, IsPosition, IsSoundUnderSome};
ghost use Rattle.hm_cpu.specs.Cpus.{interrupted_of, LeavesTheRest, IsSoundUnder, IsThread, IsUnder, KeepsFlash};
ghost use Rattle.hm_recent.specs.Decodings.{instr_of};
ghost use Rattle.hm_exc.specs.Entry.{newest_first};
ghost use Rattle.hm_exc.specs.declared.types.Activation.{Activation};
ghost use Rattle.hm_exec.specs.Families.{row_of};
ghost use Rattle.hm_run_laws.specs.Nested.{flows, letter, step, to_end};
ghost use Rattle.hm_mem.specs.Memory.{memory_of, flash_at};
ghost use Rattle.hm_order.specs.InFlight.{Older, Younger};
ghost use Rattle.hm_run.specs.Program.{most_output};
ghost use Rattle.hm_sched.specs.Schedule.{Sched};
ghost use Rattle.hm_state.specs.State.{State};
ghost use Rattle.hm_thumb.specs.Families.{is_vector_row};

use crate::cpu::{Cpu, execute, other_step, thread_step, vector_step};
use crate::step_ends::{LetterEnd, StepEnd};
use crate::younger::younger;
use hm_base::{Fault, Stop};
use hm_exc::leave;
use hm_exec::Any;
use hm_isa::{Flow, Instr};
use hm_recent::{Cached, Decoded, Whole, keep, kept};
use hm_run::{Cause, Offence};
use hm_window::Window;

/// What an instruction that stops is to the machine.
fn stop_of(cause: Cause) -> LetterEnd
    ensures value { result ≡ LetterEnd.Step (StepEnd.Stopped cause) }
{
    LetterEnd::Step(StepEnd::Stopped(cause))
}

/// The handler returns to `value`: what it interrupted goes on, or the first difference is told.
fn return_to(value: u32, x: &mut Cpu) -> Result<(), LetterEnd>
    requires handler { IsHandler x.old }
    requires entered { AreEntered x.old }
    ensures value { (y : Activation) (rest : List Activation) → newest_first x.old.acts ≡ y ∷ rest → stepped result x.new ≡ returns value y rest x.old }
    ensures moves { KeepsFlash x.old x.new }
    ensures position { OnOk result (IsPosition x.new) }
    ensures count { CountsOne x.old x.new }
{
    // the packed words are put together again, since each number fits its type
    x.regs.in_range();
    match leave(&mut x.regs, &mut x.mem, value, &mut x.acts) {
        Ok(window) => {
            x.window = window;
            Ok(())
        }
        Err(broken) => Err(LetterEnd::Offends(Offence::Left(broken))),
    }
}

/// What a handler's instruction that stood at `pc` and is done comes to.
fn follow(flow: Flow, pc: u32, x: &mut Cpu) -> Result<(), LetterEnd>
    requires handler { IsHandler x.old }
    requires entered { AreEntered x.old }
    ensures value { (before : State) (y : Activation) (rest : List Activation) → before.pc ≡ pc → newest_first x.old.acts ≡ y ∷ rest
        → stepped result x.new ≡ flows flow (record (config_of x.old) { state = before }) (interrupted_of y) (map interrupted_of rest) (state_in x.old) }
    ensures moves { KeepsFlash x.old x.new }
    ensures position { OnOk result (IsPosition x.new) }
    ensures count { CountsOne x.old x.new }
{
    match flow {
        Flow::Next => {
            x.window = Window { a: 0, b: 0 };
            Ok(())
        }
        Flow::Break { k: _ } => Err(LetterEnd::Offends(Offence::Call { pc })),
        Flow::Return { value } => return_to(value, x),
    }
}

/// A handler's instruction that is no vector row, which stands at the program counter.
fn handler_other(i: &Instr, x: &mut Cpu) -> Result<(), LetterEnd>
    requires row { IsTrue (not (is_vector_row i.now)) }
    requires position { IsPosition x.old }
    requires handler { IsHandler x.old }
    requires entered { AreEntered x.old }
    ensures value { (listing : Listing) (s : Sched) → listing x.old.regs.pc ≡ Ok i.now → IsUnder s x.old
        → stepped result x.new ≡ step listing s Older (nested_of x.old) }
    ensures moves { KeepsFlash x.old x.new }
    ensures position { OnOk result (IsPosition x.new) }
    ensures count { CountsOne x.old x.new }
{
    let pc = x.regs.pc;
    match execute(i, &mut x.regs, &mut x.mem) {
        Ok(flow) => follow(flow, pc, x),
        Err(stop) => Err(stop_of(Cause::Stop(stop))),
    }
}

/// The next beat of a handler's vector instruction, which stands at the program counter. The thread's steps alone are counted.
fn handler_beat(v: &Any, x: &mut Cpu) -> Result<(), LetterEnd>
    requires count { (x.old.retired < 2 ^ 63) × (x.old.older_steps < 2 ^ 63) }
    requires position { IsPosition x.old }
    requires handler { IsHandler x.old }
    requires pc { x.old.regs.pc + 4 < 2 ^ 32 }
    ensures value { (listing : Listing) (s : Sched) → listing x.old.regs.pc ≡ Ok (Instr.Vector (row_of v.now)) → IsUnder s x.old
        → stepped result x.new ≡ step listing s Older (nested_of x.old) }
    ensures stays { OnOk result (LeavesTheRest (Instr.Vector (row_of v.now)) x.old x.new) }
    ensures moves { KeepsFlash x.old x.new }
    ensures position { OnOk result (IsPosition x.new) }
    ensures count { CountsOne x.old x.new }
{
    let (retired, older_steps) = (x.retired, x.older_steps);
    match vector_step(v, x) {
        Ok(()) => {
            x.retired = retired;
            x.older_steps = older_steps;
            Ok(())
        }
        Err(cause) => Err(stop_of(cause)),
    }
}

/// A step of this instruction of a handler, which stands at the program counter.
#[inline(never)]
fn handler_step(i: &Decoded, x: &mut Cpu) -> Result<(), LetterEnd>
    requires count { (x.old.retired < 2 ^ 63) × (x.old.older_steps < 2 ^ 63) }
    requires position { IsPosition x.old }
    requires handler { IsHandler x.old }
    requires entered { AreEntered x.old }
    requires pc { x.old.regs.pc + 4 < 2 ^ 32 }
    ensures value { (listing : Listing) (s : Sched) → listing x.old.regs.pc ≡ Ok (instr_of i.now) → IsUnder s x.old
        → stepped result x.new ≡ step listing s Older (nested_of x.old) }
    ensures stays { OnOk result (LeavesTheRest (instr_of i.now) x.old x.new) }
    ensures moves { KeepsFlash x.old x.new }
    ensures position { OnOk result (IsPosition x.new) }
    ensures count { CountsOne x.old x.new }
{
    match i {
        Decoded::Whole(i) => handler_other(&i.instr, x),
        Decoded::Beats(v) => handler_beat(v, x),
    }
}

/// A step of this instruction of what runs as the older, which stands at the program counter.
#[inline(always)]
fn step_of(i: &Decoded, x: &mut Cpu) -> Result<(), LetterEnd>
    requires stands { Stands (flash_at (memory_of x.old.mem)) x.old.regs.pc (instr_of i.now) }
    requires count { (x.old.retired < 2 ^ 63) × (x.old.older_steps < 2 ^ 63) }
    requires position { IsPosition x.old }
    requires room { vec_capacity x.old.output ≡ most_output }
    requires sound { IsSoundUnderSome x.old }
    ensures value { (listing : Listing) (s : Sched) → IsListing (flash_at (memory_of x.old.mem)) listing → IsSoundUnder s x.old
        → stepped result x.new ≡ step listing s Older (nested_of x.old) }
    ensures sound { (s : Sched) → IsSoundUnder s x.old → OnOk result (IsSoundUnder s x.new) }
    ensures moves { KeepsFlash x.old x.new }
    ensures position { OnOk result (IsPosition x.new) }
    ensures count { CountsOne x.old x.new }
{
    if !x.acts.is_empty() {
        return handler_step(i, x);
    }
    if let Err(cause) = thread_step(i, x) {
        return Err(stop_of(cause));
    }
    Ok(())
}

/// The fault where no instruction stands at the program counter of what runs.
#[cold]
fn none_stands(fault: Fault, x: &Cpu) -> LetterEnd
    requires none { IsFetched (flash_at (memory_of x.now.mem)) x.now.regs.pc (Err fault) }
    ensures value { (listing : Listing) (s : Sched) → IsListing (flash_at (memory_of x.now.mem)) listing → IsSoundUnder s x.now
        → stepped (Err result) x.now ≡ step listing s Older (nested_of x.now) }
{
    stop_of(Cause::Stop(Stop::Fault(fault)))
}

/// A step of the older instruction of what runs, or the fault where none stands at the program counter.
#[inline(always)]
fn older_step(recent: &mut [Cached], x: &mut Cpu) -> Result<(), LetterEnd>
    requires some { 0 < length recent.old }
    requires count { (x.old.retired < 2 ^ 63) × (x.old.older_steps < 2 ^ 63) }
    requires position { IsPosition x.old }
    requires room { vec_capacity x.old.output ≡ most_output }
    requires sound { IsSoundUnderSome x.old }
    ensures value { (listing : Listing) (s : Sched) → IsListing (flash_at (memory_of x.old.mem)) listing → IsSoundUnder s x.old
        → stepped result x.new ≡ step listing s Older (nested_of x.old) }
    ensures sound { (s : Sched) → IsSoundUnder s x.old → OnOk result (IsSoundUnder s x.new) }
    ensures moves { KeepsFlash x.old x.new }
    ensures position { OnOk result (IsPosition x.new) }
    ensures count { CountsOne x.old x.new }
    ensures places { length recent.new ≡ length recent.old }
{
    if let Err(fault) = keep(recent, &x.mem, x.regs.pc) {
        return Err(none_stands(fault, x));
    }
    step_of(kept(recent, x.regs.pc), x)
}

/// A step of the younger instruction of what runs.
#[inline(never)]
fn younger_step(recent: &mut [Cached], x: &mut Cpu) -> Result<(), LetterEnd>
    requires some { 0 < length recent.old }
    requires position { IsPosition x.old }
    ensures value { (listing : Listing) (s : Sched) → IsListing (flash_at (memory_of x.old.mem)) listing → IsSoundUnder s x.old
        → stepped result x.new ≡ step listing s Younger (nested_of x.old) }
    ensures sound { (s : Sched) → IsSoundUnder s x.old → OnOk result (IsSoundUnder s x.new) }
    ensures moves { KeepsFlash x.old x.new }
    ensures position { OnOk result (IsPosition x.new) }
    ensures count { CountsOne x.old x.new }
    ensures places { length recent.new ≡ length recent.old }
{
    if let Err(end) = younger(recent, x) {
        return Err(LetterEnd::Step(end));
    }
    Ok(())
}

/// The whole of this instruction of the thread that is no vector row, which stands at the program counter.
#[inline(always)]
fn thread_other(i: &Whole, x: &mut Cpu) -> Result<(), LetterEnd>
    requires stands { Stands (flash_at (memory_of x.old.mem)) x.old.regs.pc i.now.instr }
    requires count { (x.old.retired < 2 ^ 61) × (x.old.older_steps < 2 ^ 61) }
    requires position { IsPosition x.old }
    requires room { vec_capacity x.old.output ≡ most_output }
    requires thread { IsThread x.old }
    ensures value { (listing : Listing) (s : Sched) → IsListing (flash_at (memory_of x.old.mem)) listing → IsSoundUnder s x.old
        → stepped result x.new ≡ to_end listing s (nested_of x.old) }
    ensures sound { (s : Sched) → IsSoundUnder s x.old → OnOk result (IsSoundUnder s x.new) }
    ensures moves { KeepsFlash x.old x.new }
    ensures position { OnOk result (IsPosition x.new) }
    ensures count { CountsOne x.old x.new }
{
    if let Err(cause) = other_step(&i.instr, x) {
        return Err(stop_of(cause));
    }
    Ok(())
}

/// The beats that are left of this vector instruction of the thread, which stands at the program counter.
#[inline(always)]
fn thread_beats(v: &Any, x: &mut Cpu) -> Result<(), LetterEnd>
    requires stands { Stands (flash_at (memory_of x.old.mem)) x.old.regs.pc (Instr.Vector (row_of v.now)) }
    requires count { (x.old.retired < 2 ^ 61) × (x.old.older_steps < 2 ^ 61) }
    requires position { IsPosition x.old }
    requires thread { IsThread x.old }
    ensures value { (listing : Listing) (s : Sched) → IsListing (flash_at (memory_of x.old.mem)) listing → IsSoundUnder s x.old
        → stepped result x.new ≡ to_end listing s (nested_of x.old) }
    ensures sound { (s : Sched) → IsSoundUnder s x.old → OnOk result (IsSoundUnder s x.new) }
    ensures moves { KeepsFlash x.old x.new }
    ensures position { OnOk result (IsPosition x.new) }
    ensures count { (x.new.retired ≤ x.old.retired + 4) × (x.new.older_steps ≤ x.old.older_steps + 4) }
{
    for _k in x.window.a..4 {
        if let Err(cause) = vector_step(v, x) {
            return Err(stop_of(cause));
        }
    }
    Ok(())
}

/// The steps that are left of this instruction of a handler, which stands at the program counter.
#[inline(never)]
fn handler_rest(i: &Decoded, x: &mut Cpu) -> Result<(), LetterEnd>
    requires stands { Stands (flash_at (memory_of x.old.mem)) x.old.regs.pc (instr_of i.now) }
    requires count { (x.old.retired < 2 ^ 61) × (x.old.older_steps < 2 ^ 61) }
    requires position { IsPosition x.old }
    requires sound { IsSoundUnderSome x.old }
    requires handler { IsHandler x.old }
    ensures value { (listing : Listing) (s : Sched) → IsListing (flash_at (memory_of x.old.mem)) listing → IsSoundUnder s x.old
        → stepped result x.new ≡ to_end listing s (nested_of x.old) }
    ensures sound { (s : Sched) → IsSoundUnder s x.old → OnOk result (IsSoundUnder s x.new) }
    ensures moves { KeepsFlash x.old x.new }
    ensures position { OnOk result (IsPosition x.new) }
    ensures count { (x.new.retired ≤ x.old.retired + 4) × (x.new.older_steps ≤ x.old.older_steps + 4) }
{
    let left = i.steps_left(x.window.a);
    for _k in 0..left {
        if let Err(end) = handler_step(i, x) {
            return Err(end);
        }
    }
    Ok(())
}

/// This instruction of what runs, which stands at the program counter, to its end, in at most four steps.
#[inline(always)]
fn rest_of(i: &Decoded, x: &mut Cpu) -> Result<(), LetterEnd>
    requires stands { Stands (flash_at (memory_of x.old.mem)) x.old.regs.pc (instr_of i.now) }
    requires count { (x.old.retired < 2 ^ 61) × (x.old.older_steps < 2 ^ 61) }
    requires position { IsPosition x.old }
    requires room { vec_capacity x.old.output ≡ most_output }
    requires sound { IsSoundUnderSome x.old }
    ensures value { (listing : Listing) (s : Sched) → IsListing (flash_at (memory_of x.old.mem)) listing → IsSoundUnder s x.old
        → stepped result x.new ≡ to_end listing s (nested_of x.old) }
    ensures sound { (s : Sched) → IsSoundUnder s x.old → OnOk result (IsSoundUnder s x.new) }
    ensures moves { KeepsFlash x.old x.new }
    ensures position { OnOk result (IsPosition x.new) }
    ensures count { (x.new.retired ≤ x.old.retired + 4) × (x.new.older_steps ≤ x.old.older_steps + 4) }
{
    // Who runs is asked once, and of the thread's instruction its kind too, not for each beat.
    if !x.acts.is_empty() {
        return handler_rest(i, x);
    }
    match i {
        Decoded::Whole(i) => thread_other(i, x),
        Decoded::Beats(v) => thread_beats(v, x),
    }
}

/// The older instruction of what runs to its end, in at most four steps, or the fault where none stands at the program counter.
#[inline(always)]
fn whole(recent: &mut [Cached], x: &mut Cpu) -> Result<(), LetterEnd>
    requires some { 0 < length recent.old }
    requires count { (x.old.retired < 2 ^ 61) × (x.old.older_steps < 2 ^ 61) }
    requires position { IsPosition x.old }
    requires room { vec_capacity x.old.output ≡ most_output }
    requires sound { IsSoundUnderSome x.old }
    ensures value { (listing : Listing) (s : Sched) → IsListing (flash_at (memory_of x.old.mem)) listing → IsSoundUnder s x.old
        → stepped result x.new ≡ to_end listing s (nested_of x.old) }
    ensures sound { (s : Sched) → IsSoundUnder s x.old → OnOk result (IsSoundUnder s x.new) }
    ensures moves { KeepsFlash x.old x.new }
    ensures position { OnOk result (IsPosition x.new) }
    ensures count { (x.new.retired ≤ x.old.retired + 4) × (x.new.older_steps ≤ x.old.older_steps + 4) }
    ensures places { length recent.new ≡ length recent.old }
{
    if let Err(fault) = keep(recent, &x.mem, x.regs.pc) {
        return Err(none_stands(fault, x));
    }
    rest_of(kept(recent, x.regs.pc), x)
}

/// What a letter of a schedule does, as `Letters::letter` says it, with these places for what is decoded.
#[inline(always)]
pub(crate) fn letter(l: u8, recent: &mut [Cached], x: &mut Cpu) -> Result<(), LetterEnd>
    requires some { 0 < length recent.old }
    requires count { (x.old.retired < 2 ^ 61) × (x.old.older_steps < 2 ^ 61) }
    requires position { IsPosition x.old }
    requires room { vec_capacity x.old.output ≡ most_output }
    requires sound { IsSoundUnderSome x.old }
    ensures value { (listing : Listing) (s : Sched) → IsListing (flash_at (memory_of x.old.mem)) listing → IsSoundUnder s x.old
        → stepped result x.new ≡ letter listing s l (nested_of x.old) }
    ensures sound { (s : Sched) → IsSoundUnder s x.old → OnOk result (IsSoundUnder s x.new) }
    ensures moves { KeepsFlash x.old x.new }
    ensures position { OnOk result (IsPosition x.new) }
    ensures count { (x.new.retired ≤ x.old.retired + 4) × (x.new.older_steps ≤ x.old.older_steps + 4) }
    ensures places { length recent.new ≡ length recent.old }
{
    if l == b'O' {
        return older_step(recent, x);
    }
    if l == b'Y' {
        return younger_step(recent, x);
    }
    whole(recent, x)
}
