//! Instructions and beats of the older instruction, of the thread and of handlers.
//!
//! Results are tested for Err first, and but for a breakpoint `?` is not used: so a letter's way is one run of code without copies of results.
//! What is rare stands in functions of its own, which are not inlined.

ghost use Rattle.std.specs.Prelude.{◌≡◌, ℕ, ◌+◌, ◌^◌, ◌<◌, not, List, IsSome, IsTrue, OnErr, OnOk, Ok, Some, option_map, length};
ghost use Rattle.std.specs.Vec.{vec_capacity};
ghost use Rattle.hm_codes.specs.Listing.{Listing, IsListing};
ghost use Rattle.hm_exec.specs.Families.{row_of};
ghost use Rattle.hm_cpu.specs.Cpus.{config_of, state_in, executed, reached, CountsOne, IsPosition, Keeps};
ghost use Rattle.hm_recent.specs.Decodings.{instr_of};
ghost use Rattle.hm_mem.specs.Memory.{Around, Memory, memory_of, flash_at};
ghost use Rattle.hm_mem.specs.Seen.{IsSameElsewhere};
ghost use Rattle.hm_order.specs.Machine.{begin, older, settle};
ghost use Rattle.hm_regs.specs.Place.{Counted, InRange};
ghost use Rattle.hm_rows.specs.Context.{with_context};
ghost use Rattle.hm_run.specs.declared.Cause.TheVariants as cause;
ghost use Rattle.hm_run.specs.Program.{core, done_as, most_output, rows, vector_of};
ghost use Rattle.hm_run.specs.Stops.{break_of, scalar_break};
ghost use Rattle.hm_state.specs.State.{state_of};
ghost use Rattle.hm_thumb.specs.Families.{is_vector_row};
ghost use Rattle.hm_thumb.specs.Rows.{made};
ghost use Rattle.hm_whole.specs.Whole.{executed as executed_by, scalar_in_machine};

use crate::service::breakpoint;
use hm_base::Stop;
use hm_beat::BeatWise;
use hm_exc::Acts;
use hm_exec::{Any, refuse};
use hm_isa::{Flow, Instr, Scalar};
use hm_lane::context;
use hm_mem::Mem;
use hm_recent::Decoded;
use hm_regs::Regs;
use hm_run::Cause;
use hm_window::Window;

/// What instructions change, and how many were done.
#[derive(Drop)]
pub struct Cpu {
    pub regs: Regs,
    pub mem: Mem,
    /// What the program wrote, at most `OUTPUT` bytes.
    pub output: Vec<u8>,
    /// The beats done of the older and of the younger instruction in flight (DDI0553, "Beat-wise execution").
    pub window: Window,
    /// What handlers interrupted, the newest last.
    pub acts: Acts,
    /// The instructions of the thread that were retired.
    pub retired: u64,
    /// The steps of an older instruction of the thread, those inside W too.
    pub older_steps: u64,
}

/// What comes before the next beat of a vector instruction of which some are done: before the first the context is made
/// where there is none, and then the instruction may be refused.
#[inline(always)]
fn begin(v: &Any, done: u8, regs: &mut Regs) -> Result<(), Cause>
    requires context { 0 < done → IsTrue regs.old.fpca }
    ensures value { (listing : Listing) (m : Memory) (output : List ℕ)
        → executed result (state_of regs.new m output) ≡ begin (core listing m.around) (row_of v.now) done (state_of regs.old m output) }
    ensures refused { OnErr result ((m : Memory) (output : List ℕ) → (done ≡ 0) × (state_of regs.new m output ≡ with_context (state_of regs.old m output))) }
    ensures made { (m : Memory) (output : List ℕ) → done ≡ 0 → state_of regs.new m output ≡ with_context (state_of regs.old m output) }
    ensures later { 0 < done → regs.new ≡ regs.old }
    ensures context { IsTrue regs.new.fpca }
    ensures pc { regs.new.pc ≡ regs.old.pc }
{
    if done > 0 {
        return Ok(());
    }
    context(regs);
    if let Some(fault) = refuse(v.row(), regs) {
        return Err(Cause::Stop(Stop::Fault(fault)));
    }
    Ok(())
}

/// Beat `b` of a vector instruction, or its stop, which changes nothing. `b` is below 4, and there is a context.
#[inline(always)]
pub fn beat(v: &Any, b: u8, regs: &mut Regs, mem: &mut Mem) -> Result<(), Cause>
    requires beat { b < 4 }
    requires context { IsTrue regs.old.fpca }
    ensures value { (output : List ℕ) → executed result (state_of regs.new (memory_of mem.new) output)
        ≡ ((rows (memory_of mem.old).around).act (row_of v.now) b).run (state_of regs.old (memory_of mem.old) output) }
    ensures stopped { OnErr result ((regs.new ≡ regs.old) × (memory_of mem.new ≡ memory_of mem.old)) }
    ensures kept { IsSameElsewhere (memory_of mem.old) (memory_of mem.new) }
    ensures context { regs.new.fpca ≡ regs.old.fpca }
{
    if let Err(stop) = v.beat(b, regs, mem) {
        return Err(Cause::Stop(stop));
    }
    Ok(())
}

/// After a beat of the older instruction: once it has four it is retired, and the next one stands behind it.
fn end_beat(x: &mut Cpu)
    requires count { (x.old.retired < 2 ^ 63) × (x.old.older_steps < 2 ^ 63) }
    requires position { IsPosition x.old }
    requires context { IsTrue x.old.regs.fpca }
    requires pc { x.old.regs.pc + 4 < 2 ^ 32 }
    ensures value { (listing : Listing) (around : Around)
        → config_of x.new ≡ settle (core listing around) (x.old.window.a + 1) x.old.window.b x.old.retired (x.old.older_steps + 1) (state_in x.old) }
    ensures stays { x.old.window.a < 3 → (x.new.regs.pc ≡ x.old.regs.pc) × (x.new.window.a ≡ x.old.window.a + 1) }
    ensures kept { Keeps x.old x.new }
    ensures count { CountsOne x.old x.new }
{
    x.older_steps += 1;
    if x.window.a < 3 {
        x.window.a += 1;
    } else {
        x.window = Window {
            a: x.window.b,
            b: 0,
        };
        x.retired += 1;
        x.regs.pc += 4;
    }
}

/// The next beat of the vector instruction at the program counter, after what comes before it.
#[inline(always)]
pub fn vector_step(v: &Any, x: &mut Cpu) -> Result<(), Cause>
    requires count { (x.old.retired < 2 ^ 63) × (x.old.older_steps < 2 ^ 63) }
    requires position { IsPosition x.old }
    requires pc { x.old.regs.pc + 4 < 2 ^ 32 }
    ensures value { (listing : Listing) → vector_of (listing x.old.regs.pc) ≡ Some (row_of v.now)
        → reached result x.new ≡ older (core listing (memory_of x.old.mem).around) (config_of x.old) }
    ensures stays { OnOk result (x.old.window.a < 3 → (x.new.regs.pc ≡ x.old.regs.pc) × (x.new.window.a ≡ x.old.window.a + 1)) }
    ensures kept { Keeps x.old x.new }
    ensures count { CountsOne x.old x.new }
{
    if let Err(cause) = begin(v, x.window.a, &mut x.regs) {
        return Err(cause);
    }
    if let Err(cause) = beat(v, x.window.a, &mut x.regs, &mut x.mem) {
        return Err(cause);
    }
    end_beat(x);
    Ok(())
}

/// The number of a breakpoint, among scalar instructions.
fn scalar_break(i: &Scalar) -> Option<u8>
    ensures value { result ≡ scalar_break i.now }
{
    match i {
        Scalar::S18(i) => Some(i.i.get() as u8),
        _ => None,
    }
}

/// The number of a breakpoint.
fn break_of(i: &Instr) -> Option<u8>
    ensures value { result ≡ break_of i.now }
{
    match i {
        Instr::Scalar(i) => scalar_break(i),
        Instr::Branch(_) | Instr::Vector(_) => None,
    }
}

/// An instruction that is no vector row, done; or a stop, which changes nothing but that a context may have been made.
#[inline(always)]
pub fn execute(i: &Instr, regs: &mut Regs, mem: &mut Mem) -> Result<Flow, Stop>
    requires row { IsTrue (not (is_vector_row i.now)) }
    ensures value { (output : List ℕ) → executed_by result (state_of regs.new (memory_of mem.new) output)
        ≡ scalar_in_machine (memory_of mem.old).around i.now (state_of regs.old (memory_of mem.old) output) }
    ensures stopped { OnErr result ((regs.new ≡ made i.now regs.old) × (memory_of mem.new ≡ memory_of mem.old)) }
    ensures kept { IsSameElsewhere (memory_of mem.old) (memory_of mem.new) }
    ensures range { InRange regs.old }
    ensures counted { Counted regs.old }
{
    regs.in_range();
    hm_exec::step(i, regs, mem)
}

/// The same of the thread, in which each that is done goes on to the next.
#[inline(always)]
fn execute_in_thread(i: &Instr, regs: &mut Regs, mem: &mut Mem) -> Result<(), Cause>
    requires row { IsTrue (not (is_vector_row i.now)) }
    ensures value { (output : List ℕ) → executed result (state_of regs.new (memory_of mem.new) output)
        ≡ done_as cause.Stop (scalar_in_machine (memory_of mem.old).around i.now (state_of regs.old (memory_of mem.old) output)) }
    ensures stopped { OnErr result ((regs.new ≡ made i.now regs.old) × (memory_of mem.new ≡ memory_of mem.old)) }
    ensures kept { IsSameElsewhere (memory_of mem.old) (memory_of mem.new) }
    ensures range { InRange regs.old }
    ensures counted { Counted regs.old }
{
    if let Err(stop) = execute(i, regs, mem) {
        return Err(Cause::Stop(stop));
    }
    Ok(())
}

/// After the whole of an instruction that is no vector row, which is retired.
fn retire(x: &mut Cpu)
    requires count { (x.old.retired < 2 ^ 63) × (x.old.older_steps < 2 ^ 63) }
    ensures new { x.new ≡ record x.old { window = record { a = 0; b = 0 }; retired = x.old.retired + 1; older_steps = x.old.older_steps + 1 } }
{
    x.window = Window { a: 0, b: 0 };
    x.retired += 1;
    x.older_steps += 1;
}

/// The whole of an instruction that is no vector row, which stands at the program counter; or it halts, or stops.
#[inline(always)]
pub fn other_step(i: &Instr, x: &mut Cpu) -> Result<(), Cause>
    requires row { IsTrue (not (is_vector_row i.now)) }
    requires count { (x.old.retired < 2 ^ 63) × (x.old.older_steps < 2 ^ 63) }
    requires position { IsPosition x.old }
    requires room { vec_capacity x.old.output ≡ most_output }
    ensures value { (listing : Listing) → listing x.old.regs.pc ≡ Ok i.now
        → reached result x.new ≡ older (core listing (memory_of x.old.mem).around) (config_of x.old) }
    ensures kept { Keeps x.old x.new }
    ensures count { CountsOne x.old x.new }
{
    if let Some(k) = break_of(i) {
        breakpoint(k, x)?;
        retire(x);
        return Ok(());
    }
    if let Err(cause) = execute_in_thread(i, &mut x.regs, &mut x.mem) {
        return Err(cause);
    }
    retire(x);
    Ok(())
}

/// A step of this instruction of the thread, which stands at the program counter: the next beat of a vector instruction, or the whole
/// of any other.
#[inline(always)]
pub fn thread_step(i: &Decoded, x: &mut Cpu) -> Result<(), Cause>
    requires count { (x.old.retired < 2 ^ 63) × (x.old.older_steps < 2 ^ 63) }
    requires position { IsPosition x.old }
    requires room { vec_capacity x.old.output ≡ most_output }
    requires pc { x.old.regs.pc + 4 < 2 ^ 32 }
    ensures value { (listing : Listing) → listing x.old.regs.pc ≡ Ok (instr_of i.now)
        → reached result x.new ≡ older (core listing (memory_of x.old.mem).around) (config_of x.old) }
    ensures kept { Keeps x.old x.new }
    ensures count { CountsOne x.old x.new }
{
    match i {
        Decoded::Whole(i) => other_step(&i.instr, x),
        Decoded::Beats(v) => vector_step(v, x),
    }
}
