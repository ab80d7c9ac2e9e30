//! What a program asks of its host by a breakpoint: Arm's semihosting, the operations WRITEC, WRITE0 and EXIT.

ghost use Rattle.std.specs.Prelude.{◌≡◌, ◌+◌, ◌≤◌, ◌++◌, [], ◌∷◌, false, None, Ok, IfOk, IsTrue, OnErr};
ghost use Rattle.std.specs.Vec.{vec_capacity, vec_len};
ghost use Rattle.hm_cpu.specs.Cpus.{executed, state_in, IsServed};
ghost use Rattle.hm_cpu.specs.Services.{asked_by, asked_for, told, AreFree, IsThere};
ghost use Rattle.hm_mem.specs.Devices.{has_width, read_devices, device_word};
ghost use Rattle.hm_mem.specs.Memory.{memory_of};
ghost use Rattle.hm_mem.specs.Seen.{read, seen, stop_of};
ghost use Rattle.hm_base.specs.Results.{unless};
ghost use Rattle.hm_mem.specs.declared.Access.TheVariants.{Scalar};
ghost use Rattle.hm_run.specs.Program.{answered, breakpoint, doing_in_machine, cause_of, most_output};
ghost use Rattle.hm_thumb.specs.Calls.{Writes, asked, most_text, text, writes};
ghost use Rattle.hm_thumb.specs.Does.{in_machine, words};

use crate::cpu::Cpu;
use hm_base::{Fault, FaultKind, Place, Stop};
use hm_mem::{Access, Dev, Mem};
use hm_regs::Regs;
use hm_run::{Cause, Reason};
use hm_thumb::{Way, settle};

/// The most bytes that a program may write.
pub const OUTPUT: usize = 0x1_0000;

/// No text has so many bytes: before that a read stops, since flash is the longest stretch of memory.
const MOST_TEXT: u32 = 0x10_0001;

/// The number of the breakpoint that asks something of the host.
const SEMIHOSTING: u8 = 171;

/// The operation that writes the byte at the address in r1.
const WRITEC: u32 = 0x03;

/// The operation that writes the text at the address in r1, up to its zero byte.
const WRITE0: u32 = 0x04;

/// The operation that ends the program; r1 has the reason.
const EXIT: u32 = 0x18;

/// What a breakpoint asks, once its text is known to be there.
#[derive(Clone, Copy)]
pub enum Request {
    /// The bytes from an address on go to the output.
    Write { addr: u32, len: u32 },
    /// The program ends.
    Exit { reason: u32 },
}

/// How many bytes stand from an address on before the first zero byte, at most so many; or the stop of the first that has one.
fn text_length(most: u32, addr: u32, mem: &Mem) -> Result<u32, Stop>
    ensures value { let m = memory_of mem.now in told result addr (seen m) ≡ text (in_machine m.around) most addr (seen m) }
    ensures free { IfOk result (λ n. AreFree (memory_of mem.now) n addr) }
{
    let mut at = addr;
    for k in 0..most {
        if let Err(stop) = mem.check(at, 1, Access::Scalar, false) {
            return Err(stop);
        }
        if mem.peek(at, 1, Access::Scalar) == 0 {
            return Ok(k);
        }
        at = at.wrapping_add(1);
    }
    Ok(most)
}

/// The text from an address on that WRITE0 writes.
fn text_request(addr: u32, mem: &Mem) -> Result<Request, Stop>
    ensures value { let m = memory_of mem.now in asked_for result (seen m) ≡ writes (text (in_machine m.around) most_text addr (seen m)) }
    ensures free { IfOk result (λ q. IsThere (memory_of mem.now) q) }
{
    match text_length(MOST_TEXT, addr, mem) {
        Err(stop) => Err(stop),
        Ok(len) => Ok(Request::Write { addr, len }),
    }
}

/// The byte at an address that WRITEC writes.
fn byte_request(addr: u32, mem: &Mem) -> Result<Request, Stop>
    ensures value { let m = memory_of mem.now in
        asked_for result (seen m) ≡ unless (stop_of m.around Scalar false 1 addr (seen m)) (Ok (Writes (read 1 addr (seen m) ∷ []))) }
    ensures free { IfOk result (λ q. IsThere (memory_of mem.now) q) }
{
    match mem.check(addr, 1, Access::Scalar, false) {
        Err(stop) => Err(stop),
        Ok(()) => Ok(Request::Write { addr, len: 1 }),
    }
}

/// What the program asks: WRITEC, WRITE0 or EXIT, by the operation in r0, about r1. What is written is read first, as any bytes.
fn requested(regs: &Regs, mem: &Mem) -> Result<Request, Stop>
    ensures value { let m = memory_of mem.now in asked_for result (seen m) ≡ asked (in_machine m.around) regs.now (seen m) }
    ensures free { IfOk result (λ q. IsThere (memory_of mem.now) q) }
{
    let operation = regs.get(Place::R(0));
    let about = regs.get(Place::R(1));
    match operation {
        WRITEC => byte_request(about, mem),
        WRITE0 => text_request(about, mem),
        EXIT => Ok(Request::Exit { reason: about }),
        _ => Err(Stop::Fault(Fault {
            kind: FaultKind::Semihost,
            addr: regs.pc,
        })),
    }
}

/// One byte of the devices that can be loaded by itself: a priority.
fn device_byte(addr: u32, dev: &Dev) -> u8
    requires width { IsTrue (has_width (device_word addr) 1) }
    ensures value { result ≡ read_devices dev.now (device_word addr) 1 addr }
{
    if addr >= 0xe000_e400 && addr < 0xe000_e4f0 {
        dev.prio[(addr - 0xe000_e400) as usize]
    } else if addr == 0xe000_ed23 {
        dev.tick_prio
    } else {
        0
    }
}

/// One byte, which can be loaded.
fn byte_at(addr: u32, mem: &Mem) -> u8
    requires free { let m = memory_of mem.now in stop_of m.around Scalar false 1 addr (seen m) ≡ None }
    ensures value { result ≡ read 1 addr (seen (memory_of mem.now)) }
{
    match mem.byte(addr) {
        Some(x) => x,
        None => device_byte(addr, mem.dev()),
    }
}

/// Puts so many bytes from an address on, which can be loaded, behind the output. There is room for them.
fn print(addr: u32, len: u32, mem: &Mem, output: &mut Vec<u8>)
    requires free { AreFree (memory_of mem.now) len addr }
    requires room { vec_len output.old + len ≤ vec_capacity output.old }
    ensures items { output.new.items ≡ output.old.items ++ words 1 len addr (seen (memory_of mem.now)) }
    ensures capacity { vec_capacity output.new ≡ vec_capacity output.old }
{
    let mut at = addr;
    for _k in 0..len {
        output.push_reserved(byte_at(at, mem));
        at = at.wrapping_add(1);
    }
}

/// Does what is asked, where the output has room; the program then goes on behind the breakpoint.
fn answer(q: Request, x: &mut Cpu) -> Result<(), Cause>
    requires there { IsThere (memory_of x.old.mem) q }
    requires room { vec_capacity x.old.output ≡ most_output }
    ensures value { executed result (state_in x.new) ≡ answered cause_of (state_in x.old) (asked_by q (seen (memory_of x.old.mem))) }
    ensures stays { OnErr result (x.new ≡ x.old) }
    ensures kept { IsServed x.old x.new }
{
    match q {
        Request::Exit { reason } => Err(Cause::Halt(Reason::Exit(reason))),
        Request::Write { addr, len } => {
            if len as usize > OUTPUT - x.output.len() {
                return Err(Cause::Full);
            }
            x.regs.in_range();
            print(addr, len, &x.mem, &mut x.output);
            settle(2, Way::On, &mut x.regs);
            Ok(())
        }
    }
}

/// A breakpoint: it halts the program with its number, but that one number asks something of the host.
#[cold]
#[inline(never)]
pub fn breakpoint(k: u8, x: &mut Cpu) -> Result<(), Cause>
    requires room { vec_capacity x.old.output ≡ most_output }
    ensures value { executed result (state_in x.new) ≡ breakpoint (doing_in_machine (memory_of x.old.mem).around) k (state_in x.old) }
    ensures stays { OnErr result (x.new ≡ x.old) }
    ensures kept { IsServed x.old x.new }
{
    if k != SEMIHOSTING {
        return Err(Cause::Halt(Reason::Break(k)));
    }
    x.regs.in_range();
    match requested(&x.regs, &x.mem) {
        Err(stop) => Err(Cause::Stop(stop)),
        Ok(q) => answer(q, x),
    }
}
