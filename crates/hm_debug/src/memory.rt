//! Lines of memory.

ghost use Rattle.std.specs.Prelude.{◌≡◌, ◌+◌, ◌/◌, ◌^◌, ◌≤◌, ◌++◌, IfOk, true};
ghost use Rattle.hm_debug.specs.Commands.{most_bytes};
ghost use Rattle.hm_debug.specs.Lines.{all_mapped, bytes_text, contents_text, memory_line, memory_lines};
ghost use Rattle.hm_machine.specs.Shown.{timed_of};

use hm_base::OutOfMemory;
use hm_machine::Machine;
use hm_text_base::{hex2, hex8, separator, text};

/// How many bytes a line has at most.
const ROW: u32 = 16;

/// Whether each of some bytes is there.
fn all_mapped(machine: &Machine, at: u32, count: u32) -> bool
    requires within { at + count ≤ 2 ^ 32 }
    ensures value { result ≡ all_mapped at count }
{
    for k in 0..count {
        if machine.byte(at + k).is_none() {
            return false;
        }
    }
    true
}

/// Adds bytes that are there, in two digits each.
fn add_bytes(out: &mut Vec<u8>, machine: &Machine, at: u32, count: u32) -> Result<(), OutOfMemory>
    requires within { at + count ≤ 2 ^ 32 }
    requires there { all_mapped at count ≡ true }
    ensures added { IfOk result (λ _. out.new.items ≡ out.old.items ++ bytes_text (timed_of machine.now).config.state at count) }
{
    for k in 0..count {
        let byte = machine.byte(at + k).unwrap();
        hex2(out, byte)?;
    }
    Ok(())
}

/// Adds bytes, or that one of them is not there.
fn add_contents(
    out: &mut Vec<u8>,
    machine: &Machine,
    at: u32,
    count: u32,
) -> Result<(), OutOfMemory>
    requires within { at + count ≤ 2 ^ 32 }
    ensures added { IfOk result (λ _. out.new.items ≡ out.old.items ++ contents_text (timed_of machine.now).config.state at count) }
{
    if all_mapped(machine, at, count) {
        add_bytes(out, machine, at, count)
    } else {
        text(out, b"unmapped")
    }
}

/// Adds a line: the address, and the bytes from there on.
fn add_row(out: &mut Vec<u8>, machine: &Machine, at: u32, count: u32) -> Result<(), OutOfMemory>
    requires within { at + count ≤ 2 ^ 32 }
    ensures added { IfOk result (λ _. out.new.items ≡ out.old.items ++ memory_line (timed_of machine.now).config.state at count) }
{
    hex8(out, at)?;
    separator(out)?;
    add_contents(out, machine, at, count)?;
    text(out, b"\n")
}

/// Adds lines of sixteen bytes, the last of as many as are left.
pub fn add_memory(
    out: &mut Vec<u8>,
    machine: &Machine,
    addr: u32,
    len: u32,
) -> Result<(), OutOfMemory>
    requires within { addr + len ≤ 2 ^ 32 }
    requires few { len ≤ most_bytes }
    ensures added { IfOk result (λ _. out.new.items ≡ out.old.items ++ memory_lines (timed_of machine.now).config.state addr len ((len + 15) / 16)) }
{
    for row in 0..(len + 15) / 16 {
        let done = row * ROW;
        let count = (len - done).min(ROW);
        add_row(out, machine, addr + done, count)?;
    }
    Ok(())
}
