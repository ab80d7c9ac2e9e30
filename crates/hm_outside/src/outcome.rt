//! What a test comes to, beside what is told of it.

use crate::case::Case;
use crate::contents::{memory_before, sram_after};
use crate::perform::{Ending, add_first_touch, perform};
use crate::register::Register;
use anyhow::Result;
use hm_base::SRAM_START;
use hm_mem::Mem;
use hm_regs::Regs;
use std::alloc::{AllocError, Global};
use std::fmt::Write;

/// Tells the ending that is not as told.
fn compare_ending(
    alloc: Global,
    ending: Ending,
    case: &Case,
    all: &mut String,
) -> Result<(), AllocError> {
    let ends = ending.to_string(alloc)?;
    let told = if case.ends.is_empty() {
        "done"
    } else {
        case.ends.as_str()
    };
    if ends.as_str() != told {
        writeln!(all, "{ends}, told {told}")?;
    }
    Ok(())
}

/// Tells the registers that are not as told.
fn compare_registers(case: &Case, regs: &Regs, all: &mut String) -> Result<(), AllocError> {
    for register in Register::all() {
        let here = register.told(regs);
        let told = register.told(&case.after);
        if here.value != told.value && case.open & register.flag() == 0 {
            writeln!(all, "{here}, told {told}")?;
        }
    }
    Ok(())
}

/// Tells the first byte of SRAM that is not as told.
fn compare_sram(mem: &Mem, told: &[u8], all: &mut String) -> Result<(), AllocError> {
    for (addr, told) in (SRAM_START..u32::MAX).zip(told) {
        let here = mem.byte(addr).unwrap_or(0);
        if here != *told {
            return writeln!(all, "byte {addr:08x} {here:02x}, told {told:02x}");
        }
    }
    Ok(())
}

/// Tells the bytes whose taint is not this.
fn compare_taint(
    mem: &Mem,
    addresses: &[u32],
    wanted: bool,
    all: &mut String,
) -> Result<(), AllocError> {
    for addr in addresses {
        if mem.tainted(*addr) != wanted {
            writeln!(all, "taint of byte {addr:08x}, told {wanted}")?;
        }
    }
    Ok(())
}

/// Tells the bytes of SRAM and their taint that are not as told.
fn compare_memory(alloc: Global, case: &Case, mem: &Mem, all: &mut String) -> Result<()> {
    compare_sram(mem, &sram_after(alloc, case)?, all)?;
    compare_taint(mem, &case.still_tainted, true, all)?;
    compare_taint(mem, &case.clean, false, all)?;
    Ok(())
}

/// Whether a text has a line.
fn has_line(text: &str, line: &str) -> bool {
    text.lines().any(|other| other == line)
}

/// Tells the lines of what the first beat touches that are not as told.
fn compare_touched(
    alloc: Global,
    case: &Case,
    mem: &Mem,
    regs: &Regs,
    all: &mut String,
) -> Result<(), AllocError> {
    let mut lines = String::new(alloc);
    add_first_touch(case, mem, regs, &mut lines)?;
    for told in case.touched.lines() {
        if !has_line(&lines, told) {
            writeln!(all, "it touches others, told {told}")?;
        }
    }
    Ok(())
}

/// Tells what differs from what is told of a test, given the memory before it.
fn compare(alloc: Global, case: &Case, mem: &mut Mem, all: &mut String) -> Result<()> {
    let mut regs = case.before;
    compare_touched(alloc, case, mem, &regs, all)?;
    let ending = perform(case, &mut regs, mem);
    compare_ending(alloc, ending, case, all)?;
    compare_registers(case, &regs, all)?;
    compare_memory(alloc, case, mem, all)
}

/// What differs from what is told of a test, a line each, given flash with `nop` everywhere.
pub fn differences(alloc: Global, case: &Case, flash: &[u8]) -> Result<String> {
    let mut mem = memory_before(alloc, flash, case)?;
    let mut all = String::new(alloc);
    compare(alloc, case, &mut mem, &mut all)?;
    Ok(all)
}
