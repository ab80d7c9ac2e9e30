//! What stands at an address, as text.

ghost use Rattle.std.specs.Prelude.{◌≡◌, ◌++◌, IfOk};
ghost use Rattle.hm_codes.specs.Listing.{IsListing, Listing};
ghost use Rattle.hm_mem.specs.Memory.{flash_at};
ghost use Rattle.hm_trace.specs.Lines.{instr_text, text_of};

use hm_base::OutOfMemory;
use hm_machine::Machine;
use hm_text_base::{hex8, separator, text};
use hm_text_tables::print_instr;

/// Adds the text of the instruction that stands at an address, or that none does.
fn add_text(out: &mut Vec<u8>, machine: &Machine, addr: u32) -> Result<(), OutOfMemory>
    ensures added { (listing : Listing) → IsListing (flash_at machine.now.memory) listing
        → IfOk result (λ _. out.new.items ≡ out.old.items ++ text_of addr (listing addr)) }
{
    match machine.instr(addr) {
        Some(i) => text(out, print_instr(&i, addr).as_str().as_bytes()),
        None => text(out, b"no instruction"),
    }
}

/// Adds an address, and the text of what stands there.
pub fn add_instr(out: &mut Vec<u8>, machine: &Machine, addr: u32) -> Result<(), OutOfMemory>
    ensures added { (listing : Listing) → IsListing (flash_at machine.now.memory) listing
        → IfOk result (λ _. out.new.items ≡ out.old.items ++ instr_text listing addr) }
{
    hex8(out, addr)?;
    separator(out)?;
    add_text(out, machine, addr)
}
