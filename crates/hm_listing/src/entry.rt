//! The line at one address.

ghost use Rattle.std.specs.Prelude.{◌≡◌, ◌%◌, ◌++◌, ◌∷◌, [], codes, map, IfOk};
ghost use Rattle.std.specs.List.{join_with_byte};
ghost use Rattle.hm_listing.specs.Listings.{entry_line, half, halves_from, hex4, listing_line};
ghost use Rattle.hm_text_tables.specs.Tables.{printed_text};
ghost use Rattle.hm_text_base.specs.Texts.{hex8};

use hm_base::OutOfMemory;
use hm_isa::Instr;
use hm_text_base::{hex2, hex8, text};
use hm_text_tables::print_instr;

/// Adds a halfword in four digits.
fn add_hex4(out: &mut Vec<u8>, half: u16) -> Result<(), OutOfMemory>
    ensures added { IfOk result (λ _. out.new.items ≡ out.old.items ++ hex4 half) }
{
    hex2(out, (half / 256) as u8)?;
    hex2(out, (half % 256) as u8)
}

/// Adds one halfword or two, with a space between them.
fn add_halves(out: &mut Vec<u8>, first: u16, second: Option<u16>) -> Result<(), OutOfMemory>
    ensures added { IfOk result (λ _. out.new.items ≡ out.old.items ++ join_with_byte 32 (map hex4 (halves_from first second))) }
{
    add_hex4(out, first)?;
    match second {
        None => Ok(()),
        Some(second) => {
            text(out, b" ")?;
            add_hex4(out, second)
        }
    }
}

/// Adds an address and the space behind it.
fn add_address(out: &mut Vec<u8>, at: u32) -> Result<(), OutOfMemory>
    ensures added { IfOk result (λ _. out.new.items ≡ out.old.items ++ (hex8 at ++ 32 ∷ [])) }
{
    hex8(out, at)?;
    text(out, b" ")
}

/// Adds the line of an instruction at an even address: the address, the one or two halfwords of its code, and its text.
pub fn instr_line(
    out: &mut Vec<u8>,
    at: u32,
    first: u16,
    second: Option<u16>,
    i: &Instr,
) -> Result<(), OutOfMemory>
    requires even { at % 2 ≡ 0 }
    ensures added { IfOk result (λ _. out.new.items ≡ out.old.items ++ listing_line at (halves_from first second) (printed_text i.now at)) }
{
    add_address(out, at)?;
    add_halves(out, first, second)?;
    text(out, b" ")?;
    let instr = print_instr(i, at);
    text(out, instr.as_str().as_bytes())?;
    text(out, b"\n")
}

/// Adds the text of a halfword, with the space before it, and the end of its line.
fn add_half_text(out: &mut Vec<u8>, alone: u16) -> Result<(), OutOfMemory>
    ensures added { IfOk result (λ _. out.new.items ≡ out.old.items ++ (codes " .half 0x" ++ (hex4 alone ++ 10 ∷ []))) }
{
    text(out, b" .half 0x")?;
    add_hex4(out, alone)?;
    text(out, b"\n")
}

/// Adds the line of a halfword at which no instruction is shown: the address, the halfword, and `.half 0xhhhh` for its text.
pub fn half_line(out: &mut Vec<u8>, at: u32, alone: u16) -> Result<(), OutOfMemory>
    ensures added { IfOk result (λ _. out.new.items ≡ out.old.items ++ entry_line at (half alone)) }
{
    add_address(out, at)?;
    add_hex4(out, alone)?;
    add_half_text(out, alone)
}
