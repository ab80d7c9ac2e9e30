//! The assembler, from a source to its image, and the listing of an image.
#![tactic(auto)]

ghost use Rattle.std.specs.Prelude.{◌<◌, ◌^◌, List, length, Ok, Err, IfOk};
ghost use Rattle.hm_asm.specs.Sources.{IsAssembled, IsRefusal, IsUnlessMemory, GivesOutcome};
ghost use Rattle.hm_asm.specs.declared.errors.AsmErr.{AsmErr};
ghost use Rattle.hm_base.specs.Image.{Segment};

mod errors;
mod first;
mod laws;
mod making;
mod second;

pub use errors::AsmErr;
use first::first_pass;
use hm_base::Image;
pub use hm_line::AsmKind;
pub use hm_listing::{listing, listing_law};
pub use laws::assembly_law;
use second::second_pass;
use std::alloc::Global;

/// The image that a source gives, of fewer than 2^31 bytes.
///
/// A first pass goes line by line, and refuses a line that is not of the form (Syntax), that no row or directive has, or that has a
/// number out of its range (Row), whose label is there already (Double), or that has no place: `.org` does not go back, an instruction
/// stands at an even address, and all bytes lie in flash or in SRAM (Place). In a line they are tried in this order. Then a second pass
/// goes line by line, and refuses a name that no label has (Missing), and a target that is odd or too far, or an address that is not a
/// multiple of 4 (Offset). And OutOfMemory.
pub fn assemble(alloc: Global, source: &[u8]) -> Result<Image, AsmErr>
    requires small { length source.now < 2 ^ 31 }
    // What is given is what the source says.
    ensures found { IfOk result (λ image. IsAssembled source.now image) }
    // What the source says is given, unless memory was wanted.
    ensures only { (image : List Segment) → IsAssembled source.now image → IsUnlessMemory result (Ok image) }
    // A refusal is that of the first line that is refused.
    ensures cause { GivesOutcome source.now result }
    // A source with such a line is refused so, unless memory was wanted.
    ensures refused { (e : AsmErr) → IsRefusal source.now e → IsUnlessMemory result (Err e) }
{
    match first_pass(alloc, source) {
        Ok(labels) => second_pass(alloc, source, &labels),
        Err(e) => Err(e),
    }
}
