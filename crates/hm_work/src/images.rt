//! Images of any form.

ghost use Rattle.std.specs.Prelude.{◌≤◌, length};
ghost use Rattle.hm_base.specs.Results.{GivesImage};
ghost use Rattle.hm_host.specs.Host.{longest};
ghost use Rattle.hm_work.specs.Images.{image_of};

use hm_base::{Image, ImageErr};
use hm_elf::read_image;
use hm_ihex::read_hex;
use std::alloc::Global;

/// The image of a file: of Intel HEX where it begins with a colon, else an ELF or a flat one.
pub fn read_any(alloc: Global, bytes: &[u8]) -> Result<Image, ImageErr>
    requires short { length bytes.now ≤ longest }
    ensures exact { GivesImage result (image_of bytes.now) }
{
    if !bytes.is_empty() && bytes[0] == b':' {
        read_hex(alloc, bytes)
    } else {
        read_image(alloc, bytes)
    }
}
