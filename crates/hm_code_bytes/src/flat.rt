//! The image of bytes that lie in flash.

ghost use Rattle.std.specs.Prelude.{◌≡◌, ◌<◌, ◌≤◌, length, IfOk};
ghost use Rattle.hm_base.specs.Image.{flash_size, flat};

use hm_base::{Image, ImageErr, OutOfMemory};
use std::alloc::Global;

/// The image of bytes that lie in flash from 0 on.
pub fn flat_image(alloc: Global, bytes: Vec<u8>) -> Result<Image, OutOfMemory>
    requires some { 0 < length bytes.items }
    requires few { length bytes.items ≤ flash_size }
    ensures value { IfOk result (λ image. image ≡ flat bytes.items) }
{
    let mut image = Image::new(alloc);
    match image.add(0, bytes) {
        Ok(()) => Ok(image),
        Err(ImageErr::OutOfMemory) => Err(OutOfMemory),
        Err(_) => unreachable!(),
    }
}
