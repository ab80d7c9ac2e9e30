//! An image that is being made, from its lowest byte on.

ghost use Rattle.std.specs.Prelude.{◌≡◌, ◌<◌, ◌≤◌, ◌++◌, [], length, replicate, All, IfOk, OnErr, OnOk};
ghost use Rattle.hm_asm.specs.Segments.{with_piece};
ghost use Rattle.hm_base.specs.Image.{Before, IsPlaced, segment};

use hm_base::{Image, ImageErr, OutOfMemory};
use std::alloc::Global;
use std::marker::Model;
use std::mem;

/// The segments that are whole, and the bytes of the one that goes on.
#[derive(Drop)]
pub struct Making {
    alloc: Global,
    image: Image,
    start: u32,
    bytes: Vec<u8>,
}

impl Model for Making {
    ghost use Rattle.hm_asm.specs.Making.{Made};

    ghost Value = { Made };

    ghost use Rattle.hm_asm.specs.Making.{IsMade};

    ghost view = { λ a. record { whole = a.image; start = a.start; bytes = a.bytes.items } };

    ghost invariant = { λ a. IsMade (record { whole = a.image; start = a.start; bytes = a.bytes.items }) };
}

/// Adds a segment behind those of an image, where it has a byte.
fn add_segment(image: &mut Image, start: u32, bytes: Vec<u8>) -> Result<(), OutOfMemory>
    requires placed { 0 < length bytes.items → IsPlaced (segment start bytes.items) }
    requires behind { All (λ s. Before s (segment start bytes.items)) image.old }
    ensures added { OnOk result (image.new ≡ image.old ++ with_piece start bytes.items []) }
    ensures kept { OnErr result (image.new ≡ image.old) }
{
    if bytes.is_empty() {
        return Ok(());
    }
    match image.add(start, bytes) {
        Ok(()) => Ok(()),
        Err(ImageErr::OutOfMemory) => Err(OutOfMemory),
        // it has its place
        Err(_) => unreachable!(),
    }
}

/// Adds so many zero bytes.
fn add_zeros(out: &mut Vec<u8>, count: u32) -> Result<(), OutOfMemory>
    ensures added { IfOk result (λ _. out.new.items ≡ out.old.items ++ replicate count 0) }
    ensures kept { OnErr result (out.new.items ≡ out.old.items) }
{
    out.resize(out.len() + count as usize, 0)?;
    Ok(())
}

impl Making {
    ghost use Rattle.hm_asm.specs.Making.{closed, moved, place_of, with_bytes};
    ghost use Rattle.hm_source.specs.Places.{HasRoom};

    /// Nothing yet, at address 0.
    pub fn new(alloc: Global) -> Making
        ensures nothing { result ≡ record { whole = []; start = 0; bytes = [] } }
    {
        Making {
            alloc,
            image: Image::new(alloc),
            start: 0,
            bytes: Vec::new(alloc),
        }
    }

    /// Where the next byte stands.
    pub fn place(&self) -> u32
        ensures value { result ≡ place_of self.now }
    {
        self.start + self.bytes.len() as u32
    }

    /// Goes on at an address, which is not below the place.
    pub fn move_to(&mut self, at: u32) -> Result<(), OutOfMemory>
        requires rising { place_of self.old ≤ at }
        ensures moved { OnOk result (self.new ≡ moved self.old at) }
    {
        if self.place() == at {
            return Ok(());
        }
        let bytes = mem::replace(&mut self.bytes, Vec::new(self.alloc));
        add_segment(&mut self.image, self.start, bytes)?;
        self.start = at;
        Ok(())
    }

    /// Adds bytes, which have room at the place.
    pub fn add(&mut self, more: &[u8]) -> Result<(), OutOfMemory>
        requires room { HasRoom (place_of self.old) (length more.now) }
        ensures added { OnOk result (self.new ≡ with_bytes self.old more.now) }
    {
        self.bytes.extend_from_slice(more)?;
        Ok(())
    }

    /// Adds zero bytes, which have room at the place.
    pub fn add_zeros(&mut self, count: u32) -> Result<(), OutOfMemory>
        requires room { HasRoom (place_of self.old) count }
        ensures added { OnOk result (self.new ≡ with_bytes self.old (replicate count 0)) }
    {
        add_zeros(&mut self.bytes, count)
    }

    /// The image, where no more bytes come.
    pub fn finish(self) -> Result<Image, OutOfMemory>
        ensures image { IfOk result (λ image. image ≡ closed self) }
    {
        let Making {
            alloc: _,
            mut image,
            start,
            bytes,
        } = self;
        add_segment(&mut image, start, bytes)?;
        Ok(image)
    }
}
