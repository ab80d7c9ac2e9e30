//! Images as they stand in files: ELF files, and flat ones, which lie in flash from 0 on.
#![tactic(auto)]

mod laws;
mod reading;
mod writing;

pub use laws::image_law;
pub use reading::read_image;
pub use writing::write_image;
