//! Laws of the definitions. The function does nothing, and its clauses are what is proved.

ghost use Rattle.std.specs.Prelude.{◌≡◌, ℕ, List, Ok};
ghost use Rattle.hm_base.specs.Image.{IsImage, Segment, first_byte, flash_byte};
ghost use Rattle.hm_ihex.specs.Files.{hex_in};
ghost use Rattle.hm_ihex.specs.HexFile.{IsHexFile};
ghost use Rattle.hm_ihex.specs.Written.{AreBytes, hex_file, joined};

/// Bytes are read as an image exactly where they are a file of it. No two of its segments touch: to make one of such as do leaves it as it is.
///
/// The file of an image is read as the image, those segments that touch made one, which is an image of the same bytes.
pub fn hex_law()
    ensures found { (bytes : List ℕ) (image : List Segment) → hex_in bytes ≡ Ok image → IsHexFile bytes image }
    ensures only { (bytes : List ℕ) (image : List Segment) → IsHexFile bytes image → hex_in bytes ≡ Ok image }
    ensures longest { (bytes : List ℕ) (image : List Segment) → hex_in bytes ≡ Ok image → joined image ≡ image }
    ensures read_back { (image : List Segment) → IsImage image → AreBytes image → hex_in (hex_file image) ≡ Ok (joined image) }
    ensures is_image { (image : List Segment) → IsImage image → IsImage (joined image) }
    ensures same_bytes { (image : List Segment) → IsImage image → (a : ℕ)
        → (flash_byte (joined image) a ≡ flash_byte image a) × (first_byte (joined image) a ≡ first_byte image a) }
{}
