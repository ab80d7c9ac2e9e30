//! Laws of the definitions. The function does nothing, and its clauses are what is proved.

ghost use Rattle.std.specs.Prelude.{◌≡◌, ◌≤◌, ℕ, List, length, Ok};
ghost use Rattle.hm_base.specs.Image.{Segment, IsImage};
ghost use Rattle.hm_elf.specs.Elf.{IsImageFile};
ghost use Rattle.hm_elf.specs.ReadImage.{image_in};
ghost use Rattle.hm_elf.specs.WriteImage.{elf_file};

/// Reading finds an image in bytes exactly where they hold it, and finds it in the file that it is written as.
pub fn image_law()
    ensures found { (bytes : List ℕ) (image : List Segment) → image_in bytes ≡ Ok image → IsImageFile bytes image }
    ensures only { (bytes : List ℕ) (image : List Segment) → IsImageFile bytes image → image_in bytes ≡ Ok image }
    ensures written { (image : List Segment) → IsImage image → length image ≤ 64 → image_in (elf_file image) ≡ Ok image }
{}
