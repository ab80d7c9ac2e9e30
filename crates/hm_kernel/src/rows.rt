//! What the code of an array text does in this machine: its instructions do to a state what those of the small machine of vectors
//! do to what the state shows, and so the code does what the text means. The function is a law: it does nothing, and its clauses are what is proved of
//! the definitions.

ghost use Rattle.std.specs.Prelude.{ℕ, List};
ghost use Rattle.hm_base.specs.Image.{Segment, flash_byte};
ghost use Rattle.hm_codes.specs.Listing.{IsListing, Listing};
ghost use Rattle.hm_run.specs.declared.Reason.{Reason};
ghost use Rattle.hm_run.specs.Headline.{HaltsInOrder};
ghost use Rattle.hm_kernel_code.specs.Images.{IsImageOf};
ghost use Rattle.hm_kernel_lang.specs.declared.text.Text.{Text};
ghost use Rattle.hm_kernel_lang.specs.Texts.{IsText};
ghost use Rattle.hm_kernel.specs.Theorem.{Computes, IsFileOf};

/// The code of a text does what it means: so many instructions in order as its steps say halt by a breakpoint, and SRAM is
/// then what the text means, where an image has its code and its values. And every run that halts as the instructions in order do has
/// that in each untainted byte of its file.
pub fn kernel_law()
    ensures computes { (x : Text) (image : List Segment) (listing : Listing)
        → IsText x → IsImageOf x image → IsListing (flash_byte image) listing → Computes x image listing }
    ensures file { (x : Text) (image : List Segment) (listing : Listing) (report file : List ℕ) (reason : Reason) (n : ℕ)
        → IsText x → IsImageOf x image → IsListing (flash_byte image) listing
        → HaltsInOrder listing image report file reason n → IsFileOf x file reason n }
{}
