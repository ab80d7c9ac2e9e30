//! Laws of what the clauses of the top call speak of.

ghost use Rattle.std.specs.Prelude.{◌≡◌, ◌≢◌, ℕ, List, Some, Ok, Result, option_map};
ghost use Rattle.hm_base.specs.Image.{IsImage, Segment};
ghost use Rattle.hm_codes.specs.Listing.{Listing};
ghost use Rattle.hm_elf.specs.WriteImage.{elf_file};
ghost use Rattle.hm_host.specs.Host.{FileMap};
ghost use Rattle.hm_ihex.specs.Written.{AreBytes, hex_file};
ghost use Rattle.hm_kernel.specs.Compiled.{Compiles};
ghost use Rattle.hm_sched.specs.Schedule.{Sched};
ghost use Rattle.hm_sched.specs.declared.errors.SchedErr.{SchedErr};
ghost use Rattle.hm_work.specs.Commands.{AreListings, run_outcome};
ghost use Rattle.hm_work.specs.Images.{image_of};
ghost use Rattle.hm_commands.specs.Effect.{Effect, IsEffect};
ghost use Rattle.hm_words.specs.Words.{form_of, kernel};

/// The flash of each image has a listing.
///
/// It does nothing; its clause is a theorem about the codes.
pub fn listings_exist()
    ensures { (listings : List Segment → Listing) × AreListings listings }
{}

/// Words have an effect over the same files, and but for the image that a text of the array language is compiled to, one alone.
///
/// It does nothing; its clauses are theorems about the definitions.
pub fn effect_law()
    ensures one { (listings : List Segment → Listing) (words : List (List ℕ)) (F : FileMap) (d e : Effect)
        → ((source out : List ℕ) → form_of words ≢ Some (kernel source out))
        → IsEffect listings words F d → IsEffect listings words F e → d ≡ e }
    ensures alike { (listings : List Segment → Listing) (words : List (List ℕ)) (F : FileMap) (d e : Effect) → IsEffect listings words F d
        → IsEffect listings words F e
        → (d.status ≡ e.status) × (d.text ≡ e.text) × (option_map (λ file. file.0) d.file ≡ option_map (λ file. file.0) e.file) }
    ensures some { (listings : List Segment → Listing) (words : List (List ℕ)) (F : FileMap) → (e : Effect) × IsEffect listings words F e }
{}

/// A run of an image and a run of its file of Intel HEX come to the same under each schedule: the same report and the same memory file.
///
/// It does nothing; its clause is a theorem about the definitions.
pub fn hex_run_law()
    ensures alike { (listings : List Segment → Listing) (image : List Segment) (schedule : Result Sched SchedErr) (memory : List ℕ) → AreListings listings
        → IsImage image → AreBytes image
        → run_outcome listings (image_of (hex_file image)) schedule memory ≡ run_outcome listings (Ok image) schedule memory }
{}

/// The file that a text of the array language is compiled to holds the image, so each command that reads a file takes it for that image.
///
/// It does nothing; its clause is a theorem about the definitions.
pub fn kernel_file_law()
    ensures holds { (source : List ℕ) (image : List Segment) → Compiles source image → image_of (elf_file image) ≡ Ok image }
{}
