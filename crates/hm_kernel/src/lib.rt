//! The compiler of the array language: from the bytes of a text to its image, and to the number of its steps; and that the code does what the text
//! means.
#![tactic(auto)]

ghost use Rattle.std.specs.Prelude.{◌≡◌, ◌<◌, ◌^◌, ℕ, List, Some, length, IfOk, IfErr};
ghost use Rattle.hm_base.specs.Image.{Segment, flash_byte};
ghost use Rattle.hm_codes.specs.Listing.{IsListing, Listing};
ghost use Rattle.hm_run_laws.specs.Runs.{shown_out};
ghost use Rattle.hm_kernel.specs.Compiled.{Compiles, IsCompiled, Takes};
ghost use Rattle.hm_kernel_lang.specs.declared.text.Text.{Text};
ghost use Rattle.hm_kernel_lang.specs.Language.{meaning, steps};
ghost use Rattle.hm_kernel.specs.Theorem.{IsFileOf};
ghost use Rattle.hm_kernel_text.specs.ReadFile.{Fails, kernel_in};
ghost use Rattle.hm_kernel_text.specs.Written.{IsKernel, Written};
ghost use Rattle.hm_run.specs.declared.Reason.{Reason};
ghost use Rattle.hm_run.specs.declared.Outcome.TheVariants.{Halted};
ghost use Rattle.hm_run.specs.Report.{memory_text};
ghost use Rattle.hm_sched.specs.Schedule.{Sched};

mod rows;

use hm_base::Image;
use hm_kernel_code::{image_of, steps_of};
use hm_kernel_text::read_kernel;
pub use hm_kernel_text::{KernelErr, KernelKind};
pub use rows::kernel_law;
use std::alloc::Global;

/// The image of the text that the bytes say: in flash its code from 8 on, in SRAM the values of its arrays.
///
/// Refuses what reading refuses: Line at the first bad line, with its number from 1 on and what is bad in it. And OutOfMemory.
pub fn compile(alloc: Global, text: &[u8]) -> Result<Image, KernelErr>
    // The instructions of the image in order do what the text means.
    ensures found { IfOk result (λ image. Compiles text.now image) }
    // A text is compiled, unless memory was wanted.
    ensures only { (w : Written) → IsKernel text.now w → IfErr result (λ e. e ≡ KernelErr.OutOfMemory) }
    // A refusal is that of reading.
    ensures cause { IfErr result (λ e. Fails e (kernel_in text.now)) }
{
    let x = read_kernel(alloc, text)?;
    Ok(image_of(alloc, &x)?)
}

/// How many steps the code of the text takes that the bytes say, to the end of the run, the breakpoint among them. It makes no image.
///
/// Refuses what reading refuses: Line at the first bad line, with its number from 1 on and what is bad in it. And OutOfMemory.
pub fn steps(alloc: Global, text: &[u8]) -> Result<u64, KernelErr>
    // So many steps has the text.
    ensures found { IfOk result (λ n. Takes text.now n) }
    // A text has its steps, unless memory was wanted.
    ensures only { (w : Written) → IsKernel text.now w → IfErr result (λ e. e ≡ KernelErr.OutOfMemory) }
    // A refusal is that of reading.
    ensures cause { IfErr result (λ e. Fails e (kernel_in text.now)) }
{
    let x = read_kernel(alloc, text)?;
    Ok(steps_of(&x))
}

/// The instructions of a compiled image in order halt after as many steps as the bytes of its text take, and the bytes fix what it means.
/// Every run of the image that halts, under whatever schedule and with whatever handlers, has halted at the end of the code, after its
/// steps, and each byte of its file that is not tainted is what the text means. What a file may hold that says a text is compiled to some
/// image.
pub fn compiled_law()
    ensures steps { (bytes : List ℕ) (image : List Segment) (n : ℕ) (compiled : Compiles bytes image) → Takes bytes n → n ≡ steps compiled.text }
    ensures meaning { (bytes : List ℕ) (image other : List Segment) (one : Compiles bytes image) (two : Compiles bytes other)
        → meaning one.text ≡ meaning two.text }
    ensures file { (x : Text) (image : List Segment) (listing : Listing) (s : Sched) (reason : Reason) (n : ℕ)
        → IsCompiled x image → IsListing (flash_byte image) listing
        → (shown_out listing image s).outcome ≡ Some (Halted reason n) → IsFileOf x (memory_text (shown_out listing image s)) reason n }
    ensures some { (bytes : List ℕ) (w : Written) → length bytes < 2 ^ 63 → IsKernel bytes w → (image : List Segment) × Compiles bytes image }
{}
