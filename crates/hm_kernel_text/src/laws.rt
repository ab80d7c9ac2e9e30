//! Laws of the definitions. The function does nothing, and its clauses are what is proved.

ghost use Rattle.std.specs.Prelude.{◌≡◌, ◌<◌, ◌^◌, ℕ, List, Ok, length};
ghost use Rattle.hm_kernel_lang.specs.declared.text.Text.{Text};
ghost use Rattle.hm_kernel_lang.specs.Texts.{IsText};
ghost use Rattle.hm_kernel_text.specs.Held.{written};
ghost use Rattle.hm_kernel_text.specs.Written.{IsKernel, Written};
ghost use Rattle.hm_kernel_text.specs.ReadFile.{kernel_in};

/// Reading finds what a text says exactly where the bytes are the text of it; and what a text says that a file may hold is said by a value
/// that may be compiled.
pub fn kernel_text_law()
    ensures found { (text : List ℕ) (w : Written) → kernel_in text ≡ Ok w → IsKernel text w }
    ensures only { (text : List ℕ) (w : Written) → IsKernel text w → kernel_in text ≡ Ok w }
    ensures some { (text : List ℕ) (w : Written) → length text < 2 ^ 63 → IsKernel text w → (x : Text) × IsText x × (written x ≡ w) }
{}
