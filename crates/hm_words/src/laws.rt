//! Laws of words.

ghost use Rattle.std.specs.Prelude.{◌≡◌, ◌↔◌, ℕ, List, Some};
ghost use Rattle.hm_words.specs.Words.{Source, run, seq, dis, asm, soak, debug, journal, replay, migrate, plan, hex, kernel, form_of, IsRun, IsSeq, IsDis};
ghost use Rattle.hm_words.specs.Words.{IsAsm, IsSoak, IsDebug, IsJournal, IsReplay, IsMigrate, IsPlan, IsHex, IsKernel};

/// Words are read as a command exactly where they are the words of that command, by position.
///
/// It does nothing; its clauses are theorems about words.
pub fn words_of_commands()
    ensures runs { (words : List (List ℕ)) (image memory : List ℕ) (schedule : Source)
        → (form_of words ≡ Some (run image schedule memory)) ↔ IsRun words image schedule memory }
    ensures seqs { (words : List (List ℕ)) (image : List ℕ) (n : ℕ) → (form_of words ≡ Some (seq image n)) ↔ IsSeq words image n }
    ensures listings { (words : List (List ℕ)) (image : List ℕ) (lo hi : ℕ) → (form_of words ≡ Some (dis image lo hi)) ↔ IsDis words image lo hi }
    ensures sources { (words : List (List ℕ)) (source out : List ℕ) → (form_of words ≡ Some (asm source out)) ↔ IsAsm words source out }
    ensures soaks { (words : List (List ℕ)) (number : ℕ) → (form_of words ≡ Some (soak number)) ↔ IsSoak words number }
    ensures scripts { (words : List (List ℕ)) (image script : List ℕ) (schedule : Source)
        → (form_of words ≡ Some (debug image schedule script)) ↔ IsDebug words image schedule script }
    ensures journals { (words : List (List ℕ)) (image out : List ℕ) (schedule : Source) (every : ℕ)
        → (form_of words ≡ Some (journal image schedule every out)) ↔ IsJournal words image schedule every out }
    ensures replays { (words : List (List ℕ)) (image text : List ℕ) (schedule : Source) (tick : ℕ)
        → (form_of words ≡ Some (replay image schedule text tick)) ↔ IsReplay words image schedule text tick }
    ensures migrations { (words : List (List ℕ)) (image text out : List ℕ) (schedule : Source)
        → (form_of words ≡ Some (migrate image schedule text out)) ↔ IsMigrate words image schedule text out }
    ensures plans { (words : List (List ℕ)) (image out : List ℕ) (n : ℕ) → (form_of words ≡ Some (plan image n out)) ↔ IsPlan words image n out }
    ensures images { (words : List (List ℕ)) (image out : List ℕ) → (form_of words ≡ Some (hex image out)) ↔ IsHex words image out }
    ensures kernels { (words : List (List ℕ)) (source out : List ℕ) → (form_of words ≡ Some (kernel source out)) ↔ IsKernel words source out }
{}
