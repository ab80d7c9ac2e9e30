//! Laws of texts. The function does nothing, and its clauses are what is proved.

ghost use Rattle.std.specs.Prelude.{◌≡◌, ◌⊎◌, ◌<◌, ◌^◌, ℕ, List, Option};
ghost use Rattle.hm_isa.specs.declared.Instr.{Instr};
ghost use Rattle.hm_line.specs.declared.errors.AsmKind.{AsmKind};
ghost use Rattle.hm_text_tables.specs.Refusals.{IsShapeRefused, IsTextRefused};
ghost use Rattle.hm_text_tables.specs.Texts.{HasWidth, IsTextOf};

/// A text says one thing, whatever bytes it has: one width, and at one place, below 2^32, with the same labels, one instruction or one
/// refusal. It always says one of them. Where some row has the text, that is that its label is not defined or out of reach.
pub fn text_law()
    ensures width { (text : List ℕ) (n m : ℕ) → HasWidth text n → HasWidth text m → n ≡ m }
    ensures instruction { (text : List ℕ) (pc : ℕ) (labels : List ℕ → Option ℕ) (i j : Instr) → pc < 2 ^ 32 → IsTextOf text pc labels i
        → IsTextOf text pc labels j → i ≡ j }
    ensures refusal { (text : List ℕ) (pc : ℕ) (labels : List ℕ → Option ℕ) (k j : AsmKind) (c d : ℕ) → IsTextRefused k text pc labels c
        → IsTextRefused j text pc labels d → (k ≡ j) × (c ≡ d) }
    ensures not_both { (text : List ℕ) (pc : ℕ) (labels : List ℕ → Option ℕ) (i : Instr) (k : AsmKind) (c : ℕ) → IsTextOf text pc labels i
        → IsTextRefused k text pc labels c → ⊥ }
    ensures label { (text : List ℕ) (pc : ℕ) (labels : List ℕ → Option ℕ) (n : ℕ) (k : AsmKind) (c : ℕ) → HasWidth text n → IsTextRefused k text pc labels c
        → (k ≡ AsmKind.Missing) ⊎ (k ≡ AsmKind.Offset) }
    ensures some_width { (text : List ℕ) → ((n : ℕ) × HasWidth text n) ⊎ ((k : AsmKind) × (c : ℕ) × IsShapeRefused k text c) }
    ensures some { (text : List ℕ) (pc : ℕ) (labels : List ℕ → Option ℕ)
        → ((i : Instr) × IsTextOf text pc labels i) ⊎ ((k : AsmKind) × (c : ℕ) × IsTextRefused k text pc labels c) }
{}
