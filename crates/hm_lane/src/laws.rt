//! Laws of the definitions. The functions do nothing, and their clauses are what is proved.

ghost use Rattle.std.specs.Prelude.{ℕ, Bool, false, ◌≡◌, ◌<◌, ◌+◌, ◌*◌, List, ◌∷◌, ◌++◌, All, length};
ghost use Rattle.hm_base.specs.Place.{IsPlace, has_place};
ghost use Rattle.hm_base.specs.declared.Place.{Place};
ghost use Rattle.hm_base.specs.declared.Place.TheVariants.{QWord};
ghost use Rattle.hm_regs.specs.Place.{value_at};
ghost use Rattle.hm_regs.specs.Writes.{Agree, apply, places_of};
ghost use Rattle.hm_regs.specs.declared.Regs.{Regs};
ghost use Rattle.hm_lane.specs.declared.lanes.Size.{Size};
ghost use Rattle.hm_lane.specs.Lanes.{bytes_of, lanes, merged, modulus, unlanes, word_of};
ghost use Rattle.hm_lane.specs.Predicate.{active_word, advance_places, finish_writes, predicate_of, predicate_places};

/// Lanes and bytes give each other back, and the lanes of a vector register are those of its four words.
pub fn lanes_law()
    ensures there { (z : Size) (l : List ℕ) → All (λ x. x < modulus z) l → lanes z (unlanes z l) ≡ l }
    ensures back { (z : Size) (v : List ℕ) → length v ≡ 16 → All (λ x. x < 256) v → unlanes z (lanes z v) ≡ v }
    ensures word { (x : ℕ) → x < 0x100000000 → word_of (bytes_of x) ≡ x }
    ensures words { (z : Size) (a b c d : ℕ) → lanes z (bytes_of a ++ bytes_of b ++ bytes_of c ++ bytes_of d)
        ≡ lanes z (bytes_of a) ++ lanes z (bytes_of b) ++ lanes z (bytes_of c) ++ lanes z (bytes_of d) }
{}

/// The predicate is that of the four words, and to merge a vector register under it is to merge each of its words.
pub fn predicate_law()
    ensures words { (r : Regs) → predicate_of r ≡ active_word r 0 ++ active_word r 1 ++ active_word r 2 ++ active_word r 3 }
    ensures merges { (r : Regs) (a b c d x y z w : ℕ)
        → merged (predicate_of r) (bytes_of a ++ bytes_of b ++ bytes_of c ++ bytes_of d)
        (bytes_of x ++ bytes_of y ++ bytes_of z ++ bytes_of w)
        ≡ merged (active_word r 0) (bytes_of a) (bytes_of x) ++ merged (active_word r 1) (bytes_of b) (bytes_of y)
        ++ merged (active_word r 2) (bytes_of c) (bytes_of z) ++ merged (active_word r 3) (bytes_of d) (bytes_of w) }
{}

/// What `finish` writes beside its word are the slice of P0 and the mask that the advance writes, and it depends on no
/// place but its word and those of the predicate.
pub fn finish_law()
    ensures written { (d b new : ℕ) (r : Regs)
        → places_of (finish_writes d b new r) ≡ QWord (4 * d + b) ∷ advance_places b r }
    ensures others { (d b new : ℕ) (r : Regs) (q : Place) → d < 8 → b < 4 → IsPlace q
        → has_place (QWord (4 * d + b) ∷ advance_places b r) q ≡ false
        → value_at q (apply (finish_writes d b new r) r) ≡ value_at q r }
    ensures depends { (d b new : ℕ) (r t : Regs) → Agree (QWord (4 * d + b) ∷ predicate_places b r) r t
        → finish_writes d b new t ≡ finish_writes d b new r }
{}
