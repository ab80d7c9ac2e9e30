//! Laws of rows that load or store. The functions do nothing, and their clauses are what is proved.

ghost use Rattle.std.specs.Prelude.{◌≡◌, false};
ghost use Rattle.hm_mem.specs.Memory.{Around};
ghost use Rattle.hm_beat.specs.Laws.{KeepsLr, RowLaws};
ghost use Rattle.hm_moves.specs.Moves.{IsMoves, Moves, SparesLr, moves_tree, moves_by_words};
ghost use Rattle.hm_moves.specs.Wholes.{FitsRegister, transfer_whole};
ghost use Rattle.hm_moves.specs.Ways.{Transfer, moves_by, way_writes_lr};

/// What four beats of a row that loads or stores come to, by words and as the whole.
pub fn moves_law()
    ensures rows { (i : Moves) → IsMoves i → RowLaws (moves_tree i) (moves_by_words i) }
    ensures keeps_lr { (i : Moves) (x : Around) → IsMoves i → SparesLr i → KeepsLr (moves_tree i x) }
    // The same of whatever a row moves, by words, also where an element is longer in memory than in its register.
    ensures words { (t : Transfer) → RowLaws (moves_tree (moves_by t)) (moves_by_words (moves_by t)) }
    // The same of what a row moves, whose whole is said of its elements as lists, in rising order.
    ensures ways { (t : Transfer) → FitsRegister t → RowLaws (moves_tree (moves_by t)) (transfer_whole t) }
    ensures ways_keep_lr { (t : Transfer) (x : Around) → way_writes_lr t.found ≡ false → KeepsLr (moves_tree (moves_by t) x) }
{}
