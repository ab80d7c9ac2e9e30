//! Laws of the definitions. The function does nothing, and its clauses are what is proved.

ghost use Rattle.std.specs.Prelude.{◌≡◌, ℕ, List, Ok};
ghost use Rattle.hm_sched.specs.Schedule.{Sched};
ghost use Rattle.hm_sched.specs.Written.{IsFile};
ghost use Rattle.hm_sched.specs.ReadFile.{file_in};

/// Reading finds a schedule in bytes exactly where they are a file of it.
pub fn file_law()
    ensures found { (bytes : List ℕ) (s : Sched) → file_in bytes ≡ Ok s → IsFile bytes s }
    ensures only { (bytes : List ℕ) (s : Sched) → IsFile bytes s → file_in bytes ≡ Ok s }
{}
