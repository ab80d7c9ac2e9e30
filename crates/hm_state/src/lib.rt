//! The architectural state of the definitions: what stands in each place and in each byte, and what no beat touches.
//!
//! The functions here are laws: they do nothing, and their clauses are what is proved of the definitions.
#![tactic(auto)]

ghost use Rattle.std.specs.Prelude.{◌≡◌, ℕ, suc, ◌+◌, ◌-◌, ◌*◌, ◌%◌, ◌^◌, ◌<◌, Bool, true, false, List, [], ◌∷◌, ◌++◌, length, map, nat_eq, slice_index};
ghost use Rattle.std.specs.Prelude.{slice_index_or};
ghost use Rattle.hm_base.specs.Image.{Segment, first_byte, sram_size, sram_start};
ghost use Rattle.hm_base.specs.Place.{IsPlace};
ghost use Rattle.hm_base.specs.declared.Place.{Place};
ghost use Rattle.hm_base.specs.declared.Place.TheVariants.{Sticky};
ghost use Rattle.hm_regs.specs.Place.{Counted, value_at, with_value};
ghost use Rattle.hm_regs.specs.Start.{start_regs};
ghost use Rattle.hm_regs.specs.Writes.{Write, apply};
ghost use Rattle.hm_regs.specs.declared.Regs.{Regs};
ghost use Rattle.hm_mem.specs.Memory.{Bounds, Memory, byte_at, first_devices, tainted_at, thread_under};
ghost use Rattle.hm_state.specs.Start.{reset_pc, reset_sp, start_under};
ghost use Rattle.hm_state.specs.State.{AreCells, Byte, Cell, State, at, byte_of_bits, cells, into, is_cell, listed, put_at, regs_of, rest_of, sram_bytes};
ghost use Rattle.hm_state.specs.State.{state_of, taint_bytes};
ghost use Rattle.hm_state.specs.Store.{CellLaws, flagged, put_all};

/// Cells are told apart, and states with the same in each cell and the same beside them are one.
pub fn cells_law()
    ensures told_apart { CellLaws cells }
    ensures one_state { (s t : State) → ((c : Cell) → s.cell c ≡ t.cell c) → s.sticky ≡ t.sticky → s.pc ≡ t.pc → s.rest ≡ t.rest
        → s ≡ t }
{}

/// What a state holds, in the terms of the registers, the memory and the output that it is made of.
pub fn parts_law()
    ensures places { (r : Regs) (m : Memory) (output : List ℕ) (p : Place)
        → is_cell p ≡ true → at p (state_of r m output) ≡ value_at p r }
    ensures bytes { (r : Regs) (m : Memory) (output : List ℕ) (a : ℕ)
        → ((state_of r m output).cell (Byte a)).n ≡ byte_at m a }
    ensures taint { (r : Regs) (m : Memory) (output : List ℕ) (a : ℕ)
        → ((state_of r m output).cell (Byte a)).taint ≡ tainted_at m a }
    ensures sticky { (r : Regs) (m : Memory) (output : List ℕ) → (state_of r m output).sticky ≡ nat_eq (value_at Sticky r) 1 }
    ensures pc { (r : Regs) (m : Memory) (output : List ℕ) → (state_of r m output).pc ≡ r.pc }
    ensures rest { (r : Regs) (m : Memory) (output : List ℕ) → (state_of r m output).rest ≡ rest_of r m output }
{}

/// A write to a place of the registers is one to its cell; QC is the sticky flag.
pub fn writes_law()
    ensures place { (p : Place) (x : ℕ) (r : Regs) (m : Memory) (output : List ℕ) → IsPlace p → is_cell p ≡ true → Counted r
        → state_of (with_value p x r) m output ≡ put_at p x (state_of r m output) }
    ensures flag { (r : Regs) (m : Memory) (output : List ℕ)
        → state_of (with_value Sticky 1 r) m output ≡ flagged true (state_of r m output) }
    ensures list { (ws : List Write) (r : Regs) (m : Memory) (output : List ℕ) → AreCells ws → Counted r
        → state_of (apply ws r) m output ≡ put_all cells (map into ws) (state_of r m output) }
{}

/// A register that stands in no place is one field of the state.
pub fn beside_law()
    ensures pc { (r : Regs) (m : Memory) (output : List ℕ) (pc : ℕ)
        → state_of (record r { pc = pc }) m output ≡ record (state_of r m output) { pc = pc } }
    ensures nz { (r : Regs) (m : Memory) (output : List ℕ) (n z : Bool)
        → let s = state_of r m output in
        state_of (record r { n = n; z = z }) m output
        ≡ record s { rest = record s.rest { n = n; z = z } } }
    ensures nzc { (r : Regs) (m : Memory) (output : List ℕ) (n z c : Bool)
        → let s = state_of r m output in
        state_of (record r { n = n; z = z; c = c }) m output
        ≡ record s { rest = record s.rest { n = n; z = z; c = c } } }
    ensures nzcv { (r : Regs) (m : Memory) (output : List ℕ) (n z c v : Bool)
        → let s = state_of r m output in
        state_of (record r { n = n; z = z; c = c; v = v }) m output
        ≡ record s { rest = record s.rest { n = n; z = z; c = c; v = v } } }
    ensures q { (r : Regs) (m : Memory) (output : List ℕ) (q : Bool)
        → let s = state_of r m output in
        state_of (record r { q = q }) m output
        ≡ record s { rest = record s.rest { q = q } } }
    ensures it { (r : Regs) (m : Memory) (output : List ℕ) (it : ℕ)
        → let s = state_of r m output in
        state_of (record r { it = it }) m output
        ≡ record s { rest = record s.rest { it = it } } }
    ensures fpca { (r : Regs) (m : Memory) (output : List ℕ) (fpca : Bool)
        → let s = state_of r m output in
        state_of (record r { fpca = fpca }) m output
        ≡ record s { rest = record s.rest { fpca = fpca } } }
    ensures primask { (r : Regs) (m : Memory) (output : List ℕ) (primask : Bool)
        → let s = state_of r m output in
        state_of (record r { primask = primask }) m output
        ≡ record s { rest = record s.rest { primask = primask } } }
    ensures other { (r : Regs) (m : Memory) (output : List ℕ) (other : ℕ)
        → let s = state_of r m output in
        state_of (record r { other = other }) m output
        ≡ record s { rest = record s.rest { other = other } } }
    ensures spsel { (r : Regs) (m : Memory) (output : List ℕ) (spsel : Bool)
        → let s = state_of r m output in
        state_of (record r { spsel = spsel }) m output
        ≡ record s { rest = record s.rest { spsel = spsel } } }
    ensures basepri { (r : Regs) (m : Memory) (output : List ℕ) (basepri : ℕ)
        → let s = state_of r m output in
        state_of (record r { basepri = basepri }) m output
        ≡ record s { rest = record s.rest { basepri = basepri } } }
    ensures ipsr { (r : Regs) (m : Memory) (output : List ℕ) (ipsr : ℕ)
        → let s = state_of r m output in
        state_of (record r { ipsr = ipsr }) m output
        ≡ record s { rest = record s.rest { ipsr = ipsr } } }
{}

/// The registers, the bytes of SRAM and their taint are read back from the state that was made of them.
pub fn reads_law()
    ensures registers { (r : Regs) (m : Memory) (output : List ℕ)
        → Counted r → r.fpscr < 2 ^ 32 → r.vpr < 2 ^ 32 → regs_of (state_of r m output) ≡ r }
    ensures sram { (r : Regs) (m : Memory) (output : List ℕ)
        → length m.sram ≡ sram_size → sram_bytes (state_of r m output) ≡ m.sram }
    ensures taint { (r : Regs) (m : Memory) (output : List ℕ)
        → taint_bytes (state_of r m output) ≡ listed 0x8000 (byte_of_bits (λ k. slice_index_or m.taint k false)) }
    ensures told_taint { (r : Regs) (m : Memory) (output : List ℕ)
        → taint_bytes (state_of r m output) ≡ listed 0x8000 (byte_of_bits (λ k. tainted_at m (sram_start + k))) }
{}

/// The list of a function's first values grows by one value at its end, and is the one list of its length with
/// these elements.
pub fn first_values_law()
    ensures more { (n : ℕ) (f : ℕ → ℕ) → listed (suc n) f ≡ listed n f ++ f n ∷ [] }
    ensures only { (n : ℕ) (f : ℕ → ℕ) (xs : List ℕ)
        → length xs ≡ n → ((k : ℕ) → k < n → slice_index xs k ≡ f k) → listed n f ≡ xs }
{}

/// The registers after a reset and a memory that holds the image make the state at the start.
pub fn start_law()
    ensures started { (image : List Segment) (m : Memory) (bounds : Bounds)
        → ((a : ℕ) → byte_at m a ≡ first_byte image a) → ((a : ℕ) → tainted_at m a ≡ false)
        → m.devices ≡ first_devices → m.around ≡ thread_under bounds
        → let sp = reset_sp image in let pc = reset_pc image in
        state_of (start_regs (sp - sp % 4) (pc - pc % 2)) m [] ≡ start_under bounds image }
{}
