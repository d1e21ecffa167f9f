//! Sizes of paired heaps, and what a run keeps of each object.

ghost use Rattle.std.specs.Prelude.{◌≡◌, ◌≢◌, ℕ, ◌+◌, ◌≤◌, ◌⊎◌, List, None};
ghost use Rattle.std.specs.FinMap.{get};
ghost use Rattle.nr_linked.specs.declared.program.tables.ProgramTables.{ProgramTables};
ghost use Rattle.nr_model.specs.Heaps.{EachOnce, Has, Heap, cells, cells_named};
ghost use Rattle.nr_model.specs.States.{State};
ghost use Rattle.nr_model.specs.Steps.{Run};
ghost use Rattle.nr_model.specs.Pairs.{IsPair, Listed, Paired};
ghost use Rattle.nr_model.specs.Staying.{Stays};

/// Promises that of two heaps that are paired from the listed pairs, one all of whose names stand in pairs
/// has no more cells than the other; where that holds of both, they have equally many. It does nothing.
pub fn paired_heaps_have_one_size()
    ensures firsts { (pairs : List (ℕ × ℕ)) (h k : Heap) → Paired (Listed pairs) h k
        → ((x : ℕ) → get h x ≢ None → (y : ℕ) × IsPair (Listed pairs) h k x y) → cells h ≤ cells k }
    ensures seconds { (pairs : List (ℕ × ℕ)) (h k : Heap) → Paired (Listed pairs) h k
        → ((y : ℕ) → get k y ≢ None → (x : ℕ) × IsPair (Listed pairs) h k x y) → cells k ≤ cells h }
    ensures both { (pairs : List (ℕ × ℕ)) (h k : Heap) → Paired (Listed pairs) h k
        → ((x : ℕ) → get h x ≢ None → (y : ℕ) × IsPair (Listed pairs) h k x y)
        → ((y : ℕ) → get k y ≢ None → (x : ℕ) × IsPair (Listed pairs) h k x y) → cells h ≡ cells k }
{}

/// Promises that a run keeps each object, with its kind and its length. It does nothing.
pub fn runs_keep_lengths()
    ensures { (p : ProgramTables) (n : ℕ) (s t : State) → Run p s n t → Stays s.heap t.heap }
{}

/// Promises that the cells of a heap are those of its objects: where a list has each of its names, and none
/// twice, they are those under these names. Where a heap went on from another, kept its objects with their
/// lengths, and has but these names more, its cells are those of the other and of these. It does nothing.
pub fn cells_are_counted()
    ensures all { (h : Heap) (names : List ℕ)
        → EachOnce names → ((x : ℕ) → get h x ≢ None → Has names x) → cells h ≡ cells_named h names }
    ensures grown { (h k : Heap) (names : List ℕ)
        → EachOnce names → Stays h k → ((x : ℕ) → Has names x → get h x ≡ None)
        → ((x : ℕ) → get k x ≢ None → (get h x ≢ None) ⊎ Has names x)
        → cells k ≡ cells h + cells_named k names }
{}
