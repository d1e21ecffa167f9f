//! Heaps each of whose references is to an object of theirs.

ghost use Rattle.std.specs.Prelude.{◌≡◌, ◌≢◌, ℕ, List, Option, Some, None};
ghost use Rattle.std.specs.FinMap.{get};
ghost use Rattle.nr_linked.specs.declared.program.tables.ProgramTables.{ProgramTables};
ghost use Rattle.nr_model.specs.declared.value.Value.{Value};
ghost use Rattle.nr_model.specs.Heaps.{Heap, on_some};
ghost use Rattle.nr_model.specs.States.{State};
ghost use Rattle.nr_model.specs.Steps.{Run};
ghost use Rattle.nr_model.specs.Pairs.{IsClosed, NamedIn, name_in};
ghost use Rattle.nr_model.specs.LocalEntries.{RestoresPairs};

/// Promises that heaps stay closed. Where each reference in the heap and in the frames is to an object of
/// the heap, so it is after a run. A restore into a closed heap leaves a closed heap, which has all objects
/// that the heap had, and the result. It does nothing.
pub fn heaps_stay_closed()
    ensures runs { (p : ProgramTables) (n : ℕ) (s t : State)
        → IsClosed s.heap → ((x : ℕ) → NamedIn s.control x → get s.heap x ≢ None) → Run p s n t
        → IsClosed t.heap × ((x : ℕ) → NamedIn t.control x → get t.heap x ≢ None) }
    ensures restores { (pairs : List (ℕ × ℕ)) (h k r : Heap) (v w : Option Value)
        → IsClosed h → RestoresPairs h pairs k v r w
        → IsClosed r × ((x : ℕ) → get h x ≢ None → get r x ≢ None)
        × ((x : ℕ) → on_some w None name_in ≡ Some x → get r x ≢ None) }
{}
