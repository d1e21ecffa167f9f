//! What a remote call leaves after its restore.

ghost use Rattle.std.specs.Prelude.{◌≡◌, ◌≢◌, ℕ, List, Option, None};
ghost use Rattle.std.specs.FinMap.{get};
ghost use Rattle.nr_linked.specs.declared.program.tables.ProgramTables.{ProgramTables};
ghost use Rattle.nr_model.specs.declared.value.Value.{Value};
ghost use Rattle.nr_model.specs.Heaps.{Heap};
ghost use Rattle.nr_model.specs.States.{Returned, State};
ghost use Rattle.nr_model.specs.Steps.{Run};
ghost use Rattle.nr_model.specs.Pairs.{IsClosed, IsPair, Listed, PairedStates, StartOf};
ghost use Rattle.nr_model.specs.LocalEntries.{RestoresPairs};
ghost use Rattle.nr_model.specs.Same.{Same};

/// Promises that a restore leaves what a local run leaves. From paired states, s of the caller's machine
/// and t of the other, runs of one length return. The pairs of s and t are just the listed ones; the heap
/// of s is the caller's heap h and perhaps more; and each reference in h is to an object of h. Then, where
/// a restore of what the other machine left gives the heap r and the value w, these are the same as the
/// heap and the result that the run from s left. It does nothing.
pub fn restores_are_local()
    ensures { (p : ProgramTables) (n : ℕ) (pairs : List (ℕ × ℕ)) (h r : Heap) (s t s' t' : State) (u v w : Option Value)
        → PairedStates pairs s t → Run p s n s' → Run p t n t' → s'.control ≡ Returned u → t'.control ≡ Returned v
        → IsClosed h
        → ((x : ℕ) → get h x ≢ None → get s.heap x ≡ get h x)
        → ((x y : ℕ) → IsPair (StartOf pairs s t) s.heap t.heap x y → Listed pairs x y)
        → RestoresPairs h pairs t'.heap v r w → Same h s'.heap u r w }
{}
