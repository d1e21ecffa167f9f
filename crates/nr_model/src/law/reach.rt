//! What a run leaves as it was.

ghost use Rattle.std.specs.Prelude.{◌≡◌, ◌≢◌, ℕ, Option, None};
ghost use Rattle.std.specs.FinMap.{get};
ghost use Rattle.nr_linked.specs.declared.program.tables.ProgramTables.{ProgramTables};
ghost use Rattle.nr_model.specs.States.{State};
ghost use Rattle.nr_model.specs.Steps.{Run};
ghost use Rattle.nr_model.specs.Pairs.{NamedIn, Reach};

/// Promises that a run changes no object that its frames don't reach at the start, where the heap has all
/// that they reach. It does nothing.
pub fn runs_change_what_they_reach()
    ensures { (p : ProgramTables) (n : ℕ) (s t : State)
        → ((x : ℕ) → Reach s.heap (NamedIn s.control) x → get s.heap x ≢ None)
        → Run p s n t → (x : ℕ) → get s.heap x ≢ None → ¬ Reach s.heap (NamedIn s.control) x
        → get t.heap x ≡ get s.heap x }
{}
