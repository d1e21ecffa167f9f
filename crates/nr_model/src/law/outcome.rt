//! Outcomes of runs within a budget and limits.

ghost use Rattle.std.specs.Prelude.{◌≡◌, ◌≢◌, ◌≤◌, ℕ, List, length, None};
ghost use Rattle.nr_linked.specs.declared.program.tables.ProgramTables.{ProgramTables};
ghost use Rattle.nr_model.specs.declared.value.Value.{Value};
ghost use Rattle.nr_model.specs.Heaps.{Heap, cells};
ghost use Rattle.nr_model.specs.States.{IsEnd, State};
ghost use Rattle.nr_model.specs.Steps.{Run};
ghost use Rattle.nr_model.specs.Locals.{Begins, CallRun};
ghost use Rattle.nr_model.specs.Outcomes.{CallOutcome, Ended, Fate, HeapFull, Outcome, max_cells, max_printed, passed};
ghost use Rattle.nr_model.specs.Pairs.{PairedStates};

/// Promises that an outcome doesn't depend on the names that new objects take: from paired states with
/// heaps of one size, outcomes within one budget have the same steps and the same fate, and leave paired
/// states, again with heaps of one size; and where there is an outcome from one state, there is one from
/// the other. The same holds of the outcomes of two calls. It does nothing.
pub fn outcomes_keep_pairs()
    ensures kept { (p : ProgramTables) (pairs : List (ℕ × ℕ)) (s t s' t' : State) (budget n k : ℕ) (f g : Fate)
        → PairedStates pairs s t → cells s.heap ≡ cells t.heap → Outcome p s budget n f s' → Outcome p t budget k g t'
        → (n ≡ k) × (f ≡ g) × PairedStates pairs s' t' }
    ensures one_size { (p : ProgramTables) (pairs : List (ℕ × ℕ)) (s t s' t' : State) (budget n k : ℕ) (f g : Fate)
        → PairedStates pairs s t → cells s.heap ≡ cells t.heap → Outcome p s budget n f s' → Outcome p t budget k g t'
        → cells s'.heap ≡ cells t'.heap }
    ensures both_come { (p : ProgramTables) (pairs : List (ℕ × ℕ)) (s t s' : State) (budget n : ℕ) (f : Fate)
        → PairedStates pairs s t → cells s.heap ≡ cells t.heap → Outcome p s budget n f s'
        → (t' : State) × Outcome p t budget n f t' }
    ensures calls { (p : ProgramTables) (pairs : List (ℕ × ℕ)) (h k : Heap) (m : ℕ) (us vs : List Value) (s t s' t' : State)
        (budget n l : ℕ) (f g : Fate)
        → Begins p h m us s → Begins p k m vs t → PairedStates pairs s t → cells h ≡ cells k
        → CallOutcome p h m us budget n f s' → CallOutcome p k m vs budget l g t'
        → (n ≡ l) × (f ≡ g) × PairedStates pairs s' t' }
    ensures calls_one_size { (p : ProgramTables) (pairs : List (ℕ × ℕ)) (h k : Heap) (m : ℕ) (us vs : List Value) (s t s' t' : State)
        (budget n l : ℕ) (f g : Fate)
        → Begins p h m us s → Begins p k m vs t → PairedStates pairs s t → cells h ≡ cells k
        → CallOutcome p h m us budget n f s' → CallOutcome p k m vs budget l g t'
        → cells s'.heap ≡ cells t'.heap }
    ensures calls_both_come { (p : ProgramTables) (pairs : List (ℕ × ℕ)) (h k : Heap) (m : ℕ) (us vs : List Value) (s t s' : State)
        (budget n : ℕ) (f : Fate)
        → Begins p h m us s → Begins p k m vs t → PairedStates pairs s t → cells h ≡ cells k
        → CallOutcome p h m us budget n f s' → (t' : State) × CallOutcome p k m vs budget n f t' }
{}

/// Promises that a run comes to the same in a smaller heap: from paired states, of which the second has no
/// more cells, where there is an outcome from the first, and it isn't a full heap, there is one from the
/// second within the same budget, with the same steps and the same fate; it leaves paired states, and again
/// no more cells. The same holds of the outcomes of two calls. It does nothing.
pub fn smaller_heaps_do_as_well()
    ensures states { (p : ProgramTables) (pairs : List (ℕ × ℕ)) (s t s' : State) (budget n : ℕ) (f : Fate)
        → PairedStates pairs s t → cells t.heap ≤ cells s.heap → f ≢ HeapFull → Outcome p s budget n f s'
        → (t' : State) × Outcome p t budget n f t' × PairedStates pairs s' t' × (cells t'.heap ≤ cells s'.heap) }
    ensures calls { (p : ProgramTables) (pairs : List (ℕ × ℕ)) (h k : Heap) (m : ℕ) (us vs : List Value) (s t s' : State)
        (budget n : ℕ) (f : Fate)
        → Begins p h m us s → Begins p k m vs t → PairedStates pairs s t → cells k ≤ cells h → f ≢ HeapFull
        → CallOutcome p h m us budget n f s'
        → (t' : State) × CallOutcome p k m vs budget n f t' × PairedStates pairs s' t' × (cells t'.heap ≤ cells s'.heap) }
{}

/// Promises that an outcome with an end is a run to that end, within the budget; and that of a call a run of
/// the call. It does nothing.
pub fn ended_outcomes_are_runs()
    ensures states { (p : ProgramTables) (s t : State) (budget n : ℕ)
        → Outcome p s budget n Ended t → Run p s n t × IsEnd t.control × (n ≤ budget) }
    ensures calls { (p : ProgramTables) (h : Heap) (m : ℕ) (args : List Value) (budget n : ℕ) (t : State)
        → CallOutcome p h m args budget n Ended t → CallRun p h m args n t × (n ≤ budget) }
{}

/// Promises that what an outcome leaves passes no limit, where the start passed none; and that what the outcome
/// of a call leaves has no more cells and output than are allowed, where the heap has no more cells. It does
/// nothing.
pub fn outcomes_keep_limits()
    ensures states { (p : ProgramTables) (s t : State) (budget n : ℕ) (f : Fate)
        → Outcome p s budget n f t → passed p s ≡ None → passed p t ≡ None }
    ensures calls { (p : ProgramTables) (h : Heap) (m : ℕ) (args : List Value) (budget n : ℕ) (f : Fate) (t : State)
        → CallOutcome p h m args budget n f t → cells h ≤ max_cells
        → (cells t.heap ≤ max_cells) × (length t.printed ≤ max_printed) }
{}
