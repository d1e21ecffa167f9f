//! Runs of two machines that agree but for the names of objects.

ghost use Rattle.std.specs.Prelude.{◌≡◌, ◌≢◌, ℕ, ◌+◌, List, [], Some, None};
ghost use Rattle.std.specs.FinMap.{get};
ghost use Rattle.nr_linked.specs.declared.program.tables.ProgramTables.{ProgramTables};
ghost use Rattle.nr_model.specs.declared.value.Value.TheVariants.{Ref};
ghost use Rattle.nr_model.specs.Heaps.{Obj, cells};
ghost use Rattle.nr_model.specs.States.{IsEnd, State, Thrown};
ghost use Rattle.nr_model.specs.Steps.{Run};
ghost use Rattle.nr_model.specs.Pairs.{IsClosed, NamedIn, PairedStates};

/// Promises that runs keep pairs, whatever names new objects take: from paired states, runs of one length
/// end in states that are paired from the same start, and their heaps grow by equally many cells, so that
/// two of one size stay so; where one machine makes a run, so can the other; and runs that end have one
/// length. It does nothing.
pub fn runs_keep_pairs()
    ensures kept { (p : ProgramTables) (n : ℕ) (pairs : List (ℕ × ℕ)) (s t s' t' : State)
        → PairedStates pairs s t → Run p s n s' → Run p t n t' → PairedStates pairs s' t' }
    ensures grown { (p : ProgramTables) (n : ℕ) (pairs : List (ℕ × ℕ)) (s t s' t' : State)
        → PairedStates pairs s t → Run p s n s' → Run p t n t'
        → cells s'.heap + cells t.heap ≡ cells t'.heap + cells s.heap }
    ensures both_run { (p : ProgramTables) (n : ℕ) (pairs : List (ℕ × ℕ)) (s t s' : State)
        → PairedStates pairs s t → Run p s n s' → (t' : State) × Run p t n t' }
    ensures one_length { (p : ProgramTables) (n k : ℕ) (pairs : List (ℕ × ℕ)) (s t s' t' : State)
        → PairedStates pairs s t → Run p s n s' → Run p t k t' → IsEnd s'.control → IsEnd t'.control → n ≡ k }
{}

/// Promises that of two paired ends, where one threw an object that its heap has, the other threw one of the
/// same class. It does nothing.
pub fn paired_ends_throw_one_class()
    ensures { (pairs : List (ℕ × ℕ)) (s t : State) (a : ℕ) (o : Obj)
        → PairedStates pairs s t → s.control ≡ Thrown (Ref a) → get s.heap a ≡ Some o
        → (b : ℕ) × (q : Obj) × (t.control ≡ Thrown (Ref b)) × (get t.heap b ≡ Some q) × (q.kind ≡ o.kind) }
{}

/// Promises that a state is paired with itself where each reference in its heap and in its frames is to an
/// object of the heap. It does nothing.
pub fn closed_states_pair_with_themselves()
    ensures { (s : State)
        → IsClosed s.heap → ((x : ℕ) → NamedIn s.control x → get s.heap x ≢ None) → PairedStates [] s s }
{}
