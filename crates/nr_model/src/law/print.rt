//! What runs have printed on the way.

ghost use Rattle.std.specs.Prelude.{◌≡◌, ◌≢◌, ◌≤◌, ℕ, List, [], ◌++◌, None};
ghost use Rattle.std.specs.FinMap.{get};
ghost use Rattle.nr_linked.specs.declared.program.tables.ProgramTables.{ProgramTables};
ghost use Rattle.nr_model.specs.declared.value.Value.{Value};
ghost use Rattle.nr_model.specs.Heaps.{Heap};
ghost use Rattle.nr_model.specs.States.{State};
ghost use Rattle.nr_model.specs.Pairs.{Holds, IsClosed, NamedIn};
ghost use Rattle.nr_model.specs.Outcomes.{CallOutcome, Fate, Outcome};
ghost use Rattle.nr_model.specs.LimitedRuns.{LimitedRun};
ghost use Rattle.nr_model.specs.Printed.{CallPrintedAfter, PrintedAfter};

/// Promises what a run has printed after some steps, where each reference in the heap and in the frames is to
/// an object of the heap. What is printed after fewer steps is a first part of what is printed after more;
/// after equally many it is the same, whatever names new objects take. After the steps of a run that keeps the
/// limits, within the budget, it is what that run has printed, and from the steps of the outcome on it is what
/// the outcome leaves. Where there is an outcome, there is such output after each number of steps. It does
/// nothing.
pub fn runs_print_in_order()
    ensures grows { (p : ProgramTables) (budget k l : ℕ) (s : State) (xs ys : List ℕ)
        → IsClosed s.heap → ((x : ℕ) → NamedIn s.control x → get s.heap x ≢ None)
        → PrintedAfter p s budget k xs → PrintedAfter p s budget l ys → k ≤ l → (more : List ℕ) × (ys ≡ xs ++ more) }
    ensures one_text { (p : ProgramTables) (budget k : ℕ) (s : State) (xs ys : List ℕ)
        → IsClosed s.heap → ((x : ℕ) → NamedIn s.control x → get s.heap x ≢ None)
        → PrintedAfter p s budget k xs → PrintedAfter p s budget k ys → xs ≡ ys }
    ensures steps { (p : ProgramTables) (budget k : ℕ) (s t : State) (xs : List ℕ)
        → IsClosed s.heap → ((x : ℕ) → NamedIn s.control x → get s.heap x ≢ None)
        → PrintedAfter p s budget k xs → LimitedRun p None s [] k t → k ≤ budget → xs ≡ t.printed }
    ensures ends { (p : ProgramTables) (budget k n : ℕ) (f : Fate) (s t : State) (xs : List ℕ)
        → IsClosed s.heap → ((x : ℕ) → NamedIn s.control x → get s.heap x ≢ None)
        → PrintedAfter p s budget k xs → Outcome p s budget n f t → n ≤ k → xs ≡ t.printed }
    ensures comes { (p : ProgramTables) (budget n k : ℕ) (f : Fate) (s t : State)
        → Outcome p s budget n f t → (xs : List ℕ) × PrintedAfter p s budget k xs }
{}

/// Promises the same of calls, of whose first frame alone nothing is printed where it is too deep. It does
/// nothing.
pub fn calls_print_in_order()
    ensures grows { (p : ProgramTables) (h : Heap) (m : ℕ) (args : List Value) (budget k l : ℕ) (xs ys : List ℕ)
        → IsClosed h → ((x : ℕ) → Holds args x → get h x ≢ None)
        → CallPrintedAfter p h m args budget k xs → CallPrintedAfter p h m args budget l ys → k ≤ l
        → (more : List ℕ) × (ys ≡ xs ++ more) }
    ensures one_text { (p : ProgramTables) (h : Heap) (m : ℕ) (args : List Value) (budget k : ℕ) (xs ys : List ℕ)
        → IsClosed h → ((x : ℕ) → Holds args x → get h x ≢ None)
        → CallPrintedAfter p h m args budget k xs → CallPrintedAfter p h m args budget k ys → xs ≡ ys }
    ensures ends { (p : ProgramTables) (h : Heap) (m : ℕ) (args : List Value) (budget k n : ℕ) (f : Fate) (t : State)
        (xs : List ℕ)
        → IsClosed h → ((x : ℕ) → Holds args x → get h x ≢ None)
        → CallPrintedAfter p h m args budget k xs → CallOutcome p h m args budget n f t → n ≤ k → xs ≡ t.printed }
    ensures comes { (p : ProgramTables) (h : Heap) (m : ℕ) (args : List Value) (budget n k : ℕ) (f : Fate) (t : State)
        → CallOutcome p h m args budget n f t → (xs : List ℕ) × CallPrintedAfter p h m args budget k xs }
{}
