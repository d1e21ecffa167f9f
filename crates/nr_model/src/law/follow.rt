//! A machine that follows another through remote calls, within the limits that the other keeps.

ghost use Rattle.std.specs.Prelude.{◌≡◌, ◌≢◌, ℕ, suc, ◌+◌, ◌≤◌, List, ◌++◌, length, Option, None};
ghost use Rattle.std.specs.FinMap.{get};
ghost use Rattle.nr_linked.specs.declared.program.tables.ProgramTables.{ProgramTables};
ghost use Rattle.nr_model.specs.Heaps.{cells};
ghost use Rattle.nr_model.specs.States.{IsEnd, State};
ghost use Rattle.nr_model.specs.Steps.{Step};
ghost use Rattle.nr_model.specs.Outcomes.{passed};
ghost use Rattle.nr_model.specs.Pairs.{IsClosed, NamedIn, PairedStates};
ghost use Rattle.nr_model.specs.Asks.{Asks, AskRun, AskStep, asked_args, Entry};
ghost use Rattle.nr_model.specs.LocalEntries.{AllClosed, AllLocal, AllRestored, IsLocal, IsRestored};
ghost use Rattle.nr_model.specs.LimitedRuns.{Follows, LimitedRun, NextCall};

/// Promises what remote calls do to two machines in paired states, whose calls were answered by the same as
/// local runs left: they lead to paired states. Where the second's heap is closed and was restored, so that
/// it has no names but the old ones and those of what is reached, it grew by no more cells than the first's;
/// where that holds of both, the heaps grew alike. A restored heap is closed, and has what the frames name
/// where that held before; so do the heaps of a run whose calls are restored, and each call was from a closed
/// heap, which had its arguments. It does nothing.
pub fn restored_calls_keep_pairs()
    ensures kept { (p : ProgramTables) (service : Option ℕ) (pairs : List (ℕ × ℕ)) (s t s' t' : State) (d e : Entry)
        → PairedStates pairs s t → AskStep p service s d s' → AskStep p service t e t'
        → IsLocal p d → IsLocal p e → PairedStates pairs s' t' }
    ensures grown_less { (p : ProgramTables) (service : Option ℕ) (pairs : List (ℕ × ℕ)) (s t s' t' : State) (d e : Entry)
        → PairedStates pairs s t → AskStep p service s d s' → AskStep p service t e t'
        → IsLocal p d → IsRestored p e → IsClosed t.heap
        → cells t'.heap + cells s.heap ≤ cells s'.heap + cells t.heap }
    ensures grown { (p : ProgramTables) (service : Option ℕ) (pairs : List (ℕ × ℕ)) (s t s' t' : State) (d e : Entry)
        → PairedStates pairs s t → AskStep p service s d s' → AskStep p service t e t'
        → IsRestored p d → IsRestored p e → IsClosed s.heap → IsClosed t.heap
        → cells s'.heap + cells t.heap ≡ cells t'.heap + cells s.heap }
    ensures closed { (p : ProgramTables) (service : Option ℕ) (t t' : State) (e : Entry)
        → AskStep p service t e t' → IsRestored p e
        → IsClosed t.heap → ((x : ℕ) → NamedIn t.control x → get t.heap x ≢ None)
        → IsClosed t'.heap × ((x : ℕ) → NamedIn t'.control x → get t'.heap x ≢ None) }
    ensures stay_closed { (p : ProgramTables) (service : Option ℕ) (k : ℕ) (s t : State) (calls : List Entry)
        → AskRun p service s calls k t → AllRestored p calls
        → IsClosed s.heap → ((x : ℕ) → NamedIn s.control x → get s.heap x ≢ None)
        → AllClosed calls × IsClosed t.heap × ((x : ℕ) → NamedIn t.control x → get t.heap x ≢ None) }
{}

/// Promises that a machine follows another. The first makes a run to an end, which keeps the limits and
/// whose calls were answered by the same as local runs left. The second starts in a paired state, with no
/// more cells, in a closed heap that has what its frames name, and its calls were answered so too, by
/// restores. Then wherever the second comes, it keeps the limits, and the first comes, after equally many
/// steps and calls, to a state that is paired with it and has no fewer cells. There the second is at an end
/// exactly after the first's last step, and else has made fewer steps; and where it stands at a remote call,
/// so does the first, with a call of the same method that is paired with the second's. Its next step, and an
/// answer that is restored, pass no limit. It does nothing.
pub fn restored_runs_follow()
    ensures follows { (p : ProgramTables) (service : Option ℕ) (pairs : List (ℕ × ℕ)) (k j : ℕ)
        (s t s' t' : State) (calls others : List Entry)
        → PairedStates pairs s t → cells t.heap ≤ cells s.heap
        → IsClosed t.heap → ((x : ℕ) → NamedIn t.control x → get t.heap x ≢ None)
        → LimitedRun p service s calls k s' → IsEnd s'.control → AllLocal p calls
        → AskRun p service t others j t' → AllRestored p others
        → Follows p service pairs s s' calls k t t' others j }
    ensures ends { (p : ProgramTables) (service : Option ℕ) (pairs : List (ℕ × ℕ)) (k j : ℕ)
        (s t s' t' : State) (calls others : List Entry)
        → Follows p service pairs s s' calls k t t' others j → IsEnd t'.control
        → (k ≡ j) × (length calls ≡ length others) × PairedStates pairs s' t' × (cells t'.heap ≤ cells s'.heap) }
    ensures goes_on { (p : ProgramTables) (service : Option ℕ) (pairs : List (ℕ × ℕ)) (k j : ℕ)
        (s t s' t' : State) (calls others : List Entry)
        → Follows p service pairs s s' calls k t t' others j → IsEnd s'.control → ¬ IsEnd t'.control → suc j ≤ k }
    ensures asks { (p : ProgramTables) (service : Option ℕ) (pairs : List (ℕ × ℕ)) (k j : ℕ)
        (s t s' t' : State) (calls others : List Entry)
        → Follows p service pairs s s' calls k t t' others j → IsEnd s'.control
        → (a : Asks p service t') → NextCall p pairs calls others t'.heap a.method (asked_args a) }
    ensures steps { (p : ProgramTables) (service : Option ℕ) (pairs : List (ℕ × ℕ)) (k j : ℕ)
        (s t s' t' n : State) (calls others : List Entry)
        → Follows p service pairs s s' calls k t t' others j → IsEnd s'.control
        → ¬ Asks p service t' → Step p t' n → passed p n ≡ None }
    ensures answers { (p : ProgramTables) (service : Option ℕ) (pairs : List (ℕ × ℕ)) (k j : ℕ)
        (s t s' t' n : State) (calls others : List Entry) (e : Entry)
        → Follows p service pairs s s' calls k t t' others j → IsEnd s'.control → AllLocal p calls
        → AskStep p service t' e n → IsRestored p e → passed p n ≡ None }
    ensures starts { (p : ProgramTables) (pairs : List (ℕ × ℕ)) (s t : State)
        → PairedStates pairs s t → cells t.heap ≤ cells s.heap → passed p s ≡ None → passed p t ≡ None }
{}

/// Promises that a run that keeps the limits is a run, and that one run after another is a run, with the
/// calls of both. It does nothing.
pub fn limited_runs_are_runs()
    ensures joined { (p : ProgramTables) (service : Option ℕ) (j k : ℕ) (s m t : State) (calls more : List Entry)
        → AskRun p service s calls j m → AskRun p service m more k t
        → AskRun p service s (calls ++ more) (j + k) t }
    ensures limited_joined { (p : ProgramTables) (service : Option ℕ) (j k : ℕ) (s m t : State) (calls more : List Entry)
        → LimitedRun p service s calls j m → LimitedRun p service m more k t
        → LimitedRun p service s (calls ++ more) (j + k) t }
    ensures run { (p : ProgramTables) (service : Option ℕ) (k : ℕ) (s t : State) (calls : List Entry)
        → LimitedRun p service s calls k t → AskRun p service s calls k t }
{}
