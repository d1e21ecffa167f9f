//! Runs with remote calls beside runs of one machine.

ghost use Rattle.std.specs.Prelude.{◌≡◌, ◌≢◌, ℕ, Bool, List, Option, None};
ghost use Rattle.std.specs.FinMap.{get};
ghost use Rattle.nr_linked.specs.declared.program.tables.ProgramTables.{ProgramTables};
ghost use Rattle.nr_model.specs.States.{IsEnd, State};
ghost use Rattle.nr_model.specs.Steps.{Run};
ghost use Rattle.nr_model.specs.Asks.{AskRun, Entry};
ghost use Rattle.nr_model.specs.LocalEntries.{AllFated, EachLocal, EachLocalOrFaulted, EachOwn, FaultedWhere, IsLocal, IsOwn, Mirrors};
ghost use Rattle.nr_model.specs.Pairs.{Holds, IsClosed, PairedStates};

/// Promises that a run with remote calls, each of which left the same as a local run and printed the same,
/// and each of whose reference arguments is restored, is matched by a run of one machine alone: the two
/// reach paired states, so both end alike, and print the same. It does nothing.
pub fn remote_runs_are_local()
    ensures { (p : ProgramTables) (service : Option ℕ) (pairs : List (ℕ × ℕ)) (k : ℕ)
        (s t s' : State) (calls : List Entry)
        → PairedStates pairs s t → AskRun p service s calls k s' → EachLocal p calls
        → (n : ℕ) × (t' : State) × Run p t n t' × PairedStates pairs s' t' }
{}

/// Promises that a run with remote calls, each of which was answered by just what a local run left, and each
/// of whose reference arguments is restored, is a run of one machine alone to the same state. It does
/// nothing.
pub fn own_runs_are_local()
    ensures { (p : ProgramTables) (service : Option ℕ) (k : ℕ) (s s' : State) (calls : List Entry)
        → AskRun p service s calls k s' → EachOwn p calls → (n : ℕ) × Run p s n s' }
{}

/// Promises that a call that was answered by just what a local run left was answered by the same as a local
/// run left, where each reference in the heap before, and each among the arguments, is to an object of that
/// heap; whatever garbage the run left, and also where it had copies. It does nothing.
pub fn own_calls_are_local()
    ensures { (p : ProgramTables) (e : Entry)
        → IsClosed e.before → ((x : ℕ) → Holds e.args x → get e.before x ≢ None) → IsOwn p e → IsLocal p e }
{}

/// Promises that a run with remote calls, each of which met a fault, or left the same as a local run and
/// printed the same, is matched, step by step, by a run of a machine whose remote calls are local runs
/// themselves, and throw where the first met a fault: the two reach paired states, so both end alike, and
/// print the same. What is passed by copy is copied on both sides. It does nothing.
pub fn remote_runs_are_mirrored()
    ensures { (p : ProgramTables) (service : Option ℕ) (pairs : List (ℕ × ℕ)) (k : ℕ)
        (s t s' : State) (calls : List Entry)
        → PairedStates pairs s t → AskRun p service s calls k s' → EachLocalOrFaulted p calls
        → (others : List Entry) × (t' : State) × AskRun p service t others k t' × Mirrors p calls others
        × PairedStates pairs s' t' }
{}

/// Promises that the calls of a machine that mirrors another throw at the numbers, from a first one on, at
/// which the other met a fault, and are local runs themselves else. It does nothing.
pub fn mirrored_calls_have_the_fates_of_the_first()
    ensures { (p : ProgramTables) (faulted : ℕ → Bool) (n : ℕ) (calls others : List Entry)
        → FaultedWhere faulted n calls → Mirrors p calls others → AllFated p faulted n others }
{}

/// Promises that two machines whose remote calls are local runs themselves, but throw at the calls of the
/// same numbers from 1 on, agree where they start in paired states and both end: they make equally many
/// steps, end alike and print the same. It does nothing.
pub fn local_calls_end_alike()
    ensures { (p : ProgramTables) (service : Option ℕ) (faulted : ℕ → Bool) (pairs : List (ℕ × ℕ))
        (k l : ℕ) (s t s' t' : State) (calls others : List Entry)
        → PairedStates pairs s t → AskRun p service s calls k s' → AskRun p service t others l t'
        → IsEnd s'.control → IsEnd t'.control → AllFated p faulted 1 calls → AllFated p faulted 1 others
        → (k ≡ l) × PairedStates pairs s' t' }
{}
