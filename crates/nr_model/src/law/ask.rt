//! Runs and outcomes of machines that may ask for answers.

ghost use Rattle.std.specs.Prelude.{◌≡◌, ◌↔◌, ◌≤◌, ◌+◌, ℕ, List, [], ◌++◌, Option, None};
ghost use Rattle.nr_linked.specs.declared.program.tables.ProgramTables.{ProgramTables};
ghost use Rattle.nr_model.specs.States.{IsEnd, State};
ghost use Rattle.nr_model.specs.Steps.{Run};
ghost use Rattle.nr_model.specs.Outcomes.{Ended, Fate, Outcome, passed};
ghost use Rattle.nr_model.specs.Asks.{AskRun, Entry};
ghost use Rattle.nr_model.specs.LimitedRuns.{LimitedRun};
ghost use Rattle.nr_model.specs.AskOutcomes.{AskFate, AskOutcome, Settled};

/// Promises that a machine without a service is one that never asks. Its runs are runs with no calls, its
/// outcomes are outcomes with no calls, and none of them stands at a call. It does nothing.
pub fn machines_without_service_never_ask()
    ensures runs { (p : ProgramTables) (k : ℕ) (s t : State) (calls : List Entry)
        → AskRun p None s calls k t ↔ ((calls ≡ []) × Run p s k t) }
    ensures outcomes { (p : ProgramTables) (budget n : ℕ) (f : AskFate) (s t : State) (calls : List Entry)
        → AskOutcome p None s calls budget n f t
        ↔ ((calls ≡ []) × ((g : Fate) × (f ≡ Settled g) × Outcome p s budget n g t)) }
{}

/// Promises what comes of a run that keeps the limits. An outcome from where it leads is one from its start,
/// with the steps and the calls of both; so is an outcome without remote calls, where the run has none. An
/// outcome with an end is such a run to that end, within the budget. Where the start passes no limit, neither
/// does what a run or an outcome leaves. It does nothing.
pub fn outcomes_come_of_limited_runs()
    ensures joined { (p : ProgramTables) (service : Option ℕ) (k budget n : ℕ) (f : AskFate) (s m t : State)
        (calls more : List Entry)
        → LimitedRun p service s calls k m → AskOutcome p service m more budget n f t
        → AskOutcome p service s (calls ++ more) (k + budget) (k + n) f t }
    ensures alone { (p : ProgramTables) (service : Option ℕ) (k budget n : ℕ) (f : Fate) (s m t : State)
        → LimitedRun p service s [] k m → Outcome p m budget n f t → Outcome p s (k + budget) (k + n) f t }
    ensures ends { (p : ProgramTables) (service : Option ℕ) (budget n : ℕ) (s t : State) (calls : List Entry)
        → AskOutcome p service s calls budget n (Settled Ended) t
        → LimitedRun p service s calls n t × IsEnd t.control × (n ≤ budget) }
    ensures kept { (p : ProgramTables) (service : Option ℕ) (k : ℕ) (s t : State) (calls : List Entry)
        → LimitedRun p service s calls k t → passed p s ≡ None → passed p t ≡ None }
    ensures left { (p : ProgramTables) (service : Option ℕ) (budget n : ℕ) (f : AskFate) (s t : State)
        (calls : List Entry)
        → AskOutcome p service s calls budget n f t → passed p s ≡ None → passed p t ≡ None }
{}
