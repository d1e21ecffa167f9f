//! The laws of turns.

ghost use Rattle.std.specs.Prelude.{◌≡◌, ℕ, ◌∷◌, ◌++◌, [], List, Some};
ghost use Rattle.nr_model.specs.Asks.{Answer, Asks, Entry};
ghost use Rattle.nr_model.specs.AskOutcomes.{AskFate, AskOutcome};
ghost use Rattle.nr_model.specs.Heaps.{Heap};
ghost use Rattle.nr_model.specs.States.{State};
ghost use Rattle.nr_model.specs.TypedAnswers.{entry_of};
ghost use Rattle.nr_machine.specs.declared.answer.Turn.{Turn};
ghost use Rattle.nr_machine.specs.Executions.{Execution, state_in};
ghost use Rattle.nr_machine.specs.Resumed.{Resumed};
ghost use Rattle.nr_machine.specs.Turned.{ComesFrom, Goes, counted, fate_of};

/// Promises what comes of turns and answers. Where a machine has come from a state, with some answered calls,
/// it has also after a turn, and after one more answer with that call. And where the turn's answer tells of an
/// outcome, that is the outcome of the run from that state: the steps that count, and the state that is left.
/// It does nothing.
pub fn turns_tell_outcomes()
    ensures going { (s : State) (calls : List Entry) (n : ℕ) (x y : Execution) (h k : Heap) (answer : Turn)
        → ComesFrom s calls h x → Goes n x h answer y k → ComesFrom s calls k y }
    ensures outcome { (s : State) (calls : List Entry) (n : ℕ) (x y : Execution) (h k : Heap) (answer : Turn) (fate : AskFate)
        → ComesFrom s calls h x → Goes n x h answer y k → fate_of answer ≡ Some fate
        → AskOutcome x.program x.service s calls x.budget (counted answer y.steps) fate (state_in k y) }
    ensures answered { (s : State) (calls : List Entry) (x y : Execution) (h k : Heap) (answer : Answer)
        (a : Asks x.program x.service (state_in h x))
        → ComesFrom s calls h x → Resumed h x answer y k → ComesFrom s (calls ++ entry_of a answer ∷ []) k y }
{}
