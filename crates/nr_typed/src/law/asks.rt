//! Runs with remote calls.

ghost use Rattle.std.specs.Prelude.{◌≡◌, ◌⊎◌, ℕ, Bool, List, Option};
ghost use Rattle.nr_linked.specs.declared.program.kind.Kind.{Kind};
ghost use Rattle.nr_linked.specs.declared.program.tables.ProgramTables.{ProgramTables};
ghost use Rattle.nr_linked.specs.TypingFacts.{TypingFacts};
ghost use Rattle.nr_linked.specs.WellTyped.{WellTyped};
ghost use Rattle.nr_model.specs.declared.value.Value.{Value};
ghost use Rattle.nr_model.specs.States.{IsEnd, Returned, State};
ghost use Rattle.nr_model.specs.Steps.{Step};
ghost use Rattle.nr_model.specs.Asks.{Answer, AskRun, AskStep, Asks, Entry};
ghost use Rattle.nr_model.specs.LocalEntries.{AllFated, IsOwn, IsRestored};
ghost use Rattle.nr_typed.specs.Standing.{StandsIn};
ghost use Rattle.nr_model.specs.TypedAnswers.{EachTyped, IsTypedEntry, entry_of};
ghost use Rattle.nr_model.specs.Belonging.{IsResult};

/// Promises that a remote call of a well-typed program, from a state that stands in its heap, leads to a
/// state that stands, for the same result of the first method, where its answer is typed: a typed heap that
/// keeps the names of the old one with their kinds, and a value that is the called method's result; or a
/// fault, under a new name. It does nothing.
pub fn answers_stand()
    ensures { (p : ProgramTables) (service : Option ℕ) (result : Option Kind) (s t : State) (e : Entry)
        → TypingFacts p → (typed : WellTyped p)
        → StandsIn p typed.frames result s → AskStep p service s e t → IsTypedEntry p e
        → StandsIn p typed.frames result t }
{}

/// Promises that a run with remote calls of a well-typed program, from a state that stands in its heap, leads
/// to a state that stands, for the same result of the first method, where each call's answer is typed. So
/// where it ends by a return, it gives nothing if there is no result, and else a value that belongs to the
/// verifier's type of the result, in the heap then. It does nothing.
pub fn ask_runs_stand()
    ensures stands { (p : ProgramTables) (service : Option ℕ) (result : Option Kind) (k : ℕ)
        (s t : State) (calls : List Entry)
        → TypingFacts p → (typed : WellTyped p)
        → StandsIn p typed.frames result s → AskRun p service s calls k t → EachTyped p calls
        → StandsIn p typed.frames result t }
    ensures results { (p : ProgramTables) (service : Option ℕ) (result : Option Kind) (k : ℕ)
        (s t : State) (calls : List Entry) (v : Option Value)
        → TypingFacts p → (typed : WellTyped p)
        → StandsIn p typed.frames result s → AskRun p service s calls k t → EachTyped p calls
        → t.control ≡ Returned v → IsResult p t.heap result v }
{}

/// Promises that a machine with remote calls of a well-typed program never stands still before its end: from
/// each state that stands in its heap and is no end, either there is a remote call, which goes on with each
/// typed answer, or there is none, and a step of the machine. It does nothing.
pub fn ask_runs_go_on()
    ensures progress { (p : ProgramTables) (service : Option ℕ) (result : Option Kind) (s : State)
        → TypingFacts p → (typed : WellTyped p)
        → StandsIn p typed.frames result s → ¬ IsEnd s.control
        → Asks p service s ⊎ (¬ Asks p service s × ((t : State) × Step p s t)) }
    ensures answers { (p : ProgramTables) (service : Option ℕ) (result : Option Kind) (s : State)
        (asks : Asks p service s) (answer : Answer)
        → TypingFacts p → (typed : WellTyped p)
        → StandsIn p typed.frames result s → IsTypedEntry p (entry_of asks answer)
        → (t : State) × AskStep p service s (entry_of asks answer) t }
{}

/// Promises that an answer is typed where it is just what a local run of the method left, with copies of what
/// is passed by copy; and where it is the same but for names, in a heap with no other names than the old ones
/// and those of what is reached, as a restore leaves. So from a state that stands in its heap, a run whose
/// remote calls are local runs themselves, but meet faults at some calls, leads to a state that stands. It
/// does nothing.
pub fn local_answers_are_typed()
    ensures own { (p : ProgramTables) (service : Option ℕ) (result : Option Kind) (s t : State)
        (e : Entry)
        → TypingFacts p → (typed : WellTyped p)
        → StandsIn p typed.frames result s → AskStep p service s e t → IsOwn p e
        → IsTypedEntry p e }
    ensures restored { (p : ProgramTables) (service : Option ℕ) (result : Option Kind) (s t : State)
        (e : Entry)
        → TypingFacts p → (typed : WellTyped p)
        → StandsIn p typed.frames result s → AskStep p service s e t → IsRestored p e
        → IsTypedEntry p e }
    ensures runs { (p : ProgramTables) (service : Option ℕ) (faulted : ℕ → Bool)
        (result : Option Kind) (n k : ℕ) (s t : State) (calls : List Entry)
        → TypingFacts p → (typed : WellTyped p)
        → StandsIn p typed.frames result s → AskRun p service s calls k t
        → AllFated p faulted n calls → StandsIn p typed.frames result t }
{}
