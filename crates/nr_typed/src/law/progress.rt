//! Progress and preservation.

ghost use Rattle.std.specs.Prelude.{ℕ, Option};
ghost use Rattle.nr_linked.specs.declared.program.kind.Kind.{Kind};
ghost use Rattle.nr_linked.specs.declared.program.tables.ProgramTables.{ProgramTables};
ghost use Rattle.nr_linked.specs.TypingFacts.{TypingFacts};
ghost use Rattle.nr_linked.specs.WellTyped.{WellTyped};
ghost use Rattle.nr_model.specs.States.{IsEnd, State};
ghost use Rattle.nr_model.specs.Steps.{Run, Step};
ghost use Rattle.nr_typed.specs.Standing.{StandsIn};

/// Promises that the machine of a well-typed program never stands still before its end: from each state
/// that stands in its heap and is no end, there is a step; and each step, and so each run, leads to a
/// state that stands, for the same result of the first method. It does nothing.
pub fn well_typed_programs_go_on()
    ensures progress { (p : ProgramTables) (result : Option Kind) (s : State)
        → TypingFacts p → (typed : WellTyped p)
        → StandsIn p typed.frames result s → ¬ IsEnd s.control → (t : State) × Step p s t }
    ensures preservation { (p : ProgramTables) (result : Option Kind) (s t : State)
        → TypingFacts p → (typed : WellTyped p)
        → StandsIn p typed.frames result s → Step p s t → StandsIn p typed.frames result t }
    ensures runs { (p : ProgramTables) (result : Option Kind) (n : ℕ) (s t : State)
        → TypingFacts p → (typed : WellTyped p)
        → StandsIn p typed.frames result s → Run p s n t → StandsIn p typed.frames result t }
{}
