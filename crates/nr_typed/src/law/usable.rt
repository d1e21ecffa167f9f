//! Runs of two machines that agree in what the program can use.

ghost use Rattle.std.specs.Prelude.{◌≡◌, ℕ, List, Option};
ghost use Rattle.nr_linked.specs.declared.program.kind.Kind.{Kind};
ghost use Rattle.nr_linked.specs.declared.program.tables.ProgramTables.{ProgramTables};
ghost use Rattle.nr_linked.specs.TypingFacts.{TypingFacts};
ghost use Rattle.nr_linked.specs.WellTyped.{WellTyped};
ghost use Rattle.nr_model.specs.States.{IsEnd, State};
ghost use Rattle.nr_model.specs.Steps.{Run, Step};
ghost use Rattle.nr_model.specs.Pairs.{PairedStates};
ghost use Rattle.nr_typed.specs.Standing.{StandsIn};
ghost use Rattle.nr_typed.specs.Usable.{UsablePaired};

/// Promises that well-typed programs look at usable places alone, whatever names new objects take. From two
/// states that stand in their heaps, each for a result, and are paired at usable places, a step of each
/// leads to states that are paired so again, from the same start; and so do runs of one length. Where one
/// machine makes a run, so can the other, and runs that end have one length. States that are paired at all
/// places are paired at usable ones. It does nothing.
pub fn usable_pairs_are_kept()
    ensures steps { (p : ProgramTables) (pairs : List (ℕ × ℕ))
        (result second : Option Kind) (s t s' t' : State)
        → TypingFacts p → (typed : WellTyped p)
        → StandsIn p typed.frames result s → StandsIn p typed.frames second t
        → UsablePaired p typed.frames pairs s t
        → Step p s s' → Step p t t' → UsablePaired p typed.frames pairs s' t' }
    ensures runs { (p : ProgramTables) (n : ℕ) (pairs : List (ℕ × ℕ))
        (result second : Option Kind) (s t s' t' : State)
        → TypingFacts p → (typed : WellTyped p)
        → StandsIn p typed.frames result s → StandsIn p typed.frames second t
        → UsablePaired p typed.frames pairs s t
        → Run p s n s' → Run p t n t' → UsablePaired p typed.frames pairs s' t' }
    ensures both_run { (p : ProgramTables) (n : ℕ) (pairs : List (ℕ × ℕ))
        (result second : Option Kind) (s t s' : State)
        → TypingFacts p → (typed : WellTyped p)
        → StandsIn p typed.frames result s → StandsIn p typed.frames second t
        → UsablePaired p typed.frames pairs s t
        → Run p s n s' → (t' : State) × Run p t n t' }
    ensures one_length { (p : ProgramTables) (n k : ℕ) (pairs : List (ℕ × ℕ))
        (result second : Option Kind) (s t s' t' : State)
        → TypingFacts p → (typed : WellTyped p)
        → StandsIn p typed.frames result s → StandsIn p typed.frames second t
        → UsablePaired p typed.frames pairs s t
        → Run p s n s' → Run p t k t' → IsEnd s'.control → IsEnd t'.control → n ≡ k }
    ensures all_places { (p : ProgramTables) (pairs : List (ℕ × ℕ)) (result : Option Kind) (s t : State)
        → (typed : WellTyped p)
        → StandsIn p typed.frames result s → PairedStates pairs s t → UsablePaired p typed.frames pairs s t }
{}
