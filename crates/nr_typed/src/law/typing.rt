//! That the frames of a well-typed program are unique.

ghost use Rattle.std.specs.Prelude.{◌≡◌, ◌<◌, ℕ, List, Option, Some, length};
ghost use Rattle.nr_prog.specs.BodyText.{instrs};
ghost use Rattle.nr_prog.specs.Offsets.{StandInOrder};
ghost use Rattle.nr_prog.specs.declared.body.instruction.Instr.{Instr};
ghost use Rattle.nr_prog.specs.declared.body.whole.Body.{Body};
ghost use Rattle.nr_prog.specs.declared.pool.PoolEntry.{PoolEntry};
ghost use Rattle.nr_linked.specs.declared.program.kind.Kind.{Kind};
ghost use Rattle.nr_linked.specs.declared.program.tables.MethodInfo.{MethodInfo};
ghost use Rattle.nr_linked.specs.declared.program.tables.ProgramTables.{ProgramTables};
ghost use Rattle.nr_linked.specs.Layout.{CodeInOrder};
ghost use Rattle.nr_linked.specs.Programs.{method_at};
ghost use Rattle.nr_linked.specs.TypingFacts.{TypingFacts};
ghost use Rattle.nr_linked.specs.WellTyped.{WellTyped};
ghost use Rattle.nr_model.specs.States.{State};
ghost use Rattle.nr_typed.specs.Standing.{StandsIn};

/// Promises that a program is well typed by the same frames in every way, where the instructions of each
/// method stand at rising offsets, the first at 0: each method with code has one list of frames. So a state
/// that stands by one way stands by each other. What bytes of code spell, one byte or more, stands at such
/// offsets. It does nothing.
pub fn frames_are_unique()
    ensures frames { (p : ProgramTables) (n : ℕ) (m : MethodInfo) (body : Body)
        → TypingFacts p → CodeInOrder p → (first second : WellTyped p)
        → method_at p n ≡ Some m → m.body ≡ Some body → first.frames n ≡ second.frames n }
    ensures standing { (p : ProgramTables) (result : Option Kind) (s : State)
        → TypingFacts p → CodeInOrder p → (first second : WellTyped p)
        → StandsIn p first.frames result s → StandsIn p second.frames result s }
    ensures spelled { (pool : List PoolEntry) (is : List Instr) (text : List ℕ)
        → 0 < length text → instrs pool 0 is text → StandInOrder is }
{}
