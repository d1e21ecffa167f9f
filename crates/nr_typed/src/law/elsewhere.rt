//! States in other heaps.

ghost use Rattle.std.specs.Prelude.{ℕ, List, Option};
ghost use Rattle.nr_linked.specs.declared.program.kind.Kind.{Kind};
ghost use Rattle.nr_linked.specs.declared.program.tables.ProgramTables.{ProgramTables};
ghost use Rattle.nr_linked.specs.TypingFrames.{TypeFrame};
ghost use Rattle.nr_model.specs.Heaps.{Heap};
ghost use Rattle.nr_model.specs.States.{State};
ghost use Rattle.nr_typed.specs.Standing.{StandsIn, with_heap};
ghost use Rattle.nr_model.specs.TypedHeaps.{KeepsNames, TypedHeap};

/// Promises that a state that stands in its heap stands in each typed heap that has the same names with
/// their kinds, and perhaps further names. It does nothing.
pub fn standing_needs_only_names()
    ensures { (p : ProgramTables) (frames : ℕ → List TypeFrame) (result : Option Kind) (s : State) (h : Heap)
        → StandsIn p frames result s → KeepsNames s.heap h → TypedHeap p h
        → StandsIn p frames result (with_heap h s) }
{}
