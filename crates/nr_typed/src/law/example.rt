//! That the premises of the laws can be met.

ghost use Rattle.std.specs.Prelude.{Some};
ghost use Rattle.nr_linked.specs.Layout.{CodeInOrder};
ghost use Rattle.nr_linked.specs.TypingFacts.{TypingFacts};
ghost use Rattle.nr_linked.specs.WellTyped.{WellTyped};
ghost use Rattle.nr_typed.specs.Example.{example, int_kind, m_start};
ghost use Rattle.nr_typed.specs.Standing.{StandsIn};

/// Promises that the premises of the laws can be met: a program with two classes, an interface, an
/// override and an exception handler has the facts that typing takes of a linked program, and is well
/// typed; its instructions stand at rising offsets from 0; and a method of the superclass that was called on
/// an object of the subclass stands at its start. It does nothing.
pub fn premises_can_be_met()
    ensures facts { TypingFacts example }
    ensures typed { WellTyped example }
    ensures order { CodeInOrder example }
    ensures standing { (typed : WellTyped example) → StandsIn example typed.frames (Some int_kind) m_start }
{}
