//! A run over other frames.

ghost use Rattle.std.specs.Prelude.{◌≡◌, ℕ, List, Some};
ghost use Rattle.nr_linked.specs.declared.program.tables.ProgramTables.{ProgramTables};
ghost use Rattle.nr_model.specs.States.{Control, Frame, State};
ghost use Rattle.nr_model.specs.Steps.{Run};
ghost use Rattle.nr_model.specs.Overs.{over, with_front};

/// Promises that a run that doesn't throw out of its first method makes the same steps where other frames
/// stand below, and other output before it; where it returns, the topmost of those goes on with its
/// result. It does nothing.
pub fn runs_go_on_over_frames()
    ensures { (p : ProgramTables) (below : List Frame) (front : List ℕ) (n : ℕ) (s t : State) (c d : Control)
        → over p below s.control ≡ Some c → over p below t.control ≡ Some d → Run p s n t
        → Run p (with_front front c s) n (with_front front d t) }
{}
