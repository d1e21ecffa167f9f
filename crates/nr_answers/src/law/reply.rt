//! Replies and frames.

ghost use Rattle.std.specs.Prelude.{ℕ, List, ◌≤◌, length};
ghost use Rattle.nr_linked.specs.declared.program.tables.ProgramTables.{ProgramTables};
ghost use Rattle.nr_linked.specs.Facts.{ProgramFacts};
ghost use Rattle.nr_answers.specs.Answers.{Answers, Replies, max_body};

/// Promises that each reply fits a frame, and so does each answer. It does nothing.
pub fn replies_fit_frames()
    ensures replies { (p : ProgramTables) (service version steps : ℕ) (body text : List ℕ)
        → ProgramFacts p → Replies p service version body steps text → length text ≤ max_body }
    ensures answers { (p : ProgramTables) (service version : ℕ) (body text : List ℕ)
        → ProgramFacts p → Answers p service version body text → length text ≤ max_body }
{}
