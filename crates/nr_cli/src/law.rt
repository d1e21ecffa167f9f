//! That no end of the program is a failure of itself.
ghost use Rattle.std.specs.Prelude.{List, ℕ};
ghost use Rattle.nr_outside.specs.Folder.{ToldFile};
ghost use Rattle.nr_cli.specs.Plan.{NothingFailed, due_of};

/// Promises that no end of what the words and the told files come to is want of memory, or a fault of the
/// folder. It does nothing.
pub fn nothing_fails_by_itself()
    ensures { (words : List (List ℕ)) (files : List ToldFile) → NothingFailed (due_of words files) }
{}
