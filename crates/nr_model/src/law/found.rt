//! That a remote method is found.

ghost use Rattle.std.specs.Prelude.{◌≡◌, ℕ, true, Some};
ghost use Rattle.nr_linked.specs.declared.program.tables.MethodInfo.{MethodInfo};
ghost use Rattle.nr_linked.specs.declared.program.tables.ProgramTables.{ProgramTables};
ghost use Rattle.nr_linked.specs.Facts.{ProgramFacts};
ghost use Rattle.nr_linked.specs.Programs.{method_at};
ghost use Rattle.nr_linked.specs.Selection.{static_named};
ghost use Rattle.nr_model.specs.Asks.{is_remote};

/// Promises that a remote method is the one that is found, in the class of the service, under its name and
/// its descriptor. It does nothing.
pub fn remote_methods_are_found()
    ensures { (p : ProgramTables) (c m : ℕ) (i : MethodInfo) → ProgramFacts p
        → is_remote (Some c) i ≡ true → method_at p m ≡ Some i
        → static_named p c i.name i.desc ≡ Some m }
{}
