//! Local calls without copies.

ghost use Rattle.std.specs.Prelude.{◌↔◌, ℕ, List};
ghost use Rattle.nr_linked.specs.declared.program.tables.ProgramTables.{ProgramTables};
ghost use Rattle.nr_model.specs.declared.value.Value.{Value};
ghost use Rattle.nr_model.specs.Heaps.{Heap};
ghost use Rattle.nr_model.specs.States.{State};
ghost use Rattle.nr_model.specs.Locals.{CallRun, Local};
ghost use Rattle.nr_model.specs.LocalEntries.{AllRestorable};

/// Promises that a local call, each of whose reference arguments is restored, is the plain run of the
/// call. It does nothing.
pub fn local_runs_without_copies()
    ensures { (p : ProgramTables) (h : Heap) (m : ℕ) (args : List Value) (n : ℕ) (t : State)
        → AllRestorable p h args → Local p h m args n t ↔ CallRun p h m args n t }
{}
