//! The laws of what a linked program keeps.

ghost use Rattle.std.specs.Prelude.{◌≡◌, ℕ, true, false, [], Some};
ghost use Rattle.nr_prog.specs.Members.{is_static};
ghost use Rattle.nr_linked.specs.declared.program.built_in.BuiltIn.{BuiltIn};
ghost use Rattle.nr_linked.specs.declared.program.tables.MethodInfo.{MethodInfo};
ghost use Rattle.nr_linked.specs.declared.program.tables.ProgramTables.{ProgramTables};
ghost use Rattle.nr_linked.specs.BuiltIns.{built_in};
ghost use Rattle.nr_linked.specs.BuiltInTables.{built_in_tables};
ghost use Rattle.nr_linked.specs.Facts.{ProgramFacts};
ghost use Rattle.nr_linked.specs.Linked.{is_loaded};
ghost use Rattle.nr_linked.specs.Programs.{method_at};
ghost use Rattle.nr_linked.specs.Selection.{is_public, static_named};
ghost use Rattle.nr_linked.specs.Slots.{slots_of};

/// Promises that a linked program can be: the built-in classes alone have all that a program keeps. It
/// does nothing.
#[tactic(auto, using(crate::proofs::WitnessFacts::facts))]
pub fn built_ins_are_linked()
    ensures { ProgramFacts built_in_tables }
{}

/// Promises that no object of a built-in class has a slot. It does nothing.
pub fn built_in_classes_have_no_slot()
    ensures built_in { (p : ProgramTables) (b : BuiltIn) → ProgramFacts p → slots_of p (built_in p b) ≡ [] }
    ensures numbered { (p : ProgramTables) (c : ℕ) → ProgramFacts p → is_loaded p c ≡ false → slots_of p c ≡ [] }
{}

/// Promises that a public static method is found under its name and its descriptor in the class that
/// declares it. It does nothing.
pub fn static_methods_are_found()
    ensures { (p : ProgramTables) (m : ℕ) (i : MethodInfo) → ProgramFacts p → method_at p m ≡ Some i
        → is_public i.flags ≡ true → is_static i.flags ≡ true
        → static_named p i.«class» i.name i.desc ≡ Some m }
{}
