//! The laws of linking.

ghost use Rattle.std.specs.Prelude.{◌≡◌, List, All};
ghost use Rattle.nr_prog.specs.declared.body.loaded.Loaded.{Loaded};
ghost use Rattle.nr_linked.specs.declared.program.tables.ProgramTables.{ProgramTables};
ghost use Rattle.nr_linked.specs.Facts.{ProgramFacts};
ghost use Rattle.nr_linked.specs.Linked.{Linked};
ghost use Rattle.nr_linked.specs.WellTyped.{WellTyped};
ghost use Rattle.nr_links.specs.Example.{loaded, tables};
ghost use Rattle.nr_links.specs.Links.{IsDecoded, Links};

/// Promises that what some classes link to is laid out as a program; and that it has all the facts
/// that a program keeps, where the classes have the form of class files and come with the code that
/// their methods spell. It does nothing.
pub fn linked_programs_have_the_facts()
    ensures linked { (classes : List Loaded) (P : ProgramTables) → Links classes P → Linked P }
    ensures facts { (classes : List Loaded) (P : ProgramTables) → All IsDecoded classes → Links classes P → ProgramFacts P }
{}

/// Promises that classes link to one program at most, where they have the form of class files and
/// come with the code that their methods spell. It does nothing.
pub fn classes_make_one_program()
    ensures { (classes : List Loaded) (P Q : ProgramTables) → All IsDecoded classes → Links classes P → Links classes Q → P ≡ Q }
{}

/// Promises that some classes link to a well-typed program: a class with a field, calls, an
/// exception handler and a frame map, and an interface that it implements. They have the form of
/// class files and come with the code that their methods spell. It does nothing.
pub fn classes_can_link()
    ensures decoded { All IsDecoded loaded }
    ensures linked { Links loaded tables }
    ensures typed { WellTyped tables }
{}
