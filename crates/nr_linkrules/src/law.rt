//! The laws of the first link fault.

ghost use Rattle.std.specs.Prelude.{◌≡◌, ℕ, ◌<◌, ◌≤◌, ◌++◌, ◌∷◌, [], List, length, map, codes, slice_get, Ok, Err, Some, None, All, IsTrue, ◌↔◌, false};
ghost use Rattle.nr_prog.specs.declared.body.instruction.Instr.{Instr};
ghost use Rattle.nr_prog.specs.declared.body.loaded.Loaded.{Loaded};
ghost use Rattle.nr_prog.specs.declared.parts.ClassParts.{ClassParts};
ghost use Rattle.nr_prog.specs.BodyText.{IsInstr};
ghost use Rattle.nr_prog.specs.Form.{IsFormed};
ghost use Rattle.nr_prog.specs.Pool.{IsText};
ghost use Rattle.nr_linked.specs.declared.program.tables.ClassInfo.{ClassInfo};
ghost use Rattle.nr_linked.specs.declared.program.tables.ProgramTables.{ProgramTables};
ghost use Rattle.nr_linked.specs.declared.program.tables.Resolved.{Resolved};
ghost use Rattle.nr_linked.specs.Linked.{Linked};
ghost use Rattle.nr_linked.specs.Programs.{class_at, super_of, superclasses};
ghost use Rattle.nr_linked.specs.Subtypes.{Above};
ghost use Rattle.nr_links.specs.Example.{loaded, tables};
ghost use Rattle.nr_links.specs.Found.{IsFound};
ghost use Rattle.nr_links.specs.Links.{IsDecoded, Links};
ghost use Rattle.nr_links.specs.Rules.{is_reserved};
ghost use Rattle.nr_linkrules.specs.declared.fault.LinkFault.TheVariants as faults;
ghost use Rattle.nr_linkrules.specs.ClassRules.{is_above_itself, list_fault};
ghost use Rattle.nr_linkrules.specs.Completion.{linked_program};
ghost use Rattle.nr_linkrules.specs.Examples.{above_examples, list_examples, member_examples, runnable, site_examples};
ghost use Rattle.nr_linkrules.specs.Layout.{laid_out, slots_declared, slots_in};
ghost use Rattle.nr_linkrules.specs.LinkFaults.{link_fault};
ghost use Rattle.nr_linkrules.specs.Mains.{main_of, service_of};
ghost use Rattle.nr_linkrules.specs.Outline.{bare_class, bare_method, names_of, number_in, outline, own_name};
ghost use Rattle.nr_linkrules.specs.Reaches.{HasSteps, reaches};
ghost use Rattle.nr_linkrules.specs.Readable.{IsReadable};
ghost use Rattle.nr_linkrules.specs.SiteRules.{Place, instr_found};

/// Promises that classes that link have no fault, where they have the form of class files and come
/// with the code that their methods spell. It does nothing.
pub fn linked_classes_have_no_fault()
    ensures { (classes : List Loaded) (P : ProgramTables) → All IsDecoded classes → Links classes P → link_fault classes ≡ None }
{}

/// Promises that classes without a fault link to the program that they make, and to no other, where
/// they are as bytes give classes. It does nothing.
pub fn classes_without_fault_link()
    ensures links { (classes : List Loaded) → All IsReadable classes → link_fault classes ≡ None → Links classes (linked_program classes) }
    ensures alone { (classes : List Loaded) (P : ProgramTables) → All IsReadable classes → Links classes P → P ≡ linked_program classes }
{}

/// Promises that the test of what stands above a class is what stands above it, where each step up
/// leads to a class of the program. It does nothing.
pub fn what_is_reached_is_above()
    ensures { (P : ProgramTables) → HasSteps P → (c d : ℕ) → IsTrue (reaches P c d) ↔ Above P c d }
{}

/// Promises that what classes link to is their outline but for what linking finds, and that its
/// classes are the outline's, laid out. It does nothing.
pub fn linked_programs_have_the_outline()
    ensures classes { (classes : List Loaded) (P : ProgramTables) → Links classes P → map bare_class P.classes ≡ (outline classes).classes }
    ensures methods { (classes : List Loaded) (P : ProgramTables) → All IsDecoded classes → Links classes P
        → map bare_method P.methods ≡ map bare_method (outline classes).methods }
    ensures laid { (classes : List Loaded) (P : ProgramTables) → Links classes P → (laid_out (outline classes)).classes ≡ P.classes }
{}

/// Promises that in a list without a fault of its own there are at most 1,024 classes, none of a name
/// that is kept, each the first of its name. It does nothing.
pub fn lists_without_fault_have_names()
    ensures few { (classes : List Loaded) → list_fault classes ≡ None → length classes ≤ 1024 }
    ensures free { (classes : List Loaded) → list_fault classes ≡ None → (k : ℕ) (l : Loaded) → slice_get classes k ≡ Some l
        → is_reserved (own_name l.«class») ≡ false }
    ensures numbered { (classes : List Loaded) → list_fault classes ≡ None → (k : ℕ) (l : Loaded) → slice_get classes k ≡ Some l
        → number_in (names_of classes) (own_name l.«class») ≡ Some k }
{}

/// Promises that where no class stands above itself, a class's superclasses are itself and those of
/// its superclass, and its slots are its superclass's and then those that it declares. It does nothing.
pub fn acyclic_classes_inherit()
    ensures superclasses { (P : ProgramTables) → HasSteps P → ((c : ℕ) → is_above_itself P c ≡ false)
        → (c s : ℕ) → c < length P.classes → super_of P c ≡ Some s → superclasses P c ≡ c ∷ superclasses P s }
    ensures slots { (P : ProgramTables) → HasSteps P → ((c : ℕ) → is_above_itself P c ≡ false)
        → (c s : ℕ) → c < length P.classes → super_of P c ≡ Some s → slots_in P c ≡ slots_in P s ++ slots_declared P c }
{}

/// Promises that what is found for an instruction of a class is what linking finds for it, where the
/// class has the form of a class file. It does nothing.
pub fn found_is_what_linking_finds()
    ensures { (P : ProgramTables) → Linked P → (own : ℕ) (e : ClassInfo) → class_at P own ≡ Some e
        → (parts : ClassParts) → IsFormed parts → All IsText parts.pool
        → (place : ℕ → Place) → ((at : ℕ) → (place at).own ≡ own)
        → (at : ℕ) (i : Instr) (text : List ℕ) → IsInstr parts.pool at i text
        → (r : Resolved) → instr_found P place parts.pool i ≡ Ok r ↔ IsFound P own parts.pool i r }
{}

/// Promises that lists of classes, worked out by hand, have just the faults that are told of them:
/// of the list itself, of what classes name above them, of members, and of code. It does nothing.
pub fn lists_have_their_faults()
    ensures lists { map (λ e. link_fault e.classes) list_examples ≡ map (λ e. e.fault) list_examples }
    ensures above { map (λ e. link_fault e.classes) above_examples ≡ map (λ e. e.fault) above_examples }
    ensures members { map (λ e. link_fault e.classes) member_examples ≡ map (λ e. e.fault) member_examples }
    ensures sites { map (λ e. link_fault e.classes) site_examples ≡ map (λ e. e.fault) site_examples }
{}

/// Promises that a class and an interface that link have no fault, and that what they make is the
/// program that they link to; which `main` and which service are found in it. It does nothing.
pub fn examples_can_link()
    ensures fault { link_fault loaded ≡ None }
    ensures program { linked_program loaded ≡ tables }
    ensures main { main_of (runnable tables) (codes "A") ≡ Ok 2 }
    ensures no_main { main_of tables (codes "A") ≡ Err (faults.NoMain (codes "A")) }
    ensures main_without_code { main_of (runnable tables) (codes "Face") ≡ Err (faults.NoMain (codes "Face")) }
    ensures main_of_none { main_of tables (codes "B") ≡ Err (faults.NoClass (codes "B")) }
    ensures service { service_of tables (codes "A") ≡ Ok 0 }
    ensures interface { service_of tables (codes "Face") ≡ Err (faults.NoService (codes "Face")) }
    ensures built_in { service_of tables (codes "nrmi/Out") ≡ Err (faults.NoService (codes "nrmi/Out")) }
    ensures no_service { service_of tables (codes "B") ≡ Err (faults.NoClass (codes "B")) }
{}
