//! Linking.

ghost use Rattle.std.specs.Prelude.{◌≡◌, ◌<◌, ◌≤◌, ◌^◌, All, IfOk, List, None, Ok, length, map};
ghost use Rattle.std.specs.Option.{option_or};
ghost use Rattle.nr_base.specs.Clauses.{GivesWhole};
ghost use Rattle.nr_linked.specs.declared.program.tables.ProgramTables.{ProgramTables as Tables};
ghost use Rattle.nr_links.specs.Links.{Links};
ghost use Rattle.nr_linkrules.specs.ClassRules.{list_fault};
ghost use Rattle.nr_linkrules.specs.Completion.{linked_program};
ghost use Rattle.nr_linkrules.specs.Faults.{Finds, first_of, is_free};
ghost use Rattle.nr_linkrules.specs.Layout.{laid_out};
ghost use Rattle.nr_linkrules.specs.LinkFaults.{classes_fault, code_faults, link_fault};
ghost use Rattle.nr_linkrules.specs.Outline.{names_of, outline};
ghost use Rattle.nr_linkrules.specs.Reaches.{HasSteps, rows_of};
ghost use Rattle.nr_linkrules.specs.Readable.{IsReadable};
ghost use Rattle.nr_linkrules.specs.SiteRules.{around_fault, code_fault};
ghost use Rattle.nr_link.specs.Coded.{IsCoded};
ghost use Rattle.nr_link.specs.Completing.{found_for};
ghost use Rattle.nr_link.specs.Finished.{finished, later_methods};
ghost use Rattle.nr_link.specs.Ready.{IsReady};
ghost use Rattle.nr_link.specs.Seen.{AreApart, IsNamesOf};
ghost use Rattle.nr_names.specs.Numbers.{texts};

use crate::above::check_all_above;
use crate::closure::rows;
use crate::code::find_in_methods;
use crate::completion::{Found, complete, found_for_all};
use crate::cycles::check_cycles;
use crate::keeping::lookup_of;
use crate::layout::lay_out;
use crate::list::check_list;
use crate::members::check_members;
use crate::names::{all_names, numbers};
use crate::outline::outline;
use crate::room::{has_room, has_slot_room};
use indexmap::IndexSet;
use nr_base::{Items, Name};
use nr_linked::{MethodInfo, Program, ProgramTables};
use nr_linkrules::LinkFault;
use nr_prog::Loaded;
use std::alloc::Global;

/// How many methods the built-in classes have.
const BUILT_IN_METHODS: usize = 23;

/// The names of all classes, by their numbers, where the classes keep the rules on their list.
#[tactic(auto, using(crate::proofs::Apart::all_apart, nr_linkrules::proofs::Learnt::few))]
fn names_of(alloc: Global, classes: &[Loaded]) -> Result<Items<Name>, LinkFault>
    ensures fault { Finds result (list_fault classes.now) }
    ensures names { IfOk result (λ names. names ≡ names_of classes.now) }
    ensures apart { IfOk result (λ names. AreApart names) }
    ensures few { IfOk result (λ names. length classes.now ≤ 1024) }
{
    let _own = check_list(alloc, classes)?;
    all_names(alloc, classes)
}

/// Looks at the rules on classes, and gives what stands above which.
#[tactic(auto, using(crate::proofs::Walks::fails_first), unfolding(nr_linkrules::specs::LinkFaults::classes_fault))]
fn check_classes(
    alloc: Global,
    tables: &ProgramTables,
    names: &IndexSet<&[u8]>,
) -> Result<Items<Items<bool>>, LinkFault>
    requires names { IsNamesOf tables.now names.now }
    requires few { length tables.now.classes < 2 ^ 32 }
    requires steps { HasSteps tables.now }
    ensures fault { Finds result (classes_fault tables.now) }
    ensures rows { IfOk result (λ rows. rows ≡ rows_of tables.now (length tables.now.classes)) }
{
    check_all_above(alloc, tables, names)?;
    let rows = rows(alloc, tables)?;
    check_cycles(tables, rows.as_slice())?;
    check_members(alloc, tables, names, rows.as_slice())?;
    Ok(rows)
}

/// Tables with the classes laid out, and what stands above which class.
#[derive(Drop)]
struct LaidOut {
    tables: ProgramTables,
    rows: Items<Items<bool>>,
}

/// The outline of the classes, laid out, where the classes keep the rules on them.
#[tactic(auto, using(crate::proofs::LinkedPrograms::names_at, crate::proofs::LinkedPrograms::few_at, crate::proofs::LinkedPrograms::steps_at, crate::proofs::LinkedPrograms::bodies_in))]
fn lay_out_classes(
    alloc: Global,
    names: &IndexSet<&[u8]>,
    classes: Items<Loaded>,
) -> Result<LaidOut, LinkFault>
    requires names { texts names.now ≡ names_of classes }
    requires few { length classes ≤ 1024 }
    requires readable { All IsReadable classes }
    ensures fault { Finds result (classes_fault (outline classes)) }
    ensures tables { IfOk result (λ laid. laid.tables ≡ laid_out (outline classes)) }
    ensures rows { IfOk result (λ laid. laid.rows ≡ rows_of (outline classes) (length (outline classes).classes)) }
{
    let tables = outline(alloc, names, classes)?;
    let rows = check_classes(alloc, &tables, names)?;
    if !has_slot_room(alloc, &tables)? {
        return Err(LinkFault::NoMemory);
    }
    let tables = lay_out(alloc, tables, names, rows.as_slice())?;
    Ok(LaidOut { tables, rows })
}

/// What linking finds for each method.
#[tactic(auto, using(crate::proofs::Walks::fails_first))]
fn find_all(
    alloc: Global,
    tables: &ProgramTables,
    names: &IndexSet<&[u8]>,
    rows: &[Items<bool>],
    methods: &[MethodInfo],
) -> Result<Items<Found>, LinkFault>
    requires ready { IsReady tables.now names.now rows.now }
    requires coded { All (IsCoded tables.now) methods.now }
    ensures fault { Finds result (option_or (first_of (code_fault tables.now) methods.now) (first_of (around_fault tables.now) methods.now)) }
    ensures found { IfOk result (λ found. found ≡ map (found_for tables.now) methods.now) }
{
    let lookup = lookup_of(alloc, tables, names, rows)?;
    let resolved = find_in_methods(alloc, tables, &lookup, methods)?;
    found_for_all(alloc, tables, names, &lookup, methods, resolved)
}

/// The tables with what linking finds for the methods.
fn finish(
    alloc: Global,
    tables: ProgramTables,
    names: &IndexSet<&[u8]>,
    rows: &[Items<bool>],
) -> Result<ProgramTables, LinkFault>
    requires ready { IsReady tables names.now rows.now }
    requires coded { All (IsCoded tables) tables.methods }
    requires later { All (λ i. i.body ≡ None) (later_methods tables) }
    ensures fault { Finds result (code_faults tables) }
    ensures tables { IfOk result (λ done. done ≡ finished tables) }
{
    let count = tables.methods.len().saturating_sub(BUILT_IN_METHODS);
    let found = find_all(
        alloc,
        &tables,
        names,
        rows,
        &tables.methods.as_slice()[..count],
    )?;
    let ProgramTables { classes, methods } = tables;
    Ok(ProgramTables {
        classes,
        methods: complete(alloc, methods, found)?,
    })
}

fn link_tables(alloc: Global, classes: Items<Loaded>) -> Result<ProgramTables, LinkFault>
    requires readable { All IsReadable classes }
    ensures fault { Finds result (link_fault classes) }
    ensures tables { IfOk result (λ tables. tables ≡ linked_program classes) }
{
    let all = names_of(alloc, classes.as_slice())?;
    let names = numbers(alloc, all.as_slice())?;
    let LaidOut { tables, rows } = lay_out_classes(alloc, &names, classes)?;
    finish(alloc, tables, &names, rows.as_slice())
}

/// The program that the classes link to (JVM Specification 5.3 and 5.4). That all is linked before a
/// run, and the order of the rules, is the project's own.
///
/// # Errors
///
/// The first rule that the classes break, pass by pass: on their list; class by class on what each names
/// above it, then on cycles, then on members; method by method on instructions; and then on exception
/// handlers and frame maps. `NoMemory` for want of memory.
pub fn link(alloc: Global, classes: Items<Loaded>) -> Result<Program, LinkFault>
    requires readable { All IsReadable classes }
    ensures linked { IfOk result (λ P. Links classes P) }
    ensures only { (P : Tables) → Links classes P → GivesWhole is_free result (Ok P) }
    ensures exact { Finds result (link_fault classes) }
{
    if !has_room(classes.as_slice()) {
        return Err(LinkFault::NoMemory);
    }
    Ok(Program::new(link_tables(alloc, classes)?))
}
