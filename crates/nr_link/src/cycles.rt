//! That no class stands above itself.

ghost use Rattle.std.specs.Prelude.{◌≡◌, ◌<◌, ◌^◌, length};
ghost use Rattle.std.specs.List.{list_any};
ghost use Rattle.nr_linkrules.specs.ClassRules.{cycle_fault, is_above_itself};
ghost use Rattle.nr_linkrules.specs.Faults.{Finds, first_numbered};
ghost use Rattle.nr_linkrules.specs.LinkFaults.{first_class_fault, on_loaded};
ghost use Rattle.nr_linkrules.specs.Reaches.{HasSteps, reaches, rows_of};

use crate::above::copied;
use crate::closure::reaches;
use nr_base::Items;
use nr_linked::{ClassId, ClassInfo, ProgramTables};
use nr_linkrules::LinkFault;

fn any_reaches(
    tables: &ProgramTables,
    rows: &[Items<bool>],
    classes: &[ClassId],
    above: ClassId,
) -> bool
    requires rows { rows.now ≡ rows_of tables.now (length tables.now.classes) }
    requires steps { HasSteps tables.now }
    ensures { result ≡ list_any (λ s. reaches tables.now s above) classes.now }
{
    classes
        .iter()
        .any(|class| reaches(tables, rows, *class, above))
}

fn is_above_itself(tables: &ProgramTables, rows: &[Items<bool>], class: ClassId) -> bool
    requires rows { rows.now ≡ rows_of tables.now (length tables.now.classes) }
    requires steps { HasSteps tables.now }
    ensures { result ≡ is_above_itself tables.now class }
{
    let Some(info) = tables.class_at(class) else {
        return false;
    };
    let interfaces = info.interfaces.as_slice();
    match info.super_class {
        Some(above) => {
            reaches(tables, rows, above, class) || any_reaches(tables, rows, interfaces, class)
        }
        None => any_reaches(tables, rows, interfaces, class),
    }
}

#[tactic(auto, unfolding(nr_linkrules::specs::ClassRules::cycle_fault))]
fn check_entry(
    tables: &ProgramTables,
    rows: &[Items<bool>],
    place: ClassId,
    info: &ClassInfo,
) -> Result<(), LinkFault>
    requires rows { rows.now ≡ rows_of tables.now (length tables.now.classes) }
    requires steps { HasSteps tables.now }
    ensures { Finds result (on_loaded (cycle_fault tables.now) place info.now) }
{
    if info.read.is_some() && is_above_itself(tables, rows, place) {
        return Err(LinkFault::Cycle(copied(&info.name)?));
    }
    Ok(())
}

#[tactic(auto, using(crate::proofs::Walks::goes_on, crate::proofs::Walks::ends))]
fn check_each(
    tables: &ProgramTables,
    rows: &[Items<bool>],
    classes: &[ClassInfo],
) -> Result<(), LinkFault>
    requires rows { rows.now ≡ rows_of tables.now (length tables.now.classes) }
    requires steps { HasSteps tables.now }
    requires few { length classes.now < 2 ^ 32 }
    ensures { Finds result (first_numbered (on_loaded (cycle_fault tables.now)) 0 classes.now) }
{
    for (place, info) in classes.iter().enumerate() {
        check_entry(tables, rows, place as u32, info)?;
    }
    Ok(())
}

/// Looks whether a class stands above itself.
#[tactic(auto, unfolding(nr_linkrules::specs::LinkFaults::first_class_fault))]
pub fn check_cycles(tables: &ProgramTables, rows: &[Items<bool>]) -> Result<(), LinkFault>
    requires rows { rows.now ≡ rows_of tables.now (length tables.now.classes) }
    requires steps { HasSteps tables.now }
    requires few { length tables.now.classes < 2 ^ 32 }
    ensures { Finds result (first_class_fault (cycle_fault tables.now) tables.now) }
{
    check_each(tables, rows, tables.classes.as_slice())
}
