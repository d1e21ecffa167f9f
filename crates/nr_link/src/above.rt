//! The rules on what a class names as its superclass and superinterfaces.

ghost use Rattle.std.specs.Prelude.{◌≡◌, ◌<◌, ◌≤◌, ◌^◌, ◌∷◌, ◌+◌, [], length, map, is_some, not, IfOk, IsOkUnless, Some, None, List, ℕ, All};
ghost use Rattle.std.specs.Option.{option_map_or};
ghost use Rattle.nr_prog.specs.BodyNames.{class_text_at};
ghost use Rattle.nr_prog.specs.Form.{NamesClass};
ghost use Rattle.nr_linkrules.specs.ClassRules.{above_fault, known_fault, named_above_fault, named_fault};
ghost use Rattle.nr_linkrules.specs.Faults.{Finds, first_numbered, first_of};
ghost use Rattle.nr_linkrules.specs.LinkFaults.{first_class_fault, on_loaded};
ghost use Rattle.nr_linkrules.specs.Outline.{some_text};
ghost use Rattle.nr_link.specs.Seen.{IsNamesOf};
ghost use Rattle.nr_names.specs.Numbers.{numbers_of, texts};

use crate::names::{class_name_at, name_of};
use crate::outline::class_number;
use crate::tables::{has_final_above, has_kinds_above};
use indexmap::IndexSet;
use nr_base::Name;
use nr_linked::{ClassId, ClassInfo, ProgramTables};
use nr_linkrules::LinkFault;
use nr_names::numbers_of;
use nr_prog::Class;
use std::alloc::Global;

/// Looks for the class that the index names.
#[tactic(auto, using(crate::proofs::NamedClasses::known_at), unfolding(nr_linkrules::specs::ClassRules::known_fault))]
fn check_known(
    alloc: Global,
    tables: &ProgramTables,
    names: &IndexSet<&[u8]>,
    numbers: &[Option<u32>],
    class: &Class,
    index: u16,
) -> Result<(), LinkFault>
    requires names { IsNamesOf tables.now names.now }
    requires numbers { numbers.now ≡ numbers_of (texts names.now) class.now.pool }
    requires named { NamesClass class.now.pool index }
    ensures { Finds result (known_fault tables.now (some_text (class_text_at class.now.pool index))) }
{
    match class_number(names, numbers, class, index) {
        Some(_) => Ok(()),
        None => Err(LinkFault::NoClass(name_of(alloc, class_name_at(class, index))?)),
    }
}

#[tactic(auto, using(crate::proofs::Walks::goes_on_of, crate::proofs::Walks::ends_of))]
fn check_interfaces(
    alloc: Global,
    tables: &ProgramTables,
    names: &IndexSet<&[u8]>,
    numbers: &[Option<u32>],
    class: &Class,
    interfaces: &[u16],
) -> Result<(), LinkFault>
    requires names { IsNamesOf tables.now names.now }
    requires numbers { numbers.now ≡ numbers_of (texts names.now) class.now.pool }
    requires named { All (NamesClass class.now.pool) interfaces.now }
    ensures { Finds result (first_of (named_fault tables.now class.now.pool) interfaces.now) }
{
    for index in interfaces {
        check_known(alloc, tables, names, numbers, class, *index)?;
    }
    Ok(())
}

#[tactic(auto, using(crate::proofs::Walks::fails_first), unfolding(nr_linkrules::specs::ClassRules::named_above_fault))]
fn check_named(
    alloc: Global,
    tables: &ProgramTables,
    names: &IndexSet<&[u8]>,
    numbers: &[Option<u32>],
    class: &Class,
) -> Result<(), LinkFault>
    requires names { IsNamesOf tables.now names.now }
    requires numbers { numbers.now ≡ numbers_of (texts names.now) class.now.pool }
    ensures { Finds result (named_above_fault tables.now class.now) }
{
    let parts = class.parts();
    check_known(alloc, tables, names, numbers, class, parts.super_class)?;
    check_interfaces(
        alloc,
        tables,
        names,
        numbers,
        class,
        parts.interfaces.as_slice(),
    )
}

/// The class's name, for a fault. The error comes only for want of memory.
pub fn copied(name: &Name) -> Result<Name, LinkFault>
    ensures name { IfOk result (λ copy. copy ≡ name.now) }
    ensures err { IsOkUnless result LinkFault.NoMemory }
{
    match name.clone() {
        Ok(copy) => Ok(copy),
        Err(_) => Err(LinkFault::NoMemory),
    }
}

#[tactic(auto, using(crate::proofs::Walks::fails_first), unfolding(nr_linkrules::specs::ClassRules::above_fault))]
fn check_above(
    alloc: Global,
    tables: &ProgramTables,
    names: &IndexSet<&[u8]>,
    place: ClassId,
    info: &ClassInfo,
    class: &Class,
) -> Result<(), LinkFault>
    requires names { IsNamesOf tables.now names.now }
    requires few { length tables.now.classes < 2 ^ 32 }
    ensures { Finds result (above_fault tables.now place info.now class.now) }
{
    let numbers = numbers_of(alloc, names, class.parts().pool.as_slice())?;
    check_named(alloc, tables, names, numbers.as_slice(), class)?;
    if !has_kinds_above(tables, place, info) {
        return Err(LinkFault::SuperKind(copied(&info.name)?));
    }
    if has_final_above(tables, info) {
        return Err(LinkFault::FinalSuper(copied(&info.name)?));
    }
    Ok(())
}

fn check_entry(
    alloc: Global,
    tables: &ProgramTables,
    names: &IndexSet<&[u8]>,
    place: ClassId,
    info: &ClassInfo,
) -> Result<(), LinkFault>
    requires names { IsNamesOf tables.now names.now }
    requires few { length tables.now.classes < 2 ^ 32 }
    ensures { Finds result (on_loaded (above_fault tables.now) place info.now) }
{
    match &info.read {
        Some(class) => check_above(alloc, tables, names, place, info, class),
        None => Ok(()),
    }
}

#[tactic(auto, using(crate::proofs::Walks::goes_on, crate::proofs::Walks::ends))]
fn check_each(
    alloc: Global,
    tables: &ProgramTables,
    names: &IndexSet<&[u8]>,
    classes: &[ClassInfo],
) -> Result<(), LinkFault>
    requires names { IsNamesOf tables.now names.now }
    requires few_classes { length tables.now.classes < 2 ^ 32 }
    requires few { length classes.now < 2 ^ 32 }
    ensures { Finds result (first_numbered (on_loaded (above_fault tables.now)) 0 classes.now) }
{
    for (place, info) in classes.iter().enumerate() {
        check_entry(alloc, tables, names, place as u32, info)?;
    }
    Ok(())
}

/// Looks at what each class names as its superclass and superinterfaces.
#[tactic(auto, unfolding(nr_linkrules::specs::LinkFaults::first_class_fault))]
pub fn check_all_above(
    alloc: Global,
    tables: &ProgramTables,
    names: &IndexSet<&[u8]>,
) -> Result<(), LinkFault>
    requires names { IsNamesOf tables.now names.now }
    requires few { length tables.now.classes < 2 ^ 32 }
    ensures { Finds result (first_class_fault (above_fault tables.now) tables.now) }
{
    check_each(alloc, tables, names, tables.classes.as_slice())
}
