//! What stands above each class, and the slots of its objects.

ghost use Rattle.std.specs.Prelude.{◌≡◌, ◌∷◌, ◌++◌, ◌<◌, ◌≤◌, ◌^◌, [], length, map, reverse, All, IfOk, OnOk, IsOkUnless, ℕ};
ghost use Rattle.std.specs.List.{filter, flat_map, range_with_len, zip};
ghost use Rattle.std.specs.Option.{option_to_list};
ghost use Rattle.nr_linked.specs.Programs.{upward};
ghost use Rattle.nr_linkrules.specs.Layout.{kind_said, laid_class, laid_out, numbered, slots_declared, slots_in, slots_read, supers_in};
ghost use Rattle.nr_linkrules.specs.Outline.{some_text};
ghost use Rattle.nr_linkrules.specs.Reaches.{HasSteps, reaches, rows_of};
ghost use Rattle.nr_prog.specs.Pool.{text_at};
ghost use Rattle.nr_link.specs.Entries.{HasFieldTexts, slot_or_none};
ghost use Rattle.nr_link.specs.Meanings.{all_meanings, meanings_of};
ghost use Rattle.nr_link.specs.Seen.{IsNamesOf};
ghost use Rattle.nr_link.specs.Laid.{above_in, laid_by};

use crate::closure::reaches;
use crate::gathering::{push_if, push_some};
use crate::kinds::kind_said;
use crate::meanings::{Meaning, all_meanings, meaning_at, meanings_in};
use crate::names::{name_of, text_bytes};
use crate::tables::{STATIC, has_flag};
use indexmap::IndexSet;
use nr_base::Items;
use nr_linked::{ClassId, ClassInfo, Kind, ProgramTables, SlotInfo};
use nr_linkrules::LinkFault;
use nr_prog::{Class, Field};
use std::alloc::Global;

/// The kind that the descriptor at an index says. The error is `NoMemory`.
#[tactic(auto, using(crate::proofs::Meant::kind_is_said, crate::proofs::Meant::no_text))]
fn kind_of_field(
    alloc: Global,
    tables: &ProgramTables,
    names: &IndexSet<&[u8]>,
    class: &Class,
    meanings: &[Option<Meaning>],
    desc: u16,
) -> Result<Option<Kind>, LinkFault>
    requires names { IsNamesOf tables.now names.now }
    requires few { length tables.now.classes < 2 ^ 32 }
    requires meanings { meanings.now ≡ meanings_of tables.now class.now.pool }
    ensures kind { IfOk result (λ kind. kind ≡ kind_said tables.now (some_text (text_at class.now.pool desc))) }
    ensures err { IsOkUnless result LinkFault.NoMemory }
{
    match meaning_at(tables, class, meanings, desc) {
        Some(meaning) => Ok(meaning.said),
        None => kind_said(alloc, tables, names, &[]),
    }
}

/// The slot of a field of a class; none for a static one.
#[tactic(auto, unfolding(nr_linkrules::specs::Layout::slot_of))]
fn slot_of(
    alloc: Global,
    tables: &ProgramTables,
    names: &IndexSet<&[u8]>,
    place: ClassId,
    class: &Class,
    meanings: &[Option<Meaning>],
    field: &Field,
) -> Result<Option<SlotInfo>, LinkFault>
    requires names { IsNamesOf tables.now names.now }
    requires few { length tables.now.classes < 2 ^ 32 }
    requires meanings { meanings.now ≡ meanings_of tables.now class.now.pool }
    requires texts { HasFieldTexts class.now.pool field.now }
    ensures slot { IfOk result (λ slot. slot ≡ slot_or_none tables.now place class.now.pool field.now) }
    ensures err { IsOkUnless result LinkFault.NoMemory }
{
    if has_flag(field.flags, STATIC) {
        return Ok(None);
    }
    let Some(kind) = kind_of_field(alloc, tables, names, class, meanings, field.desc)? else {
        return Ok(None);
    };
    Ok(Some(SlotInfo {
        declared_in: place,
        name: name_of(alloc, text_bytes(class, field.name))?,
        desc: name_of(alloc, text_bytes(class, field.desc))?,
        kind,
    }))
}

/// Puts the slots of the fields at the end of the list.
#[tactic(auto, using(crate::proofs::Loops::gathers, crate::proofs::Loops::gathered))]
fn push_slots_of(
    alloc: Global,
    tables: &ProgramTables,
    names: &IndexSet<&[u8]>,
    place: ClassId,
    class: &Class,
    meanings: &[Option<Meaning>],
    fields: &[Field],
    slots: &mut Items<SlotInfo>,
) -> Result<(), LinkFault>
    requires names { IsNamesOf tables.now names.now }
    requires few { length tables.now.classes < 2 ^ 32 }
    requires meanings { meanings.now ≡ meanings_of tables.now class.now.pool }
    requires texts { All (HasFieldTexts class.now.pool) fields.now }
    ensures added { OnOk result (slots.new ≡ slots.old ++ flat_map (λ f. option_to_list (slot_or_none tables.now place class.now.pool f)) fields.now) }
    ensures err { IsOkUnless result LinkFault.NoMemory }
{
    for field in fields {
        push_some(
            slots,
            slot_of(alloc, tables, names, place, class, meanings, field)?,
        )?;
    }
    Ok(())
}

/// Puts the slots that the class declares at the end of the list.
#[tactic(auto, using(crate::proofs::Texts::have_field_texts, crate::proofs::Layouts::slots_by_fields))]
fn push_declared(
    alloc: Global,
    tables: &ProgramTables,
    names: &IndexSet<&[u8]>,
    all: &[Items<Option<Meaning>>],
    place: ClassId,
    slots: &mut Items<SlotInfo>,
) -> Result<(), LinkFault>
    requires names { IsNamesOf tables.now names.now }
    requires few { length tables.now.classes < 2 ^ 32 }
    requires all { all.now ≡ all_meanings tables.now }
    ensures added { OnOk result (slots.new ≡ slots.old ++ slots_declared tables.now place) }
    ensures err { IsOkUnless result LinkFault.NoMemory }
{
    let Some(info) = tables.class_at(place) else {
        return Ok(());
    };
    let Some(class) = &info.read else {
        return Ok(());
    };
    let meanings = meanings_in(tables, all, place);
    let fields = class.parts().fields.as_slice();
    push_slots_of(alloc, tables, names, place, class, meanings, fields, slots)
}

/// Puts the slots of the classes from one upward, at most as many as are left, at the end of the
/// list: those of the topmost first.
#[tactic(auto, using(crate::proofs::Layouts::from_top))]
fn push_slots(
    alloc: Global,
    tables: &ProgramTables,
    names: &IndexSet<&[u8]>,
    all: &[Items<Option<Meaning>>],
    left: usize,
    class: Option<ClassId>,
    slots: &mut Items<SlotInfo>,
) -> Result<(), LinkFault>
    requires names { IsNamesOf tables.now names.now }
    requires few { length tables.now.classes < 2 ^ 32 }
    requires all { all.now ≡ all_meanings tables.now }
    ensures added { OnOk result (slots.new ≡ slots.old ++ flat_map (slots_declared tables.now) (reverse (upward tables.now left class))) }
    ensures err { IsOkUnless result LinkFault.NoMemory }
{
    let Some(class) = class else {
        return Ok(());
    };
    if left == 0 {
        return Ok(());
    }
    push_slots(
        alloc,
        tables,
        names,
        all,
        left - 1,
        tables.super_of(class),
        slots,
    )?;
    push_declared(alloc, tables, names, all, class, slots)
}

#[tactic(auto, unfolding(nr_linkrules::specs::Layout::slots_in))]
fn slots_in(
    alloc: Global,
    tables: &ProgramTables,
    names: &IndexSet<&[u8]>,
    all: &[Items<Option<Meaning>>],
    class: ClassId,
) -> Result<Items<SlotInfo>, LinkFault>
    requires names { IsNamesOf tables.now names.now }
    requires few { length tables.now.classes < 2 ^ 32 }
    requires all { all.now ≡ all_meanings tables.now }
    ensures slots { IfOk result (λ slots. slots ≡ slots_in tables.now class) }
    ensures err { IsOkUnless result LinkFault.NoMemory }
{
    let mut slots = Items::new(alloc);
    push_slots(
        alloc,
        tables,
        names,
        all,
        tables.classes.len(),
        Some(class),
        &mut slots,
    )?;
    Ok(slots)
}

#[tactic(auto, using(crate::proofs::Loops::keeps, crate::proofs::Loops::kept, crate::proofs::Loops::from_zero), unfolding(nr_linkrules::specs::Layout::supers_in))]
fn supers_in(
    alloc: Global,
    tables: &ProgramTables,
    rows: &[Items<bool>],
    class: ClassId,
) -> Result<Items<ClassId>, LinkFault>
    requires few { length tables.now.classes < 2 ^ 32 }
    requires rows { rows.now ≡ rows_of tables.now (length tables.now.classes) }
    requires steps { HasSteps tables.now }
    ensures supers { IfOk result (λ supers. supers ≡ supers_in tables.now class) }
    ensures err { IsOkUnless result LinkFault.NoMemory }
{
    let mut supers = Items::new(alloc);
    for above in 0..tables.classes.len() as u32 {
        push_if(&mut supers, reaches(tables, rows, class, above), above)?;
    }
    Ok(supers)
}

/// What is laid out for a class.
#[derive(Debug, Drop)]
struct Laid {
    supers: Items<ClassId>,
    slots: Items<SlotInfo>,
}

/// What is laid out for each class.
#[tactic(auto, using(crate::proofs::Loops::counts_on))]
fn laid_parts(
    alloc: Global,
    tables: &ProgramTables,
    names: &IndexSet<&[u8]>,
    all: &[Items<Option<Meaning>>],
    rows: &[Items<bool>],
) -> Result<Items<Laid>, LinkFault>
    requires names { IsNamesOf tables.now names.now }
    requires few { length tables.now.classes < 2 ^ 32 }
    requires all { all.now ≡ all_meanings tables.now }
    requires rows { rows.now ≡ rows_of tables.now (length tables.now.classes) }
    requires steps { HasSteps tables.now }
    ensures parts { IfOk result (λ parts. parts ≡ map (above_in tables.now) (range_with_len 0 (length tables.now.classes))) }
    ensures err { IsOkUnless result LinkFault.NoMemory }
{
    let mut parts = Items::new(alloc);
    for class in 0..tables.classes.len() as u32 {
        parts.push(Laid {
            supers: supers_in(alloc, tables, rows, class)?,
            slots: slots_in(alloc, tables, names, all, class)?,
        })?;
    }
    Ok(parts)
}

/// The entry with what is laid out for it; that of a built-in class as it is.
fn with_laid(info: ClassInfo, laid: Laid) -> ClassInfo
    ensures { result ≡ laid_by info laid }
{
    let Laid { supers, slots } = laid;
    let mut info = info;
    if info.read.is_some() {
        info.supers = supers;
        info.slots = slots;
    }
    info
}

fn lay_entries(
    alloc: Global,
    classes: Items<ClassInfo>,
    parts: Items<Laid>,
) -> Result<Items<ClassInfo>, LinkFault>
    ensures classes { IfOk result (λ laid. laid ≡ map (λ p. laid_by p.0 p.1) (zip classes parts)) }
    ensures err { IsOkUnless result LinkFault.NoMemory }
{
    let mut laid = Items::new(alloc);
    let mut parts = parts.into_vec().into_iter();
    let mut rest = classes.into_vec().into_iter();
    while let Some(info) = rest.next() {
        let Some(part) = parts.next() else {
            return Ok(laid);
        };
        laid.push(with_laid(info, part))?;
    }
    Ok(laid)
}

/// The tables with what stands above each class and with its slots.
#[tactic(auto, using(crate::proofs::Layouts::laid_by_parts))]
pub fn lay_out(
    alloc: Global,
    tables: ProgramTables,
    names: &IndexSet<&[u8]>,
    rows: &[Items<bool>],
) -> Result<ProgramTables, LinkFault>
    requires names { IsNamesOf tables names.now }
    requires few { length tables.classes < 2 ^ 32 }
    requires rows { rows.now ≡ rows_of tables (length tables.classes) }
    requires steps { HasSteps tables }
    ensures tables { IfOk result (λ laid. laid ≡ laid_out tables) }
    ensures err { IsOkUnless result LinkFault.NoMemory }
{
    let all = all_meanings(alloc, &tables, names)?;
    let parts = laid_parts(alloc, &tables, names, all.as_slice(), rows)?;
    let ProgramTables { classes, methods } = tables;
    Ok(ProgramTables {
        classes: lay_entries(alloc, classes, parts)?,
        methods,
    })
}
