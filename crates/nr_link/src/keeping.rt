//! What is kept beside the tables is made.

ghost use Rattle.std.specs.Prelude.{◌≡◌, ◌<◌, ◌≤◌, ◌^◌, Some, length, map, IfOk, IsOkUnless};
ghost use Rattle.nr_names.specs.Numbers.{numbers_of, texts};
ghost use Rattle.nr_names.specs.Tables.{Lists};
ghost use Rattle.nr_link.specs.Coded.{read_class};
ghost use Rattle.nr_link.specs.Lookups.{AreKept, IsIndexed, IsKept, ListsMethods, field_key, field_keys, method_key, slot_key};
ghost use Rattle.nr_link.specs.Ready.{IsReady};
ghost use Rattle.nr_link.specs.Seen.{IsNamesOf};

use crate::code::read_class;
use crate::lookup::{Kept, Lookup};
use crate::meanings::meanings_of;
use crate::superinterfaces::interface_lists;
use crate::tables::slots_of;
use indexmap::IndexSet;
use nr_base::Items;
use nr_linked::{ClassId, ClassInfo, MethodInfo, ProgramTables, SlotInfo};
use nr_linkrules::LinkFault;
use nr_names::{Key, Table, number_at, numbers_of};
use nr_prog::{Class, Field, PoolEntry};
use std::alloc::Global;
use std::ops::Range;

/// How many methods the built-in classes have.
const BUILT_IN_METHODS: usize = 23;

/// How many texts can have numbers.
const MOST: usize = 0xFFFF_FFFF;

// ---- the texts that have numbers

fn add_texts<'a>(pool: &'a [PoolEntry], texts: &mut IndexSet<&'a [u8]>) -> Result<(), LinkFault>
    ensures err { IsOkUnless result LinkFault.NoMemory }
{
    for entry in pool {
        if let PoolEntry::Utf8(bytes) = entry {
            texts.insert(bytes.as_slice())?;
        }
    }
    Ok(())
}

fn add_class_texts<'a>(
    classes: &'a [ClassInfo],
    texts: &mut IndexSet<&'a [u8]>,
) -> Result<(), LinkFault>
    ensures err { IsOkUnless result LinkFault.NoMemory }
{
    for info in classes {
        if let Some(class) = &info.read {
            add_texts(class.parts().pool.as_slice(), texts)?;
        }
    }
    Ok(())
}

fn add_method_texts<'a>(
    methods: &'a [MethodInfo],
    texts: &mut IndexSet<&'a [u8]>,
) -> Result<(), LinkFault>
    ensures err { IsOkUnless result LinkFault.NoMemory }
{
    for info in methods {
        texts.insert(info.name.as_bytes())?;
        texts.insert(info.desc.as_bytes())?;
    }
    Ok(())
}

/// The texts of the constant pools, and of the methods of the built-in classes. Which texts have numbers
/// matters for speed alone.
#[tactic(auto, using(crate::proofs::KeptMembers::few_texts))]
fn known_texts<'a>(
    alloc: Global,
    tables: &'a ProgramTables,
) -> Result<IndexSet<&'a [u8]>, LinkFault>
    ensures few { IfOk result (λ known. length (texts known) < 2 ^ 32) }
    ensures err { IsOkUnless result LinkFault.NoMemory }
{
    let mut known = IndexSet::new(alloc);
    let methods = tables.methods.as_slice();
    let first = methods.len().saturating_sub(BUILT_IN_METHODS);
    add_class_texts(tables.classes.as_slice(), &mut known)?;
    add_method_texts(&methods[first..], &mut known)?;
    if known.len() > MOST {
        return Err(LinkFault::NoMemory);
    }
    Ok(known)
}

// ---- the tables of members

fn method_key(
    tables: &ProgramTables,
    known: &IndexSet<&[u8]>,
    class: ClassId,
    method: usize,
) -> Option<Key>
    requires few { length (texts known.now) < 2 ^ 32 }
    ensures { result ≡ method_key tables.now (texts known.now) class method }
{
    let info = tables.methods.as_slice().get(method)?;
    Key::of(known, class, info.name.as_bytes(), info.desc.as_bytes())
}

fn methods_table(
    alloc: Global,
    tables: &ProgramTables,
    known: &IndexSet<&[u8]>,
    class: ClassId,
) -> Result<Table, LinkFault>
    requires few { length (texts known.now) < 2 ^ 32 }
    ensures table { IfOk result (ListsMethods tables.now (texts known.now) class) }
    ensures err { IsOkUnless result LinkFault.NoMemory }
{
    let mut table = Table::new(alloc);
    let Range { start, end } = tables.methods_of(class);
    for method in start..end {
        table.add(method, method_key(tables, known, class, method))?;
    }
    Ok(table)
}

#[tactic(auto, using(nr_names::proofs::Numbering::numbered_at))]
fn field_key(
    known: &IndexSet<&[u8]>,
    numbers: &[Option<u32>],
    holder: ClassId,
    class: &Class,
    field: &Field,
) -> Option<Key>
    requires numbers { numbers.now ≡ numbers_of (texts known.now) class.now.pool }
    ensures { result ≡ field_key (texts known.now) holder class.now.pool field.now }
{
    let name = number_at(numbers, field.name);
    let desc = number_at(numbers, field.desc);
    Key::by(holder, name, desc)
}

fn table_of_fields(
    alloc: Global,
    known: &IndexSet<&[u8]>,
    numbers: &[Option<u32>],
    holder: ClassId,
    class: &Class,
    fields: &[Field],
) -> Result<Table, LinkFault>
    requires numbers { numbers.now ≡ numbers_of (texts known.now) class.now.pool }
    ensures table { IfOk result (λ table. Lists table (map (field_key (texts known.now) holder class.now.pool) fields.now)) }
    ensures err { IsOkUnless result LinkFault.NoMemory }
{
    let mut table = Table::new(alloc);
    for (place, field) in fields.iter().enumerate() {
        table.add(place, field_key(known, numbers, holder, class, field))?;
    }
    Ok(table)
}

fn fields_table(
    alloc: Global,
    known: &IndexSet<&[u8]>,
    numbers: &[Option<u32>],
    holder: ClassId,
    class: &Class,
) -> Result<Table, LinkFault>
    requires numbers { numbers.now ≡ numbers_of (texts known.now) class.now.pool }
    ensures table { IfOk result (λ table. Lists table (field_keys (texts known.now) holder class.now)) }
    ensures err { IsOkUnless result LinkFault.NoMemory }
{
    let fields = class.parts().fields.as_slice();
    table_of_fields(alloc, known, numbers, holder, class, fields)
}

fn slot_key(known: &IndexSet<&[u8]>, slot: &SlotInfo) -> Option<Key>
    requires few { length (texts known.now) < 2 ^ 32 }
    ensures { result ≡ slot_key (texts known.now) slot.now }
{
    let name = slot.name.as_bytes();
    Key::of(known, slot.declared_in, name, slot.desc.as_bytes())
}

fn slots_table(
    alloc: Global,
    known: &IndexSet<&[u8]>,
    slots: &[SlotInfo],
) -> Result<Table, LinkFault>
    requires few { length (texts known.now) < 2 ^ 32 }
    ensures table { IfOk result (λ table. Lists table (map (slot_key (texts known.now)) slots.now)) }
    ensures err { IsOkUnless result LinkFault.NoMemory }
{
    let mut table = Table::new(alloc);
    for (place, slot) in slots.iter().enumerate() {
        table.add(place, slot_key(known, slot))?;
    }
    Ok(table)
}

// ---- each class

/// What is kept of a class that was loaded.
#[tactic(auto, using(crate::proofs::KeptMembers::kept_here))]
fn kept_read(
    alloc: Global,
    tables: &ProgramTables,
    names: &IndexSet<&[u8]>,
    known: &IndexSet<&[u8]>,
    place: ClassId,
    class: &Class,
) -> Result<Kept, LinkFault>
    requires names { IsNamesOf tables.now names.now }
    requires few_classes { length tables.now.classes < 2 ^ 32 }
    requires few { length (texts known.now) < 2 ^ 32 }
    requires here { Some class.now ≡ read_class tables.now place }
    ensures kept { IfOk result (IsKept tables.now (texts known.now) place) }
    ensures err { IsOkUnless result LinkFault.NoMemory }
{
    let meanings = meanings_of(alloc, tables, names, class)?;
    let numbers = numbers_of(alloc, known, class.parts().pool.as_slice())?;
    let fields = fields_table(alloc, known, numbers.as_slice(), place, class)?;
    Ok(Kept {
        meanings,
        numbers,
        methods: methods_table(alloc, tables, known, place)?,
        fields,
        slots: slots_table(alloc, known, slots_of(tables, place))?,
    })
}

#[tactic(auto, using(crate::proofs::KeptMembers::kept_none))]
fn kept(
    alloc: Global,
    tables: &ProgramTables,
    names: &IndexSet<&[u8]>,
    known: &IndexSet<&[u8]>,
    place: ClassId,
) -> Result<Kept, LinkFault>
    requires names { IsNamesOf tables.now names.now }
    requires few_classes { length tables.now.classes < 2 ^ 32 }
    requires few { length (texts known.now) < 2 ^ 32 }
    ensures kept { IfOk result (IsKept tables.now (texts known.now) place) }
    ensures err { IsOkUnless result LinkFault.NoMemory }
{
    match read_class(tables, place) {
        Some(class) => kept_read(alloc, tables, names, known, place, class),
        None => Ok(Kept {
            meanings: Items::new(alloc),
            numbers: Items::new(alloc),
            methods: methods_table(alloc, tables, known, place)?,
            fields: Table::new(alloc),
            slots: slots_table(alloc, known, slots_of(tables, place))?,
        }),
    }
}

#[tactic(auto, using(crate::proofs::KeptMembers::keeps_none, crate::proofs::KeptMembers::keeps_more, crate::proofs::KeptMembers::keeps_all))]
fn all_kept(
    alloc: Global,
    tables: &ProgramTables,
    names: &IndexSet<&[u8]>,
    known: &IndexSet<&[u8]>,
) -> Result<Items<Kept>, LinkFault>
    requires names { IsNamesOf tables.now names.now }
    requires few_classes { length tables.now.classes < 2 ^ 32 }
    requires few { length (texts known.now) < 2 ^ 32 }
    ensures kept { IfOk result (AreKept tables.now (texts known.now)) }
    ensures err { IsOkUnless result LinkFault.NoMemory }
{
    let mut all = Items::new(alloc);
    for place in 0..tables.classes.len() as u32 {
        all.push(kept(alloc, tables, names, known, place)?)?;
    }
    Ok(all)
}

/// What is kept beside the tables of classes that are laid out.
pub fn lookup_of<'a>(
    alloc: Global,
    tables: &'a ProgramTables,
    names: &IndexSet<&[u8]>,
    rows: &'a [Items<bool>],
) -> Result<Lookup<'a>, LinkFault>
    requires ready { IsReady tables.now names.now rows.now }
    ensures indexed { IfOk result (IsIndexed tables.now) }
    ensures err { IsOkUnless result LinkFault.NoMemory }
{
    let texts = known_texts(alloc, tables)?;
    let lists = interface_lists(alloc, tables)?;
    let classes = all_kept(alloc, tables, names, &texts)?;
    Ok(Lookup {
        rows,
        lists,
        texts,
        classes,
    })
}
