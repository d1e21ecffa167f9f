//! Fields that instructions name.

ghost use Rattle.std.specs.Prelude.{◌≡◌, ◌<◌, ◌^◌, Some, length, map, IfSome};
ghost use Rattle.std.specs.List.{position};
ghost use Rattle.nr_base.specs.Clauses.{GivesWhole};
ghost use Rattle.nr_prog.specs.BodyNames.{NamesAnyClass};
ghost use Rattle.nr_prog.specs.Pool.{entry_at};
ghost use Rattle.nr_linked.specs.Slots.{slots_of};
ghost use Rattle.nr_links.specs.Resolution.{class_with_members, is_slot_of, resolved_slot};
ghost use Rattle.nr_linkrules.specs.Faults.{is_free};
ghost use Rattle.nr_linkrules.specs.SiteRules.{Place as SpecPlace, by_member, no_field, on_entry, on_member, or_fault, place_in, slot_found};
ghost use Rattle.nr_link.specs.Naming.{IsMemberNamed};
ghost use Rattle.nr_link.specs.Coded.{read_class};
ghost use Rattle.nr_link.specs.Lookups.{IsIndexed, IsSought, slot_key};
ghost use Rattle.nr_names.specs.Numbers.{texts};
ghost use Rattle.nr_names.specs.Tables.{has_key};

use super::member::sought_at;
use super::place::{Place, member_at, place_of};
use crate::fields::field_class;
use crate::lookup::{Lookup, Sought, kept_of, key_in};
use crate::named::kind_at;
use crate::tables::slots_of;
use nr_linked::{Base, BuiltIn, ClassId, Kind, MethodInfo, ProgramTables, Resolved, SlotInfo};
use nr_linkrules::LinkFault;
use nr_names::Key;
use nr_prog::Class;
use std::alloc::Global;

/// The class whose members a class or an array has: an array has those of `java/lang/Object`.
pub fn class_with_members(tables: &ProgramTables, kind: Kind) -> Option<ClassId>
    requires few { length tables.now.classes < 2 ^ 32 }
    ensures { result ≡ class_with_members tables.now kind }
{
    if kind.dims > 0 {
        return Some(tables.built_in(BuiltIn::Object) as u32);
    }
    match kind.base {
        Base::Object(class) => Some(class),
        _ => None,
    }
}

fn is_slot_of(slot: &SlotInfo, class: ClassId, name: &[u8], desc: &[u8]) -> bool
    ensures { result ≡ is_slot_of class name.now desc.now slot.now }
{
    slot.declared_in == class && slot.name.as_bytes() == name && slot.desc.as_bytes() == desc
}

fn place_by_texts(slots: &[SlotInfo], class: ClassId, name: &[u8], desc: &[u8]) -> Option<usize>
    ensures { result ≡ position (is_slot_of class name.now desc.now) slots.now }
{
    slots
        .iter()
        .position(|slot| is_slot_of(slot, class, name, desc))
}

/// The place of the slot of this key among those of the class.
#[tactic(auto, using(crate::proofs::Looked::no_slots))]
fn place_by_key(tables: &ProgramTables, lookup: &Lookup, class: ClassId, key: Key) -> Option<usize>
    requires indexed { IsIndexed tables.now lookup.now }
    ensures { result ≡ position (has_key key) (map (slot_key (texts lookup.now.texts)) (slots_of tables.now class)) }
{
    kept_of(tables, lookup, class)?.slots.get(key)
}

/// The place, among the slots of the class, of that of a field which `holder` declares.
#[tactic(auto, using(crate::proofs::Looked::place_told, crate::proofs::Looked::place_within))]
fn place_of_slot(
    tables: &ProgramTables,
    lookup: &Lookup,
    sought: &Sought,
    class: ClassId,
    holder: ClassId,
) -> Option<usize>
    requires indexed { IsIndexed tables.now lookup.now }
    requires sought { IsSought (texts lookup.now.texts) sought.now }
    ensures place { result ≡ position (is_slot_of holder sought.now.name.now sought.now.desc.now) (slots_of tables.now class) }
    ensures within { IfSome result (λ i. i < length (slots_of tables.now class)) }
{
    match key_in(sought, holder) {
        Some(key) => place_by_key(tables, lookup, class, key),
        None => place_by_texts(slots_of(tables, class), holder, sought.name, sought.desc),
    }
}

/// The slot of the field to which a reference to the class resolves.
fn resolved_slot(
    tables: &ProgramTables,
    lookup: &Lookup,
    sought: &Sought,
    class: ClassId,
) -> Option<u32>
    requires indexed { IsIndexed tables.now lookup.now }
    requires sought { IsSought (texts lookup.now.texts) sought.now }
    ensures { result ≡ resolved_slot tables.now class sought.now.name.now sought.now.desc.now }
{
    let holder = field_class(tables, lookup, sought, class)?;
    let slot = place_of_slot(tables, lookup, sought, class, holder)?;
    Some(slot as u32)
}

/// The slot of the field of the class or the array, with the class that has it.
fn slot_found(
    tables: &ProgramTables,
    lookup: &Lookup,
    sought: &Sought,
    kind: Kind,
) -> Option<Resolved>
    requires indexed { IsIndexed tables.now lookup.now }
    requires sought { IsSought (texts lookup.now.texts) sought.now }
    ensures { (p : SpecPlace) → slot_found tables.now p sought.now.name.now sought.now.desc.now kind ≡ or_fault (no_field p) result }
{
    let class = class_with_members(tables, kind)?;
    let slot = resolved_slot(tables, lookup, sought, class)?;
    Some(Resolved::Slot(class, slot))
}

/// The slot of the member of the class that the index names.
fn slot_of_member(
    alloc: Global,
    tables: &ProgramTables,
    lookup: &Lookup,
    info: &MethodInfo,
    class: &Class,
    at: u16,
    named: u16,
    member: u16,
) -> Result<Resolved, LinkFault>
    requires indexed { IsIndexed tables.now lookup.now }
    requires here { Some class.now ≡ read_class tables.now info.now.«class» }
    requires named { NamesAnyClass class.now.pool named }
    ensures { GivesWhole is_free result (on_member tables.now class.now.pool (slot_found tables.now (place_in tables.now info.now at)) named member) }
{
    let kind = kind_at(alloc, tables, lookup, info.class, class, named)?;
    let sought = sought_at(tables, lookup, info.class, class, member);
    match slot_found(tables, lookup, &sought, kind) {
        Some(found) => Ok(found),
        None => {
            let Place { class, method, at } = place_of(alloc, tables, info, at)?;
            Err(LinkFault::NoField(class, method, at))
        }
    }
}

/// The slot of the field that the reference at the index names.
pub fn find_slot(
    alloc: Global,
    tables: &ProgramTables,
    lookup: &Lookup,
    info: &MethodInfo,
    class: &Class,
    at: u16,
    index: u16,
) -> Result<Resolved, LinkFault>
    requires indexed { IsIndexed tables.now lookup.now }
    requires here { Some class.now ≡ read_class tables.now info.now.«class» }
    requires named { IfSome (entry_at class.now.pool index) (IsMemberNamed class.now.pool) }
    ensures { GivesWhole is_free result (on_entry (by_member tables.now class.now.pool (slot_found tables.now (place_in tables.now info.now at))) class.now.pool index) }
{
    match member_at(class, index) {
        Some((named, member)) => {
            slot_of_member(alloc, tables, lookup, info, class, at, named, member)
        }
        None => Ok(Resolved::Nothing),
    }
}
