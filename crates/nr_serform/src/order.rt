//! The slots of a class's objects in the order of a stream.

ghost use Rattle.std.specs.Prelude.{◌≡◌, ◌<◌, ◌^◌, ◌++◌, length, map, All, IfOk, OnOk};
ghost use Rattle.nr_linked.specs.Kinds.{is_reference};
ghost use Rattle.nr_linked.specs.Programs.{superclasses};
ghost use Rattle.nr_linked.specs.Slots.{slots_of};
ghost use Rattle.nr_graph.specs.StreamOrder.{declared_slots, stream_slots};
ghost use Rattle.nr_serform.specs.Members.{IsShort, part_of};
ghost use Rattle.nr_serform.specs.StreamSlots.{is_of_sort, placed_of, slot_part, slots_declared, slots_in_order, slots_of_sort, stream_places};

use crate::members::{Member, sort};
use nr_linked::{Base, ClassId, Kind, Program, SlotInfo};
use std::alloc::{AllocError, Global};

/// A slot of a class's objects, and its place in them.
#[derive(Clone, Copy)]
pub struct StreamSlot<'p> {
    pub place: u32,
    pub slot: &'p SlotInfo,
}

fn is_reference(kind: Kind) -> bool
    ensures { result ≡ is_reference kind }
{
    kind.dims > 0 || matches!(kind.base, Base::Object(_))
}

fn is_of_sort(slot: &SlotInfo, class: ClassId, references: bool) -> bool
    ensures { result ≡ is_of_sort class references slot.now }
{
    slot.declared_in == class && is_reference(slot.kind) == references
}

fn member_of(slot: &SlotInfo, place: u32) -> Member<'_>
    ensures part { part_of result ≡ slot_part (place, slot.now) }
    ensures short { IsShort result }
{
    Member {
        name: slot.name.as_bytes(),
        desc: slot.desc.as_bytes(),
        number: place,
    }
}

/// Of the slots those that the class declares, of references or of primitive types.
fn slots_of_sort<'p>(
    alloc: Global,
    slots: &'p [SlotInfo],
    class: ClassId,
    references: bool,
) -> Result<Vec<Member<'p>>, AllocError>
    requires { length slots.now < 2 ^ 32 }
    ensures parts { IfOk result (λ v. map part_of v.items
        ≡ map slot_part (slots_of_sort slots.now class references)) }
    ensures short { IfOk result (λ v. All IsShort v.items) }
{
    let mut members = Vec::new(alloc);
    for (place, slot) in slots.iter().enumerate() {
        if is_of_sort(slot, class, references) {
            members.push(member_of(slot, place as u32))?;
        }
    }
    Ok(members)
}

/// Adds these slots in the order of their names, and those of one name in the order of their descriptors.
fn push_in_order<'p>(
    alloc: Global,
    found: &mut Vec<StreamSlot<'p>>,
    slots: &'p [SlotInfo],
    class: ClassId,
    references: bool,
) -> Result<(), AllocError>
    requires { length slots.now < 2 ^ 32 }
    ensures { OnOk result (map placed_of found.new.items
        ≡ map placed_of found.old.items ++ slots_in_order slots.now class references) }
{
    let mut members = slots_of_sort(alloc, slots, class, references)?;
    sort(&mut members)?;
    for member in &members {
        let place = member.number;
        found.push(StreamSlot {
            place,
            slot: &slots[place as usize],
        })?;
    }
    Ok(())
}

/// Adds the slots that the class declares: those of primitive types first.
pub fn push_declared<'p>(
    alloc: Global,
    found: &mut Vec<StreamSlot<'p>>,
    slots: &'p [SlotInfo],
    class: ClassId,
) -> Result<(), AllocError>
    requires { length slots.now < 2 ^ 32 }
    ensures { OnOk result (map placed_of found.new.items
        ≡ map placed_of found.old.items ++ slots_declared slots.now class) }
{
    push_in_order(alloc, found, slots, class, false)?;
    push_in_order(alloc, found, slots, class, true)
}

/// The class, its superclass and so on up to `java/lang/Object`.
fn superclasses(
    alloc: Global,
    program: &Program,
    class: ClassId,
) -> Result<Vec<ClassId>, AllocError>
    ensures { IfOk result (λ v. v.items ≡ superclasses program.now class) }
{
    program.tables().superclasses(class).collect(alloc)
}

/// The slots of the class's objects.
fn slots_of(program: &Program, class: ClassId) -> &[SlotInfo]
    ensures slots { result.now ≡ slots_of program.now class }
    ensures few { length result.now < 2 ^ 32 }
{
    match program.tables().class_at(class) {
        Some(info) => info.slots.as_slice(),
        None => &[],
    }
}

/// The slots of the class's objects in the order of a stream (Java Object Serialization Specification
/// 4.3): those that its topmost superclass declares first, of each class those of primitive types first,
/// and both groups by their names. The error comes only for want of memory.
pub fn stream_slots(
    alloc: Global,
    program: &Program,
    class: ClassId,
) -> Result<Vec<StreamSlot<'_>>, AllocError>
    ensures { IfOk result (λ v. map placed_of v.items ≡ stream_slots program.now class) }
{
    let slots = slots_of(program, class);
    let classes = superclasses(alloc, program, class)?;
    let mut found = Vec::new(alloc);
    for declaring in classes.iter().rev().copied() {
        push_declared(alloc, &mut found, slots, declaring)?;
    }
    Ok(found)
}

fn places(alloc: Global, slots: &[StreamSlot]) -> Result<Vec<u32>, AllocError>
    ensures { IfOk result (λ v. v.items ≡ map (λ slot. slot.place) slots.now) }
{
    slots.iter().map(|slot| slot.place).collect(alloc)
}

/// The heap slots of the class's objects in the order of a stream. The error comes only for want of
/// memory.
pub fn stream_fields(
    alloc: Global,
    program: &Program,
    class: ClassId,
) -> Result<Vec<u32>, AllocError>
    ensures { IfOk result (λ v. v.items ≡ stream_places program.now class) }
{
    let slots = stream_slots(alloc, program, class)?;
    let places = places(alloc, slots.as_slice())?;
    Ok(places)
}

/// The slots of the fields that the class itself declares, in the same order. The error comes only for
/// want of memory.
pub fn declared_slots(
    alloc: Global,
    program: &Program,
    class: ClassId,
) -> Result<Vec<StreamSlot<'_>>, AllocError>
    ensures { IfOk result (λ v. map placed_of v.items ≡ declared_slots program.now class class) }
{
    let mut found = Vec::new(alloc);
    push_declared(alloc, &mut found, slots_of(program, class), class)?;
    Ok(found)
}
