//! Contents: what a slot holds.

ghost use Rattle.std.specs.Prelude.{◌≡◌, ◌≤◌, ◌+◌, [], ℕ, List, length, map, false, slice_get, OnOk};
ghost use Rattle.nr_base.specs.Clauses.{Gives, GivesBy};
ghost use Rattle.std.specs.Option.{option_map_or};
ghost use Rattle.nr_linked.specs.Kinds.{class_in};
ghost use Rattle.nr_linked.specs.Subtypes.{is_assignable};
ghost use Rattle.nr_serform.specs.StreamSlots.{placed_of, stream_kinds};
ghost use Rattle.nr_serread.specs.declared.due.Due.{Due as DueView};
ghost use Rattle.nr_serread.specs.Faults.{is_free};
ghost use Rattle.nr_serread.specs.Reading.{array_at, content_at, elements_due, number_at, object_at, old_content_at, slot_at};
ghost use Rattle.nr_serread.specs.Working.{Fits, left_due, state_of};

use crate::description::describe;
use crate::due::Due;
use crate::fault::StreamFault;
use crate::fields::is_reference;
use crate::items::read_object_handle;
use crate::work::{Left, Work, keep, open_node};
use nr_base::Cur;
use nr_graph::{Node, Slot};
use nr_linked::{Base, Kind};
use nr_serform::{Forms, StreamSlot};
use std::alloc::Global;

#[tactic(auto, unfolding(crate::specs::Reading::number_at, nr_base::specs::Reader::bind, nr_base::specs::Reader::pure, nr_base::specs::Reader::refuse, nr_base::specs::Reader::choose, nr_base::specs::Reader::from, nr_base::specs::Reader::with_fault))]
fn read_number(cur: &mut Cur, base: Base) -> Result<Slot, StreamFault>
    ensures { Gives is_free result cur.new (number_at base cur.old) }
{
    match base {
        Base::Bool => {
            let at = cur.at();
            let n = cur.u8()?;
            if n <= 1 {
                Ok(Slot::Int(u32::from(n).cast_signed()))
            } else {
                Err(StreamFault::SlotType(at))
            }
        }
        Base::Byte => Ok(Slot::Int(i32::from(cur.u8()?.cast_signed()))),
        Base::Char => Ok(Slot::Int(u32::from(cur.u16()?).cast_signed())),
        Base::Short => Ok(Slot::Int(i32::from(cur.u16()?.cast_signed()))),
        Base::Int => Ok(Slot::Int(cur.u32()?.cast_signed())),
        Base::Long => Ok(Slot::Long(cur.u64()?.cast_signed())),
        Base::Object(_) => Ok(Slot::Null),
    }
}

/// The slots of a class's objects.
#[tactic(auto, using(crate::proofs::Below::as_many))]
fn slots_of<'f, 'p>(forms: &'f Forms<'p>, kind: Kind) -> &'f [StreamSlot<'p>]
    ensures count { length (map (λ a. a.1.kind) (map placed_of result.now)) ≡ length result.now }
    ensures kinds { map (λ a. a.1.kind) (map placed_of result.now) ≡ option_map_or (stream_kinds forms.now) (class_in kind.base) [] }
{
    match kind.base {
        Base::Object(class) => forms.slots(class),
        _ => &[],
    }
}

#[tactic(auto, unfolding(crate::specs::Reading::object_at, crate::specs::Reading::open_slots_at, nr_base::specs::Reader::bind, nr_base::specs::Reader::pure, nr_base::specs::Reader::refuse, nr_base::specs::Reader::choose, nr_base::specs::Reader::from, nr_base::specs::Reader::with_fault))]
fn read_object<'f, 'p>(
    alloc: Global,
    forms: &'f Forms<'p>,
    w: &mut Work<'f, 'p>,
    cur: &mut Cur,
    due: Due,
    start: u32,
) -> Result<(), StreamFault>
    requires { Fits w.old }
    ensures reads { (roots : List DueView) → GivesBy is_free (λ _. state_of w.new roots) result cur.new (object_at forms.now due start (state_of w.old roots) cur.old) }
    ensures fits { OnOk result (Fits w.new) }
    ensures few { OnOk result (length w.new.frames.items ≤ length w.old.frames.items + 1) }
{
    let kind = describe(alloc, forms, &mut w.handles, cur, false, due.kind, start)?;
    let slots = slots_of(forms, kind);
    open_node(alloc, w, due, start, kind, slots.len(), Left::Slots(slots))
}

fn no_slots<'f, 'p>() -> &'f [StreamSlot<'p>]
    ensures { result.now ≡ [] }
{
    &[]
}

fn elements<'f, 'p>(kind: Kind, size: u32) -> Left<'f, 'p>
    ensures { (i : ℕ) → left_due i result ≡ elements_due i kind size }
{
    if kind.dims == 0 {
        return Left::Slots(no_slots());
    }
    let element = Kind {
        dims: kind.dims - 1,
        base: kind.base,
    };
    Left::Elements(element, size)
}

#[tactic(auto, unfolding(crate::specs::Reading::array_at, nr_base::specs::Reader::bind, nr_base::specs::Reader::pure, nr_base::specs::Reader::refuse, nr_base::specs::Reader::choose, nr_base::specs::Reader::from, nr_base::specs::Reader::with_fault))]
fn read_array<'f, 'p>(
    alloc: Global,
    forms: &'f Forms<'p>,
    w: &mut Work<'f, 'p>,
    cur: &mut Cur,
    due: Due,
    start: u32,
) -> Result<(), StreamFault>
    requires { Fits w.old }
    ensures reads { (roots : List DueView) → GivesBy is_free (λ _. state_of w.new roots) result cur.new (array_at forms.now due start (state_of w.old roots) cur.old) }
    ensures fits { OnOk result (Fits w.new) }
    ensures few { OnOk result (length w.new.frames.items ≤ length w.old.frames.items + 1) }
{
    let kind = describe(alloc, forms, &mut w.handles, cur, true, due.kind, start)?;
    let at = cur.at();
    let size = cur.u32()?;
    if size > 2147483647 {
        return Err(StreamFault::Length(at));
    }
    let left = elements(kind, size);
    open_node(alloc, w, due, start, kind, size as usize, left)
}

/// Whether a node goes where the kind is wanted.
fn belongs(forms: &Forms, nodes: &Vec<Node>, i: u32, wanted: Kind) -> bool
    ensures { result ≡ option_map_or (λ n. is_assignable forms.now n.kind wanted) (slice_get nodes.now.items i) false }
{
    match nodes.get(i as usize) {
        Some(node) => forms.program().is_assignable(node.kind, wanted),
        None => false,
    }
}

#[tactic(auto, unfolding(crate::specs::Reading::old_content_at, nr_base::specs::Reader::bind, nr_base::specs::Reader::pure, nr_base::specs::Reader::refuse, nr_base::specs::Reader::choose, nr_base::specs::Reader::from, nr_base::specs::Reader::with_fault))]
fn read_old<'f, 'p>(
    forms: &Forms,
    w: &mut Work<'f, 'p>,
    cur: &mut Cur,
    due: Due,
    start: u32,
) -> Result<(), StreamFault>
    requires { Fits w.old }
    ensures reads { (roots : List DueView) → GivesBy is_free (λ _. state_of w.new roots) result cur.new (old_content_at forms.now due start (state_of w.old roots) cur.old) }
    ensures fits { OnOk result (Fits w.new) }
    ensures few { OnOk result (length w.new.frames.items ≤ length w.old.frames.items + 1) }
{
    let i = read_object_handle(&w.handles, cur, start)?;
    if !belongs(forms, &w.nodes, i, due.kind) {
        return Err(StreamFault::SlotType(start));
    }
    keep(w, due, Slot::Node(i))
}

#[tactic(auto, unfolding(crate::specs::Reading::content_at, nr_base::specs::Reader::bind, nr_base::specs::Reader::pure, nr_base::specs::Reader::refuse, nr_base::specs::Reader::choose, nr_base::specs::Reader::from, nr_base::specs::Reader::with_fault))]
fn read_content<'f, 'p>(
    alloc: Global,
    forms: &'f Forms<'p>,
    w: &mut Work<'f, 'p>,
    cur: &mut Cur,
    due: Due,
) -> Result<(), StreamFault>
    requires { Fits w.old }
    ensures reads { (roots : List DueView) → GivesBy is_free (λ _. state_of w.new roots) result cur.new (content_at forms.now due (state_of w.old roots) cur.old) }
    ensures fits { OnOk result (Fits w.new) }
    ensures few { OnOk result (length w.new.frames.items ≤ length w.old.frames.items + 1) }
{
    let start = cur.at();
    match cur.u8()? {
        0x70 => keep(w, due, Slot::Null),
        0x71 => read_old(forms, w, cur, due, start),
        0x73 => read_object(alloc, forms, w, cur, due, start),
        0x75 => read_array(alloc, forms, w, cur, due, start),
        tag => Err(StreamFault::Tag(start, tag)),
    }
}

/// Reads what a slot holds.
#[tactic(auto, unfolding(crate::specs::Reading::slot_at, nr_base::specs::Reader::bind, nr_base::specs::Reader::pure, nr_base::specs::Reader::refuse, nr_base::specs::Reader::choose, nr_base::specs::Reader::from, nr_base::specs::Reader::with_fault))]
pub fn read_slot<'f, 'p>(
    alloc: Global,
    forms: &'f Forms<'p>,
    w: &mut Work<'f, 'p>,
    cur: &mut Cur,
    due: Due,
) -> Result<(), StreamFault>
    requires { Fits w.old }
    ensures reads { (roots : List DueView) → GivesBy is_free (λ _. state_of w.new roots) result cur.new (slot_at forms.now due (state_of w.old roots) cur.old) }
    ensures fits { OnOk result (Fits w.new) }
    ensures few { OnOk result (length w.new.frames.items ≤ length w.old.frames.items + 1) }
{
    if is_reference(due.kind) {
        return read_content(alloc, forms, w, cur, due);
    }
    let slot = read_number(cur, due.kind.base)?;
    keep(w, due, slot)
}
