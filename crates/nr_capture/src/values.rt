//! What the slots of an object hold, in the order of a stream.

ghost use Rattle.std.specs.Prelude.{◌≡◌, ℕ, length, map, Some, IfOk, IsSomeAnd};
ghost use Rattle.std.specs.FinMap.{get};
ghost use Rattle.nr_linked.specs.Kinds.{class_kind};
ghost use Rattle.nr_linked.specs.Linked.{Linked};
ghost use Rattle.nr_model.specs.TypedHeaps.{TypedHeap};
ghost use Rattle.nr_graph.specs.StreamOrder.{stream_slots};
ghost use Rattle.nr_capture.specs.Drawing.{IsRead};
ghost use Rattle.nr_serform.specs.StreamSlots.{placed_of};
ghost use Rattle.nr_capture.specs.Roots.{IsIn, slots_at};
ghost use Rattle.nr_capture.specs.Reading.{AreAt, AreWithin};

use nr_heap::Heap;
use nr_linked::{Base, Kind, Program};
use nr_model::{Ref, Value};
use nr_serform::{Forms, StreamSlot};
use std::alloc::{AllocError, Global};

fn elements(alloc: Global, heap: &Heap, array: Ref, len: u32) -> Result<Vec<Value>, AllocError>
    requires { IsSomeAnd (get heap.now.objects array) (λ o. length o.slots ≡ len) }
    ensures { IfOk result (λ values. values.items ≡ slots_at heap.now.objects array) }
{
    let mut values = Vec::new(alloc);
    for slot in 0..len {
        values.push(heap.get_slot(array, slot))?;
    }
    Ok(values)
}

fn fields(
    alloc: Global,
    heap: &Heap,
    object: Ref,
    slots: &[StreamSlot],
) -> Result<Vec<Value>, AllocError>
    requires inside { IsIn heap.now.objects object }
    requires within { AreWithin (slots_at heap.now.objects object) slots.now }
    ensures { IfOk result (λ values. AreAt (slots_at heap.now.objects object) slots.now values.items) }
{
    let mut values = Vec::new(alloc);
    for slot in slots {
        let place = slot.place;
        values.push(heap.get_slot(object, place))?;
    }
    Ok(values)
}

/// What the slots of an object or an array hold, in the order of a stream.
pub fn values_of(
    alloc: Global,
    forms: &Forms,
    heap: &Heap,
    name: Ref,
) -> Result<Vec<Value>, AllocError>
    requires typed { TypedHeap forms.now heap.now.objects }
    requires inside { IsIn heap.now.objects name }
    ensures { IfOk result (λ values. IsSomeAnd (get heap.now.objects name)
        (λ o. IsRead forms.now o values.items)) }
{
    // a linked program's streams have each slot once
    let _ = program_of(forms);
    match heap.len_of(name) {
        Some(len) => elements(alloc, heap, name, len),
        None => fields(alloc, heap, name, slots_of(forms, heap.kind_of(name))),
    }
}

/// The program, which is linked.
pub fn program_of<'p>(forms: &Forms<'p>) -> &'p Program
    ensures program { result.now ≡ forms.now }
    ensures linked { Linked forms.now }
{
    let program = forms.program();
    let _ = program.tables();
    program
}

/// The slots of a kind's objects in the order of a stream, and none of a primitive type.
fn slots_of<'f, 'p>(forms: &'f Forms<'p>, kind: Kind) -> &'f [StreamSlot<'p>]
    ensures { (c : ℕ) → kind ≡ class_kind c → map placed_of result.now ≡ stream_slots forms.now c }
{
    match kind.base {
        Base::Object(class) => forms.slots(class),
        _ => &[],
    }
}
