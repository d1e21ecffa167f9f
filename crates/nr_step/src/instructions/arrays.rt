//! Instructions on arrays, with their whole rules.

ghost use Rattle.std.specs.Prelude.{◌≡◌, ◌≤◌, length, IsSome, IsSomeAnd, IsTrue};
ghost use Rattle.std.specs.FinMap.{get};
ghost use Rattle.nr_linked.specs.ArrayKinds.{elements_of};
ghost use Rattle.nr_step.specs.Instructions.{CanReach, IsRowOf, Reaches, is_array_load, is_int_store};
ghost use Rattle.nr_model.specs.Belonging.{IfName};
ghost use Rattle.nr_step.specs.Elements.{holds_ints, may_stand, place_of};

use crate::flow::{Flow, Told};
use crate::kept::narrow;
use crate::operands::{pop, pop_int, pop_long, push, reference_at, top_int};
use crate::throws::throw_object;
use nr_heap::Heap;
use nr_linked::{BuiltIn, Kind, Program};
use nr_model::{Ref, Value};
use nr_prog::Instr;

/// The place of an element, or `None` where an array of so many has none at the index.
#[inline(always)]
fn place_within(index: i32, len: u32) -> Option<u32>
    ensures { result ≡ place_of index len }
{
    if index < 0 {
        return None;
    }
    let place = index as u32;
    if place < len { Some(place) } else { None }
}

/// iaload, laload, aaload, baload, caload, saload.
#[inline(always)]
pub fn array_load(
    p: &Program,
    i: &Instr,
    code: u8,
    heap: &mut Heap,
    stack: &mut [Value],
    depth: &mut usize,
    told: &mut Told,
) -> Flow
    requires row { IsRowOf code i.now.row }
    requires code { IsTrue (is_array_load code) }
    requires elements { IsSome (elements_of code) }
    requires room { depth.old ≤ length stack.old }
    requires can { CanReach p.now i.now heap.old.objects stack.old depth.old }
    ensures went { Reaches result p.now i.now heap.old.objects stack.old depth.old told.new heap.new.objects stack.new depth.new }
    ensures room { depth.new ≤ length stack.new }
    ensures length { length stack.new ≡ length stack.old }
{
    let _ = code;
    let index = top_int(stack, *depth);
    let Some(name) = reference_at(1, stack, *depth) else {
        return throw_object(p, heap, BuiltIn::NullPointerException, told);
    };
    let len = heap.len_of(name).unwrap();
    let Some(place) = place_within(index, len) else {
        return throw_object(p, heap, BuiltIn::ArrayIndexOutOfBoundsException, told);
    };
    let value = heap.get_slot(name, place);
    let _ = pop(stack, depth);
    let _ = pop(stack, depth);
    push(stack, depth, value);
    Flow::Next
}

/// iastore, bastore, castore, sastore.
#[inline(always)]
pub fn int_array_store(
    p: &Program,
    i: &Instr,
    code: u8,
    heap: &mut Heap,
    stack: &[Value],
    depth: &mut usize,
    told: &mut Told,
) -> Flow
    requires row { IsRowOf code i.now.row }
    requires code { IsTrue (is_int_store code) }
    requires elements { IsSome (elements_of code) }
    requires ints { IsTrue (holds_ints code) }
    requires room { depth.old ≤ length stack.now }
    requires can { CanReach p.now i.now heap.old.objects stack.now depth.old }
    ensures went { Reaches result p.now i.now heap.old.objects stack.now depth.old told.new heap.new.objects stack.now depth.new }
    ensures room { depth.new ≤ length stack.now }
{
    let _ = code;
    let mut below = *depth;
    let value = pop_int(stack, &mut below);
    let index = pop_int(stack, &mut below);
    let Some(name) = reference_at(0, stack, below) else {
        return throw_object(p, heap, BuiltIn::NullPointerException, told);
    };
    let len = heap.len_of(name).unwrap();
    let Some(place) = place_within(index, len) else {
        return throw_object(p, heap, BuiltIn::ArrayIndexOutOfBoundsException, told);
    };
    let kept = narrow(heap.kind_of(name).base, value);
    heap.set_slot(name, place, Value::Int(kept));
    let _ = pop(stack, &mut below);
    *depth = below;
    Flow::Next
}

/// lastore.
#[inline(always)]
pub fn lastore(
    p: &Program,
    i: &Instr,
    heap: &mut Heap,
    stack: &[Value],
    depth: &mut usize,
    told: &mut Told,
) -> Flow
    requires row { IsRowOf 80 i.now.row }
    requires room { depth.old ≤ length stack.now }
    requires can { CanReach p.now i.now heap.old.objects stack.now depth.old }
    ensures went { Reaches result p.now i.now heap.old.objects stack.now depth.old told.new heap.new.objects stack.now depth.new }
    ensures room { depth.new ≤ length stack.now }
{
    let mut below = *depth;
    let value = pop_long(stack, &mut below);
    let index = pop_int(stack, &mut below);
    let Some(name) = reference_at(0, stack, below) else {
        return throw_object(p, heap, BuiltIn::NullPointerException, told);
    };
    let len = heap.len_of(name).unwrap();
    let Some(place) = place_within(index, len) else {
        return throw_object(p, heap, BuiltIn::ArrayIndexOutOfBoundsException, told);
    };
    heap.set_slot(name, place, Value::Long(value));
    let _ = pop(stack, &mut below);
    *depth = below;
    Flow::Next
}

/// Whether a reference may stand in an array with elements of the kind (JVM Specification 6.5,
/// aastore).
#[inline(always)]
fn may_stand(p: &Program, heap: &Heap, elem: Kind, reference: Option<Ref>) -> bool
    requires { IfName reference (λ a. IsSomeAnd (get heap.now.objects a) (λ o. Unit {0})) }
    ensures { result ≡ may_stand p.now heap.now.objects elem reference }
{
    match reference {
        None => true,
        Some(name) => p.is_sub(heap.kind_of(name), elem),
    }
}

/// aastore.
#[inline(always)]
pub fn aastore(
    p: &Program,
    i: &Instr,
    heap: &mut Heap,
    stack: &[Value],
    depth: &mut usize,
    told: &mut Told,
) -> Flow
    requires row { IsRowOf 83 i.now.row }
    requires room { depth.old ≤ length stack.now }
    requires can { CanReach p.now i.now heap.old.objects stack.now depth.old }
    ensures went { Reaches result p.now i.now heap.old.objects stack.now depth.old told.new heap.new.objects stack.now depth.new }
    ensures room { depth.new ≤ length stack.now }
{
    let mut below = *depth;
    let value = pop(stack, &mut below);
    let index = pop_int(stack, &mut below);
    let Some(name) = reference_at(0, stack, below) else {
        return throw_object(p, heap, BuiltIn::NullPointerException, told);
    };
    let len = heap.len_of(name).unwrap();
    let Some(place) = place_within(index, len) else {
        return throw_object(p, heap, BuiltIn::ArrayIndexOutOfBoundsException, told);
    };
    let kind = heap.kind_of(name);
    let elem = Kind {
        dims: kind.dims - 1,
        base: kind.base,
    };
    if !may_stand(p, heap, elem, reference_at(0, stack, *depth)) {
        return throw_object(p, heap, BuiltIn::ArrayStoreException, told);
    }
    heap.set_slot(name, place, value);
    let _ = pop(stack, &mut below);
    *depth = below;
    Flow::Next
}

/// arraylength.
#[inline(always)]
pub fn arraylength(
    p: &Program,
    i: &Instr,
    heap: &mut Heap,
    stack: &mut [Value],
    depth: &mut usize,
    told: &mut Told,
) -> Flow
    requires row { IsRowOf 190 i.now.row }
    requires room { depth.old ≤ length stack.old }
    requires can { CanReach p.now i.now heap.old.objects stack.old depth.old }
    ensures went { Reaches result p.now i.now heap.old.objects stack.old depth.old told.new heap.new.objects stack.new depth.new }
    ensures room { depth.new ≤ length stack.new }
    ensures length { length stack.new ≡ length stack.old }
{
    let Some(name) = reference_at(0, stack, *depth) else {
        return throw_object(p, heap, BuiltIn::NullPointerException, told);
    };
    let _ = heap.cells();
    let len = heap.len_of(name).unwrap();
    let length = len.cast_signed();
    let _ = pop(stack, depth);
    push(stack, depth, Value::Int(length));
    Flow::Next
}
