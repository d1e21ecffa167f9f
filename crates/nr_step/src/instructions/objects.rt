//! Instructions on objects, with their whole rules.

ghost use Rattle.std.specs.Prelude.{◌≡◌, ◌≤◌, ℕ, length, Option};
ghost use Rattle.nr_linked.specs.declared.program.tables.MethodInfo.{MethodInfo};
ghost use Rattle.nr_linked.specs.TypingFacts.{SiteFacts};
ghost use Rattle.nr_step.specs.declared.flow.Told.{Told};
ghost use Rattle.nr_step.specs.Instructions.{CanFind, CanReach, Finds, IsRowOf, Reaches, site_of};

use crate::flow::{Flow, Told};
use crate::operands::{pop, push, reference_at};
use crate::throws::throw_object;
use nr_heap::{Heap, HeapFault};
use nr_linked::{Base, BuiltIn, Program, Resolved};
use nr_model::Value;
use nr_prog::Instr;

/// getfield.
#[inline(always)]
pub fn getfield(
    p: &Program,
    i: &Instr,
    found: &Resolved,
    heap: &mut Heap,
    stack: &mut [Value],
    depth: &mut usize,
    told: &mut Told,
) -> Flow
    requires row { IsRowOf 180 i.now.row }
    requires room { depth.old ≤ length stack.old }
    requires can { CanFind p.now i.now found.now heap.old.objects stack.old depth.old }
    ensures went { Finds result p.now i.now found.now heap.old.objects stack.old depth.old told.new heap.new.objects stack.new depth.new }
    ensures room { depth.new ≤ length stack.new }
    ensures length { length stack.new ≡ length stack.old }
{
    let Resolved::Slot(_, slot) = found else {
        unreachable!()
    };
    let Some(name) = reference_at(0, stack, *depth) else {
        return throw_object(p, heap, BuiltIn::NullPointerException, told);
    };
    let value = heap.get_slot(name, *slot);
    let _ = pop(stack, depth);
    push(stack, depth, value);
    Flow::Next
}

/// checkcast.
#[inline(always)]
pub fn checkcast(
    p: &Program,
    i: &Instr,
    found: &Resolved,
    heap: &mut Heap,
    stack: &[Value],
    depth: usize,
    told: &mut Told,
) -> Flow
    requires row { IsRowOf 192 i.now.row }
    requires room { depth ≤ length stack.now }
    requires can { CanFind p.now i.now found.now heap.old.objects stack.now depth }
    ensures { Finds result p.now i.now found.now heap.old.objects stack.now depth told.new heap.new.objects stack.now depth }
{
    let Resolved::Kind(to) = found else {
        unreachable!()
    };
    let Some(name) = reference_at(0, stack, depth) else {
        return Flow::Next;
    };
    if p.is_sub(heap.kind_of(name), *to) {
        return Flow::Next;
    }
    throw_object(p, heap, BuiltIn::ClassCastException, told)
}

/// instanceof.
#[inline(always)]
pub fn instanceof(
    p: &Program,
    i: &Instr,
    found: &Resolved,
    heap: &Heap,
    stack: &mut [Value],
    depth: &mut usize,
) -> Flow
    requires row { IsRowOf 193 i.now.row }
    requires room { depth.old ≤ length stack.old }
    requires can { CanFind p.now i.now found.now heap.now.objects stack.old depth.old }
    ensures went { (told : Told) → Finds result p.now i.now found.now heap.now.objects stack.old depth.old told heap.now.objects stack.new depth.new }
    ensures room { depth.new ≤ length stack.new }
    ensures length { length stack.new ≡ length stack.old }
{
    let Resolved::Kind(to) = found else {
        unreachable!()
    };
    let Some(name) = reference_at(0, stack, *depth) else {
        let _ = pop(stack, depth);
        push(stack, depth, Value::Int(0));
        return Flow::Next;
    };
    let is = p.is_sub(heap.kind_of(name), *to);
    let _ = pop(stack, depth);
    if is {
        push(stack, depth, Value::Int(1));
        return Flow::Next;
    }
    push(stack, depth, Value::Int(0));
    Flow::Next
}

/// new.
#[inline(always)]
pub fn new(
    p: &Program,
    i: &Instr,
    found: &Resolved,
    heap: &mut Heap,
    stack: &mut [Value],
    depth: &mut usize,
    told: &mut Told,
) -> Flow
    requires row { IsRowOf 187 i.now.row }
    requires site { (own : MethodInfo) × (n : Option ℕ) × SiteFacts p.now own.«class» (site_of i.now found.now n) }
    requires room { depth.old ≤ length stack.old }
    requires can { CanFind p.now i.now found.now heap.old.objects stack.old depth.old }
    ensures went { Finds result p.now i.now found.now heap.old.objects stack.old depth.old told.new heap.new.objects stack.new depth.new }
    ensures room { depth.new ≤ length stack.new }
    ensures length { length stack.new ≡ length stack.old }
{
    let Resolved::Kind(kind) = found else {
        unreachable!()
    };
    let Base::Object(class) = kind.base else {
        unreachable!()
    };
    match heap.new_object(p, class) {
        Ok(name) => {
            push(stack, depth, Value::Ref(name));
            Flow::Next
        }
        Err(HeapFault::HeapFull(cells)) => {
            told.cells = cells;
            Flow::Full
        }
        Err(HeapFault::NoMemory) => Flow::NoMemory,
    }
}

/// athrow.
#[inline(always)]
pub fn athrow(
    p: &Program,
    i: &Instr,
    heap: &mut Heap,
    stack: &[Value],
    depth: usize,
    told: &mut Told,
) -> Flow
    requires row { IsRowOf 191 i.now.row }
    requires room { depth ≤ length stack.now }
    requires can { CanReach p.now i.now heap.old.objects stack.now depth }
    ensures { Reaches result p.now i.now heap.old.objects stack.now depth told.new heap.new.objects stack.now depth }
{
    let Some(name) = reference_at(0, stack, depth) else {
        return throw_object(p, heap, BuiltIn::NullPointerException, told);
    };
    told.number = name;
    Flow::Throw
}
