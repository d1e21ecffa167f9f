//! Instructions that make arrays of one dimension, with their whole rules.

ghost use Rattle.std.specs.Prelude.{◌≡◌, ◌≤◌, ℕ, length, List, Option};
ghost use Rattle.nr_linked.specs.declared.program.tables.MethodInfo.{MethodInfo};
ghost use Rattle.nr_linked.specs.declared.program.tables.Resolved.{Resolved};
ghost use Rattle.nr_linked.specs.ArrayKinds.{primitive_of};
ghost use Rattle.nr_linked.specs.TypingFacts.{SiteFacts};
ghost use Rattle.nr_model.specs.declared.value.Value.{Value};
ghost use Rattle.nr_model.specs.ArrayRules.{new_array};
ghost use Rattle.nr_model.specs.Throws.{onward};
ghost use Rattle.nr_step.specs.Elements.{count_of};
ghost use Rattle.nr_step.specs.Flows.{Doing, Went};
ghost use Rattle.nr_step.specs.Instructions.{CanFind, CanReach, Finds, IsRowOf, Reaches, site_of};
ghost use Rattle.nr_step.specs.Windows.{CanBegin, window};

use crate::flow::{Flow, Told};
use crate::operands::{pop_int, push};
use crate::throws::throw_object;
use nr_heap::{Heap, HeapFault};
use nr_linked::{Base, BuiltIn, Kind, Program, Resolved};
use nr_model::Value;
use nr_prog::{Args, Instr};

/// How many elements a new array has, or `None` where the count is negative.
#[inline(always)]
fn length_for(count: i32) -> Option<u32>
    ensures { result ≡ count_of count }
{
    if count < 0 {
        return None;
    }
    Some(count as u32)
}

/// Makes an array of as many elements of a kind as the topmost operand says.
#[inline(always)]
fn make_array(
    p: &Program,
    elem: Kind,
    heap: &mut Heap,
    stack: &mut [Value],
    depth: &mut usize,
    told: &mut Told,
) -> Flow
    requires dims { elem.dims ≤ 254 }
    requires room { depth.old ≤ length stack.old }
    requires can { (ls : List Value) × CanBegin (new_array p.now elem) (window heap.old.objects ls stack.old depth.old) }
    ensures went { (ls : List Value) (S : Doing) → ((n : Option ℕ) → S n ≡ new_array p.now elem (onward n))
        → Went result p.now S (window heap.old.objects ls stack.old depth.old) told.new (window heap.new.objects ls stack.new depth.new) }
    ensures room { depth.new ≤ length stack.new }
    ensures length { length stack.new ≡ length stack.old }
{
    let mut below = *depth;
    let count = pop_int(stack, &mut below);
    let Some(len) = length_for(count) else {
        return throw_object(p, heap, BuiltIn::NegativeArraySizeException, told);
    };
    match heap.new_array(elem, len) {
        Ok(name) => {
            push(stack, &mut below, Value::Ref(name));
            *depth = below;
            Flow::Next
        }
        Err(HeapFault::HeapFull(cells)) => {
            told.cells = cells;
            Flow::Full
        }
        Err(HeapFault::NoMemory) => Flow::NoMemory,
    }
}

/// The primitive type of a code (JVM Specification 6.5, table 6.5.newarray-A).
#[inline(always)]
fn primitive_of(code: u8) -> Option<Base>
    ensures { result ≡ primitive_of code }
{
    match code {
        4 => Some(Base::Bool),
        5 => Some(Base::Char),
        8 => Some(Base::Byte),
        9 => Some(Base::Short),
        10 => Some(Base::Int),
        11 => Some(Base::Long),
        _ => None,
    }
}

/// newarray.
#[inline(always)]
pub fn newarray(
    p: &Program,
    i: &Instr,
    heap: &mut Heap,
    stack: &mut [Value],
    depth: &mut usize,
    told: &mut Told,
) -> Flow
    requires row { IsRowOf 188 i.now.row }
    requires site { (own : MethodInfo) × (found : Resolved) × (n : Option ℕ) × SiteFacts p.now own.«class» (site_of i.now found n) }
    requires room { depth.old ≤ length stack.old }
    requires can { CanReach p.now i.now heap.old.objects stack.old depth.old }
    ensures went { Reaches result p.now i.now heap.old.objects stack.old depth.old told.new heap.new.objects stack.new depth.new }
    ensures room { depth.new ≤ length stack.new }
    ensures length { length stack.new ≡ length stack.old }
{
    let Args::Prim(code) = &i.args else {
        unreachable!()
    };
    let Some(base) = primitive_of(*code) else {
        unreachable!()
    };
    make_array(p, Kind { dims: 0, base }, heap, stack, depth, told)
}

/// anewarray.
#[inline(always)]
pub fn anewarray(
    p: &Program,
    i: &Instr,
    found: &Resolved,
    heap: &mut Heap,
    stack: &mut [Value],
    depth: &mut usize,
    told: &mut Told,
) -> Flow
    requires row { IsRowOf 189 i.now.row }
    requires site { (own : MethodInfo) × (n : Option ℕ) × SiteFacts p.now own.«class» (site_of i.now found.now n) }
    requires room { depth.old ≤ length stack.old }
    requires can { CanFind p.now i.now found.now heap.old.objects stack.old depth.old }
    ensures went { Finds result p.now i.now found.now heap.old.objects stack.old depth.old told.new heap.new.objects stack.new depth.new }
    ensures room { depth.new ≤ length stack.new }
    ensures length { length stack.new ≡ length stack.old }
{
    let Resolved::Kind(elem) = found else {
        unreachable!()
    };
    make_array(p, *elem, heap, stack, depth, told)
}
