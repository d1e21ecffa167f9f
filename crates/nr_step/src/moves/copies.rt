//! Copies and drops of operands, whatever they are.

ghost use Rattle.std.specs.Prelude.{◌≡◌, ◌≤◌, ◌<◌, ◌+◌, length, List, slice_get, IsSomeAnd};
ghost use Rattle.nr_model.specs.declared.value.Value.{Value};
ghost use Rattle.nr_model.specs.Heaps.{Heap};
ghost use Rattle.nr_model.specs.Scripts.{is_long as is_long_value, Drop, Pick};
ghost use Rattle.nr_model.specs.ValueRules.{again, copy_below, forget};
ghost use Rattle.nr_step.specs.Windows.{Leads, top_first, window};

use crate::operands::{operand_at, pop, push};
use nr_model::Value;

/// Whether a value is a long.
#[inline(always)]
fn is_long(value: Value) -> bool
    ensures { result ≡ is_long_value value }
{
    match value {
        Value::Long(_) => true,
        Value::Int(_) | Value::Null | Value::Ref(_) => false,
    }
}

/// Whether the operand at a depth, counted from the top, is a long.
#[inline(always)]
pub(crate) fn is_long_at(at: usize, stack: &[Value], depth: usize) -> bool
    requires room { depth ≤ length stack.now }
    requires some { at < depth }
    ensures { IsSomeAnd (slice_get (top_first stack.now depth) at) (λ v. is_long_value v ≡ result) }
{
    is_long(operand_at(at, stack, depth))
}

/// a to a a.
#[inline(always)]
pub(crate) fn copy_one(stack: &mut [Value], depth: &mut usize)
    requires room { depth.old < length stack.old }
    requires some { 1 ≤ depth.old }
    ensures leads { (h : Heap) (ls : List Value) → Leads (Pick 0) (window h ls stack.old depth.old) (window h ls stack.new depth.new) }
    ensures room { depth.new ≤ length stack.new }
    ensures length { length stack.new ≡ length stack.old }
{
    let a = pop(stack, depth);
    push(stack, depth, a);
    push(stack, depth, a);
}

/// b a to b a b a.
#[inline(always)]
pub(crate) fn copy_two(stack: &mut [Value], depth: &mut usize)
    requires room { depth.old + 2 ≤ length stack.old }
    requires some { 2 ≤ depth.old }
    ensures leads { (h : Heap) (ls : List Value) → Leads (again 2) (window h ls stack.old depth.old) (window h ls stack.new depth.new) }
    ensures room { depth.new ≤ length stack.new }
    ensures length { length stack.new ≡ length stack.old }
{
    let a = pop(stack, depth);
    let b = pop(stack, depth);
    push(stack, depth, b);
    push(stack, depth, a);
    push(stack, depth, b);
    push(stack, depth, a);
}

/// b a to a b a.
#[inline(always)]
pub(crate) fn copy_one_below_one(stack: &mut [Value], depth: &mut usize)
    requires room { depth.old < length stack.old }
    requires some { 2 ≤ depth.old }
    ensures leads { (h : Heap) (ls : List Value) → Leads (copy_below 1 1) (window h ls stack.old depth.old) (window h ls stack.new depth.new) }
    ensures room { depth.new ≤ length stack.new }
    ensures length { length stack.new ≡ length stack.old }
{
    let a = pop(stack, depth);
    let b = pop(stack, depth);
    push(stack, depth, a);
    push(stack, depth, b);
    push(stack, depth, a);
}

/// c b a to a c b a.
#[inline(always)]
pub(crate) fn copy_one_below_two(stack: &mut [Value], depth: &mut usize)
    requires room { depth.old < length stack.old }
    requires some { 3 ≤ depth.old }
    ensures leads { (h : Heap) (ls : List Value) → Leads (copy_below 1 2) (window h ls stack.old depth.old) (window h ls stack.new depth.new) }
    ensures room { depth.new ≤ length stack.new }
    ensures length { length stack.new ≡ length stack.old }
{
    let a = pop(stack, depth);
    let b = pop(stack, depth);
    let c = pop(stack, depth);
    push(stack, depth, a);
    push(stack, depth, c);
    push(stack, depth, b);
    push(stack, depth, a);
}

/// c b a to b a c b a.
#[inline(always)]
pub(crate) fn copy_two_below_one(stack: &mut [Value], depth: &mut usize)
    requires room { depth.old + 2 ≤ length stack.old }
    requires some { 3 ≤ depth.old }
    ensures leads { (h : Heap) (ls : List Value) → Leads (copy_below 2 1) (window h ls stack.old depth.old) (window h ls stack.new depth.new) }
    ensures room { depth.new ≤ length stack.new }
    ensures length { length stack.new ≡ length stack.old }
{
    let a = pop(stack, depth);
    let b = pop(stack, depth);
    let c = pop(stack, depth);
    push(stack, depth, b);
    push(stack, depth, a);
    push(stack, depth, c);
    push(stack, depth, b);
    push(stack, depth, a);
}

/// d c b a to b a d c b a.
#[inline(always)]
pub(crate) fn copy_two_below_two(stack: &mut [Value], depth: &mut usize)
    requires room { depth.old + 2 ≤ length stack.old }
    requires some { 4 ≤ depth.old }
    ensures leads { (h : Heap) (ls : List Value) → Leads (copy_below 2 2) (window h ls stack.old depth.old) (window h ls stack.new depth.new) }
    ensures room { depth.new ≤ length stack.new }
    ensures length { length stack.new ≡ length stack.old }
{
    let a = pop(stack, depth);
    let b = pop(stack, depth);
    let c = pop(stack, depth);
    let d = pop(stack, depth);
    push(stack, depth, b);
    push(stack, depth, a);
    push(stack, depth, d);
    push(stack, depth, c);
    push(stack, depth, b);
    push(stack, depth, a);
}

/// b a to a b.
#[inline(always)]
pub(crate) fn exchange(stack: &mut [Value], depth: &mut usize)
    requires room { depth.old ≤ length stack.old }
    requires some { 2 ≤ depth.old }
    ensures leads { (h : Heap) (ls : List Value) → Leads (λ k. Pick 1 (Drop 2 k)) (window h ls stack.old depth.old) (window h ls stack.new depth.new) }
    ensures room { depth.new ≤ length stack.new }
    ensures length { length stack.new ≡ length stack.old }
{
    let a = pop(stack, depth);
    let b = pop(stack, depth);
    push(stack, depth, a);
    push(stack, depth, b);
}

/// a to nothing.
#[inline(always)]
pub(crate) fn take_one(stack: &[Value], depth: &mut usize)
    requires room { depth.old ≤ length stack.now }
    requires some { 1 ≤ depth.old }
    ensures leads { (h : Heap) (ls : List Value) → Leads (Drop 0) (window h ls stack.now depth.old) (window h ls stack.now depth.new) }
    ensures room { depth.new ≤ length stack.now }
{
    let _ = pop(stack, depth);
}

/// b a to nothing.
#[inline(always)]
pub(crate) fn take_two(stack: &[Value], depth: &mut usize)
    requires room { depth.old ≤ length stack.now }
    requires some { 2 ≤ depth.old }
    ensures leads { (h : Heap) (ls : List Value) → Leads (forget 0 2) (window h ls stack.now depth.old) (window h ls stack.now depth.new) }
    ensures room { depth.new ≤ length stack.now }
{
    let _ = pop(stack, depth);
    let _ = pop(stack, depth);
}
