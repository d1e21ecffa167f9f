//! The instructions that move operands. A long is one operand, and fills the place of two others.

ghost use Rattle.std.specs.Prelude.{◌≡◌, ◌≤◌, ◌<◌, ◌+◌, length, List, slice_get, IsSomeAnd, if◌then◌else◌};
ghost use Rattle.nr_model.specs.declared.value.Value.{Value};
ghost use Rattle.nr_model.specs.Heaps.{Heap};
ghost use Rattle.nr_model.specs.Scripts.{is_long};
ghost use Rattle.nr_model.specs.ValueRules.{by_size, copy_below, drop_top, dup, dup2, dup2_x1, dup2_x2, dup_x1, dup_x2, single, swap};
ghost use Rattle.nr_step.specs.Windows.{CanBegin, Leads, top_first, window};

mod copies;

use copies::{
    copy_one, copy_one_below_one, copy_one_below_two, copy_two, copy_two_below_one,
    copy_two_below_two, exchange, is_long_at, take_one, take_two,
};
use nr_model::Value;

/// pop.
#[inline(always)]
pub fn drop_one(stack: &[Value], depth: &mut usize)
    requires room { depth.old ≤ length stack.now }
    requires can { (h : Heap) × (ls : List Value) × CanBegin (drop_top 87) (window h ls stack.now depth.old) }
    ensures leads { (h : Heap) (ls : List Value) → Leads (drop_top 87) (window h ls stack.now depth.old) (window h ls stack.now depth.new) }
    ensures room { depth.new ≤ length stack.now }
{
    take_one(stack, depth);
}

/// pop2.
#[inline(always)]
pub fn drop_two(stack: &[Value], depth: &mut usize)
    requires room { depth.old ≤ length stack.now }
    requires can { (h : Heap) × (ls : List Value) × CanBegin (drop_top 88) (window h ls stack.now depth.old) }
    ensures leads { (h : Heap) (ls : List Value) → Leads (drop_top 88) (window h ls stack.now depth.old) (window h ls stack.now depth.new) }
    ensures room { depth.new ≤ length stack.now }
{
    if is_long_at(0, stack, *depth) {
        take_one(stack, depth);
    } else {
        take_two(stack, depth);
    }
}

/// dup.
#[inline(always)]
pub fn copy_top(stack: &mut [Value], depth: &mut usize)
    requires room { depth.old < length stack.old }
    requires can { (h : Heap) × (ls : List Value) × CanBegin dup (window h ls stack.old depth.old) }
    ensures leads { (h : Heap) (ls : List Value) → Leads dup (window h ls stack.old depth.old) (window h ls stack.new depth.new) }
    ensures room { depth.new ≤ length stack.new }
    ensures length { length stack.new ≡ length stack.old }
{
    copy_one(stack, depth);
}

/// dup_x1.
#[inline(always)]
pub fn copy_top_below_one(stack: &mut [Value], depth: &mut usize)
    requires room { depth.old < length stack.old }
    requires can { (h : Heap) × (ls : List Value) × CanBegin dup_x1 (window h ls stack.old depth.old) }
    ensures leads { (h : Heap) (ls : List Value) → Leads dup_x1 (window h ls stack.old depth.old) (window h ls stack.new depth.new) }
    ensures room { depth.new ≤ length stack.new }
    ensures length { length stack.new ≡ length stack.old }
{
    copy_one_below_one(stack, depth);
}

/// The top below a long, or below two others.
#[inline(always)]
fn copy_one_below_sized(stack: &mut [Value], depth: &mut usize)
    requires depth { depth.old ≤ length stack.old }
    requires room { depth.old + 1 ≤ length stack.old }
    requires can { (h : Heap) × (ls : List Value) × CanBegin (λ k. by_size 1 (copy_below 1 1 k) (single 2 (copy_below 1 2 k))) (window h ls stack.old depth.old) }
    ensures leads { (h : Heap) (ls : List Value) → Leads (λ k. by_size 1 (copy_below 1 1 k) (single 2 (copy_below 1 2 k))) (window h ls stack.old depth.old) (window h ls stack.new depth.new) }
    ensures room { depth.new ≤ length stack.new }
    ensures length { length stack.new ≡ length stack.old }
{
    if is_long_at(1, stack, *depth) {
        copy_one_below_one(stack, depth);
    } else {
        copy_one_below_two(stack, depth);
    }
}

/// The two on top below a long, or below two others.
#[inline(always)]
fn copy_two_below_sized(stack: &mut [Value], depth: &mut usize)
    requires depth { depth.old ≤ length stack.old }
    requires room { depth.old + 2 ≤ length stack.old }
    requires can { (h : Heap) × (ls : List Value) × CanBegin (λ k. by_size 2 (copy_below 2 1 k) (single 3 (copy_below 2 2 k))) (window h ls stack.old depth.old) }
    ensures leads { (h : Heap) (ls : List Value) → Leads (λ k. by_size 2 (copy_below 2 1 k) (single 3 (copy_below 2 2 k))) (window h ls stack.old depth.old) (window h ls stack.new depth.new) }
    ensures room { depth.new ≤ length stack.new }
    ensures length { length stack.new ≡ length stack.old }
{
    if is_long_at(2, stack, *depth) {
        copy_two_below_one(stack, depth);
    } else {
        copy_two_below_two(stack, depth);
    }
}

/// dup_x2.
#[inline(always)]
pub fn copy_top_below_two(stack: &mut [Value], depth: &mut usize)
    requires room { depth.old < length stack.old }
    requires can { (h : Heap) × (ls : List Value) × CanBegin dup_x2 (window h ls stack.old depth.old) }
    ensures leads { (h : Heap) (ls : List Value) → Leads dup_x2 (window h ls stack.old depth.old) (window h ls stack.new depth.new) }
    ensures room { depth.new ≤ length stack.new }
    ensures length { length stack.new ≡ length stack.old }
{
    copy_one_below_sized(stack, depth);
}

/// dup2.
#[inline(always)]
pub fn copy_top_two(stack: &mut [Value], depth: &mut usize)
    requires depth { depth.old ≤ length stack.old }
    requires room { IsSomeAnd (slice_get (top_first stack.old depth.old) 0) (λ v. depth.old + (if is_long v then 1 else 2) ≤ length stack.old) }
    requires can { (h : Heap) × (ls : List Value) × CanBegin dup2 (window h ls stack.old depth.old) }
    ensures leads { (h : Heap) (ls : List Value) → Leads dup2 (window h ls stack.old depth.old) (window h ls stack.new depth.new) }
    ensures room { depth.new ≤ length stack.new }
    ensures length { length stack.new ≡ length stack.old }
{
    if is_long_at(0, stack, *depth) {
        copy_one(stack, depth);
    } else {
        copy_two(stack, depth);
    }
}

/// dup2_x1.
#[inline(always)]
pub fn copy_top_two_below_one(stack: &mut [Value], depth: &mut usize)
    requires depth { depth.old ≤ length stack.old }
    requires room { IsSomeAnd (slice_get (top_first stack.old depth.old) 0) (λ v. depth.old + (if is_long v then 1 else 2) ≤ length stack.old) }
    requires can { (h : Heap) × (ls : List Value) × CanBegin dup2_x1 (window h ls stack.old depth.old) }
    ensures leads { (h : Heap) (ls : List Value) → Leads dup2_x1 (window h ls stack.old depth.old) (window h ls stack.new depth.new) }
    ensures room { depth.new ≤ length stack.new }
    ensures length { length stack.new ≡ length stack.old }
{
    if is_long_at(0, stack, *depth) {
        copy_one_below_one(stack, depth);
    } else {
        copy_two_below_one(stack, depth);
    }
}

/// dup2_x2.
#[inline(always)]
pub fn copy_top_two_below_two(stack: &mut [Value], depth: &mut usize)
    requires depth { depth.old ≤ length stack.old }
    requires room { IsSomeAnd (slice_get (top_first stack.old depth.old) 0) (λ v. depth.old + (if is_long v then 1 else 2) ≤ length stack.old) }
    requires can { (h : Heap) × (ls : List Value) × CanBegin dup2_x2 (window h ls stack.old depth.old) }
    ensures leads { (h : Heap) (ls : List Value) → Leads dup2_x2 (window h ls stack.old depth.old) (window h ls stack.new depth.new) }
    ensures room { depth.new ≤ length stack.new }
    ensures length { length stack.new ≡ length stack.old }
{
    if is_long_at(0, stack, *depth) {
        copy_one_below_sized(stack, depth);
    } else {
        copy_two_below_sized(stack, depth);
    }
}

/// swap.
#[inline(always)]
pub fn swap_two(stack: &mut [Value], depth: &mut usize)
    requires room { depth.old ≤ length stack.old }
    requires can { (h : Heap) × (ls : List Value) × CanBegin swap (window h ls stack.old depth.old) }
    ensures leads { (h : Heap) (ls : List Value) → Leads swap (window h ls stack.old depth.old) (window h ls stack.new depth.new) }
    ensures room { depth.new ≤ length stack.new }
    ensures length { length stack.new ≡ length stack.old }
{
    exchange(stack, depth);
}
