//! Arithmetic.

ghost use Rattle.std.specs.Prelude.{◌≡◌, ◌≤◌, length, IsSome, List, ℕ};
ghost use Rattle.nr_optable.specs.Operations.{int_operation, int_shift, long_operation, long_shift, int_narrowing};
ghost use Rattle.nr_model.specs.declared.value.Value.{Value};
ghost use Rattle.nr_model.specs.Heaps.{Heap};
ghost use Rattle.nr_model.specs.ValueRules.{comparison, conversion, negation, shift, two_operands};
ghost use Rattle.nr_step.specs.Windows.{CanBegin, Leads, window};

use crate::operands::{pop_int, pop_long, push};
use nr_model::Value;
use nr_optable::{
    int_arithmetic, int_narrowed, int_negation, int_shifted, int_to_long, long_arithmetic,
    long_comparison, long_negation, long_shifted, long_to_int,
};

/// iadd, isub, imul, iand, ior, ixor.
#[inline(always)]
pub fn two_ints(code: u8, stack: &mut [Value], depth: &mut usize)
    requires code { IsSome (int_operation code) }
    requires room { depth.old ≤ length stack.old }
    requires can { (h : Heap) × (ls : List Value) × CanBegin (two_operands code) (window h ls stack.old depth.old) }
    ensures leads { (h : Heap) (ls : List Value) → Leads (two_operands code) (window h ls stack.old depth.old) (window h ls stack.new depth.new) }
    ensures room { depth.new ≤ length stack.new }
    ensures length { length stack.new ≡ length stack.old }
{
    let y = pop_int(stack, depth);
    let x = pop_int(stack, depth);
    let made = int_arithmetic(code, x, y).unwrap();
    push(stack, depth, Value::Int(made));
}

/// ladd, lsub, lmul, land, lor, lxor.
#[inline(always)]
pub fn two_longs(code: u8, stack: &mut [Value], depth: &mut usize)
    requires code { IsSome (long_operation code) }
    requires room { depth.old ≤ length stack.old }
    requires can { (h : Heap) × (ls : List Value) × CanBegin (two_operands code) (window h ls stack.old depth.old) }
    ensures leads { (h : Heap) (ls : List Value) → Leads (two_operands code) (window h ls stack.old depth.old) (window h ls stack.new depth.new) }
    ensures room { depth.new ≤ length stack.new }
    ensures length { length stack.new ≡ length stack.old }
{
    let y = pop_long(stack, depth);
    let x = pop_long(stack, depth);
    let made = long_arithmetic(code, x, y).unwrap();
    push(stack, depth, Value::Long(made));
}

/// ineg.
#[inline(always)]
pub fn negated_int(stack: &mut [Value], depth: &mut usize)
    requires room { depth.old ≤ length stack.old }
    requires can { (h : Heap) × (ls : List Value) × CanBegin (negation 116) (window h ls stack.old depth.old) }
    ensures leads { (h : Heap) (ls : List Value) → Leads (negation 116) (window h ls stack.old depth.old) (window h ls stack.new depth.new) }
    ensures room { depth.new ≤ length stack.new }
    ensures length { length stack.new ≡ length stack.old }
{
    let x = pop_int(stack, depth);
    push(stack, depth, Value::Int(int_negation(x)));
}

/// lneg.
#[inline(always)]
pub fn negated_long(stack: &mut [Value], depth: &mut usize)
    requires room { depth.old ≤ length stack.old }
    requires can { (h : Heap) × (ls : List Value) × CanBegin (negation 117) (window h ls stack.old depth.old) }
    ensures leads { (h : Heap) (ls : List Value) → Leads (negation 117) (window h ls stack.old depth.old) (window h ls stack.new depth.new) }
    ensures room { depth.new ≤ length stack.new }
    ensures length { length stack.new ≡ length stack.old }
{
    let x = pop_long(stack, depth);
    push(stack, depth, Value::Long(long_negation(x)));
}

/// ishl, ishr, iushr.
#[inline(always)]
pub fn shifted_int(code: u8, stack: &mut [Value], depth: &mut usize)
    requires code { IsSome (int_shift code) }
    requires room { depth.old ≤ length stack.old }
    requires can { (h : Heap) × (ls : List Value) × CanBegin (shift code) (window h ls stack.old depth.old) }
    ensures leads { (h : Heap) (ls : List Value) → Leads (shift code) (window h ls stack.old depth.old) (window h ls stack.new depth.new) }
    ensures room { depth.new ≤ length stack.new }
    ensures length { length stack.new ≡ length stack.old }
{
    let count = pop_int(stack, depth);
    let x = pop_int(stack, depth);
    let made = int_shifted(code, x, count).unwrap();
    push(stack, depth, Value::Int(made));
}

/// lshl, lshr, lushr.
#[inline(always)]
pub fn shifted_long(code: u8, stack: &mut [Value], depth: &mut usize)
    requires code { IsSome (long_shift code) }
    requires room { depth.old ≤ length stack.old }
    requires can { (h : Heap) × (ls : List Value) × CanBegin (shift code) (window h ls stack.old depth.old) }
    ensures leads { (h : Heap) (ls : List Value) → Leads (shift code) (window h ls stack.old depth.old) (window h ls stack.new depth.new) }
    ensures room { depth.new ≤ length stack.new }
    ensures length { length stack.new ≡ length stack.old }
{
    let count = pop_int(stack, depth);
    let x = pop_long(stack, depth);
    let made = long_shifted(code, x, count).unwrap();
    push(stack, depth, Value::Long(made));
}

/// i2l.
#[inline(always)]
pub fn int_as_long(stack: &mut [Value], depth: &mut usize)
    requires room { depth.old ≤ length stack.old }
    requires can { (h : Heap) × (ls : List Value) × CanBegin (conversion 133) (window h ls stack.old depth.old) }
    ensures leads { (h : Heap) (ls : List Value) → Leads (conversion 133) (window h ls stack.old depth.old) (window h ls stack.new depth.new) }
    ensures room { depth.new ≤ length stack.new }
    ensures length { length stack.new ≡ length stack.old }
{
    let x = pop_int(stack, depth);
    push(stack, depth, Value::Long(int_to_long(x)));
}

/// l2i.
#[inline(always)]
pub fn long_as_int(stack: &mut [Value], depth: &mut usize)
    requires room { depth.old ≤ length stack.old }
    requires can { (h : Heap) × (ls : List Value) × CanBegin (conversion 136) (window h ls stack.old depth.old) }
    ensures leads { (h : Heap) (ls : List Value) → Leads (conversion 136) (window h ls stack.old depth.old) (window h ls stack.new depth.new) }
    ensures room { depth.new ≤ length stack.new }
    ensures length { length stack.new ≡ length stack.old }
{
    let x = pop_long(stack, depth);
    push(stack, depth, Value::Int(long_to_int(x)));
}

/// i2b, i2c, i2s.
#[inline(always)]
pub fn narrowed_int(code: u8, stack: &mut [Value], depth: &mut usize)
    requires code { IsSome (int_narrowing code) }
    requires room { depth.old ≤ length stack.old }
    requires can { (h : Heap) × (ls : List Value) × CanBegin (conversion code) (window h ls stack.old depth.old) }
    ensures leads { (h : Heap) (ls : List Value) → Leads (conversion code) (window h ls stack.old depth.old) (window h ls stack.new depth.new) }
    ensures room { depth.new ≤ length stack.new }
    ensures length { length stack.new ≡ length stack.old }
{
    let x = pop_int(stack, depth);
    let made = int_narrowed(code, x).unwrap();
    push(stack, depth, Value::Int(made));
}

/// lcmp.
#[inline(always)]
pub fn compared_longs(stack: &mut [Value], depth: &mut usize)
    requires room { depth.old ≤ length stack.old }
    requires can { (h : Heap) × (ls : List Value) × CanBegin comparison (window h ls stack.old depth.old) }
    ensures leads { (h : Heap) (ls : List Value) → Leads comparison (window h ls stack.old depth.old) (window h ls stack.new depth.new) }
    ensures room { depth.new ≤ length stack.new }
    ensures length { length stack.new ≡ length stack.old }
{
    let y = pop_long(stack, depth);
    let x = pop_long(stack, depth);
    push(stack, depth, Value::Int(long_comparison(x, y)));
}
