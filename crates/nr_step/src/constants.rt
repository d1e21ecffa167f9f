//! Constants.

ghost use Rattle.std.specs.Prelude.{◌≡◌, ◌≤◌, ◌<◌, length, List};
ghost use Rattle.nr_prog.specs.declared.body.instruction.Args.TheVariants as args;
ghost use Rattle.nr_model.specs.declared.value.Value.{Value};
ghost use Rattle.nr_model.specs.Heaps.{Heap};
ghost use Rattle.nr_model.specs.Scripts.{PlainInt, PlainLong, PlainNull, Push};
ghost use Rattle.nr_model.specs.ValueRules.{small_constant};
ghost use Rattle.nr_step.specs.Windows.{Leads, window};

use crate::operands::push;
use nr_model::Value;

/// iconst_m1, iconst_0, iconst_1, iconst_2, iconst_3, iconst_4, iconst_5.
#[inline(always)]
pub fn small_int(code: u8, stack: &mut [Value], depth: &mut usize)
    requires code { code ≤ 8 }
    requires room { depth.old < length stack.old }
    ensures leads { (h : Heap) (ls : List Value)
        → Leads (small_constant code args.Empty) (window h ls stack.old depth.old) (window h ls stack.new depth.new) }
    ensures room { depth.new ≤ length stack.new }
    ensures length { length stack.new ≡ length stack.old }
{
    push(stack, depth, Value::Int(i32::from(code) - 3));
}

/// lconst_0, lconst_1.
#[inline(always)]
pub fn small_long(code: u8, stack: &mut [Value], depth: &mut usize)
    requires code { 9 ≤ code }
    requires room { depth.old < length stack.old }
    ensures leads { (h : Heap) (ls : List Value)
        → Leads (small_constant code args.Empty) (window h ls stack.old depth.old) (window h ls stack.new depth.new) }
    ensures room { depth.new ≤ length stack.new }
    ensures length { length stack.new ≡ length stack.old }
{
    push(stack, depth, Value::Long(i64::from(code - 9)));
}

/// bipush, sipush, ldc, ldc_w: a number that the instruction or the constant pool holds.
#[inline(always)]
pub fn int_constant(n: i32, stack: &mut [Value], depth: &mut usize)
    requires room { depth.old < length stack.old }
    ensures leads { (h : Heap) (ls : List Value)
        → Leads (Push (PlainInt n)) (window h ls stack.old depth.old) (window h ls stack.new depth.new) }
    ensures room { depth.new ≤ length stack.new }
    ensures length { length stack.new ≡ length stack.old }
{
    push(stack, depth, Value::Int(n));
}

/// ldc2_w.
#[inline(always)]
pub fn long_constant(n: i64, stack: &mut [Value], depth: &mut usize)
    requires room { depth.old < length stack.old }
    ensures leads { (h : Heap) (ls : List Value)
        → Leads (Push (PlainLong n)) (window h ls stack.old depth.old) (window h ls stack.new depth.new) }
    ensures room { depth.new ≤ length stack.new }
    ensures length { length stack.new ≡ length stack.old }
{
    push(stack, depth, Value::Long(n));
}

/// aconst_null.
#[inline(always)]
pub fn null(stack: &mut [Value], depth: &mut usize)
    requires room { depth.old < length stack.old }
    ensures leads { (h : Heap) (ls : List Value)
        → Leads (Push PlainNull) (window h ls stack.old depth.old) (window h ls stack.new depth.new) }
    ensures room { depth.new ≤ length stack.new }
    ensures length { length stack.new ≡ length stack.old }
{
    push(stack, depth, Value::Null);
}
