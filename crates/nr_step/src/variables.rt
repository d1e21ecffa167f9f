//! Local variables.

ghost use Rattle.std.specs.Prelude.{◌≡◌, ◌≤◌, ◌<◌, length, slice_get, IsSomeAnd, List, Some};
ghost use Rattle.std.specs.Int.{w32};
ghost use Rattle.nr_optable.specs.Arithmetic.{add};
ghost use Rattle.nr_optable.specs.declared.table.Letter.{Letter};
ghost use Rattle.nr_model.specs.declared.value.Value.{Value};
ghost use Rattle.nr_model.specs.declared.value.Value.TheVariants.{Int};
ghost use Rattle.nr_model.specs.Heaps.{Heap};
ghost use Rattle.nr_model.specs.Scripts.{OnInt};
ghost use Rattle.nr_model.specs.ValueRules.{increment, load, store};
ghost use Rattle.nr_step.specs.Windows.{CanBegin, Leads, view, window};

use crate::operands::{pop, push};
use nr_model::Value;

/// iload, lload, aload.
#[inline(always)]
pub fn load_variable(number: u16, locals: &[Value], stack: &mut [Value], depth: &mut usize)
    requires room { depth.old < length stack.old }
    requires can { (letter : Letter) × (h : Heap) × CanBegin (load letter number) (window h locals.now stack.old depth.old) }
    ensures leads { (letter : Letter) (h : Heap) → CanBegin (load letter number) (window h locals.now stack.old depth.old)
        → Leads (load letter number) (window h locals.now stack.old depth.old) (window h locals.now stack.new depth.new) }
    ensures room { depth.new ≤ length stack.new }
    ensures length { length stack.new ≡ length stack.old }
{
    push(stack, depth, locals[number as usize]);
}

/// istore, lstore, astore.
#[inline(always)]
pub fn store_variable(number: u16, locals: &mut [Value], stack: &[Value], depth: &mut usize)
    requires room { depth.old ≤ length stack.now }
    requires can { (letter : Letter) × (h : Heap) × CanBegin (store letter number) (window h locals.old stack.now depth.old) }
    ensures leads { (letter : Letter) (h : Heap) → CanBegin (store letter number) (window h locals.old stack.now depth.old)
        → Leads (store letter number) (window h locals.old stack.now depth.old) (window h locals.new stack.now depth.new) }
    ensures room { depth.new ≤ length stack.now }
    ensures length { length locals.new ≡ length locals.old }
{
    let value = pop(stack, depth);
    locals[number as usize] = value;
}

/// The sum of two ints, which wraps.
#[inline(always)]
#[tactic(auto, using(std::proofs::lemmas::Int::wraps))]
fn sum(x: i32, y: i32) -> i32
    ensures { result ≡ add w32 x y }
{
    x.wrapping_add(y)
}

/// A local variable, which is an int.
#[inline(always)]
fn int_variable(number: u16, locals: &[Value]) -> i32
    requires { IsSomeAnd (slice_get locals.now number) (λ v. OnInt v (λ n. Unit {0})) }
    ensures { slice_get locals.now number ≡ Some (Int result) }
{
    match locals[number as usize] {
        Value::Int(n) => n,
        _ => unreachable!(),
    }
}

/// iinc.
#[inline(always)]
pub fn increment_variable(number: u16, by: i16, locals: &mut [Value])
    requires can { (h : Heap) × (ops : List Value) × CanBegin (increment number by) (view h locals.old ops) }
    ensures leads { (h : Heap) (ops : List Value) → Leads (increment number by) (view h locals.old ops) (view h locals.new ops) }
    ensures length { length locals.new ≡ length locals.old }
{
    let n = int_variable(number, locals);
    let made = sum(n, i32::from(by));
    locals[number as usize] = Value::Int(made);
}
