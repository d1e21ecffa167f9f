//! The operand stack of a frame.

ghost use Rattle.std.specs.Prelude.{◌≡◌, ◌∷◌, ◌<◌, ◌≤◌, ◌+◌, length, slice_get, Some};
ghost use Rattle.nr_model.specs.declared.value.Value.TheVariants.{Int, Long};
ghost use Rattle.nr_model.specs.Scripts.{OnTop};
ghost use Rattle.nr_step.specs.Windows.{IntOnTop, LongOnTop, ReferenceAt, ReferenceOnTop, reference_to, top_first};

use nr_model::{Ref, Value};

/// Takes the topmost operand.
#[inline(always)]
pub fn pop(stack: &[Value], depth: &mut usize) -> Value
    requires room { depth.old ≤ length stack.now }
    requires some { 0 < depth.old }
    ensures popped { top_first stack.now depth.old ≡ result ∷ top_first stack.now depth.new }
    ensures depth { depth.old ≡ depth.new + 1 }
{
    *depth -= 1;
    stack[*depth]
}

/// Puts an operand on top.
#[inline(always)]
#[tactic(auto, using(crate::proofs::Stacks::top_first_set))]
pub fn push(stack: &mut [Value], depth: &mut usize, value: Value)
    requires room { depth.old < length stack.old }
    ensures pushed { top_first stack.new depth.new ≡ value ∷ top_first stack.old depth.old }
    ensures depth { depth.new ≡ depth.old + 1 }
    ensures length { length stack.new ≡ length stack.old }
{
    stack[*depth] = value;
    *depth += 1;
}

/// Takes the topmost operand, which is an int.
#[inline(always)]
pub fn pop_int(stack: &[Value], depth: &mut usize) -> i32
    requires room { depth.old ≤ length stack.now }
    requires some { IntOnTop (top_first stack.now depth.old) }
    ensures popped { top_first stack.now depth.old ≡ Int result ∷ top_first stack.now depth.new }
    ensures depth { depth.old ≡ depth.new + 1 }
{
    match pop(stack, depth) {
        Value::Int(n) => n,
        _ => unreachable!(),
    }
}

/// Takes the topmost operand, which is a long.
#[inline(always)]
pub fn pop_long(stack: &[Value], depth: &mut usize) -> i64
    requires room { depth.old ≤ length stack.now }
    requires some { LongOnTop (top_first stack.now depth.old) }
    ensures popped { top_first stack.now depth.old ≡ Long result ∷ top_first stack.now depth.new }
    ensures depth { depth.old ≡ depth.new + 1 }
{
    match pop(stack, depth) {
        Value::Long(n) => n,
        _ => unreachable!(),
    }
}

/// Takes the topmost operand, which is a reference: the name, or `None` for null.
#[inline(always)]
pub fn pop_reference(stack: &[Value], depth: &mut usize) -> Option<Ref>
    requires room { depth.old ≤ length stack.now }
    requires some { ReferenceOnTop (top_first stack.now depth.old) }
    ensures popped { top_first stack.now depth.old ≡ reference_to result ∷ top_first stack.now depth.new }
    ensures depth { depth.old ≡ depth.new + 1 }
{
    match pop(stack, depth) {
        Value::Null => None,
        Value::Ref(name) => Some(name),
        _ => unreachable!(),
    }
}

/// The topmost operand, which is an int.
#[inline(always)]
pub fn top_int(stack: &[Value], depth: usize) -> i32
    requires room { depth ≤ length stack.now }
    requires some { IntOnTop (top_first stack.now depth) }
    ensures { OnTop (top_first stack.now depth) (λ v us. v ≡ Int result) }
{
    match stack[depth - 1] {
        Value::Int(n) => n,
        _ => unreachable!(),
    }
}

/// The topmost operand, which is a long.
#[inline(always)]
pub fn top_long(stack: &[Value], depth: usize) -> i64
    requires room { depth ≤ length stack.now }
    requires some { LongOnTop (top_first stack.now depth) }
    ensures { OnTop (top_first stack.now depth) (λ v us. v ≡ Long result) }
{
    match stack[depth - 1] {
        Value::Long(n) => n,
        _ => unreachable!(),
    }
}

/// The operand at a depth, counted from the top.
#[inline(always)]
pub fn operand_at(at: usize, stack: &[Value], depth: usize) -> Value
    requires room { depth ≤ length stack.now }
    requires some { at < depth }
    ensures { slice_get (top_first stack.now depth) at ≡ Some result }
{
    let mut above = depth - at;
    pop(stack, &mut above)
}

/// The reference at a depth, counted from the top: the name, or `None` for null.
#[inline(always)]
pub fn reference_at(at: usize, stack: &[Value], depth: usize) -> Option<Ref>
    requires room { depth ≤ length stack.now }
    requires some { ReferenceAt (top_first stack.now depth) at }
    ensures { slice_get (top_first stack.now depth) at ≡ Some (reference_to result) }
{
    match operand_at(at, stack, depth) {
        Value::Null => None,
        Value::Ref(name) => Some(name),
        _ => unreachable!(),
    }
}
