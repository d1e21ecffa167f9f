//! Tests of references.

ghost use Rattle.std.specs.Prelude.{◌≡◌, ◌≤◌, Bool, length, List};
ghost use Rattle.nr_model.specs.declared.value.Value.{Value};
ghost use Rattle.nr_model.specs.Heaps.{Heap};
ghost use Rattle.nr_model.specs.Scripts.{AskNull, AskSame, Drop, Ending, Runs, Script, Within};
ghost use Rattle.nr_step.specs.Windows.{window};

use crate::operands::pop_reference;
use nr_model::Value;

/// if_acmpeq, if_acmpne: whether the two topmost operands are the same reference.
#[inline(always)]
pub fn are_same(stack: &[Value], depth: &mut usize) -> bool
    requires room { depth.old ≤ length stack.now }
    requires can { (h : Heap) × (ls : List Value) × (f : Bool → Script) × (e : Ending) × (u : Within)
        × Runs (AskSame f) (window h ls stack.now depth.old) e u }
    ensures leads { (h : Heap) (ls : List Value) (f : Bool → Script) (e : Ending) (u : Within)
        → Runs (f result) (window h ls stack.now depth.new) e u → Runs (AskSame f) (window h ls stack.now depth.old) e u }
    ensures room { depth.new ≤ length stack.now }
{
    let b = pop_reference(stack, depth);
    let a = pop_reference(stack, depth);
    match (b, a) {
        (None, None) => true,
        (Some(b), Some(a)) => b == a,
        _ => false,
    }
}

/// ifnull, ifnonnull: whether the topmost operand is null.
#[inline(always)]
pub fn is_null(stack: &[Value], depth: &mut usize) -> bool
    requires room { depth.old ≤ length stack.now }
    requires can { (h : Heap) × (ls : List Value) × (f : Bool → Script) × (e : Ending) × (u : Within)
        × Runs (AskNull 0 (λ null. Drop 0 (f null))) (window h ls stack.now depth.old) e u }
    ensures leads { (h : Heap) (ls : List Value) (f : Bool → Script) (e : Ending) (u : Within)
        → Runs (f result) (window h ls stack.now depth.new) e u
        → Runs (AskNull 0 (λ null. Drop 0 (f null))) (window h ls stack.now depth.old) e u }
    ensures room { depth.new ≤ length stack.now }
{
    pop_reference(stack, depth).is_none()
}
