//! Branches and switches.

ghost use Rattle.std.specs.Prelude.{◌≡◌, ◌≤◌, ℕ, length, IsSome, List};
ghost use Rattle.nr_optable.specs.Operations.{pair_condition, zero_condition};
ghost use Rattle.nr_model.specs.declared.value.Value.{Value};
ghost use Rattle.nr_model.specs.Heaps.{Heap};
ghost use Rattle.nr_model.specs.Scripts.{Ending, Runs, Script, Within};
ghost use Rattle.nr_model.specs.ValueRules.{branch, test_int, test_two};
ghost use Rattle.nr_step.specs.Windows.{CanBegin, window};

use crate::operands::pop_int;
use nr_model::Value;
use nr_optable::{int_pair_test, int_test};

/// Whether ifeq, ifne, iflt, ifge, ifgt or ifle branches.
#[inline(always)]
pub fn branches_on_int(code: u8, stack: &[Value], depth: &mut usize) -> bool
    requires code { IsSome (zero_condition code) }
    requires room { depth.old ≤ length stack.now }
    requires can { (h : Heap) × (ls : List Value) × (target : ℕ) × CanBegin (test_int code target) (window h ls stack.now depth.old) }
    ensures leads { (h : Heap) (ls : List Value) (target : ℕ) (k : Script) (e : Ending) (u : Within)
        → Runs (branch target k result) (window h ls stack.now depth.new) e u → Runs (test_int code target k) (window h ls stack.now depth.old) e u }
    ensures room { depth.new ≤ length stack.now }
{
    let x = pop_int(stack, depth);
    int_test(code, x).unwrap()
}

/// Whether if_icmpeq, if_icmpne, if_icmplt, if_icmpge, if_icmpgt or if_icmple branches.
#[inline(always)]
pub fn branches_on_ints(code: u8, stack: &[Value], depth: &mut usize) -> bool
    requires code { IsSome (pair_condition code) }
    requires room { depth.old ≤ length stack.now }
    requires can { (h : Heap) × (ls : List Value) × (target : ℕ) × CanBegin (test_two code target) (window h ls stack.now depth.old) }
    ensures leads { (h : Heap) (ls : List Value) (target : ℕ) (k : Script) (e : Ending) (u : Within)
        → Runs (branch target k result) (window h ls stack.now depth.new) e u → Runs (test_two code target k) (window h ls stack.now depth.old) e u }
    ensures room { depth.new ≤ length stack.now }
{
    let y = pop_int(stack, depth);
    let x = pop_int(stack, depth);
    int_pair_test(code, x, y).unwrap()
}
