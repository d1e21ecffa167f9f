//! Division and remainder, with their whole rules.

ghost use Rattle.std.specs.Prelude.{◌≡◌, ◌≤◌, length, IsSome};
ghost use Rattle.nr_optable.specs.Operations.{int_division, long_division};
ghost use Rattle.nr_step.specs.Instructions.{CanReach, IsRowOf, Reaches};

use crate::flow::{Flow, Told};
use crate::operands::{pop_int, pop_long, push, top_int, top_long};
use crate::throws::throw_object;
use nr_heap::Heap;
use nr_linked::{BuiltIn, Program};
use nr_model::Value;
use nr_optable::{int_quotient, long_quotient};
use nr_prog::Instr;

/// idiv, irem.
#[inline(always)]
pub fn int_divided(
    p: &Program,
    i: &Instr,
    code: u8,
    heap: &mut Heap,
    stack: &mut [Value],
    depth: &mut usize,
    told: &mut Told,
) -> Flow
    requires row { IsRowOf code i.now.row }
    requires code { IsSome (int_division code) }
    requires room { depth.old ≤ length stack.old }
    requires can { CanReach p.now i.now heap.old.objects stack.old depth.old }
    ensures went { Reaches result p.now i.now heap.old.objects stack.old depth.old told.new heap.new.objects stack.new depth.new }
    ensures room { depth.new ≤ length stack.new }
    ensures length { length stack.new ≡ length stack.old }
{
    let y = top_int(stack, *depth);
    if y == 0 {
        return throw_object(p, heap, BuiltIn::ArithmeticException, told);
    }
    let _ = pop_int(stack, depth);
    let x = pop_int(stack, depth);
    let made = int_quotient(code, x, y).unwrap();
    push(stack, depth, Value::Int(made));
    Flow::Next
}

/// ldiv, lrem.
#[inline(always)]
pub fn long_divided(
    p: &Program,
    i: &Instr,
    code: u8,
    heap: &mut Heap,
    stack: &mut [Value],
    depth: &mut usize,
    told: &mut Told,
) -> Flow
    requires row { IsRowOf code i.now.row }
    requires code { IsSome (long_division code) }
    requires room { depth.old ≤ length stack.old }
    requires can { CanReach p.now i.now heap.old.objects stack.old depth.old }
    ensures went { Reaches result p.now i.now heap.old.objects stack.old depth.old told.new heap.new.objects stack.new depth.new }
    ensures room { depth.new ≤ length stack.new }
    ensures length { length stack.new ≡ length stack.old }
{
    let y = top_long(stack, *depth);
    if y == 0 {
        return throw_object(p, heap, BuiltIn::ArithmeticException, told);
    }
    let _ = pop_long(stack, depth);
    let x = pop_long(stack, depth);
    let made = long_quotient(code, x, y).unwrap();
    push(stack, depth, Value::Long(made));
    Flow::Next
}
