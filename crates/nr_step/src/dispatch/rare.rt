//! Instructions of arrays and switches, and those that programs use less.

ghost use Rattle.std.specs.Prelude.{◌≡◌, ◌≤◌, ℕ, length, Option};
ghost use Rattle.nr_linked.specs.TypingFacts.{SiteFacts};
ghost use Rattle.nr_step.specs.Codes.{IsNoneOf, frequent};
ghost use Rattle.nr_step.specs.Flows.{Went};
ghost use Rattle.nr_step.specs.Instructions.{CanDo, doing, site_of};
ghost use Rattle.nr_step.specs.Windows.{window};

use crate::flow::{Flow, Told};
use crate::instructions::{
    arrays, calls, constants, direct_calls, divisions, jumps, nested_arrays, new_arrays, numbers,
    objects, stack_moves, switches, wide,
};
use crate::selections::Selections;
use nr_heap::Heap;
use nr_linked::{MethodInfo, Program, Resolved};
use nr_model::Value;
use nr_prog::Instr;

/// As `step`, for the codes that `step` doesn't tell apart itself: a function of its own, so that `step` is small
/// enough to stand in the loop over steps.
#[inline(never)]
pub fn rare_step(
    p: &Program,
    selections: &mut Selections<'_>,
    own: &MethodInfo,
    i: &Instr,
    found: &Resolved,
    heap: &mut Heap,
    locals: &mut [Value],
    stack: &mut [Value],
    depth: &mut usize,
    told: &mut Told,
) -> Flow
    requires rare { IsNoneOf frequent i.now.row.code }
    requires same { selections.old ≡ p.now }
    requires site { (n : Option ℕ) × SiteFacts p.now own.now.«class» (site_of i.now found.now n) }
    requires room { depth.old ≤ length stack.old }
    requires can { CanDo p.now own.now i.now found.now (window heap.old.objects locals.old stack.old depth.old) (length stack.old) }
    ensures went { Went result p.now (doing p.now own.now i.now found.now) (window heap.old.objects locals.old stack.old depth.old) told.new
        (window heap.new.objects locals.new stack.new depth.new) }
    ensures room { depth.new ≤ length stack.new }
    ensures stack { length stack.new ≡ length stack.old }
    ensures locals { length locals.new ≡ length locals.old }
    ensures same { selections.new ≡ selections.old }
{
    match i.row.code {
        0 => constants::nop(i, stack, *depth),
        19 => constants::ldc(i, found, 19, stack, depth),
        20 => constants::ldc(i, found, 20, stack, depth),
        46 => arrays::array_load(p, i, 46, heap, stack, depth, told),
        47 => arrays::array_load(p, i, 47, heap, stack, depth, told),
        50 => arrays::array_load(p, i, 50, heap, stack, depth, told),
        51 => arrays::array_load(p, i, 51, heap, stack, depth, told),
        52 => arrays::array_load(p, i, 52, heap, stack, depth, told),
        53 => arrays::array_load(p, i, 53, heap, stack, depth, told),
        79 => arrays::int_array_store(p, i, 79, heap, stack, depth, told),
        80 => arrays::lastore(p, i, heap, stack, depth, told),
        83 => arrays::aastore(p, i, heap, stack, depth, told),
        84 => arrays::int_array_store(p, i, 84, heap, stack, depth, told),
        85 => arrays::int_array_store(p, i, 85, heap, stack, depth, told),
        86 => arrays::int_array_store(p, i, 86, heap, stack, depth, told),
        88 => stack_moves::pop2(i, stack, depth),
        90 => stack_moves::dup_x1(i, stack, depth),
        91 => stack_moves::dup_x2(i, stack, depth),
        92 => stack_moves::dup2(i, stack, depth),
        93 => stack_moves::dup2_x1(i, stack, depth),
        94 => stack_moves::dup2_x2(i, stack, depth),
        95 => stack_moves::swap(i, stack, depth),
        108 => divisions::int_divided(p, i, 108, heap, stack, depth, told),
        109 => divisions::long_divided(p, i, 109, heap, stack, depth, told),
        112 => divisions::int_divided(p, i, 112, heap, stack, depth, told),
        113 => divisions::long_divided(p, i, 113, heap, stack, depth, told),
        116 => numbers::ineg(i, stack, depth),
        117 => numbers::lneg(i, stack, depth),
        121 => numbers::long_shift(i, 121, stack, depth),
        123 => numbers::long_shift(i, 123, stack, depth),
        125 => numbers::long_shift(i, 125, stack, depth),
        127 => numbers::long_pair(i, 127, stack, depth),
        129 => numbers::long_pair(i, 129, stack, depth),
        131 => numbers::long_pair(i, 131, stack, depth),
        145 => numbers::int_narrowing(i, 145, stack, depth),
        146 => numbers::int_narrowing(i, 146, stack, depth),
        147 => numbers::int_narrowing(i, 147, stack, depth),
        170 => switches::tableswitch(i, stack, depth, told),
        171 => switches::lookupswitch(i, stack, depth, told),
        183 => direct_calls::invokespecial(p, selections, own, i, found, heap, stack, depth, told),
        185 => calls::invokeinterface(p, selections, i, found, heap, stack, *depth, told),
        187 => objects::new(p, i, found, heap, stack, depth, told),
        188 => new_arrays::newarray(p, i, heap, stack, depth, told),
        189 => new_arrays::anewarray(p, i, found, heap, stack, depth, told),
        190 => arrays::arraylength(p, i, heap, stack, depth, told),
        191 => objects::athrow(p, i, heap, stack, *depth, told),
        192 => objects::checkcast(p, i, found, heap, stack, *depth, told),
        193 => objects::instanceof(p, i, found, heap, stack, depth),
        196 => wide::wide(i, locals, stack, depth),
        197 => nested_arrays::multianewarray(p, i, found, heap, stack, depth, told),
        200 => jumps::goto(i, 200, stack, *depth, told),
        _ => unreachable!(),
    }
}
