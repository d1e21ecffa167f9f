//! One instruction, by its code.

ghost use Rattle.std.specs.Prelude.{◌≡◌, ◌≤◌, ℕ, length, Option};
ghost use Rattle.nr_linked.specs.TypingFacts.{SiteFacts};
ghost use Rattle.nr_step.specs.Flows.{Went};
ghost use Rattle.nr_step.specs.Instructions.{CanDo, doing, site_of};
ghost use Rattle.nr_step.specs.Windows.{window};

mod rare;

use self::rare::rare_step;
use crate::flow::{Flow, Told};
use crate::instructions::{
    calls, constants, direct_calls, fields, jumps, locals, numbers, objects, returns, stack_moves,
};
use crate::selections::Selections;
use nr_heap::Heap;
use nr_linked::{MethodInfo, Program, Resolved};
use nr_model::Value;
use nr_prog::Instr;

/// Carries out one instruction of a method in its frame (JVM Specification 6.5): `own` is the method, `i` one of
/// its instructions, and `found` what linking found for it. `locals` are the frame's local variables; the operands
/// are the first `depth` values of `stack`, the topmost last.
///
/// It answers how the instruction went, and `told` what that says beside. It changes the heap, the locals and the
/// operands where it goes on (`Next`, `Branch`), and at `Throw` the heap alone, which then holds the object thrown.
/// In all other cases all is as it was. At `Invoke` and `Print` the arguments are the topmost operands, with the
/// receiver below them; at `ReturnTop` the result is the topmost operand.
#[inline(always)]
pub fn step(
    p: &Program,
    selections: &mut Selections<'_>,
    own: &MethodInfo,
    i: &Instr,
    found: &Resolved,
    heap: &mut Heap,
    locals: &mut [Value],
    stack: &mut [Value],
    depth: &mut usize,
    told: &mut Told,
) -> Flow
    requires same { selections.old ≡ p.now }
    requires site { (n : Option ℕ) × SiteFacts p.now own.now.«class» (site_of i.now found.now n) }
    requires room { depth.old ≤ length stack.old }
    requires can { CanDo p.now own.now i.now found.now (window heap.old.objects locals.old stack.old depth.old) (length stack.old) }
    ensures went { Went result p.now (doing p.now own.now i.now found.now) (window heap.old.objects locals.old stack.old depth.old) told.new
        (window heap.new.objects locals.new stack.new depth.new) }
    ensures room { depth.new ≤ length stack.new }
    ensures stack { length stack.new ≡ length stack.old }
    ensures locals { length locals.new ≡ length locals.old }
    ensures same { selections.new ≡ selections.old }
{
    match i.row.code {
        1 => constants::aconst_null(i, stack, depth),
        2 => constants::iconst(i, 2, stack, depth),
        3 => constants::iconst(i, 3, stack, depth),
        4 => constants::iconst(i, 4, stack, depth),
        5 => constants::iconst(i, 5, stack, depth),
        6 => constants::iconst(i, 6, stack, depth),
        7 => constants::iconst(i, 7, stack, depth),
        8 => constants::iconst(i, 8, stack, depth),
        9 => constants::lconst(i, 9, stack, depth),
        10 => constants::lconst(i, 10, stack, depth),
        16 => constants::push_number(i, 16, stack, depth),
        17 => constants::push_number(i, 17, stack, depth),
        18 => constants::ldc(i, found, 18, stack, depth),
        21 => locals::load(i, 21, locals, stack, depth),
        22 => locals::load(i, 22, locals, stack, depth),
        25 => locals::load(i, 25, locals, stack, depth),
        26 => locals::load_numbered(i, 26, locals, stack, depth),
        27 => locals::load_numbered(i, 27, locals, stack, depth),
        28 => locals::load_numbered(i, 28, locals, stack, depth),
        29 => locals::load_numbered(i, 29, locals, stack, depth),
        30 => locals::load_numbered(i, 30, locals, stack, depth),
        31 => locals::load_numbered(i, 31, locals, stack, depth),
        32 => locals::load_numbered(i, 32, locals, stack, depth),
        33 => locals::load_numbered(i, 33, locals, stack, depth),
        42 => locals::load_numbered(i, 42, locals, stack, depth),
        43 => locals::load_numbered(i, 43, locals, stack, depth),
        44 => locals::load_numbered(i, 44, locals, stack, depth),
        45 => locals::load_numbered(i, 45, locals, stack, depth),
        54 => locals::store(i, 54, locals, stack, depth),
        55 => locals::store(i, 55, locals, stack, depth),
        58 => locals::store(i, 58, locals, stack, depth),
        59 => locals::store_numbered(i, 59, locals, stack, depth),
        60 => locals::store_numbered(i, 60, locals, stack, depth),
        61 => locals::store_numbered(i, 61, locals, stack, depth),
        62 => locals::store_numbered(i, 62, locals, stack, depth),
        63 => locals::store_numbered(i, 63, locals, stack, depth),
        64 => locals::store_numbered(i, 64, locals, stack, depth),
        65 => locals::store_numbered(i, 65, locals, stack, depth),
        66 => locals::store_numbered(i, 66, locals, stack, depth),
        75 => locals::store_numbered(i, 75, locals, stack, depth),
        76 => locals::store_numbered(i, 76, locals, stack, depth),
        77 => locals::store_numbered(i, 77, locals, stack, depth),
        78 => locals::store_numbered(i, 78, locals, stack, depth),
        87 => stack_moves::pop(i, stack, depth),
        89 => stack_moves::dup(i, stack, depth),
        96 => numbers::int_pair(i, 96, stack, depth),
        97 => numbers::long_pair(i, 97, stack, depth),
        100 => numbers::int_pair(i, 100, stack, depth),
        101 => numbers::long_pair(i, 101, stack, depth),
        104 => numbers::int_pair(i, 104, stack, depth),
        105 => numbers::long_pair(i, 105, stack, depth),
        120 => numbers::int_shift(i, 120, stack, depth),
        122 => numbers::int_shift(i, 122, stack, depth),
        124 => numbers::int_shift(i, 124, stack, depth),
        126 => numbers::int_pair(i, 126, stack, depth),
        128 => numbers::int_pair(i, 128, stack, depth),
        130 => numbers::int_pair(i, 130, stack, depth),
        132 => locals::iinc(i, locals, stack, *depth),
        133 => numbers::i2l(i, stack, depth),
        136 => numbers::l2i(i, stack, depth),
        148 => numbers::lcmp(i, stack, depth),
        153 => jumps::if_zero(i, 153, stack, depth, told),
        154 => jumps::if_zero(i, 154, stack, depth, told),
        155 => jumps::if_zero(i, 155, stack, depth, told),
        156 => jumps::if_zero(i, 156, stack, depth, told),
        157 => jumps::if_zero(i, 157, stack, depth, told),
        158 => jumps::if_zero(i, 158, stack, depth, told),
        159 => jumps::if_icmp(i, 159, stack, depth, told),
        160 => jumps::if_icmp(i, 160, stack, depth, told),
        161 => jumps::if_icmp(i, 161, stack, depth, told),
        162 => jumps::if_icmp(i, 162, stack, depth, told),
        163 => jumps::if_icmp(i, 163, stack, depth, told),
        164 => jumps::if_icmp(i, 164, stack, depth, told),
        165 => jumps::if_acmpeq(i, stack, depth, told),
        166 => jumps::if_acmpne(i, stack, depth, told),
        167 => jumps::goto(i, 167, stack, *depth, told),
        172 => returns::return_top(i, 172, stack, *depth),
        173 => returns::return_top(i, 173, stack, *depth),
        176 => returns::return_top(i, 176, stack, *depth),
        177 => returns::return_nothing(i, stack, *depth),
        180 => objects::getfield(p, i, found, heap, stack, depth, told),
        181 => fields::putfield(p, i, found, heap, stack, depth, told),
        182 => calls::invokevirtual(p, selections, i, found, heap, stack, *depth, told),
        184 => direct_calls::invokestatic(p, i, found, heap, stack, *depth, told),
        198 => jumps::ifnull(i, stack, depth, told),
        199 => jumps::ifnonnull(i, stack, depth, told),
        _ => {
            let mut top = *depth;
            let flow = rare_step(
                p, selections, own, i, found, heap, locals, stack, &mut top, told,
            );
            *depth = top;
            flow
        }
    }
}
