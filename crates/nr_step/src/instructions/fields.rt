//! Writes of fields, with their whole rule.

ghost use Rattle.std.specs.Prelude.{◌≤◌, length};
ghost use Rattle.nr_step.specs.Instructions.{CanFind, Finds, IsRowOf};

use crate::flow::{Flow, Told};
use crate::kept::pop_kept;
use crate::operands::{pop, reference_at};
use crate::throws::throw_object;
use nr_heap::Heap;
use nr_linked::{BuiltIn, Program, Resolved};
use nr_model::Value;
use nr_prog::Instr;

/// putfield.
#[inline(always)]
pub fn putfield(
    p: &Program,
    i: &Instr,
    found: &Resolved,
    heap: &mut Heap,
    stack: &[Value],
    depth: &mut usize,
    told: &mut Told,
) -> Flow
    requires row { IsRowOf 181 i.now.row }
    requires room { depth.old ≤ length stack.now }
    requires can { CanFind p.now i.now found.now heap.old.objects stack.now depth.old }
    ensures went { Finds result p.now i.now found.now heap.old.objects stack.now depth.old told.new heap.new.objects stack.now depth.new }
    ensures room { depth.new ≤ length stack.now }
{
    let Resolved::Slot(class, slot) = found else {
        unreachable!()
    };
    let _ = p.tables();
    let mut below = *depth;
    let value = pop_kept(p.slot_kind(*class, *slot), stack, &mut below);
    let Some(name) = reference_at(0, stack, below) else {
        return throw_object(p, heap, BuiltIn::NullPointerException, told);
    };
    heap.set_slot(name, *slot, value);
    let _ = pop(stack, &mut below);
    *depth = below;
    Flow::Next
}
