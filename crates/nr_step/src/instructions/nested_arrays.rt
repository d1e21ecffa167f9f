//! Instructions that make arrays of arrays, with their whole rules.

ghost use Rattle.std.specs.Prelude.{◌≡◌, ◌∷◌, ◌+◌, ◌-◌, ◌^◌, ◌<◌, ◌≤◌, ℕ, length, List, Option, Some, Err, IfOk, IsOkUnless, OnErr, min};
ghost use Rattle.std.specs.FinMap.{get};
ghost use Rattle.std.specs.List.{list_any};
ghost use Rattle.nr_linked.specs.declared.program.tables.MethodInfo.{MethodInfo};
ghost use Rattle.nr_linked.specs.TypingFacts.{SiteFacts};
ghost use Rattle.nr_model.specs.declared.value.Value.{Value};
ghost use Rattle.nr_model.specs.declared.value.Value.TheVariants.{Ref};
ghost use Rattle.nr_model.specs.ArrayRules.{nested};
ghost use Rattle.nr_model.specs.Heaps.{Obj, cells};
ghost use Rattle.nr_model.specs.Outcomes.{max_cells};
ghost use Rattle.nr_step.specs.Instructions.{CanFind, Finds, IsRowOf, site_of};
ghost use Rattle.nr_step.specs.NestedArrays.{count_in, counts_in, is_negative, nest_cells};
ghost use Rattle.nr_step.specs.Windows.{Leads, view};

use crate::flow::{Flow, Told};
use crate::operands::push;
use crate::throws::throw_object;
use nr_heap::{Heap, HeapFault};
use nr_linked::{BuiltIn, Kind, Program, Resolved};
use nr_model::{Ref, Value};
use nr_prog::{Args, Instr};

/// The cells that a heap may have.
const MAX_CELLS: u64 = 0x10_0000;

/// Whether an operand is a negative count.
fn is_negative(operand: Value) -> bool
    ensures { result ≡ is_negative operand }
{
    match operand {
        Value::Int(count) => count < 0,
        _ => false,
    }
}

/// Whether one of the operands is a negative count.
fn has_negative(operands: &[Value]) -> bool
    ensures { result ≡ list_any is_negative operands.now }
{
    operands.iter().any(|operand| is_negative(*operand))
}

/// The count that an operand says, and 0 where it says none.
fn count_in(operand: Value) -> u32
    ensures { result ≡ count_in operand }
{
    match operand {
        Value::Int(count) if count >= 0 => count as u32,
        _ => 0,
    }
}

/// The cells of an array with these counts, from the outermost, and of all arrays in it, or
/// 2^64 - 1 where they are more.
fn nest_cells(counts: &[Value]) -> u64
    ensures { result ≡ min (nest_cells (counts_in counts.now)) (2 ^ 64 - 1) }
{
    let [count, inner @ ..] = counts else {
        return 0;
    };
    let count = u64::from(count_in(*count));
    nest_cells(inner)
        .saturating_mul(count)
        .saturating_add(count + 1)
}

/// Makes an array with these counts, from the outermost, and all arrays in it, for which there is
/// room.
fn make_nest(heap: &mut Heap, kind: Kind, counts: &[Value]) -> Ref
    requires some { 0 < length counts.now }
    requires dims { length counts.now ≤ kind.dims }
    requires few { cells heap.old.objects + nest_cells (counts_in counts.now) ≤ max_cells }
    requires room { nest_cells (counts_in counts.now) ≤ heap.old.spare }
    ensures made { (ls vs : List Value) → Leads (nested kind (counts_in counts.now)) (view heap.old.objects ls vs) (view heap.new.objects ls (Ref result ∷ vs)) }
    ensures cells { cells heap.new.objects ≡ cells heap.old.objects + nest_cells (counts_in counts.now) }
    ensures room { heap.old.spare ≤ heap.new.spare + nest_cells (counts_in counts.now) }
    ensures kept { (a : ℕ) (o : Obj) → get heap.old.objects a ≡ Some o → get heap.new.objects a ≡ Some o }
{
    let [count, inner @ ..] = counts else {
        unreachable!()
    };
    let elem = Kind {
        dims: kind.dims - 1,
        base: kind.base,
    };
    let len = count_in(*count);
    let Ok(name) = heap.new_array(elem, len) else {
        unreachable!()
    };
    if inner.is_empty() {
        return name;
    }
    let mut left = len;
    while left > 0 {
        left -= 1;
        let part = make_nest(heap, elem, inner);
        heap.set_slot(name, left, Value::Ref(part));
    }
    name
}

/// A new array with these counts, from the outermost, and all arrays in it. `HeapFull` exactly where
/// the heap would have more than 1,048,576 cells, with their number or 2^64 - 1; `NoMemory` for want
/// of memory.
fn new_nest(heap: &mut Heap, kind: Kind, counts: &[Value]) -> Result<Ref, HeapFault>
    requires some { 0 < length counts.now }
    requires dims { length counts.now ≤ kind.dims }
    ensures made { IfOk result (λ name. (ls vs : List Value)
        → Leads (nested kind (counts_in counts.now)) (view heap.old.objects ls vs) (view heap.new.objects ls (Ref name ∷ vs))) }
    ensures full { let n = cells heap.old.objects + nest_cells (counts_in counts.now) in
        max_cells < n → result ≡ Err (HeapFault.HeapFull (min n (2 ^ 64 - 1))) }
    ensures other { cells heap.old.objects + nest_cells (counts_in counts.now) ≤ max_cells → IsOkUnless result HeapFault.NoMemory }
    ensures err { OnErr result (heap.new ≡ heap.old) }
{
    let nest = nest_cells(counts);
    let reached = nest.saturating_add(u64::from(heap.cells()));
    if reached > MAX_CELLS {
        return Err(HeapFault::HeapFull(reached));
    }
    heap.reserve(nest as u32)?;
    Ok(make_nest(heap, kind, counts))
}

/// multianewarray.
#[inline(always)]
pub fn multianewarray(
    p: &Program,
    i: &Instr,
    found: &Resolved,
    heap: &mut Heap,
    stack: &mut [Value],
    depth: &mut usize,
    told: &mut Told,
) -> Flow
    requires row { IsRowOf 197 i.now.row }
    requires site { (own : MethodInfo) × (n : Option ℕ) × SiteFacts p.now own.«class» (site_of i.now found.now n) }
    requires room { depth.old ≤ length stack.old }
    requires can { CanFind p.now i.now found.now heap.old.objects stack.old depth.old }
    ensures went { Finds result p.now i.now found.now heap.old.objects stack.old depth.old told.new heap.new.objects stack.new depth.new }
    ensures room { depth.new ≤ length stack.new }
    ensures length { length stack.new ≡ length stack.old }
{
    let Resolved::Kind(kind) = found else {
        unreachable!()
    };
    let Args::Dims(_, dims) = &i.args else {
        unreachable!()
    };
    let below = *depth - usize::from(*dims);
    let counts = &stack[below..*depth];
    if has_negative(counts) {
        return throw_object(p, heap, BuiltIn::NegativeArraySizeException, told);
    }
    match new_nest(heap, *kind, counts) {
        Ok(name) => {
            *depth = below;
            push(stack, depth, Value::Ref(name));
            Flow::Next
        }
        Err(HeapFault::HeapFull(cells)) => {
            told.cells = cells;
            Flow::Full
        }
        Err(HeapFault::NoMemory) => Flow::NoMemory,
    }
}
