//! What places of a type keep of values.

ghost use Rattle.std.specs.Prelude.{◌≡◌, ◌∷◌, ◌+◌, ◌≤◌, length, List};
ghost use Rattle.nr_model.specs.declared.value.Value.{Value};
ghost use Rattle.nr_model.specs.Heaps.{Heap};
ghost use Rattle.nr_model.specs.ArrayRules.{narrowed};
ghost use Rattle.nr_model.specs.ObjectRules.{kept_as};
ghost use Rattle.nr_step.specs.Windows.{CanBegin, Turns, top_first, view, window};

use crate::operands::{pop, pop_int, pop_long};
use nr_linked::{Base, Kind};
use nr_model::Value;
use nr_optable::{int_to_byte, int_to_char, int_to_short};

/// What a place of a primitive type keeps of an int.
#[inline(always)]
pub fn narrow(base: Base, n: i32) -> i32
    ensures { result ≡ narrowed base n }
{
    match base {
        Base::Bool => (n.cast_unsigned() % 2).cast_signed(),
        Base::Byte => i32::from(int_to_byte(n)),
        Base::Char => i32::from(int_to_char(n)),
        Base::Short => i32::from(int_to_short(n)),
        Base::Int | Base::Long | Base::Object(_) => n,
    }
}

/// Takes the topmost operand, as a field of the kind keeps it.
#[inline(always)]
pub fn pop_kept(kind: Kind, stack: &[Value], depth: &mut usize) -> Value
    requires room { depth.old ≤ length stack.now }
    requires can { (h : Heap) × (ls : List Value) × CanBegin (kept_as kind) (window h ls stack.now depth.old) }
    ensures kept { (h : Heap) (ls : List Value) → Turns (kept_as kind) (window h ls stack.now depth.old) (view h ls (result ∷ top_first stack.now depth.new)) }
    ensures depth { depth.old ≡ depth.new + 1 }
{
    if kind.dims > 0 {
        return pop(stack, depth);
    }
    match kind.base {
        Base::Object(_) => pop(stack, depth),
        Base::Long => Value::Long(pop_long(stack, depth)),
        base => Value::Int(narrow(base, pop_int(stack, depth))),
    }
}
