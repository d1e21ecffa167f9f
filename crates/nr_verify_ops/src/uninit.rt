//! Objects that aren't initialised yet: what becomes of their types (JVM Specification 4.10.1.4,
//! substitute; 4.10.1.9, new and invokespecial).

ghost use Rattle.std.specs.Prelude.{◌≡◌, reverse};
ghost use Rattle.nr_linked.specs.TypingCalls.{initialised, is_same_uninit};
ghost use Rattle.nr_linked.specs.TypingObjects.{forgotten, holds_made_at, is_made_at};
ghost use Rattle.nr_verify_ops.specs.InPlace.{one_forgotten, one_initialised};

use nr_linked::{ClassId, VType};
use nr_types::of_class;

/// Whether both are the type of one object that isn't initialised.
fn is_same_uninit(t: VType, u: VType) -> bool
    ensures { result ≡ is_same_uninit t u }
{
    match (t, u) {
        (VType::UninitThis, VType::UninitThis) => true,
        (VType::Uninit(n), VType::Uninit(k)) => n == k,
        _ => false,
    }
}

/// The type once the object `t` is initialised, as one of the class.
fn one_initialised(t: VType, class: ClassId, u: VType) -> VType
    ensures { result ≡ one_initialised t class u }
{
    if is_same_uninit(t, u) {
        of_class(class)
    } else {
        u
    }
}

/// Each place that holds the object holds one of the class that is initialised.
pub(crate) fn initialise(types: &mut [VType], t: VType, class: ClassId)
    ensures { types.new ≡ initialised t class types.old }
{
    for u in types.iter_mut() {
        *u = one_initialised(t, class, *u);
    }
}

/// Whether it is the type of what the `new` at the offset made.
fn is_made_at(at: u16, t: VType) -> bool
    ensures { result ≡ is_made_at at t }
{
    match t {
        VType::Uninit(n) => n == at,
        _ => false,
    }
}

/// Whether an operand is of that type. The topmost stands last.
pub(crate) fn holds_made_at(at: u16, types: &[VType]) -> bool
    ensures { result ≡ holds_made_at at (reverse types.now) }
{
    let mut left = types;
    while let Some((t, more)) = left.split_last() {
        if is_made_at(at, *t) {
            return true;
        }
        left = more;
    }
    false
}

/// `Top` in place of that type.
fn one_forgotten(at: u16, t: VType) -> VType
    ensures { result ≡ one_forgotten at t }
{
    if is_made_at(at, t) { VType::Top } else { t }
}

/// Each place of that type becomes `Top`.
pub(crate) fn forget(types: &mut [VType], at: u16)
    ensures { types.new ≡ forgotten at types.old }
{
    for t in types.iter_mut() {
        *t = one_forgotten(at, *t);
    }
}
