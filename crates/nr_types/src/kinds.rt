//! The verifier's types of the kinds of a linked program.

ghost use Rattle.std.specs.Prelude.{◌≡◌};
ghost use Rattle.nr_linked.specs.declared.program.types.VType.TheVariants.{Class};
ghost use Rattle.nr_linked.specs.Kinds.{class_kind, element_of, is_array, is_reference, is_same_primitive};
ghost use Rattle.nr_linked.specs.TypingFrames.{of_base, of_kind};

use nr_linked::{Base, ClassId, Kind, VType};

/// Whether it is a kind of arrays.
pub fn is_array(k: Kind) -> bool
    ensures { result ≡ is_array k }
{
    k.dims > 0
}

/// Whether values of the kind are references.
pub fn is_reference(k: Kind) -> bool
    ensures { result ≡ is_reference k }
{
    is_array(k) || matches!(k.base, Base::Object(_))
}

/// The kind of an array's elements, or `None` where it is no kind of arrays.
pub fn element_of(k: Kind) -> Option<Kind>
    ensures { result ≡ element_of k }
{
    if k.dims == 0 {
        return None;
    }
    Some(Kind {
        dims: k.dims - 1,
        base: k.base,
    })
}

/// Whether both are the same primitive type.
pub fn is_same_primitive(a: Base, b: Base) -> bool
    ensures { result ≡ is_same_primitive a b }
{
    match (a, b) {
        (Base::Object(_), _) | (_, Base::Object(_)) => false,
        _ => a == b,
    }
}

/// The type of a value of a primitive type: boolean, byte, char and short are int.
pub fn of_base(base: Base) -> VType
    ensures { result ≡ of_base base }
{
    if base == Base::Long {
        VType::Long
    } else {
        VType::Int
    }
}

/// The type of a value of the kind.
pub fn of_kind(k: Kind) -> VType
    ensures { result ≡ of_kind k }
{
    if is_reference(k) {
        VType::Class(k)
    } else {
        of_base(k.base)
    }
}

/// The type of an object of the class, or null.
pub fn of_class(class: ClassId) -> VType
    ensures { result ≡ Class (class_kind class) }
{
    VType::Class(Kind {
        dims: 0,
        base: Base::Object(class),
    })
}
