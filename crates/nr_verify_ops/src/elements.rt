//! What the arrays hold from which instructions load and into which they store (JVM Specification 6.5, iaload
//! to saload and iastore to sastore).

ghost use Rattle.std.specs.Prelude.{◌≡◌};
ghost use Rattle.std.specs.Option.{option_map};
ghost use Rattle.nr_linked.specs.ArrayKinds.{elements_of, is_base, is_element};
ghost use Rattle.nr_linked.specs.TypingArrays.{is_array_with, loaded_type, wanted_array};
ghost use Rattle.nr_verify_ops.specs.Answers.{elements};

use nr_linked::{Base, BuiltIn, Kind, Program, VType, Wanted};
use nr_types::{element_of, is_array, is_reference, is_same_primitive, of_base};

/// What the arrays of an instruction hold.
#[derive(Clone, Copy, Debug, PartialEq, Eq)]
pub enum Elements {
    /// Values of this primitive type.
    Of(Base),
    /// Bytes, or booleans.
    Bytes,
    /// References of any kind.
    References,
}

/// What the arrays of a load or a store with this code hold.
#[tactic(auto, unfolding(crate::specs::Answers::elements))]
pub(crate) fn elements_of(code: u8) -> Option<Elements>
    ensures { elements_of code ≡ option_map elements result }
{
    match code {
        46 | 79 => Some(Elements::Of(Base::Int)),
        47 | 80 => Some(Elements::Of(Base::Long)),
        50 | 83 => Some(Elements::References),
        51 | 84 => Some(Elements::Bytes),
        52 | 85 => Some(Elements::Of(Base::Char)),
        53 | 86 => Some(Elements::Of(Base::Short)),
        _ => None,
    }
}

/// Whether values of the kind are of the primitive type.
fn is_base(base: Base, k: Kind) -> bool
    ensures { result ≡ is_base base k }
{
    !is_array(k) && is_same_primitive(base, k.base)
}

/// Whether such arrays hold values of the kind.
#[tactic(auto, unfolding(crate::specs::Answers::elements))]
fn is_element(e: Elements, k: Kind) -> bool
    ensures { result ≡ is_element (elements e) k }
{
    match e {
        Elements::Of(base) => is_base(base, k),
        Elements::Bytes => is_base(Base::Byte, k) || is_base(Base::Bool, k),
        Elements::References => is_reference(k),
    }
}

/// Whether it is the type of such an array, or of null.
pub(crate) fn is_array_with(e: Elements, t: VType) -> bool
    ensures { result ≡ is_array_with (elements e) t }
{
    match t {
        VType::Null => true,
        VType::Class(k) => match element_of(k) {
            Some(element) => is_element(e, element),
            None => false,
        },
        _ => false,
    }
}

/// The array that a fault names for those that the instruction takes.
#[tactic(auto, unfolding(crate::specs::Answers::elements))]
pub(crate) fn wanted_array(p: &Program, e: Elements) -> Wanted
    ensures { result ≡ wanted_array p.now (elements e) }
{
    let base = match e {
        Elements::Of(base) => base,
        Elements::Bytes => Base::Byte,
        Elements::References => Base::Object(p.built_in(BuiltIn::Object)),
    };
    Wanted::Type(VType::Class(Kind { dims: 1, base }))
}

/// The type of what is loaded from such an array.
#[tactic(auto, unfolding(crate::specs::Answers::elements))]
pub(crate) fn loaded_type(e: Elements, array: VType) -> VType
    ensures { result ≡ loaded_type (elements e) array }
{
    match (e, array) {
        (Elements::Of(base), _) => of_base(base),
        (Elements::Bytes, _) => VType::Int,
        (Elements::References, VType::Class(k)) => match element_of(k) {
            Some(element) => VType::Class(element),
            None => VType::Null,
        },
        (Elements::References, _) => VType::Null,
    }
}
