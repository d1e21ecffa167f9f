//! What a type is of.

ghost use Rattle.std.specs.Prelude.{◌≡◌};
ghost use Rattle.nr_linked.specs.TypingFrames.{is_initialised, is_int, is_long};

use nr_linked::VType;

/// Whether it is the type of an int.
pub fn is_int(t: VType) -> bool
    ensures { result ≡ is_int t }
{
    matches!(t, VType::Int)
}

/// Whether it is the type of a long.
pub fn is_long(t: VType) -> bool
    ensures { result ≡ is_long t }
{
    matches!(t, VType::Long)
}

/// Whether it is the type of null, or of a reference to an object that is initialised.
pub fn is_initialised(t: VType) -> bool
    ensures { result ≡ is_initialised t }
{
    matches!(t, VType::Null | VType::Class(_))
}
