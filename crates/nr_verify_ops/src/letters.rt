//! The letters by which the table of instructions says what is popped and pushed.

ghost use Rattle.std.specs.Prelude.{◌≡◌};
ghost use Rattle.nr_linked.specs.TypingChecks.{is_letter, letter_type, letters_of, wanted_letter};
ghost use Rattle.nr_verify_ops.specs.Answers.{only};

use nr_linked::{VType, Wanted};
use nr_optable::{Kinds, Letter};
use nr_types::{is_initialised, is_int, is_long};

/// Whether an operand of the type is taken where the letter stands.
pub(crate) fn is_letter(letter: Letter, t: VType) -> bool
    ensures { result ≡ is_letter letter t }
{
    match letter {
        Letter::I => is_int(t),
        Letter::J => is_long(t),
        Letter::A => is_initialised(t),
        Letter::R => matches!(t, VType::UninitThis | VType::Uninit(_)) || is_initialised(t),
        Letter::Null => matches!(t, VType::Null),
    }
}

/// What a fault says of the letter.
pub(crate) fn wanted_letter(letter: Letter) -> Wanted
    ensures { result ≡ wanted_letter letter }
{
    match letter {
        Letter::I => Wanted::Type(VType::Int),
        Letter::J => Wanted::Type(VType::Long),
        Letter::Null => Wanted::Type(VType::Null),
        _ => Wanted::AnyReference,
    }
}

/// The type of what is pushed. No row that says all that it pushes pushes a reference that isn't null.
pub(crate) fn letter_type(letter: Letter) -> VType
    ensures { result ≡ letter_type letter }
{
    match letter {
        Letter::I => VType::Int,
        Letter::J => VType::Long,
        _ => VType::Null,
    }
}

/// The only letter of some.
pub(crate) fn only_letter(kinds: Kinds) -> Option<Letter>
    ensures { result ≡ only (letters_of kinds) }
{
    match kinds {
        Kinds::Own | Kinds::Letters { n: 0, .. } => None,
        Kinds::Letters { n: 1, first, .. } => Some(first),
        Kinds::Letters { n: 2, .. } => None,
        Kinds::Letters { .. } => None,
    }
}
