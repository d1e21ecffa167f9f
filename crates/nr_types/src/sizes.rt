//! How many places types take (JVM Specification 2.6.1, 2.6.2).

ghost use Rattle.std.specs.Prelude.{◌≡◌, reverse};
ghost use Rattle.nr_linked.specs.TypingFrames.{size_of, total_size};

use crate::types::is_long;
use nr_linked::VType;

/// How many places the type takes: a long two, each other one.
pub fn size_of(t: VType) -> u128
    ensures { result ≡ size_of t }
{
    if is_long(t) { 2 } else { 1 }
}

fn sum_of_sizes(types: &[VType]) -> u128
    ensures { result ≡ total_size types.now }
{
    let mut size = 0;
    let mut left = types;
    while let Some((t, more)) = left.split_first() {
        size += size_of(*t);
        left = more;
    }
    size
}

/// How many places the types take, whichever of them stands first.
#[tactic(auto, using(crate::proofs::SizeLaws::reversed_size))]
pub fn total_size(types: &[VType]) -> u128
    ensures forward { result ≡ total_size types.now }
    ensures reversed { result ≡ total_size (reverse types.now) }
{
    sum_of_sizes(types)
}
