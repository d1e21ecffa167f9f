//! Sums, differences, products and bits of two numbers, and negation.

ghost use Rattle.std.specs.Prelude.{◌≡◌, option_map};
ghost use Rattle.std.specs.Int.{w32, w64};
ghost use Rattle.nr_optable.specs.Arithmetic.{negate};
ghost use Rattle.nr_optable.specs.Operations.{int_operation, long_operation};

/// What iadd, isub, imul, iand, ior or ixor makes of two ints, the second from the top of the stack
/// (JVM Specification 6.5); `None` for any other code.
#[tactic(auto, using(std::proofs::lemmas::Int::wraps))]
pub fn int_arithmetic(code: u8, x: i32, y: i32) -> Option<i32>
    ensures { result ≡ option_map (λ operation. operation x y) (int_operation code) }
{
    match code {
        96 => Some(x.wrapping_add(y)),
        100 => Some(x.wrapping_sub(y)),
        104 => Some(x.wrapping_mul(y)),
        126 => Some(x & y),
        128 => Some(x | y),
        130 => Some(x ^ y),
        _ => None,
    }
}

/// What ladd, lsub, lmul, land, lor or lxor makes of two longs, the second from the top of the stack
/// (JVM Specification 6.5); `None` for any other code.
#[tactic(auto, using(std::proofs::lemmas::Int::wraps))]
pub fn long_arithmetic(code: u8, x: i64, y: i64) -> Option<i64>
    ensures { result ≡ option_map (λ operation. operation x y) (long_operation code) }
{
    match code {
        97 => Some(x.wrapping_add(y)),
        101 => Some(x.wrapping_sub(y)),
        105 => Some(x.wrapping_mul(y)),
        127 => Some(x & y),
        129 => Some(x | y),
        131 => Some(x ^ y),
        _ => None,
    }
}

/// What ineg makes of an int (JVM Specification 6.5): the least value stays.
#[tactic(auto, using(std::proofs::lemmas::Int::wraps))]
pub fn int_negation(x: i32) -> i32
    ensures { result ≡ negate w32 x }
{
    x.wrapping_neg()
}

/// What lneg makes of a long (JVM Specification 6.5): the least value stays.
#[tactic(auto, using(std::proofs::lemmas::Int::wraps))]
pub fn long_negation(x: i64) -> i64
    ensures { result ≡ negate w64 x }
{
    x.wrapping_neg()
}
