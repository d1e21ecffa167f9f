//! The comparison of longs, and the conditions of branches on ints.

ghost use Rattle.std.specs.Prelude.{◌≡◌, pos, option_map};
ghost use Rattle.nr_optable.specs.Arithmetic.{compare};
ghost use Rattle.nr_optable.specs.Operations.{pair_condition, zero_condition};

use std::cmp::Ordering;

/// What lcmp makes of two longs: 1, 0 or -1 where the first is greater, equal or less (JVM
/// Specification 6.5).
pub fn long_comparison(x: i64, y: i64) -> i32
    ensures { result ≡ compare x y }
{
    match x.cmp(&y) {
        Ordering::Less => -1,
        Ordering::Equal => 0,
        Ordering::Greater => 1,
    }
}

/// Whether ifeq, ifne, iflt, ifge, ifgt or ifle branches at an int (JVM Specification 6.5); `None` for
/// any other code.
pub fn int_test(code: u8, x: i32) -> Option<bool>
    ensures { result ≡ option_map (λ condition. condition x (pos 0)) (zero_condition code) }
{
    match code {
        153 => Some(x == 0),
        154 => Some(x != 0),
        155 => Some(x < 0),
        156 => Some(x >= 0),
        157 => Some(x > 0),
        158 => Some(x <= 0),
        _ => None,
    }
}

/// Whether if_icmpeq, if_icmpne, if_icmplt, if_icmpge, if_icmpgt or if_icmple branches at two ints,
/// the second from the top of the stack (JVM Specification 6.5); `None` for any other code.
pub fn int_pair_test(code: u8, x: i32, y: i32) -> Option<bool>
    ensures { result ≡ option_map (λ condition. condition x y) (pair_condition code) }
{
    match code {
        159 => Some(x == y),
        160 => Some(x != y),
        161 => Some(x < y),
        162 => Some(x >= y),
        163 => Some(x > y),
        164 => Some(x <= y),
        _ => None,
    }
}
