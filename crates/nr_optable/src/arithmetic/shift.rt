//! Shifts.

ghost use Rattle.std.specs.Prelude.{◌≡◌, option_map};
ghost use Rattle.nr_optable.specs.Operations.{int_shift, long_shift};

/// What ishl, ishr or iushr makes of an int and the low five bits of the count (JVM Specification
/// 6.5); `None` for any other code.
pub fn int_shifted(code: u8, x: i32, count: i32) -> Option<i32>
    ensures { result ≡ option_map (λ operation. operation x count) (int_shift code) }
{
    let count = count.cast_unsigned();
    match code {
        120 => Some(x.wrapping_shl(count)),
        122 => Some(x.wrapping_shr(count)),
        124 => Some(x.cast_unsigned().wrapping_shr(count).cast_signed()),
        _ => None,
    }
}

/// What lshl, lshr or lushr makes of a long and the low six bits of the count (JVM Specification
/// 6.5); `None` for any other code.
pub fn long_shifted(code: u8, x: i64, count: i32) -> Option<i64>
    ensures { result ≡ option_map (λ operation. operation x count) (long_shift code) }
{
    let count = count.cast_unsigned();
    match code {
        121 => Some(x.wrapping_shl(count)),
        123 => Some(x.wrapping_shr(count)),
        125 => Some(x.cast_unsigned().wrapping_shr(count).cast_signed()),
        _ => None,
    }
}
