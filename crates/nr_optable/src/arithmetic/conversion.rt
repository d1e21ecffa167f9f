//! Conversions.

ghost use Rattle.std.specs.Prelude.{◌≡◌, option_map};
ghost use Rattle.std.specs.Int.{w8, w16, w32, int_wrap};
ghost use Rattle.nr_optable.specs.Arithmetic.{to_char};
ghost use Rattle.nr_optable.specs.Operations.{int_narrowing};

/// What i2l makes of an int: the same number (JVM Specification 6.5).
pub fn int_to_long(x: i32) -> i64
    ensures { result ≡ x }
{
    i64::from(x)
}

/// What l2i keeps of a long: the low 32 bits (JVM Specification 6.5).
pub fn long_to_int(x: i64) -> i32
    ensures { result ≡ int_wrap w32 x }
{
    let low = x.rem_euclid(1 << 32) as u32;
    low.cast_signed()
}

/// What i2b keeps of an int: the low 8 bits, the highest of them the sign (JVM Specification 6.5).
pub fn int_to_byte(x: i32) -> i8
    ensures { result ≡ int_wrap w8 x }
{
    let low = x.rem_euclid(1 << 8) as u8;
    low.cast_signed()
}

/// What i2c keeps of an int: the low 16 bits, without a sign (JVM Specification 6.5).
pub fn int_to_char(x: i32) -> u16
    ensures { result ≡ to_char x }
{
    (x.cast_unsigned() % (1 << 16)) as u16
}

/// What i2s keeps of an int: the low 16 bits, the highest of them the sign (JVM Specification 6.5).
pub fn int_to_short(x: i32) -> i16
    ensures { result ≡ int_wrap w16 x }
{
    let low = x.rem_euclid(1 << 16) as u16;
    low.cast_signed()
}

/// What i2b, i2c or i2s keeps of an int, as an int (JVM Specification 6.5); `None` for any other code.
pub fn int_narrowed(code: u8, x: i32) -> Option<i32>
    ensures { result ≡ option_map (λ operation. operation x) (int_narrowing code) }
{
    match code {
        145 => Some(i32::from(int_to_byte(x))),
        146 => Some(i32::from(int_to_char(x))),
        147 => Some(i32::from(int_to_short(x))),
        _ => None,
    }
}
