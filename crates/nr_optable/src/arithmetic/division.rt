//! Division and remainder.

ghost use Rattle.std.specs.Prelude.{◌≡◌, ◌≢◌, pos, option_map};
ghost use Rattle.nr_optable.specs.Operations.{int_division, long_division};

/// What idiv or irem makes of two ints (JVM Specification 6.5): the quotient rounded toward zero, or
/// what it leaves; `None` for any other code. The caller has thrown for a divisor of 0.
#[tactic(auto, using(crate::proofs::Wraps::wrap_quotient, crate::proofs::Wraps::cast_back))]
pub fn int_quotient(code: u8, dividend: i32, divisor: i32) -> Option<i32>
    requires { divisor ≢ pos 0 }
    ensures { result ≡ option_map (λ operation. operation dividend divisor) (int_division code) }
{
    match code {
        108 => Some(dividend.wrapping_div(divisor)),
        112 => Some(dividend.wrapping_rem(divisor)),
        _ => None,
    }
}

/// What ldiv or lrem makes of two longs (JVM Specification 6.5): the quotient rounded toward zero, or
/// what it leaves; `None` for any other code. The caller has thrown for a divisor of 0.
#[tactic(auto, using(crate::proofs::Wraps::wrap_quotient, crate::proofs::Wraps::cast_back))]
pub fn long_quotient(code: u8, dividend: i64, divisor: i64) -> Option<i64>
    requires { divisor ≢ pos 0 }
    ensures { result ≡ option_map (λ operation. operation dividend divisor) (long_division code) }
{
    match code {
        109 => Some(dividend.wrapping_div(divisor)),
        113 => Some(dividend.wrapping_rem(divisor)),
        _ => None,
    }
}
