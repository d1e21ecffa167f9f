//! Numbers of primitive types.

ghost use Rattle.std.specs.Prelude.{◌≡◌, ◌++◌, OnOk};
ghost use Rattle.std.specs.Int.{w8, w16, cast_unsigned};
ghost use Rattle.nr_linked.specs.declared.program.kind.Base.TheVariants as bases;
ghost use Rattle.nr_model.specs.Belonging.{InRange};
ghost use Rattle.nr_serform.specs.Spelling.{number_width, signed_text};

use nr_base::Put;
use nr_linked::Base;
use std::alloc::AllocError;

/// The byte of a boolean.
fn bool_bits(n: i32) -> u8
    requires { InRange bases.Bool n }
    ensures { result ≡ cast_unsigned w8 n }
{
    (n as i8).cast_unsigned()
}

fn byte_bits(n: i32) -> u8
    requires { InRange bases.Byte n }
    ensures { result ≡ cast_unsigned w8 n }
{
    (n as i8).cast_unsigned()
}

fn char_bits(n: i32) -> u16
    requires { InRange bases.Char n }
    ensures { result ≡ cast_unsigned w16 n }
{
    n.cast_unsigned() as u16
}

fn short_bits(n: i32) -> u16
    requires { InRange bases.Short n }
    ensures { result ≡ cast_unsigned w16 n }
{
    (n as i16).cast_unsigned()
}

/// Writes an int in as many bytes as its type has, the most significant first.
pub fn put_int(out: &mut Put, base: Base, n: i32) -> Result<(), AllocError>
    requires { InRange base n }
    ensures { OnOk result (out.new ≡ out.old ++ signed_text (number_width base) n) }
{
    match base {
        Base::Bool => out.u8(bool_bits(n)),
        Base::Byte => out.u8(byte_bits(n)),
        Base::Char => out.u16(char_bits(n)),
        Base::Short => out.u16(short_bits(n)),
        Base::Long => out.u64(i64::from(n).cast_unsigned()),
        _ => out.u32(n.cast_unsigned()),
    }
}
