//! Texts with their lengths.

ghost use Rattle.std.specs.Prelude.{◌≡◌, ◌<◌, ◌^◌, ◌++◌, length, OnOk};
ghost use Rattle.nr_serform.specs.ClassNumbers.{dotted_text, utf, with_dot};

use nr_base::Put;
use std::alloc::AllocError;

/// Writes a length in two bytes, and the bytes.
pub fn put_utf(put: &mut Put, text: &[u8]) -> Result<(), AllocError>
    requires { length text.now < 2 ^ 16 }
    ensures { OnOk result (put.new ≡ put.old ++ utf text.now) }
{
    put.u16(text.len() as u16)?;
    put.bytes(text)
}

fn with_dot(byte: u8) -> u8
    ensures { result ≡ with_dot byte }
{
    if byte == b'/' { b'.' } else { byte }
}

/// Writes a length in two bytes, and the bytes with dots for slashes.
pub fn put_dotted(put: &mut Put, text: &[u8]) -> Result<(), AllocError>
    requires { length text.now < 2 ^ 16 }
    ensures { OnOk result (put.new ≡ put.old ++ dotted_text text.now) }
{
    put.u16(text.len() as u16)?;
    for byte in text {
        put.u8(with_dot(*byte))?;
    }
    Ok(())
}
