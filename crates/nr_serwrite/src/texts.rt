//! Texts with their lengths, and handles.

ghost use Rattle.std.specs.Prelude.{◌≡◌, ◌<◌, ◌^◌, ◌++◌, ◌∷◌, length, OnOk};
ghost use Rattle.std.specs.Int.{w16, w32, to_be_bytes};
ghost use Rattle.nr_serform.specs.ClassNumbers.{dotted, utf, with_dot};

use nr_base::Put;
use std::alloc::AllocError;

/// Writes a length in two bytes, and the bytes.
pub fn put_utf(out: &mut Put, text: &[u8]) -> Result<(), AllocError>
    requires { length text.now < 2 ^ 16 }
    ensures { OnOk result (out.new ≡ out.old ++ utf text.now) }
{
    out.u16(text.len() as u16)?;
    out.bytes(text)
}

fn with_dot(byte: u8) -> u8
    ensures { result ≡ with_dot byte }
{
    if byte == b'/' { b'.' } else { byte }
}

/// Writes a length in two bytes, and the bytes with dots for slashes.
pub fn put_dotted(out: &mut Put, text: &[u8]) -> Result<(), AllocError>
    requires { length text.now < 2 ^ 16 }
    ensures { OnOk result (out.new ≡ out.old ++ utf (dotted text.now)) }
{
    out.u16(text.len() as u16)?;
    for byte in text {
        out.u8(with_dot(*byte))?;
    }
    Ok(())
}

/// Writes how many there are in two bytes, the low 16 bits.
pub fn put_count(out: &mut Put, count: usize) -> Result<(), AllocError>
    ensures { OnOk result (out.new ≡ out.old ++ to_be_bytes w16 count) }
{
    out.u8((count / 256 % 256) as u8)?;
    out.u8((count % 256) as u8)
}

/// Writes a reference to what has this handle (Java Object Serialization Specification 6.4.2,
/// prevObject).
pub fn put_handle(out: &mut Put, handle: u32) -> Result<(), AllocError>
    ensures { OnOk result (out.new ≡ out.old ++ 0x71 ∷ to_be_bytes w32 handle) }
{
    out.u8(0x71)?;
    out.u32(handle)
}
