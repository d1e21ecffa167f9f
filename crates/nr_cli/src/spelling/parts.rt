//! Names and numbers of faults.
ghost use Rattle.std.specs.Prelude.{◌≡◌, ◌++◌, ◌<◌, codes, OnOk};
ghost use Rattle.std.specs.Fmt.{decimal};
ghost use Rattle.nr_cli.specs.Spelling.{hex_digit, spelled, spelled_byte};

use nr_base::Put;
use std::alloc::{AllocError, Global};

fn digit(value: u8) -> u8
    requires { value < 16 }
    ensures { result ≡ hex_digit value }
{
    if value < 10 {
        b'0' + value
    } else {
        b'A' - 10 + value
    }
}

// A byte of a name.
fn put_byte(text: &mut Put, byte: u8) -> Result<(), AllocError>
    ensures { OnOk result (text.new ≡ text.old ++ spelled_byte byte) }
{
    if b'!' <= byte && byte <= b'~' {
        text.bytes(&[byte])
    } else {
        text.bytes(&[b'\\', b'x', digit(byte / 16), digit(byte % 16)])
    }
}

/// A name or a path.
pub fn put_name(text: &mut Put, name: &[u8]) -> Result<(), AllocError>
    ensures { OnOk result (text.new ≡ text.old ++ spelled name.now) }
{
    for byte in name {
        put_byte(text, *byte)?;
    }
    Ok(())
}

/// A fault of one number.
pub fn put_numbered(
    alloc: Global,
    text: &mut Put,
    name: &str,
    number: u32,
) -> Result<(), AllocError>
    ensures { OnOk result (text.new ≡ text.old ++ (name.now ++ decimal number)) }
{
    text.bytes(format!(in alloc; "{name}{number}")?.as_bytes())
}

/// A fault of two numbers.
pub fn put_pair(
    alloc: Global,
    text: &mut Put,
    name: &str,
    first: u32,
    second: u32,
) -> Result<(), AllocError>
    ensures { OnOk result
        (text.new ≡ text.old ++ (name.now ++ decimal first ++ codes " " ++ decimal second)) }
{
    text.bytes(format!(in alloc; "{name}{first} {second}")?.as_bytes())
}
