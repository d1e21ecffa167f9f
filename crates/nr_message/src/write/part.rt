//! The parts that several messages have.

ghost use Rattle.std.specs.Prelude.{◌≡◌, ◌++◌, OnOk};
ghost use Rattle.nr_message.specs.Whole.{IsName};
ghost use Rattle.nr_message.specs.Writing.{name_text};

use nr_base::{Name, Put};
use std::alloc::AllocError;

/// Writes the length of a name and its bytes.
pub fn put_name(put: &mut Put, name: &Name) -> Result<(), AllocError>
    ensures text { OnOk result (put.new ≡ put.old ++ name_text name.now) }
    ensures fits { OnOk result (IsName name.now) }
{
    let bytes = name.as_bytes();
    put.u16(bytes.len() as u16)?;
    put.bytes(bytes)
}
