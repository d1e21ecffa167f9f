//! The head of an attribute, written (JVM Specification 4.7).

ghost use Rattle.std.specs.Prelude.{◌≡◌, ◌++◌, OnOk};
ghost use Rattle.nr_classwrite.specs.Names.{or_zero};
ghost use Rattle.nr_classwrite.specs.Text.{attribute_text};

use crate::write::number::{put_four, put_two};
use nr_base::Put;
use std::alloc::AllocError;

/// Writes the count 1, and the name and the length of the one attribute.
pub fn put_attribute(put: &mut Put, name: Option<u16>, len: u32) -> Result<(), AllocError>
    ensures { OnOk result (put.new ≡ put.old ++ attribute_text (or_zero name) len) }
{
    put_two(put, 1)?;
    put_two(put, name.unwrap_or(0))?;
    put_four(put, len)
}
