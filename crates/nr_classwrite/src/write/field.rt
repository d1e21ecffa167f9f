//! Fields, written (JVM Specification 4.5).

ghost use Rattle.std.specs.Prelude.{◌≡◌, ◌<◌, ◌^◌, ◌++◌, length, OnOk};
ghost use Rattle.std.specs.List.{AllByRecursion};
ghost use Rattle.nr_classwrite.specs.Fits.{FieldFits};
ghost use Rattle.nr_classwrite.specs.Text.{list_text, constant_text, field_text};

use crate::names::AttrNames;
use crate::write::attribute::put_attribute;
use crate::write::number::put_two;
use nr_base::Put;
use nr_prog::Field;
use std::alloc::AllocError;

fn put_constant(put: &mut Put, names: AttrNames, constant: u16) -> Result<(), AllocError>
    ensures { OnOk result (put.new ≡ put.old ++ constant_text names constant) }
{
    if constant == 0 {
        return put_two(put, 0);
    }
    put_attribute(put, names.constant, 2)?;
    put_two(put, constant)
}

fn put_field(put: &mut Put, names: AttrNames, field: Field) -> Result<(), AllocError>
    ensures text { OnOk result (put.new ≡ put.old ++ field_text names field) }
    ensures fits { OnOk result (FieldFits field) }
{
    put_two(put, field.flags)?;
    put_two(put, field.name)?;
    put_two(put, field.desc)?;
    put_constant(put, names, field.constant)
}

/// Writes a count and so many fields.
pub fn put_fields(put: &mut Put, names: AttrNames, fields: &[Field]) -> Result<(), AllocError>
    requires { length fields.now < 2 ^ 16 }
    ensures text { OnOk result (put.new ≡ put.old ++ list_text (field_text names) fields.now) }
    ensures fits { OnOk result (AllByRecursion FieldFits fields.now) }
{
    put_two(put, fields.len() as u16)?;
    for field in fields {
        put_field(put, names, *field)?;
    }
    Ok(())
}
