//! The fields of a description.

ghost use Rattle.std.specs.Prelude.{◌≡◌, ◌<◌, ◌^◌, ◌++◌, length, map, OnOk};
ghost use Rattle.nr_linked.specs.Kinds.{is_reference};
ghost use Rattle.nr_serform.specs.Descriptions.{described_fields, field_table, field_text, fields_table, fields_text, letter, string_table, string_text};
ghost use Rattle.nr_serform.specs.StreamSlots.{placed_of};

use crate::texts::{put_handle, put_utf};
use nr_base::Put;
use nr_linked::{Base, Kind, SlotInfo};
use nr_serform::{Forms, Handled, Handles, StreamSlot};
use std::alloc::AllocError;

fn letter(kind: Kind) -> u8
    ensures { result ≡ letter kind }
{
    if kind.dims > 0 {
        return b'[';
    }
    match kind.base {
        Base::Bool => b'Z',
        Base::Byte => b'B',
        Base::Char => b'C',
        Base::Short => b'S',
        Base::Int => b'I',
        Base::Long => b'J',
        Base::Object(_) => b'L',
    }
}

/// Whether the field's values are references.
fn is_reference(kind: Kind) -> bool
    ensures { result ≡ is_reference kind }
{
    kind.dims > 0 || matches!(kind.base, Base::Object(_))
}

/// Writes the string of a descriptor, or its handle where it has one.
fn put_string<'p>(
    handles: &mut Handles<'p>,
    out: &mut Put,
    desc: &'p [u8],
) -> Result<(), AllocError>
    requires { length desc.now < 2 ^ 16 }
    ensures text { OnOk result (out.new ≡ out.old ++ string_text handles.old desc.now) }
    ensures table { OnOk result (handles.new ≡ string_table handles.old desc.now) }
{
    if let Some(handle) = handles.find(Handled::Text(desc)) {
        return put_handle(out, handle);
    }
    out.u8(0x74)?;
    handles.give(Handled::Text(desc))?;
    put_utf(out, desc)
}

fn put_field<'p>(
    handles: &mut Handles<'p>,
    out: &mut Put,
    field: &'p SlotInfo,
) -> Result<(), AllocError>
    ensures text { OnOk result (out.new ≡ out.old ++ field_text handles.old field.now) }
    ensures table { OnOk result (handles.new ≡ field_table handles.old field.now) }
{
    out.u8(letter(field.kind))?;
    put_utf(out, field.name.as_bytes())?;
    if is_reference(field.kind) {
        return put_string(handles, out, field.desc.as_bytes());
    }
    Ok(())
}

/// Writes the fields one behind the other.
pub fn put_fields<'p>(
    handles: &mut Handles<'p>,
    out: &mut Put,
    fields: &[StreamSlot<'p>],
) -> Result<(), AllocError>
    ensures text { OnOk result (out.new ≡ out.old ++ fields_text handles.old (map (λ a. a.1) (map placed_of fields.now))) }
    ensures table { OnOk result (handles.new ≡ fields_table handles.old (map (λ a. a.1) (map placed_of fields.now))) }
{
    let mut left = fields;
    while let [field, others @ ..] = left {
        put_field(handles, out, field.slot)?;
        left = others;
    }
    Ok(())
}

/// The fields of a description: those that the class itself declares. An array has none.
#[tactic(auto, unfolding(nr_serform::specs::Descriptions::described_fields))]
pub fn described_fields<'w, 'p>(forms: &'w Forms<'p>, kind: Kind) -> &'w [StreamSlot<'p>]
    ensures { map (λ a. a.1) (map placed_of result.now) ≡ described_fields forms.now kind }
{
    match kind {
        Kind {
            dims: 0,
            base: Base::Object(class),
        } => forms.fields(class),
        _ => &[],
    }
}
