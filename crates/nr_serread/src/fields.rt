//! What stands in a description behind its name: the number, and flags and fields, of which one text is due.

ghost use Rattle.std.specs.Prelude.{◌≡◌, ◌<◌, ◌^◌, false, length, map, true};
ghost use Rattle.std.specs.Int.{w16, to_be_bytes};
ghost use Rattle.std.specs.Option.{option_map_or};
ghost use Rattle.nr_base.specs.Clauses.{Gives, GivesBy};
ghost use Rattle.nr_linked.specs.Kinds.{class_in, is_reference};
ghost use Rattle.nr_serform.specs.ClassNumbers.{class_number};
ghost use Rattle.nr_serform.specs.Descriptions.{described_fields, letter};
ghost use Rattle.nr_serform.specs.Entries.{Class};
ghost use Rattle.nr_serform.specs.Handles.{has};
ghost use Rattle.nr_serform.specs.StreamSlots.{placed_of};
ghost use Rattle.nr_serread.specs.Describing.{field_at, fields_at, own_at, string_at, uid_at};
ghost use Rattle.nr_serread.specs.Faults.{is_free};

use crate::fault::StreamFault;
use crate::items::{due_u1, due_u2, due_u4, due_utf};
use nr_base::Cur;
use nr_linked::{Base, Kind, SlotInfo};
use nr_serform::{Forms, Handled, Handles, StreamSlot};
use std::alloc::Global;

fn number_of(forms: &Forms, kind: Kind) -> u64
    ensures { result ≡ option_map_or (class_number forms.now) (class_in kind.base) 0 }
{
    match kind.base {
        Base::Object(class) => forms.number(class),
        _ => 0,
    }
}

/// The class's number. That of an array is read as any.
#[tactic(auto, unfolding(crate::specs::Describing::uid_at, nr_base::specs::Reader::bind, nr_base::specs::Reader::pure, nr_base::specs::Reader::refuse, nr_base::specs::Reader::choose, nr_base::specs::Reader::from, nr_base::specs::Reader::with_fault))]
fn read_uid(forms: &Forms, cur: &mut Cur, kind: Kind) -> Result<u64, StreamFault>
    ensures { Gives is_free result cur.new (uid_at forms.now kind cur.old) }
{
    let at = cur.at();
    let number = cur.u64()?;
    if kind.dims > 0 || number == number_of(forms, kind) {
        Ok(number)
    } else {
        Err(StreamFault::Uid(at))
    }
}

/// The string of a descriptor.
#[tactic(auto, unfolding(crate::specs::Describing::string_at, nr_base::specs::Reader::bind, nr_base::specs::Reader::pure, nr_base::specs::Reader::refuse, nr_base::specs::Reader::choose, nr_base::specs::Reader::from, nr_base::specs::Reader::with_fault))]
fn read_string<'p>(
    alloc: Global,
    handles: &mut Handles<'p>,
    cur: &mut Cur,
    desc: &'p [u8],
) -> Result<(), StreamFault>
    requires { length desc.now < 2 ^ 16 }
    ensures { GivesBy is_free (λ _. handles.new) result cur.new (string_at desc.now handles.old cur.old) }
{
    match handles.find(Handled::Text(desc)) {
        Some(handle) => {
            due_u1(cur, &[0x71])?;
            due_u4(cur, &handle.to_be_bytes())
        }
        None => {
            due_u1(cur, &[0x74])?;
            due_utf(alloc, cur, desc)?;
            handles.give(Handled::Text(desc))?;
            Ok(())
        }
    }
}

fn letter(kind: Kind) -> u8
    ensures { result ≡ letter kind }
{
    if kind.dims > 0 {
        return b'[';
    }
    match kind.base {
        Base::Bool => b'Z',
        Base::Byte => b'B',
        Base::Char => b'C',
        Base::Short => b'S',
        Base::Int => b'I',
        Base::Long => b'J',
        Base::Object(_) => b'L',
    }
}

/// Whether the field's values are references.
pub fn is_reference(kind: Kind) -> bool
    ensures { result ≡ is_reference kind }
{
    kind.dims > 0 || matches!(kind.base, Base::Object(_))
}

#[tactic(auto, unfolding(crate::specs::Describing::field_at, nr_base::specs::Reader::bind, nr_base::specs::Reader::pure, nr_base::specs::Reader::refuse, nr_base::specs::Reader::choose, nr_base::specs::Reader::from, nr_base::specs::Reader::with_fault))]
fn read_field<'p>(
    alloc: Global,
    handles: &mut Handles<'p>,
    cur: &mut Cur,
    field: &'p SlotInfo,
) -> Result<(), StreamFault>
    ensures { GivesBy is_free (λ _. handles.new) result cur.new (field_at field.now handles.old cur.old) }
{
    due_u1(cur, &[letter(field.kind)])?;
    due_utf(alloc, cur, field.name.as_bytes())?;
    if is_reference(field.kind) {
        read_string(alloc, handles, cur, field.desc.as_bytes())?;
    }
    Ok(())
}

#[tactic(auto, unfolding(crate::specs::Describing::fields_at, nr_base::specs::Reader::bind, nr_base::specs::Reader::pure, nr_base::specs::Reader::refuse, nr_base::specs::Reader::choose, nr_base::specs::Reader::from, nr_base::specs::Reader::with_fault))]
fn read_fields<'p>(
    alloc: Global,
    handles: &mut Handles<'p>,
    cur: &mut Cur,
    fields: &[StreamSlot<'p>],
) -> Result<(), StreamFault>
    ensures { GivesBy is_free (λ _. handles.new) result cur.new (fields_at (map (λ a. a.1) (map placed_of fields.now)) handles.old cur.old) }
{
    let mut left = fields;
    while let [field, others @ ..] = left {
        read_field(alloc, handles, cur, field.slot)?;
        left = others;
    }
    Ok(())
}

/// The fields of a description.
#[tactic(auto, unfolding(nr_serform::specs::Descriptions::described_fields))]
fn described_fields<'f, 'p>(forms: &'f Forms<'p>, kind: Kind) -> &'f [StreamSlot<'p>]
    ensures { map (λ a. a.1) (map placed_of result.now) ≡ described_fields forms.now kind }
{
    match kind {
        Kind {
            dims: 0,
            base: Base::Object(class),
        } => forms.fields(class),
        _ => &[],
    }
}

/// How many fields there are, in two bytes.
fn count(fields: &[StreamSlot]) -> [u8; 2]
    ensures { result ≡ to_be_bytes w16 (length fields.now) }
{
    let count = fields.len();
    [(count / 256 % 256) as u8, (count % 256) as u8]
}

/// What stands behind the name of a class that has no handle yet.
#[tactic(auto, unfolding(crate::specs::Describing::own_at, nr_base::specs::Reader::bind, nr_base::specs::Reader::pure, nr_base::specs::Reader::refuse, nr_base::specs::Reader::choose, nr_base::specs::Reader::from, nr_base::specs::Reader::with_fault))]
pub fn read_own<'p>(
    alloc: Global,
    forms: &Forms<'p>,
    handles: &mut Handles<'p>,
    cur: &mut Cur,
    kind: Kind,
) -> Result<(), StreamFault>
    requires { has handles.old (Class kind) ≡ false }
    ensures { GivesBy is_free (λ _. handles.new) result cur.new (own_at forms.now kind handles.old cur.old) }
{
    read_uid(forms, cur, kind)?;
    let fields = described_fields(forms, kind);
    due_u1(cur, &[2])?;
    due_u2(cur, &count(fields))?;
    handles.give(Handled::Class(kind))?;
    read_fields(alloc, handles, cur, fields)?;
    due_u1(cur, &[0x78])
}
