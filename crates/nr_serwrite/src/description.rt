//! The descriptions of classes.

ghost use Rattle.std.specs.Prelude.{◌≡◌, ◌++◌, Some, false, OnOk};
ghost use Rattle.nr_linked.specs.Facts.{ProgramFacts};
ghost use Rattle.nr_serform.specs.Descriptions.{described_super, own_table, own_text};
ghost use Rattle.nr_serform.specs.Entries.{Class};
ghost use Rattle.nr_serform.specs.Handles.{has};
ghost use Rattle.nr_serwrite.specs.Texts.{HasShortName, IsDescribed, written_number};

use crate::fields::{described_fields, put_fields};
use crate::names::put_name;
use crate::texts::{put_count, put_handle};
use nr_base::Put;
use nr_linked::{Base, Kind};
use nr_serform::{Forms, Handled, Handles};
use std::alloc::{AllocError, Global};

/// The number that is written for a class: 0 for an array.
fn written_number(forms: &Forms, kind: Kind) -> u64
    ensures { result ≡ written_number forms.now kind }
{
    match kind {
        Kind {
            dims: 0,
            base: Base::Object(class),
        } => forms.number(class),
        _ => 0,
    }
}

/// The class whose description stands behind the class's: its superclass, unless that is
/// `java/lang/Object`; none for an array.
#[tactic(auto, unfolding(nr_serform::specs::Descriptions::described_super))]
fn described_super(forms: &Forms, kind: Kind) -> Option<Kind>
    ensures { result ≡ described_super forms.now kind }
{
    match kind {
        Kind {
            dims: 0,
            base: Base::Object(class),
        } => Some(Kind {
            dims: 0,
            base: Base::Object(forms.super_class(class)?),
        }),
        _ => None,
    }
}

/// Writes the description of a class that has no handle, up to its superclass's.
fn put_own<'p>(
    alloc: Global,
    forms: &Forms<'p>,
    handles: &mut Handles<'p>,
    out: &mut Put,
    kind: Kind,
) -> Result<(), AllocError>
    requires short { HasShortName forms.now kind }
    requires anew { has handles.old (Class kind) ≡ false }
    ensures text { OnOk result (out.new ≡ out.old ++ own_text forms.now handles.old kind (written_number forms.now kind)) }
    ensures table { OnOk result (handles.new ≡ own_table forms.now handles.old kind) }
{
    out.u8(0x72)?;
    put_name(alloc, forms.program().tables(), out, kind)?;
    out.u64(written_number(forms, kind))?;
    out.u8(2)?;
    handles.give(Handled::Class(kind))?;
    let fields = described_fields(forms, kind);
    put_count(out, fields.len())?;
    put_fields(handles, out, fields)?;
    out.u8(0x78)
}

/// Writes the description of a class, or its handle where it has one; behind the description stand those
/// of its superclasses up to the first that has a handle. A class that is described gets a handle, so that
/// it is described once.
pub fn describe<'p>(
    alloc: Global,
    forms: &Forms<'p>,
    handles: &mut Handles<'p>,
    out: &mut Put,
    kind: Kind,
) -> Result<(), AllocError>
    requires { HasShortName forms.now kind }
    ensures { OnOk result (IsDescribed forms.now (Some kind) handles.old out.old handles.new out.new) }
{
    // the superclasses of a linked program end
    let _ = forms.program().tables();
    let mut next = Some(kind);
    while let Some(kind) = next {
        if let Some(handle) = handles.find(Handled::Class(kind)) {
            return put_handle(out, handle);
        }
        put_own(alloc, forms, handles, out, kind)?;
        next = described_super(forms, kind);
    }
    out.u8(0x70)
}
