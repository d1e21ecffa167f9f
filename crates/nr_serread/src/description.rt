//! The descriptions of classes.

ghost use Rattle.std.specs.Prelude.{◌≡◌, ◌<◌, ◌^◌, IfOk, IfSome, false, length, true};
ghost use Rattle.nr_base.specs.Clauses.{Gives, GivesBy, GivesWholeBy, none_free};
ghost use Rattle.nr_serform.specs.Entries.{Class};
ghost use Rattle.nr_serform.specs.Handles.{has};
ghost use Rattle.nr_serread.specs.Describing.{behind_name_at, desc_at, is_of_sort, name_at, new_desc_at, new_kind, old_desc_at, suited, unless_described};
ghost use Rattle.nr_serread.specs.Faults.{is_free};

use crate::fault::StreamFault;
use crate::fields::read_own;
use crate::items::{read_class_handle, read_utf};
use crate::naming::kind_named;
use crate::supers::{described_supers, read_supers};
use nr_base::Cur;
use nr_linked::Kind;
use nr_serform::{Forms, Handled, Handles};
use std::alloc::{AllocError, Global};

fn is_of_sort(forms: &Forms, array: bool, kind: Kind) -> bool
    ensures { result ≡ is_of_sort forms.now array kind }
{
    (kind.dims > 0) == array && forms.sendable(kind)
}

fn unless_described(forms: &Forms, handles: &Handles, array: bool, kind: Kind) -> Option<Kind>
    ensures kind { result ≡ unless_described forms.now array handles.now kind }
    ensures anew { IfSome result (λ k. has handles.now (Class k) ≡ false) }
{
    if is_of_sort(forms, array, kind) && handles.find(Handled::Class(kind)).is_none() {
        Some(kind)
    } else {
        None
    }
}

/// The class that a name describes anew.
fn new_kind(
    alloc: Global,
    forms: &Forms,
    handles: &Handles,
    array: bool,
    name: &[u8],
) -> Result<Option<Kind>, AllocError>
    requires { length name.now < 2 ^ 16 }
    ensures kind { IfOk result (λ kind. kind ≡ new_kind forms.now array handles.now name.now) }
    ensures anew { IfOk result (λ kind. IfSome kind (λ k. has handles.now (Class k) ≡ false)) }
{
    match kind_named(alloc, forms.program(), name)? {
        Some(kind) => Ok(unless_described(forms, handles, array, kind)),
        None => Ok(None),
    }
}

#[tactic(auto, unfolding(crate::specs::Describing::name_at, crate::specs::Items::given_by, nr_base::specs::Reader::bind, nr_base::specs::Reader::pure, nr_base::specs::Reader::refuse, nr_base::specs::Reader::choose, nr_base::specs::Reader::from, nr_base::specs::Reader::with_fault))]
fn read_name(
    alloc: Global,
    forms: &Forms,
    handles: &Handles,
    cur: &mut Cur,
    array: bool,
) -> Result<Kind, StreamFault>
    ensures kind { Gives is_free result cur.new (name_at forms.now array handles.now cur.old) }
    ensures anew { IfOk result (λ k. has handles.now (Class k) ≡ false) }
{
    let at = cur.at();
    let name = read_utf(cur)?;
    match new_kind(alloc, forms, handles, array, name)? {
        Some(kind) => Ok(kind),
        None => Err(StreamFault::ClassName(at)),
    }
}

/// Whether objects of the class go where the slot wants them.
fn suit(forms: &Forms, wanted: Kind, start: u32, kind: Kind) -> Result<(), StreamFault>
    ensures { GivesWholeBy none_free (λ _. true) result (suited forms.now wanted start kind) }
{
    if forms.program().is_assignable(kind, wanted) {
        Ok(())
    } else {
        Err(StreamFault::SlotType(start))
    }
}

/// What stands behind the name of a class that has no handle yet, with the superclasses.
#[tactic(auto, unfolding(crate::specs::Describing::behind_name_at, nr_base::specs::Reader::bind, nr_base::specs::Reader::pure, nr_base::specs::Reader::refuse, nr_base::specs::Reader::choose, nr_base::specs::Reader::from, nr_base::specs::Reader::with_fault))]
fn read_behind_name<'p>(
    alloc: Global,
    forms: &Forms<'p>,
    handles: &mut Handles<'p>,
    cur: &mut Cur,
    kind: Kind,
) -> Result<(), StreamFault>
    requires { has handles.old (Class kind) ≡ false }
    ensures { GivesBy is_free (λ _. handles.new) result cur.new (behind_name_at forms.now kind handles.old cur.old) }
{
    read_own(alloc, forms, handles, cur, kind)?;
    let supers = described_supers(alloc, forms.program(), kind)?;
    read_supers(alloc, forms, handles, cur, supers.as_slice())
}

/// A description that is new.
#[tactic(auto, unfolding(crate::specs::Describing::new_desc_at, crate::specs::Items::given_by, nr_base::specs::Reader::bind, nr_base::specs::Reader::pure, nr_base::specs::Reader::refuse, nr_base::specs::Reader::choose, nr_base::specs::Reader::from, nr_base::specs::Reader::with_fault))]
fn read_new<'p>(
    alloc: Global,
    forms: &Forms<'p>,
    handles: &mut Handles<'p>,
    cur: &mut Cur,
    array: bool,
    wanted: Kind,
    start: u32,
) -> Result<Kind, StreamFault>
    ensures { GivesBy is_free (λ k. (k, handles.new)) result cur.new (new_desc_at forms.now array wanted start handles.old cur.old) }
{
    let kind = read_name(alloc, forms, handles, cur, array)?;
    suit(forms, wanted, start, kind)?;
    read_behind_name(alloc, forms, handles, cur, kind)?;
    Ok(kind)
}

/// The handle of a description, behind the tag at `at`.
#[tactic(auto, unfolding(crate::specs::Describing::old_desc_at, crate::specs::Items::given_by, nr_base::specs::Reader::bind, nr_base::specs::Reader::pure, nr_base::specs::Reader::refuse, nr_base::specs::Reader::choose, nr_base::specs::Reader::from, nr_base::specs::Reader::with_fault))]
fn read_old(
    forms: &Forms,
    handles: &Handles,
    cur: &mut Cur,
    array: bool,
    wanted: Kind,
    start: u32,
    at: u32,
) -> Result<Kind, StreamFault>
    ensures { GivesBy is_free (λ k. (k, handles.now)) result cur.new (old_desc_at forms.now array wanted start at handles.now cur.old) }
{
    let kind = read_class_handle(handles, cur, at)?;
    if !is_of_sort(forms, array, kind) {
        return Err(StreamFault::HandleKind(at));
    }
    suit(forms, wanted, start, kind)?;
    Ok(kind)
}

/// The class of an object, or of an array, whose tag stands at `start`, for a slot that holds references of the
/// kind `wanted`.
#[tactic(auto, unfolding(crate::specs::Describing::desc_at, nr_base::specs::Reader::bind, nr_base::specs::Reader::pure, nr_base::specs::Reader::refuse, nr_base::specs::Reader::choose, nr_base::specs::Reader::from, nr_base::specs::Reader::with_fault))]
pub fn describe<'p>(
    alloc: Global,
    forms: &Forms<'p>,
    handles: &mut Handles<'p>,
    cur: &mut Cur,
    array: bool,
    wanted: Kind,
    start: u32,
) -> Result<Kind, StreamFault>
    ensures { GivesBy is_free (λ k. (k, handles.new)) result cur.new (desc_at forms.now array wanted start handles.old cur.old) }
{
    let at = cur.at();
    match cur.u8()? {
        0x71 => read_old(forms, handles, cur, array, wanted, start, at),
        0x72 => read_new(alloc, forms, handles, cur, array, wanted, start),
        tag => Err(StreamFault::Tag(at, tag)),
    }
}
