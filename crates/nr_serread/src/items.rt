//! Items, and those of which one text is due.

ghost use Rattle.std.specs.Prelude.{◌≡◌, ◌+◌, ◌≤◌, ◌<◌, ◌^◌, true, length, IfOk};
ghost use Rattle.std.specs.Int.{w32, to_be_bytes};
ghost use Rattle.nr_base.specs.Clauses.{Gives, GivesBy, GivesWholeBy, none_free};
ghost use Rattle.nr_serform.specs.ClassNumbers.{utf};
ghost use Rattle.nr_serform.specs.Handles.{entry_at};
ghost use Rattle.nr_serread.specs.Faults.{is_free};
ghost use Rattle.nr_serread.specs.Items.{as_due, differs_at, due_at, told_class, told_class_at, told_object, told_object_at, u1_at, u2_at, u4_at, utf_at};

use crate::fault::StreamFault;
use nr_base::{Cur, Put};
use nr_linked::Kind;
use nr_serform::{Handled, Handles};
use std::alloc::{AllocError, Global};

/// A text with its length.
#[tactic(auto, unfolding(crate::specs::Items::utf_at, nr_base::specs::Reader::bind, nr_base::specs::Reader::pure, nr_base::specs::Reader::refuse, nr_base::specs::Reader::choose, nr_base::specs::Reader::from, nr_base::specs::Reader::with_fault))]
pub fn read_utf<'a>(cur: &mut Cur<'a>) -> Result<&'a [u8], StreamFault>
    ensures reads { GivesBy is_free (λ s. s.now) result cur.new (utf_at cur.old) }
    ensures short { IfOk result (λ s. length s.now < 2 ^ 16) }
    ensures shorter { length cur.new.rest ≤ length cur.old.rest }
{
    let at = cur.at();
    let len = cur.u16()?;
    match cur.take(len as usize) {
        Ok(text) => Ok(text),
        Err(_) => Err(StreamFault::Short(at)),
    }
}

// ---- handles

fn object_told(handles: &Handles, at: u32, n: u32) -> Result<u32, StreamFault>
    ensures { result ≡ told_object at n (entry_at handles.now n) }
{
    match handles.at(n) {
        Some(Handled::Object(node)) => Ok(node),
        Some(_) => Err(StreamFault::HandleKind(at)),
        None => Err(StreamFault::Handle(at, n)),
    }
}

/// The node whose handle stands behind the tag at `at`.
#[tactic(auto, unfolding(crate::specs::Items::told_object_at, crate::specs::Items::given_by, nr_base::specs::Reader::bind, nr_base::specs::Reader::with_fault))]
pub fn read_object_handle(handles: &Handles, cur: &mut Cur, at: u32) -> Result<u32, StreamFault>
    ensures { Gives is_free result cur.new (told_object_at at handles.now cur.old) }
{
    let n = cur.u32()?;
    object_told(handles, at, n)
}

fn class_told(handles: &Handles, at: u32, n: u32) -> Result<Kind, StreamFault>
    ensures { result ≡ told_class at n (entry_at handles.now n) }
{
    match handles.at(n) {
        Some(Handled::Class(kind)) => Ok(kind),
        Some(_) => Err(StreamFault::HandleKind(at)),
        None => Err(StreamFault::Handle(at, n)),
    }
}

/// The class whose description's handle stands behind the tag at `at`.
#[tactic(auto, unfolding(crate::specs::Items::told_class_at, crate::specs::Items::given_by, nr_base::specs::Reader::bind, nr_base::specs::Reader::with_fault))]
pub fn read_class_handle(handles: &Handles, cur: &mut Cur, at: u32) -> Result<Kind, StreamFault>
    ensures { Gives is_free result cur.new (told_class_at at handles.now cur.old) }
{
    let n = cur.u32()?;
    class_told(handles, at, n)
}

// ---- items of which one text is due

/// Where two texts begin to differ.
#[tactic(auto, using(crate::proofs::Differing::same_here, crate::proofs::Differing::other_here, crate::proofs::Differing::first_over, crate::proofs::Differing::second_over, crate::proofs::Differing::at_most))]
fn differs_at(got: &[u8], due: &[u8]) -> u32
    requires { length got.now < 2 ^ 32 }
    ensures place { result ≡ differs_at got.now due.now }
    ensures few { result ≤ length got.now }
{
    let mut i = 0;
    while i < got.len() && i < due.len() && got[i] == due[i] {
        i += 1;
    }
    i as u32
}

/// Compares what stands at `at` with what is due there.
fn compare(at: u32, got: &[u8], due: &[u8]) -> Result<(), StreamFault>
    requires { at + length got.now < 2 ^ 32 }
    ensures { GivesWholeBy none_free (λ _. true) result (as_due at due.now got.now) }
{
    if got == due {
        Ok(())
    } else {
        Err(StreamFault::Fields(at + differs_at(got, due)))
    }
}

/// A byte of which one value is due.
#[tactic(auto, unfolding(crate::specs::Items::due_at, crate::specs::Items::given_by, nr_base::specs::Reader::spanned, nr_base::specs::Reader::bind, nr_base::specs::Reader::from, nr_base::specs::Reader::with_fault))]
pub fn due_u1(cur: &mut Cur, due: &[u8]) -> Result<(), StreamFault>
    ensures { GivesBy is_free (λ _. true) result cur.new (due_at u1_at due.now cur.old) }
{
    let at = cur.at();
    let before = cur.rest();
    cur.u8()?;
    compare(at, &before[..before.len() - cur.left() as usize], due)
}

/// Two bytes of which one text is due.
#[tactic(auto, unfolding(crate::specs::Items::due_at, crate::specs::Items::given_by, nr_base::specs::Reader::spanned, nr_base::specs::Reader::bind, nr_base::specs::Reader::from, nr_base::specs::Reader::with_fault))]
pub fn due_u2(cur: &mut Cur, due: &[u8]) -> Result<(), StreamFault>
    ensures { GivesBy is_free (λ _. true) result cur.new (due_at u2_at due.now cur.old) }
{
    let at = cur.at();
    let before = cur.rest();
    cur.u16()?;
    compare(at, &before[..before.len() - cur.left() as usize], due)
}

/// Four bytes of which one text is due.
#[tactic(auto, unfolding(crate::specs::Items::due_at, crate::specs::Items::given_by, nr_base::specs::Reader::spanned, nr_base::specs::Reader::bind, nr_base::specs::Reader::from, nr_base::specs::Reader::with_fault))]
pub fn due_u4(cur: &mut Cur, due: &[u8]) -> Result<(), StreamFault>
    ensures { GivesBy is_free (λ _. true) result cur.new (due_at u4_at due.now cur.old) }
{
    let at = cur.at();
    let before = cur.rest();
    cur.u32()?;
    compare(at, &before[..before.len() - cur.left() as usize], due)
}

fn utf(alloc: Global, text: &[u8]) -> Result<Vec<u8>, AllocError>
    requires { length text.now < 2 ^ 16 }
    ensures { IfOk result (λ v. v.items ≡ utf text.now) }
{
    let mut put = Put::new(alloc);
    put.u16(text.len() as u16)?;
    put.bytes(text)?;
    Ok(put.done())
}

/// A length and a text that is due.
#[tactic(auto, unfolding(crate::specs::Items::due_at, crate::specs::Items::given_by, nr_base::specs::Reader::spanned, nr_base::specs::Reader::bind, nr_base::specs::Reader::from, nr_base::specs::Reader::with_fault))]
pub fn due_utf(alloc: Global, cur: &mut Cur, text: &[u8]) -> Result<(), StreamFault>
    requires { length text.now < 2 ^ 16 }
    ensures { GivesBy is_free (λ _. true) result cur.new (due_at utf_at (utf text.now) cur.old) }
{
    let at = cur.at();
    let before = cur.rest();
    read_utf(cur)?;
    let due = utf(alloc, text)?;
    compare(
        at,
        &before[..before.len() - cur.left() as usize],
        due.as_slice(),
    )
}
