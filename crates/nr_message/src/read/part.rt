//! The parts that several messages have.

ghost use Rattle.std.specs.Prelude.{◌<◌, ◌^◌, IfOk, length};
ghost use Rattle.nr_base.specs.Clauses.{Gives, GivesBy, GivesWhole};
ghost use Rattle.nr_message.specs.Faults.{is_free};
ghost use Rattle.nr_message.specs.Reading.{utf_at, named_as, name_at, stream_at};

use crate::fault::MessageFault;
use nr_base::{Cur, Items, Name, NameFault};
use std::alloc::Global;

/// A length and so many bytes, which are one item.
#[tactic(auto, unfolding(crate::specs::Reading::utf_at, nr_base::specs::Reader::bind, nr_base::specs::Reader::pure, nr_base::specs::Reader::refuse, nr_base::specs::Reader::choose, nr_base::specs::Reader::from, nr_base::specs::Reader::with_fault))]
fn read_utf<'a>(cur: &mut Cur<'a>) -> Result<&'a [u8], MessageFault>
    ensures name { GivesBy is_free (λ s. s.now) result cur.new (utf_at cur.old) }
    ensures short { IfOk result (λ s. length s.now < 2 ^ 16) }
{
    let at = cur.at();
    let len = cur.u16()?;
    match cur.take(usize::from(len)) {
        Ok(bytes) => Ok(bytes),
        Err(_) => Err(MessageFault::Short(at)),
    }
}

/// The name that the bytes are, which stand at the offset `at`.
fn named(alloc: Global, at: u32, bytes: &[u8]) -> Result<Name, MessageFault>
    requires { length bytes.now < 2 ^ 16 }
    ensures { GivesWhole is_free result (named_as at bytes.now) }
{
    match Name::read(alloc, bytes) {
        Ok(name) => Ok(name),
        Err(NameFault::NoMemory) => Err(MessageFault::NoMemory),
        Err(NameFault::BadUtf(_) | NameFault::ZeroChar(_)) => Err(MessageFault::NameBad(at)),
    }
}

#[tactic(auto, unfolding(crate::specs::Reading::name_at, nr_base::specs::Reader::bind, nr_base::specs::Reader::pure, nr_base::specs::Reader::refuse, nr_base::specs::Reader::choose, nr_base::specs::Reader::from, nr_base::specs::Reader::with_fault))]
pub fn read_name(alloc: Global, cur: &mut Cur) -> Result<Name, MessageFault>
    ensures { Gives is_free result cur.new (name_at cur.old) }
{
    let at = cur.at();
    let bytes = read_utf(cur)?;
    named(alloc, at, bytes)
}

/// As many bytes as are left.
#[tactic(auto, unfolding(crate::specs::Reading::stream_at, nr_base::specs::Reader::bind, nr_base::specs::Reader::pure, nr_base::specs::Reader::refuse, nr_base::specs::Reader::choose, nr_base::specs::Reader::from, nr_base::specs::Reader::with_fault))]
pub fn read_stream(alloc: Global, cur: &mut Cur) -> Result<Items<u8>, MessageFault>
    ensures { Gives is_free result cur.new (stream_at cur.old) }
{
    let left = cur.left() as usize;
    Ok(Items::of(alloc, cur.take(left)?)?)
}
