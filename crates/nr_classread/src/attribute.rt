//! Attributes that are skipped, and the names of those that aren't (JVM Specification 4.7).

ghost use Rattle.std.specs.Prelude.{◌≡◌};
ghost use Rattle.nr_base.specs.Clauses.{Gives};
ghost use Rattle.nr_base.specs.Reader.{times};
ghost use Rattle.nr_classread.specs.AttributeReading.{skip_at, ignored_at};
ghost use Rattle.nr_classread.specs.AttributeText.{is_named};
ghost use Rattle.nr_classread.specs.Faults.{is_free};

use crate::fault::ClassFault;
use nr_base::Cur;
use nr_prog::PoolEntry;

/// Whether an index of the pool names this text.
#[tactic(auto, unfolding(nr_prog::specs::Members::spells, nr_prog::specs::Pool::text_at))]
pub fn is_text(pool: &[PoolEntry], name: &[u8], index: u16) -> bool
    ensures { result ≡ is_named pool.now name.now index }
{
    if index == 0 {
        return false;
    }
    match pool.get(usize::from(index) - 1) {
        Some(PoolEntry::Utf8(text)) => name == text.as_slice(),
        _ => false,
    }
}

/// Skips a length and so many bytes.
#[tactic(auto, unfolding(crate::specs::AttributeReading::skip_at, nr_base::specs::Reader::bind, nr_base::specs::Reader::pure, nr_base::specs::Reader::refuse, nr_base::specs::Reader::choose, nr_base::specs::Reader::from, nr_base::specs::Reader::with_fault))]
pub fn skip_contents(cur: &mut Cur) -> Result<(), ClassFault>
    ensures { Gives is_free result cur.new (skip_at cur.old) }
{
    let len = cur.u32()?;
    cur.take(len as usize)?;
    Ok(())
}

#[tactic(auto, unfolding(crate::specs::AttributeReading::ignored_at, nr_base::specs::Reader::bind, nr_base::specs::Reader::pure, nr_base::specs::Reader::refuse, nr_base::specs::Reader::choose, nr_base::specs::Reader::from, nr_base::specs::Reader::with_fault))]
fn skip_attribute(cur: &mut Cur) -> Result<(), ClassFault>
    ensures { Gives is_free result cur.new (ignored_at tt cur.old) }
{
    cur.u16()?;
    skip_contents(cur)
}

/// Skips so many attributes.
#[tactic(auto, using(nr_base::proofs::Loops::goes_on, nr_base::proofs::Loops::is_done, crate::proofs::Exits::fails_in))]
pub fn skip_attributes(cur: &mut Cur, count: u16) -> Result<(), ClassFault>
    ensures { Gives is_free result cur.new (times ignored_at count tt cur.old) }
{
    for _ in 0..count {
        skip_attribute(cur)?;
    }
    Ok(())
}
