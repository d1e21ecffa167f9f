//! Fields (JVM Specification 4.5).

ghost use Rattle.std.specs.Prelude.{◌≡◌, [], None};
ghost use Rattle.nr_base.specs.Clauses.{Gives, GivesBy};
ghost use Rattle.nr_base.specs.Reader.{times, onto};
ghost use Rattle.nr_classread.specs.Faults.{is_free};
ghost use Rattle.nr_classread.specs.MemberReading.{index_at, constant_value_at, field_at};
ghost use Rattle.nr_classread.specs.PoolReading.{list_at};

use crate::attribute::{is_text, skip_contents};
use crate::fault::ClassFault;
use nr_base::{Cur, Items};
use nr_prog::{Field, PoolEntry};
use std::alloc::Global;

/// The contents of a `ConstantValue` (4.7.2), which begins at the offset `at` and says that they have
/// this length.
#[tactic(auto, unfolding(nr_base::specs::Reader::sized, nr_base::specs::Reader::bind, nr_base::specs::Reader::pure, nr_base::specs::Reader::refuse, nr_base::specs::Reader::choose, nr_base::specs::Reader::from, nr_base::specs::Reader::with_fault))]
fn read_index(cur: &mut Cur, at: u32, len: u32) -> Result<u16, ClassFault>
    ensures { Gives is_free result cur.new (index_at at len cur.old) }
{
    let index = cur.u16()?;
    if len != 2 {
        return Err(ClassFault::AttrLength(at));
    }
    Ok(index)
}

/// An attribute of a field, behind those that gave `seen`.
#[tactic(auto, unfolding(crate::specs::AttributeReading::attribute_at, nr_base::specs::Reader::bind, nr_base::specs::Reader::pure, nr_base::specs::Reader::refuse, nr_base::specs::Reader::choose, nr_base::specs::Reader::from, nr_base::specs::Reader::with_fault))]
fn read_attribute(
    pool: &[PoolEntry],
    cur: &mut Cur,
    seen: Option<u16>,
) -> Result<Option<u16>, ClassFault>
    ensures { Gives is_free result cur.new (constant_value_at pool.now seen cur.old) }
{
    let at = cur.at();
    let name = cur.u16()?;
    if !is_text(pool, b"ConstantValue", name) {
        skip_contents(cur)?;
        return Ok(seen);
    }
    if seen.is_some() {
        return Err(ClassFault::DoubledAttr(at));
    }
    let len = cur.u32()?;
    Ok(Some(read_index(cur, at, len)?))
}

#[tactic(auto, using(nr_base::proofs::Loops::goes_on, nr_base::proofs::Loops::is_done, crate::proofs::Exits::fails_in))]
fn read_attributes(pool: &[PoolEntry], cur: &mut Cur, count: u16) -> Result<Option<u16>, ClassFault>
    ensures { Gives is_free result cur.new (times (constant_value_at pool.now) count None cur.old) }
{
    let mut seen = None;
    for _ in 0..count {
        seen = read_attribute(pool, cur, seen)?;
    }
    Ok(seen)
}

#[tactic(auto, unfolding(crate::specs::MemberReading::field_at, nr_base::specs::Reader::bind, nr_base::specs::Reader::pure, nr_base::specs::Reader::refuse, nr_base::specs::Reader::choose, nr_base::specs::Reader::from, nr_base::specs::Reader::with_fault))]
fn read_field(pool: &[PoolEntry], cur: &mut Cur) -> Result<Field, ClassFault>
    ensures { Gives is_free result cur.new (field_at pool.now cur.old) }
{
    let flags = cur.u16()?;
    let name = cur.u16()?;
    let desc = cur.u16()?;
    let count = cur.u16()?;
    let constant = read_attributes(pool, cur, count)?.unwrap_or(0);
    Ok(Field {
        flags,
        name,
        desc,
        constant,
    })
}

#[tactic(auto, unfolding(nr_base::specs::Reader::onto, nr_base::specs::Reader::bind, nr_base::specs::Reader::pure, nr_base::specs::Reader::refuse, nr_base::specs::Reader::choose, nr_base::specs::Reader::from, nr_base::specs::Reader::with_fault))]
fn field_onto(
    pool: &[PoolEntry],
    cur: &mut Cur,
    fields: &mut Items<Field>,
) -> Result<(), ClassFault>
    ensures { GivesBy is_free (λ _. fields.new) result cur.new
        (onto (field_at pool.now) fields.old cur.old) }
{
    fields.push(read_field(pool, cur)?)?;
    Ok(())
}

#[tactic(auto, using(nr_base::proofs::Loops::goes_on, nr_base::proofs::Loops::is_done, crate::proofs::Exits::fails_in))]
fn read_items(
    alloc: Global,
    pool: &[PoolEntry],
    cur: &mut Cur,
    count: u16,
) -> Result<Items<Field>, ClassFault>
    ensures { Gives is_free result cur.new (times (onto (field_at pool.now)) count [] cur.old) }
{
    let mut fields = Items::new(alloc);
    for _ in 0..count {
        field_onto(pool, cur, &mut fields)?;
    }
    Ok(fields)
}

/// A count and so many fields.
#[tactic(auto, unfolding(crate::specs::PoolReading::list_at, nr_base::specs::Reader::bind, nr_base::specs::Reader::pure, nr_base::specs::Reader::refuse, nr_base::specs::Reader::choose, nr_base::specs::Reader::from, nr_base::specs::Reader::with_fault))]
pub fn read_fields(
    alloc: Global,
    pool: &[PoolEntry],
    cur: &mut Cur,
) -> Result<Items<Field>, ClassFault>
    ensures { Gives is_free result cur.new (list_at (field_at pool.now) cur.old) }
{
    let count = cur.u16()?;
    read_items(alloc, pool, cur, count)
}
