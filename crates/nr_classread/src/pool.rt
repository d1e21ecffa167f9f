//! The constant pool (JVM Specification 4.4).

ghost use Rattle.std.specs.Prelude.{◌≡◌, [], false};
ghost use Rattle.nr_base.specs.Clauses.{Gives, GivesBy};
ghost use Rattle.nr_base.specs.Reader.{times};
ghost use Rattle.nr_prog.specs.Pool.{is_wide};
ghost use Rattle.nr_classread.specs.Faults.{is_free};
ghost use Rattle.nr_classread.specs.PoolReading.{utf8_at, pair_at, body_at, entry_at, next_at, pool_at};

use crate::fault::ClassFault;
use nr_base::{Cur, Items};
use nr_prog::PoolEntry;
use std::alloc::Global;

#[tactic(auto, unfolding(crate::specs::PoolReading::utf8_at, nr_base::specs::Reader::bind, nr_base::specs::Reader::pure, nr_base::specs::Reader::refuse, nr_base::specs::Reader::choose, nr_base::specs::Reader::from, nr_base::specs::Reader::with_fault))]
fn read_utf8(alloc: Global, cur: &mut Cur) -> Result<Items<u8>, ClassFault>
    ensures { Gives is_free result cur.new (utf8_at cur.old) }
{
    let at = cur.at();
    let len = cur.u16()?;
    match cur.take(usize::from(len)) {
        Ok(bytes) => Ok(Items::of(alloc, bytes)?),
        Err(_) => Err(ClassFault::Short(at)),
    }
}

#[tactic(auto, unfolding(crate::specs::PoolReading::pair_at, nr_base::specs::Reader::bind, nr_base::specs::Reader::pure, nr_base::specs::Reader::refuse, nr_base::specs::Reader::choose, nr_base::specs::Reader::from, nr_base::specs::Reader::with_fault))]
fn read_pair(cur: &mut Cur) -> Result<(u16, u16), ClassFault>
    ensures { Gives is_free result cur.new (pair_at cur.old) }
{
    let a = cur.u16()?;
    let b = cur.u16()?;
    Ok((a, b))
}

/// What stands behind a tag, which stands at the offset `at`.
#[tactic(auto, unfolding(crate::specs::PoolReading::body_at, nr_base::specs::Reader::bind, nr_base::specs::Reader::pure, nr_base::specs::Reader::refuse, nr_base::specs::Reader::choose, nr_base::specs::Reader::from, nr_base::specs::Reader::with_fault))]
fn read_body(alloc: Global, cur: &mut Cur, at: u32, tag: u8) -> Result<PoolEntry, ClassFault>
    ensures { Gives is_free result cur.new (body_at at tag cur.old) }
{
    match tag {
        1 => Ok(PoolEntry::Utf8(read_utf8(alloc, cur)?)),
        3 => Ok(PoolEntry::Integer(cur.u32()?.cast_signed())),
        4 => Ok(PoolEntry::Float(cur.u32()?)),
        5 => Ok(PoolEntry::Long(cur.u64()?.cast_signed())),
        6 => Ok(PoolEntry::Double(cur.u64()?)),
        7 => Ok(PoolEntry::Class(cur.u16()?)),
        8 => Ok(PoolEntry::Str(cur.u16()?)),
        9 => {
            let (class, member) = read_pair(cur)?;
            Ok(PoolEntry::FieldRef(class, member))
        }
        10 => {
            let (class, member) = read_pair(cur)?;
            Ok(PoolEntry::MethodRef(class, member))
        }
        11 => {
            let (class, member) = read_pair(cur)?;
            Ok(PoolEntry::InterfaceMethodRef(class, member))
        }
        12 => {
            let (name, desc) = read_pair(cur)?;
            Ok(PoolEntry::NameAndType(name, desc))
        }
        _ => Err(ClassFault::PoolTag(at, tag)),
    }
}

#[tactic(auto, unfolding(crate::specs::PoolReading::entry_at, nr_base::specs::Reader::bind, nr_base::specs::Reader::pure, nr_base::specs::Reader::refuse, nr_base::specs::Reader::choose, nr_base::specs::Reader::from, nr_base::specs::Reader::with_fault))]
fn read_entry(alloc: Global, cur: &mut Cur) -> Result<PoolEntry, ClassFault>
    ensures { Gives is_free result cur.new (entry_at cur.old) }
{
    let at = cur.at();
    let tag = cur.u8()?;
    read_body(alloc, cur, at, tag)
}

fn takes_two(entry: &PoolEntry) -> bool
    ensures { result ≡ is_wide entry.now }
{
    matches!(entry, PoolEntry::Long(_) | PoolEntry::Double(_))
}

/// Puts the entry of the next index to the pool, and says whether it is a long or a double.
#[tactic(auto, unfolding(crate::specs::PoolReading::next_at, nr_base::specs::Reader::bind, nr_base::specs::Reader::pure, nr_base::specs::Reader::refuse, nr_base::specs::Reader::choose, nr_base::specs::Reader::from, nr_base::specs::Reader::with_fault))]
fn read_next(
    alloc: Global,
    cur: &mut Cur,
    pool: &mut Items<PoolEntry>,
    is_behind_wide: bool,
) -> Result<bool, ClassFault>
    ensures { GivesBy is_free (λ wide. (pool.new, wide)) result cur.new
        (next_at (pool.old, is_behind_wide) cur.old) }
{
    if is_behind_wide {
        pool.push(PoolEntry::Unused)?;
        Ok(false)
    } else {
        let entry = read_entry(alloc, cur)?;
        let is_wide = takes_two(&entry);
        pool.push(entry)?;
        Ok(is_wide)
    }
}

#[tactic(auto, using(nr_base::proofs::Loops::goes_on, nr_base::proofs::Loops::is_done, crate::proofs::Exits::fails_in))]
fn read_entries(
    alloc: Global,
    cur: &mut Cur,
    count: u16,
) -> Result<(Items<PoolEntry>, bool), ClassFault>
    ensures { Gives is_free result cur.new (times next_at count ([], false) cur.old) }
{
    let mut pool = Items::new(alloc);
    let mut is_behind_wide = false;
    for _ in 0..count {
        is_behind_wide = read_next(alloc, cur, &mut pool, is_behind_wide)?;
    }
    Ok((pool, is_behind_wide))
}

/// The pool's count, which is one more than its entries, and the entries.
#[tactic(auto, unfolding(crate::specs::PoolReading::pool_at, nr_base::specs::Reader::bind, nr_base::specs::Reader::pure, nr_base::specs::Reader::refuse, nr_base::specs::Reader::choose, nr_base::specs::Reader::from, nr_base::specs::Reader::with_fault))]
pub fn read_pool(alloc: Global, cur: &mut Cur) -> Result<Items<PoolEntry>, ClassFault>
    ensures { Gives is_free result cur.new (pool_at cur.old) }
{
    let count = cur.u16()?;
    let (pool, _) = read_entries(alloc, cur, count.saturating_sub(1))?;
    Ok(pool)
}
