//! Methods (JVM Specification 4.6).

ghost use Rattle.std.specs.Prelude.{◌≡◌, [], None};
ghost use Rattle.nr_base.specs.Clauses.{Gives, GivesBy};
ghost use Rattle.nr_base.specs.Reader.{times, onto};
ghost use Rattle.nr_classread.specs.Faults.{is_free};
ghost use Rattle.nr_classread.specs.MemberReading.{code_at, method_at};
ghost use Rattle.nr_classread.specs.PoolReading.{list_at};

use crate::attribute::{is_text, skip_contents};
use crate::code::read_code;
use crate::fault::ClassFault;
use nr_base::{Cur, Items};
use nr_prog::{Code, Method, PoolEntry};
use std::alloc::Global;

/// An attribute of a method, behind those that gave `seen`.
#[tactic(auto, unfolding(crate::specs::AttributeReading::attribute_at, nr_base::specs::Reader::bind, nr_base::specs::Reader::pure, nr_base::specs::Reader::refuse, nr_base::specs::Reader::choose, nr_base::specs::Reader::from, nr_base::specs::Reader::with_fault))]
fn read_attribute(
    alloc: Global,
    pool: &[PoolEntry],
    cur: &mut Cur,
    seen: Option<Code>,
) -> Result<Option<Code>, ClassFault>
    ensures { Gives is_free result cur.new (code_at pool.now seen cur.old) }
{
    let at = cur.at();
    let name = cur.u16()?;
    if !is_text(pool, b"Code", name) {
        skip_contents(cur)?;
        return Ok(seen);
    }
    if seen.is_some() {
        return Err(ClassFault::DoubledAttr(at));
    }
    let len = cur.u32()?;
    Ok(Some(read_code(alloc, pool, cur, at, len)?))
}

#[tactic(auto, using(nr_base::proofs::Loops::goes_on, nr_base::proofs::Loops::is_done, crate::proofs::Exits::fails_in))]
fn read_attributes(
    alloc: Global,
    pool: &[PoolEntry],
    cur: &mut Cur,
    count: u16,
) -> Result<Option<Code>, ClassFault>
    ensures { Gives is_free result cur.new (times (code_at pool.now) count None cur.old) }
{
    let mut seen = None;
    for _ in 0..count {
        seen = read_attribute(alloc, pool, cur, seen)?;
    }
    Ok(seen)
}

#[tactic(auto, unfolding(crate::specs::MemberReading::method_at, nr_base::specs::Reader::bind, nr_base::specs::Reader::pure, nr_base::specs::Reader::refuse, nr_base::specs::Reader::choose, nr_base::specs::Reader::from, nr_base::specs::Reader::with_fault))]
fn read_method(alloc: Global, pool: &[PoolEntry], cur: &mut Cur) -> Result<Method, ClassFault>
    ensures { Gives is_free result cur.new (method_at pool.now cur.old) }
{
    let flags = cur.u16()?;
    let name = cur.u16()?;
    let desc = cur.u16()?;
    let count = cur.u16()?;
    let code = read_attributes(alloc, pool, cur, count)?;
    Ok(Method {
        flags,
        name,
        desc,
        code,
    })
}

#[tactic(auto, unfolding(nr_base::specs::Reader::onto, nr_base::specs::Reader::bind, nr_base::specs::Reader::pure, nr_base::specs::Reader::refuse, nr_base::specs::Reader::choose, nr_base::specs::Reader::from, nr_base::specs::Reader::with_fault))]
fn method_onto(
    alloc: Global,
    pool: &[PoolEntry],
    cur: &mut Cur,
    methods: &mut Items<Method>,
) -> Result<(), ClassFault>
    ensures { GivesBy is_free (λ _. methods.new) result cur.new
        (onto (method_at pool.now) methods.old cur.old) }
{
    methods.push(read_method(alloc, pool, cur)?)?;
    Ok(())
}

#[tactic(auto, using(nr_base::proofs::Loops::goes_on, nr_base::proofs::Loops::is_done, crate::proofs::Exits::fails_in))]
fn read_items(
    alloc: Global,
    pool: &[PoolEntry],
    cur: &mut Cur,
    count: u16,
) -> Result<Items<Method>, ClassFault>
    ensures { Gives is_free result cur.new (times (onto (method_at pool.now)) count [] cur.old) }
{
    let mut methods = Items::new(alloc);
    for _ in 0..count {
        method_onto(alloc, pool, cur, &mut methods)?;
    }
    Ok(methods)
}

/// A count and so many methods.
#[tactic(auto, unfolding(crate::specs::PoolReading::list_at, nr_base::specs::Reader::bind, nr_base::specs::Reader::pure, nr_base::specs::Reader::refuse, nr_base::specs::Reader::choose, nr_base::specs::Reader::from, nr_base::specs::Reader::with_fault))]
pub fn read_methods(
    alloc: Global,
    pool: &[PoolEntry],
    cur: &mut Cur,
) -> Result<Items<Method>, ClassFault>
    ensures { Gives is_free result cur.new (list_at (method_at pool.now) cur.old) }
{
    let count = cur.u16()?;
    read_items(alloc, pool, cur, count)
}
