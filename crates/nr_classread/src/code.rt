//! The code of methods (JVM Specification 4.7.3).

ghost use Rattle.std.specs.Prelude.{◌≡◌, [], None};
ghost use Rattle.nr_base.specs.Clauses.{Gives, GivesBy};
ghost use Rattle.nr_base.specs.Reader.{times, onto};
ghost use Rattle.nr_classread.specs.Faults.{is_free};
ghost use Rattle.nr_classread.specs.MemberReading.{handler_at, stack_map_table_at, code_contents_at, whole_code_at};
ghost use Rattle.nr_classread.specs.PoolReading.{list_at};

use crate::attribute::{is_text, skip_contents};
use crate::fault::ClassFault;
use nr_base::{Cur, Items};
use nr_prog::{Code, Handler, PoolEntry};
use std::alloc::Global;

#[tactic(auto, unfolding(crate::specs::MemberReading::handler_at, nr_base::specs::Reader::bind, nr_base::specs::Reader::pure, nr_base::specs::Reader::refuse, nr_base::specs::Reader::choose, nr_base::specs::Reader::from, nr_base::specs::Reader::with_fault))]
fn read_handler(cur: &mut Cur) -> Result<Handler, ClassFault>
    ensures { Gives is_free result cur.new (handler_at cur.old) }
{
    let start = cur.u16()?;
    let end = cur.u16()?;
    let handler = cur.u16()?;
    let catch_type = cur.u16()?;
    Ok(Handler {
        start,
        end,
        handler,
        catch_type,
    })
}

#[tactic(auto, unfolding(nr_base::specs::Reader::onto, nr_base::specs::Reader::bind, nr_base::specs::Reader::pure, nr_base::specs::Reader::refuse, nr_base::specs::Reader::choose, nr_base::specs::Reader::from, nr_base::specs::Reader::with_fault))]
fn handler_onto(cur: &mut Cur, handlers: &mut Items<Handler>) -> Result<(), ClassFault>
    ensures { GivesBy is_free (λ _. handlers.new) result cur.new
        (onto handler_at handlers.old cur.old) }
{
    handlers.push(read_handler(cur)?)?;
    Ok(())
}

#[tactic(auto, using(nr_base::proofs::Loops::goes_on, nr_base::proofs::Loops::is_done, crate::proofs::Exits::fails_in))]
fn read_items(alloc: Global, cur: &mut Cur, count: u16) -> Result<Items<Handler>, ClassFault>
    ensures { Gives is_free result cur.new (times (onto handler_at) count [] cur.old) }
{
    let mut handlers = Items::new(alloc);
    for _ in 0..count {
        handler_onto(cur, &mut handlers)?;
    }
    Ok(handlers)
}

#[tactic(auto, unfolding(crate::specs::PoolReading::list_at, nr_base::specs::Reader::bind, nr_base::specs::Reader::pure, nr_base::specs::Reader::refuse, nr_base::specs::Reader::choose, nr_base::specs::Reader::from, nr_base::specs::Reader::with_fault))]
fn read_handlers(alloc: Global, cur: &mut Cur) -> Result<Items<Handler>, ClassFault>
    ensures { Gives is_free result cur.new (list_at handler_at cur.old) }
{
    let count = cur.u16()?;
    read_items(alloc, cur, count)
}

/// An attribute of code, behind those that gave `seen`.
#[tactic(auto, unfolding(crate::specs::AttributeReading::attribute_at, nr_base::specs::Reader::bind, nr_base::specs::Reader::pure, nr_base::specs::Reader::refuse, nr_base::specs::Reader::choose, nr_base::specs::Reader::from, nr_base::specs::Reader::with_fault))]
fn read_attribute(
    alloc: Global,
    pool: &[PoolEntry],
    cur: &mut Cur,
    seen: Option<Items<u8>>,
) -> Result<Option<Items<u8>>, ClassFault>
    ensures { Gives is_free result cur.new (stack_map_table_at pool.now seen cur.old) }
{
    let at = cur.at();
    let name = cur.u16()?;
    if !is_text(pool, b"StackMapTable", name) {
        skip_contents(cur)?;
        return Ok(seen);
    }
    if seen.is_some() {
        return Err(ClassFault::DoubledAttr(at));
    }
    let len = cur.u32()?;
    let maps = cur.take(len as usize)?;
    Ok(Some(Items::of(alloc, maps)?))
}

#[tactic(auto, using(nr_base::proofs::Loops::goes_on, nr_base::proofs::Loops::is_done, crate::proofs::Exits::fails_in))]
fn read_attributes(
    alloc: Global,
    pool: &[PoolEntry],
    cur: &mut Cur,
    count: u16,
) -> Result<Option<Items<u8>>, ClassFault>
    ensures { Gives is_free result cur.new
        (times (stack_map_table_at pool.now) count None cur.old) }
{
    let mut seen = None;
    for _ in 0..count {
        seen = read_attribute(alloc, pool, cur, seen)?;
    }
    Ok(seen)
}

#[tactic(auto, unfolding(crate::specs::MemberReading::code_contents_at, nr_base::specs::Reader::bind, nr_base::specs::Reader::pure, nr_base::specs::Reader::refuse, nr_base::specs::Reader::choose, nr_base::specs::Reader::from, nr_base::specs::Reader::with_fault))]
fn read_contents(alloc: Global, pool: &[PoolEntry], cur: &mut Cur) -> Result<Code, ClassFault>
    ensures { Gives is_free result cur.new (code_contents_at pool.now cur.old) }
{
    let max_stack = cur.u16()?;
    let max_locals = cur.u16()?;
    let len = cur.u32()?;
    let bytes = cur.take(len as usize)?;
    let handlers = read_handlers(alloc, cur)?;
    let count = cur.u16()?;
    let maps = read_attributes(alloc, pool, cur, count)?;
    Ok(Code {
        max_stack,
        max_locals,
        bytes: Items::of(alloc, bytes)?,
        handlers,
        maps,
    })
}

/// The contents of a `Code`, which begins at the offset `at` and says that they have this length.
#[tactic(auto, unfolding(nr_base::specs::Reader::sized, nr_base::specs::Reader::bind, nr_base::specs::Reader::pure, nr_base::specs::Reader::refuse, nr_base::specs::Reader::choose, nr_base::specs::Reader::from, nr_base::specs::Reader::with_fault))]
pub fn read_code(
    alloc: Global,
    pool: &[PoolEntry],
    cur: &mut Cur,
    at: u32,
    len: u32,
) -> Result<Code, ClassFault>
    ensures { Gives is_free result cur.new (whole_code_at pool.now at len cur.old) }
{
    let before = cur.left();
    let code = read_contents(alloc, pool, cur)?;
    if u64::from(before) != u64::from(cur.left()) + u64::from(len) {
        return Err(ClassFault::AttrLength(at));
    }
    Ok(code)
}
