//! The types of frame maps (JVM Specification 4.7.4, verification_type_info).

ghost use Rattle.std.specs.Prelude.{◌≡◌, [], option_copied};
ghost use Rattle.nr_base.specs.Clauses.{Gives, GivesBy};
ghost use Rattle.nr_base.specs.Reader.{onto, times};
ghost use Rattle.nr_instrs.specs.Faults.{is_free};
ghost use Rattle.nr_code.specs.MapReading.{class_given, class_type_at, counted_types_at, map_type_at, map_types_at, type_by_at, uninit_at};

use nr_base::{Cur, Desc, Items, Shared};
use nr_instrs::{CodeFault, Starts, class_type};
use nr_prog::{Class, MapType};
use std::alloc::Global;

#[tactic(auto, unfolding(crate::specs::MapReading::class_given, nr_base::specs::Reader::bind, nr_base::specs::Reader::pure, nr_base::specs::Reader::refuse, nr_base::specs::Reader::choose, nr_base::specs::Reader::from, nr_base::specs::Reader::with_fault))]
fn object(at: u32, desc: Option<&Shared<Desc>>, cur: &mut Cur) -> Result<MapType, CodeFault>
    ensures { Gives is_free result cur.new (class_given at (option_copied desc.entry) cur.old) }
{
    match desc {
        Some(desc) => Ok(MapType::Object(desc.share()?)),
        None => Err(CodeFault::MapTag(at)),
    }
}

#[tactic(auto, unfolding(crate::specs::MapReading::class_type_at, crate::specs::MapReading::u2_at, nr_base::specs::Reader::bind, nr_base::specs::Reader::pure, nr_base::specs::Reader::refuse, nr_base::specs::Reader::choose, nr_base::specs::Reader::from, nr_base::specs::Reader::with_fault))]
fn read_object(class: &Class, at: u32, cur: &mut Cur) -> Result<MapType, CodeFault>
    ensures { Gives is_free result cur.new (class_type_at class.now.pool at cur.old) }
{
    let index = cur.u16()?;
    object(at, class_type(class, index), cur)
}

#[tactic(auto, unfolding(crate::specs::MapReading::uninit_at, crate::specs::MapReading::u2_at, nr_base::specs::Reader::bind, nr_base::specs::Reader::pure, nr_base::specs::Reader::refuse, nr_base::specs::Reader::choose, nr_base::specs::Reader::from, nr_base::specs::Reader::with_fault))]
fn read_uninit(starts: &Starts, at: u32, cur: &mut Cur) -> Result<MapType, CodeFault>
    ensures { Gives is_free result cur.new (uninit_at starts.now at cur.old) }
{
    let offset = cur.u16()?;
    if starts.is_new(offset) {
        Ok(MapType::Uninit(offset))
    } else {
        Err(CodeFault::MapTag(at))
    }
}

#[tactic(auto, unfolding(crate::specs::MapReading::type_by_at, nr_base::specs::Reader::bind, nr_base::specs::Reader::pure, nr_base::specs::Reader::refuse, nr_base::specs::Reader::choose, nr_base::specs::Reader::from, nr_base::specs::Reader::with_fault))]
fn read_by_tag(
    class: &Class,
    starts: &Starts,
    at: u32,
    tag: u8,
    cur: &mut Cur,
) -> Result<MapType, CodeFault>
    ensures { Gives is_free result cur.new (type_by_at class.now.pool starts.now at tag cur.old) }
{
    match tag {
        0 => Ok(MapType::Top),
        1 => Ok(MapType::Int),
        4 => Ok(MapType::Long),
        5 => Ok(MapType::Null),
        6 => Ok(MapType::UninitThis),
        7 => read_object(class, at, cur),
        8 => read_uninit(starts, at, cur),
        _ => Err(CodeFault::MapTag(at)),
    }
}

/// A type.
#[tactic(auto, unfolding(crate::specs::MapReading::map_type_at, crate::specs::MapReading::u1_at, nr_base::specs::Reader::bind, nr_base::specs::Reader::pure, nr_base::specs::Reader::refuse, nr_base::specs::Reader::choose, nr_base::specs::Reader::from, nr_base::specs::Reader::with_fault))]
pub fn read_type(class: &Class, starts: &Starts, cur: &mut Cur) -> Result<MapType, CodeFault>
    ensures { Gives is_free result cur.new (map_type_at class.now.pool starts.now cur.old) }
{
    let at = cur.at();
    let tag = cur.u8()?;
    read_by_tag(class, starts, at, tag, cur)
}

#[tactic(auto, unfolding(nr_base::specs::Reader::onto, nr_base::specs::Reader::bind, nr_base::specs::Reader::pure, nr_base::specs::Reader::refuse, nr_base::specs::Reader::choose, nr_base::specs::Reader::from, nr_base::specs::Reader::with_fault))]
fn type_onto(
    class: &Class,
    starts: &Starts,
    cur: &mut Cur,
    types: &mut Items<MapType>,
) -> Result<(), CodeFault>
    ensures { GivesBy is_free (λ _. types.new) result cur.new (onto (map_type_at class.now.pool starts.now) types.old cur.old) }
{
    types.push(read_type(class, starts, cur)?)?;
    Ok(())
}

/// So many types.
#[tactic(auto, using(nr_base::proofs::Loops::goes_on, nr_base::proofs::Loops::is_done, nr_instrs::proofs::Exits::fails_in), unfolding(crate::specs::MapReading::map_types_at))]
pub fn read_types(
    alloc: Global,
    class: &Class,
    starts: &Starts,
    count: u16,
    cur: &mut Cur,
) -> Result<Items<MapType>, CodeFault>
    ensures { Gives is_free result cur.new (map_types_at class.now.pool starts.now count cur.old) }
{
    let mut types = Items::new(alloc);
    for _ in 0..count {
        type_onto(class, starts, cur, &mut types)?;
    }
    Ok(types)
}

/// A count, and so many types.
#[tactic(auto, unfolding(crate::specs::MapReading::counted_types_at, crate::specs::MapReading::u2_at, nr_base::specs::Reader::bind, nr_base::specs::Reader::pure, nr_base::specs::Reader::refuse, nr_base::specs::Reader::choose, nr_base::specs::Reader::from, nr_base::specs::Reader::with_fault))]
pub fn read_counted(
    alloc: Global,
    class: &Class,
    starts: &Starts,
    cur: &mut Cur,
) -> Result<Items<MapType>, CodeFault>
    ensures { Gives is_free result cur.new (counted_types_at class.now.pool starts.now cur.old) }
{
    let count = cur.u16()?;
    read_types(alloc, class, starts, count, cur)
}
