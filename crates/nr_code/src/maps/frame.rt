//! Frame maps, each after the one before (JVM Specification 4.7.4, stack_map_frame).

ghost use Rattle.std.specs.Prelude.{◌≡◌, ◌≤◌, ◌<◌, ◌^◌, ◌-◌, ◌++◌, IfOk, length, take};
ghost use Rattle.nr_base.specs.Clauses.{Gives, GivesBy, GivesWhole};
ghost use Rattle.nr_base.specs.Reader.{times};
ghost use Rattle.nr_prog.specs.BodyMaps.{at_entry, dropped as dropped_by, has_one_operand as holds_one, is_frame_tag as is_legal};
ghost use Rattle.nr_instrs.specs.Faults.{is_free};
ghost use Rattle.nr_code.specs.MapReading.{delta_at, frame_at, frame_types_at, frames_of, full_at, maps_in, placed_at};

use super::copies::copied;
use super::room::Room;
use super::types::{read_counted, read_type, read_types};
use nr_base::{Cur, Items};
use nr_instrs::{CodeFault, Starts};
use nr_prog::{Class, FrameMap, MapType};
use std::alloc::{AllocError, Global};
use std::mem::replace;

fn is_frame_tag(tag: u8) -> bool
    ensures { result ≡ is_legal tag }
{
    tag < 128 || tag >= 247
}

/// How many of the last locals a chop leaves out.
fn dropped(tag: u8) -> usize
    ensures { result ≡ dropped_by tag }
{
    if (248..=250).contains(&tag) {
        usize::from(251 - tag)
    } else {
        0
    }
}

fn has_one_operand(tag: u8) -> bool
    ensures { result ≡ holds_one tag }
{
    (64..128).contains(&tag) || tag == 247
}

#[tactic(auto, unfolding(crate::specs::MapReading::delta_at, crate::specs::MapReading::u2_at, nr_base::specs::Reader::bind, nr_base::specs::Reader::pure, nr_base::specs::Reader::refuse, nr_base::specs::Reader::choose, nr_base::specs::Reader::from, nr_base::specs::Reader::with_fault))]
fn read_delta(tag: u8, cur: &mut Cur) -> Result<u16, CodeFault>
    ensures { Gives is_free result cur.new (delta_at tag cur.old) }
{
    match tag {
        0..64 => Ok(u16::from(tag)),
        64..128 => Ok(u16::from(tag - 64)),
        _ => Ok(cur.u16()?),
    }
}

#[tactic(auto, unfolding(crate::specs::MapReading::full_at, nr_base::specs::Reader::bind, nr_base::specs::Reader::pure, nr_base::specs::Reader::refuse, nr_base::specs::Reader::choose, nr_base::specs::Reader::from, nr_base::specs::Reader::with_fault))]
fn read_full(
    alloc: Global,
    class: &Class,
    starts: &Starts,
    cur: &mut Cur,
) -> Result<(Items<MapType>, Items<MapType>), CodeFault>
    ensures { Gives is_free result cur.new (full_at class.now.pool starts.now cur.old) }
{
    let locals = read_counted(alloc, class, starts, cur)?;
    let stack = read_counted(alloc, class, starts, cur)?;
    Ok((locals, stack))
}

/// The types, and others behind them.
fn joined(types: Items<MapType>, more: Items<MapType>) -> Result<Items<MapType>, AllocError>
    ensures { IfOk result (λ joined. joined ≡ types ++ more) }
{
    let mut all = types.into_vec();
    let mut more = more.into_vec();
    all.append(&mut more)?;
    Ok(Items::from_vec(all))
}

/// The types without so many of the last.
fn chopped(types: Items<MapType>, count: usize) -> Items<MapType>
    ensures { result ≡ take (length types - count) types }
{
    let mut kept = types.into_vec();
    kept.truncate(kept.len().saturating_sub(count));
    Items::from_vec(kept)
}

/// The types of the locals and of the operands, after these locals.
#[tactic(auto, unfolding(crate::specs::MapReading::frame_types_at, nr_base::specs::Reader::bind, nr_base::specs::Reader::pure, nr_base::specs::Reader::refuse, nr_base::specs::Reader::choose, nr_base::specs::Reader::from, nr_base::specs::Reader::with_fault))]
fn read_frame_types(
    alloc: Global,
    class: &Class,
    starts: &Starts,
    tag: u8,
    before: Items<MapType>,
    cur: &mut Cur,
) -> Result<(Items<MapType>, Items<MapType>), CodeFault>
    ensures { Gives is_free result cur.new (frame_types_at class.now.pool starts.now tag before cur.old) }
{
    let mut stack = Items::new(alloc);
    if has_one_operand(tag) {
        stack.push(read_type(class, starts, cur)?)?;
        return Ok((before, stack));
    }
    if tag == 255 {
        return read_full(alloc, class, starts, cur);
    }
    if tag >= 252 {
        let more = read_types(alloc, class, starts, u16::from(tag - 251), cur)?;
        return Ok((joined(before, more)?, stack));
    }
    Ok((chopped(before, dropped(tag)), stack))
}

/// A frame map whose tag stands at `at`, for this offset in the code, behind those in `maps`;
/// `locals` are those of the last, and then its own; its types are taken out of the room. It gives the offset from which the next one's
/// delta counts.
#[tactic(auto, unfolding(crate::specs::MapReading::placed_at, crate::specs::MapReading::starts_at, nr_base::specs::Reader::bind, nr_base::specs::Reader::pure, nr_base::specs::Reader::refuse, nr_base::specs::Reader::choose, nr_base::specs::Reader::from, nr_base::specs::Reader::with_fault))]
fn read_placed(
    alloc: Global,
    class: &Class,
    starts: &Starts,
    at: u32,
    tag: u8,
    offset: u32,
    cur: &mut Cur,
    locals: &mut Items<MapType>,
    maps: &mut Items<FrameMap>,
    room: &mut Room,
) -> Result<u32, CodeFault>
    ensures gives { GivesBy is_free (λ next. record { next = next; locals = locals.new; maps = maps.new }) result cur.new (placed_at class.now.pool starts.now locals.old maps.old at tag offset cur.old) }
    ensures next { IfOk result (λ next. next ≤ 2 ^ 16) }
{
    if offset > 0xFFFF || !starts.is_start(offset as u16) {
        return Err(CodeFault::MapOrder(at));
    }
    let before = replace(locals, Items::new(alloc));
    let (own, stack) = read_frame_types(alloc, class, starts, tag, before, cur)?;
    room.take(own.len())?;
    room.take(stack.len())?;
    maps.push(FrameMap {
        at: offset as u16,
        locals: copied(alloc, own.as_slice())?,
        stack,
    })?;
    *locals = own;
    Ok(offset + 1)
}

/// A frame map, behind those in `maps`, where its delta counts from `next`.
#[tactic(auto, unfolding(crate::specs::MapReading::frame_at, crate::specs::MapReading::u1_at, nr_base::specs::Reader::bind, nr_base::specs::Reader::pure, nr_base::specs::Reader::refuse, nr_base::specs::Reader::choose, nr_base::specs::Reader::from, nr_base::specs::Reader::with_fault))]
fn read_frame(
    alloc: Global,
    class: &Class,
    starts: &Starts,
    next: u32,
    cur: &mut Cur,
    locals: &mut Items<MapType>,
    maps: &mut Items<FrameMap>,
    room: &mut Room,
) -> Result<u32, CodeFault>
    requires { next ≤ 2 ^ 16 }
    ensures gives { GivesBy is_free (λ n. record { next = n; locals = locals.new; maps = maps.new }) result cur.new (frame_at class.now.pool starts.now (record { next = next; locals = locals.old; maps = maps.old }) cur.old) }
    ensures next { IfOk result (λ n. n ≤ 2 ^ 16) }
{
    let at = cur.at();
    let tag = cur.u8()?;
    if !is_frame_tag(tag) || dropped(tag) > locals.len() {
        return Err(CodeFault::MapTag(at));
    }
    let offset = next + u32::from(read_delta(tag, cur)?);
    read_placed(
        alloc, class, starts, at, tag, offset, cur, locals, maps, room,
    )
}

#[tactic(auto, using(nr_base::proofs::Loops::goes_on, nr_base::proofs::Loops::is_done, nr_instrs::proofs::Exits::fails_in))]
fn read_items(
    alloc: Global,
    class: &Class,
    starts: &Starts,
    count: u16,
    cur: &mut Cur,
    locals: &mut Items<MapType>,
    room: &mut Room,
) -> Result<(u32, Items<FrameMap>), CodeFault>
    ensures { GivesBy is_free (λ r. record { next = r.0; locals = locals.new; maps = r.1 }) result cur.new (times (frame_at class.now.pool starts.now) count (at_entry locals.old) cur.old) }
{
    let mut next = 0;
    let mut maps = Items::new(alloc);
    for _ in 0..count {
        next = read_frame(alloc, class, starts, next, cur, locals, &mut maps, room)?;
    }
    Ok((next, maps))
}

/// The frame maps in the contents of a `StackMapTable`, of which the first builds on these locals.
#[tactic(auto, unfolding(crate::specs::MapReading::frames_at, crate::specs::MapReading::u2_at, nr_base::specs::Reader::whole, nr_base::specs::Reader::bind, nr_base::specs::Reader::pure, nr_base::specs::Reader::refuse, nr_base::specs::Reader::choose, nr_base::specs::Reader::from, nr_base::specs::Reader::with_fault))]
pub fn read_frames(
    alloc: Global,
    class: &Class,
    starts: &Starts,
    locals: Items<MapType>,
    contents: &[u8],
    room: &mut Room,
) -> Result<Items<FrameMap>, CodeFault>
    requires { length contents.now < 2 ^ 32 }
    ensures { GivesWhole is_free result (maps_in (frames_of class.now.pool starts.now locals contents.now)) }
{
    let mut cur = Cur::new(contents);
    let mut locals = locals;
    let count = cur.u16()?;
    let (_, maps) = read_items(alloc, class, starts, count, &mut cur, &mut locals, room)?;
    if !cur.is_empty() {
        return Err(CodeFault::MapTag(cur.at()));
    }
    Ok(maps)
}
