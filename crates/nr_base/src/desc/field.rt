//! The type of a field, a parameter or a result.

ghost use Rattle.std.specs.Prelude.{◌≡◌, ◌<◌, ◌^◌, length};
ghost use Rattle.nr_base.specs.Clauses.{Gives, none_free};
ghost use Rattle.nr_base.specs.DescReading.{is_free, byte_at, base_at, type_at, desc_at};

use crate::cur::Cur;
use crate::desc::class::read_class;
use crate::desc::fault::DescFault;
use crate::desc::types::{Desc, DescBase};
use std::alloc::Global;

#[tactic(auto, unfolding(crate::specs::DescReading::byte_at, crate::specs::Reader::with_fault))]
pub fn read_byte(cur: &mut Cur) -> Result<u8, DescFault>
    ensures { Gives none_free result cur.new (byte_at cur.old) }
{
    Ok(cur.u8()?)
}

/// The type that begins with a letter other than `[`, which stands at `at`.
#[tactic(auto, unfolding(crate::specs::DescReading::base_at, crate::specs::Reader::bind, crate::specs::Reader::pure, crate::specs::Reader::refuse, crate::specs::Reader::choose))]
fn read_base(alloc: Global, cur: &mut Cur, at: u32, letter: u8) -> Result<DescBase, DescFault>
    requires { length cur.old.rest < 2 ^ 16 }
    ensures { Gives is_free result cur.new (base_at at letter cur.old) }
{
    match letter {
        b'Z' => Ok(DescBase::Bool),
        b'B' => Ok(DescBase::Byte),
        b'C' => Ok(DescBase::Char),
        b'S' => Ok(DescBase::Short),
        b'I' => Ok(DescBase::Int),
        b'J' => Ok(DescBase::Long),
        b'L' => Ok(DescBase::Object(read_class(alloc, cur)?)),
        b'F' | b'D' => Err(DescFault::FloatDesc(at)),
        _ => Err(DescFault::BadDesc(at)),
    }
}

/// The type that begins with a letter, which stands at `at`.
#[tactic(auto, using(crate::proofs::DescTakes::byte_shorter, crate::proofs::DescLoops::dims_go_on, crate::proofs::DescLoops::dims_stop, crate::proofs::DescLoops::dims_too_many, crate::proofs::DescLoops::dims_end, crate::proofs::DescLoops::base_fails))]
pub fn read_type(
    alloc: Global,
    cur: &mut Cur,
    mut at: u32,
    mut letter: u8,
) -> Result<Desc, DescFault>
    requires { length cur.old.rest < 2 ^ 16 }
    ensures { Gives is_free result cur.new (type_at 255 at letter cur.old) }
{
    let mut dims = 0;
    while letter == b'[' {
        if dims == u8::MAX {
            return Err(DescFault::BadDesc(at));
        }
        dims += 1;
        at = cur.at();
        letter = read_byte(cur)?;
    }
    let base = read_base(alloc, cur, at, letter)?;
    Ok(Desc { dims, base })
}

/// A whole descriptor of a field.
#[tactic(auto, unfolding(crate::specs::DescReading::desc_at, crate::specs::Reader::bind, crate::specs::Reader::from), using(crate::proofs::DescTakes::byte_shorter))]
pub fn read_desc(alloc: Global, cur: &mut Cur) -> Result<Desc, DescFault>
    requires { length cur.old.rest < 2 ^ 16 }
    ensures { Gives is_free result cur.new (desc_at cur.old) }
{
    let at = cur.at();
    let letter = read_byte(cur)?;
    read_type(alloc, cur, at, letter)
}
