//! Operands that name an entry of the constant pool (JVM Specification 6.5).

ghost use Rattle.std.specs.Prelude.{◌≡◌, if◌then◌else◌};
ghost use Rattle.std.specs.Int.{w8, w16};
ghost use Rattle.nr_base.specs.Clauses.{Gives};
ghost use Rattle.nr_prog.specs.Pool.{is_wide, names};
ghost use Rattle.nr_prog.specs.BodyNames.{is_of_long};
ghost use Rattle.nr_instrs.specs.Faults.{is_free};
ghost use Rattle.nr_instrs.specs.NameTests.{is_kept, is_single, is_used};
ghost use Rattle.nr_instrs.specs.OperandReading.{checked_at, dims_at, index_at, interface_at};

use crate::fault::CodeFault;
use crate::number::{read_u8, read_u16};
use crate::pool::{
    is_array_class, is_class, is_element_class, is_field, is_interface_method, is_method,
    is_single_constant,
};
use nr_base::Cur;
use nr_optable::{Family, Kinds, Letter, Row};
use nr_prog::{Args, Class, PoolEntry};

fn pushes_long(pushes: Kinds) -> bool
    ensures { result ≡ is_of_long pushes }
{
    matches!(
        pushes,
        Kinds::Letters {
            first: Letter::J,
            ..
        }
    )
}

fn is_twofold(class: &Class, index: u16) -> bool
    ensures { result ≡ names is_wide class.now.pool index }
{
    matches!(
        class.entry(index),
        Some(PoolEntry::Long(_) | PoolEntry::Double(_))
    )
}

/// Whether the entry at an index is a constant that the instruction can push.
fn can_push(class: &Class, pushes: Kinds, index: u16) -> bool
    ensures { result ≡ (if is_of_long pushes then names is_wide class.now.pool index else names (is_single class.now.pool) class.now.pool index) }
{
    if pushes_long(pushes) {
        is_twofold(class, index)
    } else {
        is_single_constant(class, index)
    }
}

/// Whether the instruction can name the entry at an index.
#[tactic(auto, unfolding(crate::specs::NameTests::is_used))]
fn can_name(class: &Class, row: &Row, index: u16) -> bool
    ensures { result ≡ is_used class.now.pool row.now.family row.now.pushes index }
{
    match row.family {
        Family::F8 => can_push(class, row.pushes, index),
        Family::F30 | Family::F31 => is_field(class, index),
        Family::F32 => is_method(class, index),
        Family::F33 | Family::F37 => is_class(class, index),
        Family::F34 => is_element_class(class, index),
        _ => false,
    }
}

/// Whether the profile has the entry at an index for the instruction.
#[tactic(auto, unfolding(crate::specs::NameTests::is_kept))]
fn has_in_profile(class: &Class, family: Family, index: u16) -> bool
    ensures { result ≡ is_kept class.now.pool family index }
{
    match family {
        Family::F8 => matches!(
            class.entry(index),
            Some(PoolEntry::Integer(_) | PoolEntry::Long(_))
        ),
        _ => true,
    }
}

#[tactic(auto, unfolding(crate::specs::OperandReading::checked_at, nr_base::specs::Reader::bind, nr_base::specs::Reader::pure, nr_base::specs::Reader::refuse, nr_base::specs::Reader::choose, nr_base::specs::Reader::from, nr_base::specs::Reader::with_fault))]
fn checked(class: &Class, row: &Row, at: u32, index: u16, cur: &mut Cur) -> Result<Args, CodeFault>
    ensures { Gives is_free result cur.new (checked_at class.now.pool row.now at index cur.old) }
{
    if !can_name(class, row, index) {
        return Err(CodeFault::PoolUse(at));
    }
    if !has_in_profile(class, row.family, index) {
        return Err(CodeFault::OutOfProfile(at, row.code));
    }
    Ok(Args::Pool(index))
}

/// An index of one byte.
#[tactic(auto, unfolding(crate::specs::OperandReading::index_at, nr_base::specs::Reader::bind, nr_base::specs::Reader::pure, nr_base::specs::Reader::refuse, nr_base::specs::Reader::choose, nr_base::specs::Reader::from, nr_base::specs::Reader::with_fault))]
pub fn read_short_index(class: &Class, row: &Row, at: u32, cur: &mut Cur) -> Result<Args, CodeFault>
    ensures { Gives is_free result cur.new (index_at w8 class.now.pool row.now at cur.old) }
{
    let index = read_u8(cur, at)?;
    checked(class, row, at, u16::from(index), cur)
}

/// An index of two bytes.
#[tactic(auto, unfolding(crate::specs::OperandReading::index_at, nr_base::specs::Reader::bind, nr_base::specs::Reader::pure, nr_base::specs::Reader::refuse, nr_base::specs::Reader::choose, nr_base::specs::Reader::from, nr_base::specs::Reader::with_fault))]
pub fn read_index(class: &Class, row: &Row, at: u32, cur: &mut Cur) -> Result<Args, CodeFault>
    ensures { Gives is_free result cur.new (index_at w16 class.now.pool row.now at cur.old) }
{
    let index = read_u16(cur, at)?;
    checked(class, row, at, index, cur)
}

/// The operands of invokeinterface.
#[tactic(auto, unfolding(crate::specs::OperandReading::interface_at, nr_base::specs::Reader::bind, nr_base::specs::Reader::pure, nr_base::specs::Reader::refuse, nr_base::specs::Reader::choose, nr_base::specs::Reader::from, nr_base::specs::Reader::with_fault))]
pub fn read_interface(class: &Class, at: u32, cur: &mut Cur) -> Result<Args, CodeFault>
    ensures { Gives is_free result cur.new (interface_at class.now.pool at cur.old) }
{
    let index = read_u16(cur, at)?;
    let count = read_u8(cur, at)?;
    let zero = read_u8(cur, at)?;
    if !is_interface_method(class, count, index) || zero != 0 {
        return Err(CodeFault::PoolUse(at));
    }
    Ok(Args::Pool(index))
}

/// The operands of multianewarray.
#[tactic(auto, unfolding(crate::specs::OperandReading::dims_at, nr_base::specs::Reader::bind, nr_base::specs::Reader::pure, nr_base::specs::Reader::refuse, nr_base::specs::Reader::choose, nr_base::specs::Reader::from, nr_base::specs::Reader::with_fault))]
pub fn read_dims(class: &Class, at: u32, cur: &mut Cur) -> Result<Args, CodeFault>
    ensures { Gives is_free result cur.new (dims_at class.now.pool at cur.old) }
{
    let index = read_u16(cur, at)?;
    let dims = read_u8(cur, at)?;
    if !is_array_class(class, index, dims) {
        return Err(CodeFault::PoolUse(at));
    }
    Ok(Args::Dims(index, dims))
}
