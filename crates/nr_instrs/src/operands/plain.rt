//! The operands of instructions that have no branch (JVM Specification 6.5).

ghost use Rattle.std.specs.Prelude.{◌≡◌, IfOk};
ghost use Rattle.std.specs.Int.{w8, w16};
ghost use Rattle.nr_base.specs.Clauses.{Gives};
ghost use Rattle.nr_prog.specs.BodyOperands.{is_primitive, shape_of};
ghost use Rattle.nr_instrs.specs.Faults.{is_free};
ghost use Rattle.nr_instrs.specs.OperandReading.{increment_at, local_at, num_at, plain_at, primitive_at, wide_at, widened_at};

use super::pool_index::{read_dims, read_index, read_interface, read_short_index};
use crate::fault::CodeFault;
use crate::number::{read_i8, read_i16, read_u8, read_u16};
use nr_base::Cur;
use nr_optable::{Row, Shape, row};
use nr_prog::{Args, Class};

#[tactic(auto, unfolding(crate::specs::OperandReading::local_at, nr_base::specs::Reader::bind, nr_base::specs::Reader::pure, nr_base::specs::Reader::refuse, nr_base::specs::Reader::choose, nr_base::specs::Reader::from, nr_base::specs::Reader::with_fault))]
fn read_local(at: u32, cur: &mut Cur) -> Result<Args, CodeFault>
    ensures { Gives is_free result cur.new (local_at at cur.old) }
{
    Ok(Args::Local(u16::from(read_u8(cur, at)?)))
}

#[tactic(auto, unfolding(crate::specs::OperandReading::num_at, nr_base::specs::Reader::bind, nr_base::specs::Reader::pure, nr_base::specs::Reader::refuse, nr_base::specs::Reader::choose, nr_base::specs::Reader::from, nr_base::specs::Reader::with_fault))]
fn read_byte(at: u32, cur: &mut Cur) -> Result<Args, CodeFault>
    ensures { Gives is_free result cur.new (num_at w8 at cur.old) }
{
    Ok(Args::Num(i32::from(read_i8(cur, at)?)))
}

#[tactic(auto, unfolding(crate::specs::OperandReading::num_at, nr_base::specs::Reader::bind, nr_base::specs::Reader::pure, nr_base::specs::Reader::refuse, nr_base::specs::Reader::choose, nr_base::specs::Reader::from, nr_base::specs::Reader::with_fault))]
fn read_short(at: u32, cur: &mut Cur) -> Result<Args, CodeFault>
    ensures { Gives is_free result cur.new (num_at w16 at cur.old) }
{
    Ok(Args::Num(i32::from(read_i16(cur, at)?)))
}

#[tactic(auto, unfolding(crate::specs::OperandReading::increment_at, nr_base::specs::Reader::bind, nr_base::specs::Reader::pure, nr_base::specs::Reader::refuse, nr_base::specs::Reader::choose, nr_base::specs::Reader::from, nr_base::specs::Reader::with_fault))]
fn read_increment(at: u32, cur: &mut Cur) -> Result<Args, CodeFault>
    ensures { Gives is_free result cur.new (increment_at at cur.old) }
{
    let local = read_u8(cur, at)?;
    let by = read_i8(cur, at)?;
    Ok(Args::Inc(u16::from(local), i16::from(by)))
}

#[tactic(auto, unfolding(crate::specs::OperandReading::primitive_at, nr_base::specs::Reader::bind, nr_base::specs::Reader::pure, nr_base::specs::Reader::refuse, nr_base::specs::Reader::choose, nr_base::specs::Reader::from, nr_base::specs::Reader::with_fault))]
fn read_primitive(row: &Row, at: u32, cur: &mut Cur) -> Result<Args, CodeFault>
    ensures { Gives is_free result cur.new (primitive_at row.now at cur.old) }
{
    let code = read_u8(cur, at)?;
    match code {
        4 | 5 | 8 | 9 | 10 | 11 => Ok(Args::Prim(code)),
        _ => Err(CodeFault::OutOfProfile(at, row.code)),
    }
}

fn shape(code: u8) -> Option<Shape>
    ensures { result ≡ shape_of code }
{
    row(code).map(|row| row.shape)
}

#[tactic(auto, unfolding(crate::specs::OperandReading::widened_at, nr_base::specs::Reader::bind, nr_base::specs::Reader::pure, nr_base::specs::Reader::refuse, nr_base::specs::Reader::choose, nr_base::specs::Reader::from, nr_base::specs::Reader::with_fault))]
fn read_widened(
    row: &Row,
    at: u32,
    code: u8,
    shape: Option<Shape>,
    cur: &mut Cur,
) -> Result<Args, CodeFault>
    ensures { Gives is_free result cur.new (widened_at row.now at code shape cur.old) }
{
    match shape {
        Some(Shape::L1) => Ok(Args::Wide(code, read_u16(cur, at)?)),
        Some(Shape::Inc) => {
            let local = read_u16(cur, at)?;
            Ok(Args::WideInc(local, read_i16(cur, at)?))
        }
        _ => Err(CodeFault::OutOfProfile(at, row.code)),
    }
}

#[tactic(auto, unfolding(crate::specs::OperandReading::wide_at, nr_base::specs::Reader::bind, nr_base::specs::Reader::pure, nr_base::specs::Reader::refuse, nr_base::specs::Reader::choose, nr_base::specs::Reader::from, nr_base::specs::Reader::with_fault))]
fn read_wide(row: &Row, at: u32, cur: &mut Cur) -> Result<Args, CodeFault>
    ensures { Gives is_free result cur.new (wide_at row.now at cur.old) }
{
    let code = read_u8(cur, at)?;
    read_widened(row, at, code, shape(code), cur)
}

/// The operands of an instruction that has no branch, by its shape.
#[tactic(auto, unfolding(crate::specs::OperandReading::plain_at, nr_base::specs::Reader::bind, nr_base::specs::Reader::pure, nr_base::specs::Reader::refuse, nr_base::specs::Reader::choose, nr_base::specs::Reader::from, nr_base::specs::Reader::with_fault))]
pub fn read_plain(
    class: &Class,
    row: &Row,
    at: u32,
    shape: Shape,
    cur: &mut Cur,
) -> Result<Args, CodeFault>
    ensures { Gives is_free result cur.new (plain_at class.now.pool row.now at shape cur.old) }
{
    match shape {
        Shape::L1 => read_local(at, cur),
        Shape::S1 => read_byte(at, cur),
        Shape::S2 => read_short(at, cur),
        Shape::P1 => read_short_index(class, row, at, cur),
        Shape::P2 => read_index(class, row, at, cur),
        Shape::Inc => read_increment(at, cur),
        Shape::Prim => read_primitive(row, at, cur),
        Shape::Itf => read_interface(class, at, cur),
        Shape::Mul => read_dims(class, at, cur),
        Shape::Wide => read_wide(row, at, cur),
        _ => Ok(Args::Empty),
    }
}
