//! The operands of instructions (JVM Specification 6.5).

ghost use Rattle.std.specs.Prelude.{◌≡◌, ◌<◌, ◌^◌};
ghost use Rattle.std.specs.Int.{w16, w32};
ghost use Rattle.nr_base.specs.Clauses.{Gives};
ghost use Rattle.nr_instrs.specs.Faults.{is_free};
ghost use Rattle.nr_instrs.specs.OperandReading.{jump_at, operands_at};

mod plain;
mod pool_index;
mod switch;

use crate::fault::CodeFault;
use crate::number::{read_branch, read_far_branch};
use crate::raw::Operands;
use nr_base::Cur;
use nr_optable::{Row, Shape};
use nr_prog::Class;
use plain::read_plain;
use std::alloc::Global;
use switch::{read_lookup, read_table};

#[tactic(auto, unfolding(crate::specs::OperandReading::jump_at, nr_base::specs::Reader::bind, nr_base::specs::Reader::pure, nr_base::specs::Reader::refuse, nr_base::specs::Reader::choose, nr_base::specs::Reader::from, nr_base::specs::Reader::with_fault))]
fn read_jump(at: u32, cur: &mut Cur) -> Result<Operands, CodeFault>
    ensures { Gives is_free result cur.new (jump_at w16 at cur.old) }
{
    Ok(Operands::Branch(read_branch(cur, at)?))
}

#[tactic(auto, unfolding(crate::specs::OperandReading::jump_at, nr_base::specs::Reader::bind, nr_base::specs::Reader::pure, nr_base::specs::Reader::refuse, nr_base::specs::Reader::choose, nr_base::specs::Reader::from, nr_base::specs::Reader::with_fault))]
fn read_far_jump(at: u32, cur: &mut Cur) -> Result<Operands, CodeFault>
    ensures { Gives is_free result cur.new (jump_at w32 at cur.old) }
{
    Ok(Operands::Branch(read_far_branch(cur, at)?))
}

/// The operands behind the code of an instruction at the offset `at`.
#[tactic(auto, unfolding(crate::specs::OperandReading::operands_at, nr_base::specs::Reader::bind, nr_base::specs::Reader::pure, nr_base::specs::Reader::refuse, nr_base::specs::Reader::choose, nr_base::specs::Reader::from, nr_base::specs::Reader::with_fault))]
pub fn read_operands(
    alloc: Global,
    class: &Class,
    row: &Row,
    at: u32,
    shape: Shape,
    cur: &mut Cur,
) -> Result<Operands, CodeFault>
    requires { at < 2 ^ 16 }
    ensures { Gives is_free result cur.new (operands_at class.now.pool row.now at shape cur.old) }
{
    match shape {
        Shape::B2 => read_jump(at, cur),
        Shape::B4 => read_far_jump(at, cur),
        Shape::Tab => read_table(alloc, at, cur),
        Shape::Look => read_lookup(alloc, at, cur),
        shape => Ok(Operands::Plain(read_plain(class, row, at, shape, cur)?)),
    }
}
