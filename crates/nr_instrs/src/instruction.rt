//! Instructions, one behind the other (JVM Specification 6.5).

ghost use Rattle.std.specs.Prelude.{◌≡◌, ◌<◌, ◌^◌, [], Ok, length, OnOk, All};
ghost use Rattle.nr_base.specs.Clauses.{Gives, GivesBy};
ghost use Rattle.nr_base.specs.Reader.{onto, to_end};
ghost use Rattle.nr_prog.specs.BodyOperands.{row_of};
ghost use Rattle.nr_instrs.specs.Faults.{is_free};
ghost use Rattle.nr_instrs.specs.InstrReading.{instr_at, listed_at, row_at};

use crate::fault::CodeFault;
use crate::number::read_u8;
use crate::operands::read_operands;
use crate::raw::RawInstr;
use nr_base::{Cur, Items};
use nr_optable::{Row, row};
use nr_prog::Class;
use std::alloc::Global;

// The highest code of an instruction (JVM Specification 7).
const MAX_CODE: u8 = 201;

#[tactic(auto, unfolding(crate::specs::InstrReading::listed_at, nr_base::specs::Reader::bind, nr_base::specs::Reader::pure, nr_base::specs::Reader::refuse, nr_base::specs::Reader::choose, nr_base::specs::Reader::from, nr_base::specs::Reader::with_fault))]
fn listed(at: u32, code: u8, row: Option<Row>, cur: &mut Cur) -> Result<Row, CodeFault>
    ensures { Gives is_free result cur.new (listed_at at code row cur.old) }
{
    match row {
        Some(row) => Ok(row),
        None if code > MAX_CODE => Err(CodeFault::UnknownOp(at)),
        None => Err(CodeFault::OutOfProfile(at, code)),
    }
}

#[tactic(auto, unfolding(crate::specs::InstrReading::row_at, nr_base::specs::Reader::bind, nr_base::specs::Reader::pure, nr_base::specs::Reader::refuse, nr_base::specs::Reader::choose, nr_base::specs::Reader::from, nr_base::specs::Reader::with_fault))]
fn read_row(at: u32, cur: &mut Cur) -> Result<Row, CodeFault>
    ensures { Gives is_free result cur.new (row_at at cur.old) }
{
    let code = read_u8(cur, at)?;
    listed(at, code, row(code), cur)
}

#[tactic(auto, unfolding(crate::specs::InstrReading::instr_at, nr_base::specs::Reader::bind, nr_base::specs::Reader::pure, nr_base::specs::Reader::refuse, nr_base::specs::Reader::choose, nr_base::specs::Reader::from, nr_base::specs::Reader::with_fault))]
fn read_instr(alloc: Global, class: &Class, cur: &mut Cur) -> Result<RawInstr, CodeFault>
    requires { cur.old.total < 2 ^ 16 }
    ensures { Gives is_free result cur.new (instr_at class.now.pool cur.old) }
{
    let at = cur.at();
    let row = read_row(at, cur)?;
    let operands = read_operands(alloc, class, &row, at, row.shape, cur)?;
    Ok(RawInstr {
        at: at as u16,
        row,
        operands,
    })
}

#[tactic(auto, unfolding(nr_base::specs::Reader::onto, nr_base::specs::Reader::bind, nr_base::specs::Reader::pure, nr_base::specs::Reader::refuse, nr_base::specs::Reader::choose, nr_base::specs::Reader::from, nr_base::specs::Reader::with_fault))]
fn instr_onto(
    alloc: Global,
    class: &Class,
    cur: &mut Cur,
    instrs: &mut Items<RawInstr>,
) -> Result<(), CodeFault>
    requires { cur.old.total < 2 ^ 16 }
    ensures { GivesBy is_free (λ _. instrs.new) result cur.new (onto (instr_at class.now.pool) instrs.old cur.old) }
{
    instrs.push(read_instr(alloc, class, cur)?)?;
    Ok(())
}

/// The instructions up to the end of the code.
#[tactic(auto, using(crate::proofs::Loops::goes_on, crate::proofs::Loops::fails, crate::proofs::Loops::ends, crate::proofs::Loops::smaller, crate::proofs::Loops::keeps_total))]
pub fn read_instrs(
    alloc: Global,
    class: &Class,
    cur: &mut Cur,
) -> Result<Items<RawInstr>, CodeFault>
    requires { cur.old.total < 2 ^ 16 }
    ensures { Gives is_free result cur.new (to_end (onto (instr_at class.now.pool)) [] cur.old) }
{
    let mut instrs = Items::new(alloc);
    while !cur.is_empty() {
        instr_onto(alloc, class, cur, &mut instrs)?;
    }
    Ok(instrs)
}
