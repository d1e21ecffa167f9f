//! Calls, read.

ghost use Rattle.std.specs.Prelude.{◌≡◌, ◌<◌, ◌^◌, [], IfOk, Ok, length};
ghost use Rattle.nr_base.specs.Clauses.{Gives, GivesBy, GivesWhole};
ghost use Rattle.nr_base.specs.Reader.{times, onto};
ghost use Rattle.nr_message.specs.declared.message.Call.{Call as CallView};
ghost use Rattle.nr_message.specs.Faults.{is_free};
ghost use Rattle.nr_message.specs.Reading.{budget_at, value_at, arg_at, arg_list_at, call_at, call_of};
ghost use Rattle.nr_message.specs.Text.{call};

use crate::fault::MessageFault;
use crate::message::{Arg, Call, MAX_BUDGET};
use crate::read::part::{read_name, read_stream};
use nr_base::{Cur, Items};
use std::alloc::Global;

#[tactic(auto, unfolding(crate::specs::Reading::budget_at, nr_base::specs::Reader::bind, nr_base::specs::Reader::pure, nr_base::specs::Reader::refuse, nr_base::specs::Reader::choose, nr_base::specs::Reader::from, nr_base::specs::Reader::with_fault))]
fn read_budget(cur: &mut Cur) -> Result<u64, MessageFault>
    ensures { Gives is_free result cur.new (budget_at cur.old) }
{
    match cur.u64()? {
        budget @ 1..=MAX_BUDGET => Ok(budget),
        budget => Err(MessageFault::BudgetBad(budget)),
    }
}

/// What stands behind a kind, which stands at the offset `at`.
#[tactic(auto, unfolding(crate::specs::Reading::value_at, nr_base::specs::Reader::bind, nr_base::specs::Reader::pure, nr_base::specs::Reader::refuse, nr_base::specs::Reader::choose, nr_base::specs::Reader::from, nr_base::specs::Reader::with_fault))]
fn read_value(cur: &mut Cur, at: u32, kind: u8) -> Result<Arg, MessageFault>
    ensures { Gives is_free result cur.new (value_at at kind cur.old) }
{
    match kind {
        1 => Ok(Arg::Int(cur.u32()?.cast_signed())),
        2 => Ok(Arg::Long(cur.u64()?.cast_signed())),
        3 => Ok(Arg::Reference),
        _ => Err(MessageFault::ArgKind(at)),
    }
}

#[tactic(auto, unfolding(crate::specs::Reading::arg_at, nr_base::specs::Reader::bind, nr_base::specs::Reader::pure, nr_base::specs::Reader::refuse, nr_base::specs::Reader::choose, nr_base::specs::Reader::from, nr_base::specs::Reader::with_fault))]
fn read_arg(cur: &mut Cur) -> Result<Arg, MessageFault>
    ensures { Gives is_free result cur.new (arg_at cur.old) }
{
    let at = cur.at();
    let kind = cur.u8()?;
    read_value(cur, at, kind)
}

#[tactic(auto, unfolding(nr_base::specs::Reader::onto, nr_base::specs::Reader::bind, nr_base::specs::Reader::pure, nr_base::specs::Reader::refuse, nr_base::specs::Reader::choose, nr_base::specs::Reader::from, nr_base::specs::Reader::with_fault))]
fn arg_onto(cur: &mut Cur, args: &mut Items<Arg>) -> Result<(), MessageFault>
    ensures { GivesBy is_free (λ _. args.new) result cur.new (onto arg_at args.old cur.old) }
{
    args.push(read_arg(cur)?)?;
    Ok(())
}

#[tactic(auto, using(nr_base::proofs::Loops::goes_on, nr_base::proofs::Loops::is_done, crate::proofs::Exits::fails_in))]
fn read_items(alloc: Global, cur: &mut Cur, count: u8) -> Result<Items<Arg>, MessageFault>
    ensures { Gives is_free result cur.new (times (onto arg_at) count [] cur.old) }
{
    let mut args = Items::new(alloc);
    for _ in 0..count {
        arg_onto(cur, &mut args)?;
    }
    Ok(args)
}

#[tactic(auto, unfolding(crate::specs::Reading::arg_list_at, nr_base::specs::Reader::bind, nr_base::specs::Reader::pure, nr_base::specs::Reader::refuse, nr_base::specs::Reader::choose, nr_base::specs::Reader::from, nr_base::specs::Reader::with_fault))]
fn read_args(alloc: Global, cur: &mut Cur) -> Result<Items<Arg>, MessageFault>
    ensures { Gives is_free result cur.new (arg_list_at cur.old) }
{
    let count = cur.u8()?;
    read_items(alloc, cur, count)
}

#[tactic(auto, unfolding(crate::specs::Reading::call_at, nr_base::specs::Reader::bind, nr_base::specs::Reader::pure, nr_base::specs::Reader::refuse, nr_base::specs::Reader::choose, nr_base::specs::Reader::from, nr_base::specs::Reader::with_fault))]
fn read_parts(alloc: Global, cur: &mut Cur) -> Result<Call, MessageFault>
    ensures { Gives is_free result cur.new (call_at cur.old) }
{
    let number = cur.u32()?;
    let budget = read_budget(cur)?;
    let name = read_name(alloc, cur)?;
    let desc = read_name(alloc, cur)?;
    let args = read_args(alloc, cur)?;
    let stream = read_stream(alloc, cur)?;
    Ok(Call {
        number,
        budget,
        name,
        desc,
        args,
        stream,
    })
}

/// The call that a body spells.
///
/// # Errors
///
/// The first fault of the bytes from left to right: `Short`, `BudgetBad`, `NameBad`, `ArgKind`.
/// `NoMemory` for want of memory.
pub fn read_call(alloc: Global, body: &[u8]) -> Result<Call, MessageFault>
    requires { length body.now < 2 ^ 32 }
    ensures found { IfOk result (λ m. call m body.now) }
    ensures only { (m : CallView) → call m body.now → GivesWhole is_free result (Ok m) }
    ensures exact { GivesWhole is_free result (call_of body.now) }
{
    read_parts(alloc, &mut Cur::new(body))
}
