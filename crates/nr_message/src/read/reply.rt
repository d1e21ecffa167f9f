//! Replies, read.

ghost use Rattle.std.specs.Prelude.{◌≡◌, ◌<◌, ◌^◌, IfOk, Ok, length};
ghost use Rattle.nr_base.specs.Clauses.{Gives, GivesWhole};
ghost use Rattle.nr_message.specs.declared.message.Reply.{Reply as ReplyView};
ghost use Rattle.nr_message.specs.Faults.{is_free};
ghost use Rattle.nr_message.specs.Reading.{word_at, result_word_at, printed_at, returned_at, fault_at, outcome_at, reply_body_at, reply_at, reply_of};
ghost use Rattle.nr_message.specs.Text.{reply};

use crate::fault::MessageFault;
use crate::message::{Reply, ReplyBody};
use crate::read::part::{read_name, read_stream};
use crate::serve_fault::ServeFault;
use nr_base::{Cur, Items, ResultWord};
use std::alloc::Global;

/// What stands behind a result's kind, which stands at the offset `at`.
#[tactic(auto, unfolding(crate::specs::Reading::word_at, nr_base::specs::Reader::bind, nr_base::specs::Reader::pure, nr_base::specs::Reader::refuse, nr_base::specs::Reader::choose, nr_base::specs::Reader::from, nr_base::specs::Reader::with_fault))]
fn read_word(cur: &mut Cur, at: u32, kind: u8) -> Result<ResultWord, MessageFault>
    ensures { Gives is_free result cur.new (word_at at kind cur.old) }
{
    match kind {
        0 => Ok(ResultWord::Void),
        1 => Ok(ResultWord::Int(cur.u32()?.cast_signed())),
        2 => Ok(ResultWord::Long(cur.u64()?.cast_signed())),
        3 => Ok(ResultWord::Reference),
        _ => Err(MessageFault::Outcome(at)),
    }
}

#[tactic(auto, unfolding(crate::specs::Reading::result_word_at, nr_base::specs::Reader::bind, nr_base::specs::Reader::pure, nr_base::specs::Reader::refuse, nr_base::specs::Reader::choose, nr_base::specs::Reader::from, nr_base::specs::Reader::with_fault))]
fn read_result(cur: &mut Cur) -> Result<ResultWord, MessageFault>
    ensures { Gives is_free result cur.new (result_word_at cur.old) }
{
    let at = cur.at();
    let kind = cur.u8()?;
    read_word(cur, at, kind)
}

/// A length and so many bytes.
#[tactic(auto, unfolding(crate::specs::Reading::printed_at, nr_base::specs::Reader::bind, nr_base::specs::Reader::pure, nr_base::specs::Reader::refuse, nr_base::specs::Reader::choose, nr_base::specs::Reader::from, nr_base::specs::Reader::with_fault))]
fn read_printed(alloc: Global, cur: &mut Cur) -> Result<Items<u8>, MessageFault>
    ensures { Gives is_free result cur.new (printed_at cur.old) }
{
    let len = cur.u32()?;
    Ok(Items::of(alloc, cur.take(len as usize)?)?)
}

#[tactic(auto, unfolding(crate::specs::Reading::returned_at, nr_base::specs::Reader::bind, nr_base::specs::Reader::pure, nr_base::specs::Reader::refuse, nr_base::specs::Reader::choose, nr_base::specs::Reader::from, nr_base::specs::Reader::with_fault))]
fn read_returned(alloc: Global, cur: &mut Cur) -> Result<ReplyBody, MessageFault>
    ensures { Gives is_free result cur.new (returned_at cur.old) }
{
    let printed = read_printed(alloc, cur)?;
    let result = read_result(cur)?;
    let count = cur.u32()?;
    let stream = read_stream(alloc, cur)?;
    Ok(ReplyBody::Returned {
        printed,
        result,
        count,
        stream,
    })
}

/// What stands behind an outcome that is a fault's number and stands at the offset `at`.
#[tactic(auto, unfolding(crate::specs::Reading::fault_at, nr_base::specs::Reader::bind, nr_base::specs::Reader::pure, nr_base::specs::Reader::refuse, nr_base::specs::Reader::choose, nr_base::specs::Reader::from, nr_base::specs::Reader::with_fault))]
fn read_fault(
    alloc: Global,
    cur: &mut Cur,
    at: u32,
    outcome: u8,
) -> Result<ServeFault, MessageFault>
    ensures { Gives is_free result cur.new (fault_at at outcome cur.old) }
{
    match outcome {
        1 => Ok(ServeFault::NoSuchMethod),
        2 => Ok(ServeFault::Thrown(read_name(alloc, cur)?)),
        3 => Ok(ServeFault::BudgetSpent),
        4 => Ok(ServeFault::TooDeep),
        5 => Ok(ServeFault::HeapFull),
        6 => Ok(ServeFault::NotSendable(read_name(alloc, cur)?)),
        7 => Ok(ServeFault::ReplyTooLong),
        8 => Ok(ServeFault::OutputTooLong),
        9 => Ok(ServeFault::BadRequest(cur.u8()?)),
        10 => Ok(ServeFault::NoMemory),
        _ => Err(MessageFault::Outcome(at)),
    }
}

/// What stands behind an outcome, which stands at the offset `at`.
#[tactic(auto, unfolding(crate::specs::Reading::outcome_at, nr_base::specs::Reader::bind, nr_base::specs::Reader::pure, nr_base::specs::Reader::refuse, nr_base::specs::Reader::choose, nr_base::specs::Reader::from, nr_base::specs::Reader::with_fault))]
fn read_outcome(
    alloc: Global,
    cur: &mut Cur,
    at: u32,
    outcome: u8,
) -> Result<ReplyBody, MessageFault>
    ensures { Gives is_free result cur.new (outcome_at at outcome cur.old) }
{
    match outcome {
        0 => read_returned(alloc, cur),
        outcome => Ok(ReplyBody::Refused(read_fault(alloc, cur, at, outcome)?)),
    }
}

#[tactic(auto, unfolding(crate::specs::Reading::reply_body_at, nr_base::specs::Reader::bind, nr_base::specs::Reader::pure, nr_base::specs::Reader::refuse, nr_base::specs::Reader::choose, nr_base::specs::Reader::from, nr_base::specs::Reader::with_fault))]
fn read_body(alloc: Global, cur: &mut Cur) -> Result<ReplyBody, MessageFault>
    ensures { Gives is_free result cur.new (reply_body_at cur.old) }
{
    let at = cur.at();
    let outcome = cur.u8()?;
    read_outcome(alloc, cur, at, outcome)
}

#[tactic(auto, unfolding(crate::specs::Reading::reply_at, nr_base::specs::Reader::whole, nr_base::specs::Reader::bind, nr_base::specs::Reader::pure, nr_base::specs::Reader::refuse, nr_base::specs::Reader::choose, nr_base::specs::Reader::from, nr_base::specs::Reader::with_fault))]
fn read_whole(alloc: Global, body: &[u8]) -> Result<Reply, MessageFault>
    requires { length body.now < 2 ^ 32 }
    ensures { GivesWhole is_free result (reply_of body.now) }
{
    let mut cur = Cur::new(body);
    let number = cur.u32()?;
    let body = read_body(alloc, &mut cur)?;
    if !cur.is_empty() {
        return Err(MessageFault::Trailing(cur.at()));
    }
    Ok(Reply { number, body })
}

/// The reply that a body spells.
///
/// # Errors
///
/// The first fault of the bytes from left to right: `Short`, `Outcome`, `NameBad`, `Trailing` (behind a
/// refusal). `NoMemory` for want of memory.
pub fn read_reply(alloc: Global, body: &[u8]) -> Result<Reply, MessageFault>
    requires { length body.now < 2 ^ 32 }
    ensures found { IfOk result (λ m. reply m body.now) }
    ensures only { (m : ReplyView) → reply m body.now → GivesWhole is_free result (Ok m) }
    ensures exact { GivesWhole is_free result (reply_of body.now) }
{
    read_whole(alloc, body)
}
