//! Replies, written.

ghost use Rattle.std.specs.Prelude.{◌≡◌, ◌<◌, ◌^◌, ◌++◌, ◌∷◌, IfOk, Ok, OnOk, length};
ghost use Rattle.nr_message.specs.Reading.{reply_of};
ghost use Rattle.nr_message.specs.ServeFaults.{number_of};
ghost use Rattle.nr_message.specs.Text.{reply};
ghost use Rattle.nr_message.specs.Whole.{IsWord, IsFault, IsWritable, IsBody, IsReply};
ghost use Rattle.nr_message.specs.Writing.{word_text, printed_text, told_text, body_text, reply_text};

use crate::message::{Reply, ReplyBody};
use crate::serve_fault::ServeFault;
use crate::write::part::put_name;
use nr_base::{Put, ResultWord};
use std::alloc::{AllocError, Global};

fn put_word(put: &mut Put, word: ResultWord) -> Result<(), AllocError>
    ensures text { OnOk result (put.new ≡ put.old ++ word_text word) }
    ensures fits { OnOk result (IsWord word) }
{
    match word {
        ResultWord::Void => put.u8(0),
        ResultWord::Int(n) => {
            put.u8(1)?;
            put.u32(n.cast_unsigned())
        }
        ResultWord::Long(n) => {
            put.u8(2)?;
            put.u64(n.cast_unsigned())
        }
        ResultWord::Reference => put.u8(3),
    }
}

/// Writes a length and so many bytes.
fn put_printed(put: &mut Put, printed: &[u8]) -> Result<(), AllocError>
    requires { length printed.now < 2 ^ 32 }
    ensures { OnOk result (put.new ≡ put.old ++ printed_text printed.now) }
{
    put.u32(printed.len() as u32)?;
    put.bytes(printed)
}

/// Writes the number of a fault and what it tells.
fn put_fault(put: &mut Put, fault: &ServeFault) -> Result<(), AllocError>
    ensures text { OnOk result (put.new ≡ put.old ++ number_of fault.now ∷ told_text fault.now) }
    ensures fits { OnOk result (IsFault fault.now) }
{
    put.u8(fault.number())?;
    match fault {
        ServeFault::Thrown(class) | ServeFault::NotSendable(class) => put_name(put, class),
        ServeFault::BadRequest(code) => put.u8(*code),
        _ => Ok(()),
    }
}

fn put_body(put: &mut Put, body: &ReplyBody) -> Result<(), AllocError>
    requires { IsWritable body.now }
    ensures text { OnOk result (put.new ≡ put.old ++ body_text body.now) }
    ensures fits { OnOk result (IsBody body.now) }
{
    match body {
        ReplyBody::Returned {
            printed,
            result,
            count,
            stream,
        } => {
            put.u8(0)?;
            put_printed(put, printed.as_slice())?;
            put_word(put, *result)?;
            put.u32(*count)?;
            put.bytes(stream.as_slice())
        }
        ReplyBody::Refused(fault) => put_fault(put, fault),
    }
}

fn put_reply(put: &mut Put, m: &Reply) -> Result<(), AllocError>
    requires { IsWritable m.now.body }
    ensures text { OnOk result (put.new ≡ put.old ++ reply_text m.now) }
    ensures fits { OnOk result (IsReply m.now) }
{
    put.u32(m.number)?;
    put_body(put, &m.body)
}

fn written(alloc: Global, m: &Reply) -> Result<Vec<u8>, AllocError>
    requires { IsWritable m.now.body }
    ensures text { IfOk result (λ bytes. bytes.items ≡ reply_text m.now) }
    ensures fits { IfOk result (λ bytes. IsReply m.now) }
{
    let mut put = Put::new(alloc);
    put_reply(&mut put, m)?;
    Ok(put.done())
}

/// The bytes of a reply, which are read as the reply again. The error comes only for want of memory.
pub fn reply_bytes(alloc: Global, m: &Reply) -> Result<Vec<u8>, AllocError>
    requires { IsWritable m.now.body }
    ensures spelled { IfOk result (λ bytes. reply m.now bytes.items) }
    ensures back { IfOk result (λ bytes. reply_of bytes.items ≡ Ok m.now) }
{
    written(alloc, m)
}
