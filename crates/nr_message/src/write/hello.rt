//! Hellos, written.

ghost use Rattle.std.specs.Prelude.{◌≡◌, ◌++◌, IfOk, Ok, OnOk};
ghost use Rattle.nr_message.specs.Reading.{hello_of};
ghost use Rattle.nr_message.specs.Text.{hello};
ghost use Rattle.nr_message.specs.Whole.{IsHello};
ghost use Rattle.nr_message.specs.Writing.{hello_text};

use crate::message::Hello;
use crate::write::part::put_name;
use nr_base::Put;
use std::alloc::{AllocError, Global};

fn put_hello(put: &mut Put, m: &Hello) -> Result<(), AllocError>
    ensures text { OnOk result (put.new ≡ put.old ++ hello_text m.now) }
    ensures fits { OnOk result (IsHello m.now) }
{
    put.u16(m.version)?;
    put.bytes(&m.digest)?;
    put_name(put, &m.service)
}

fn written(alloc: Global, m: &Hello) -> Result<Vec<u8>, AllocError>
    ensures text { IfOk result (λ bytes. bytes.items ≡ hello_text m.now) }
    ensures fits { IfOk result (λ bytes. IsHello m.now) }
{
    let mut put = Put::new(alloc);
    put_hello(&mut put, m)?;
    Ok(put.done())
}

/// The bytes of a hello, which are read as the hello again. The error comes only for want of memory.
pub fn hello_bytes(alloc: Global, m: &Hello) -> Result<Vec<u8>, AllocError>
    ensures spelled { IfOk result (λ bytes. hello m.now bytes.items) }
    ensures back { IfOk result (λ bytes. hello_of bytes.items ≡ Ok m.now) }
{
    written(alloc, m)
}
