//! Calls, written.

ghost use Rattle.std.specs.Prelude.{◌≡◌, ◌<◌, ◌≤◌, ◌^◌, ◌++◌, IfOk, Ok, OnOk, length};
ghost use Rattle.std.specs.List.{AllByRecursion};
ghost use Rattle.nr_message.specs.Reading.{call_of};
ghost use Rattle.nr_message.specs.Text.{call};
ghost use Rattle.nr_message.specs.Whole.{IsName, IsArg, IsCall};
ghost use Rattle.nr_message.specs.Writing.{arg_text, args_text, name_text, head_text, call_text};

use crate::message::{Arg, Call, MAX_BUDGET};
use crate::write::part::put_name;
use nr_base::{Name, Put};
use std::alloc::{AllocError, Global};

fn put_arg(put: &mut Put, arg: Arg) -> Result<(), AllocError>
    ensures text { OnOk result (put.new ≡ put.old ++ arg_text arg) }
    ensures fits { OnOk result (IsArg arg) }
{
    match arg {
        Arg::Int(n) => {
            put.u8(1)?;
            put.u32(n.cast_unsigned())
        }
        Arg::Long(n) => {
            put.u8(2)?;
            put.u64(n.cast_unsigned())
        }
        Arg::Reference => put.u8(3),
    }
}

fn put_args(put: &mut Put, args: &[Arg]) -> Result<(), AllocError>
    requires { length args.now ≤ 255 }
    ensures text { OnOk result (put.new ≡ put.old ++ args_text args.now) }
    ensures fits { OnOk result (AllByRecursion IsArg args.now) }
{
    put.u8(args.len() as u8)?;
    for arg in args {
        put_arg(put, *arg)?;
    }
    Ok(())
}

fn put_method(put: &mut Put, name: &Name, desc: &Name) -> Result<(), AllocError>
    ensures text { OnOk result (put.new ≡ put.old ++ (name_text name.now ++ name_text desc.now)) }
    ensures name { OnOk result (IsName name.now) }
    ensures desc { OnOk result (IsName desc.now) }
{
    put_name(put, name)?;
    put_name(put, desc)
}

/// Writes what stands before the arguments.
fn put_head(put: &mut Put, m: &Call) -> Result<(), AllocError>
    ensures text { OnOk result (put.new ≡ put.old ++ head_text m.now) }
    ensures number { OnOk result (m.now.number < 2 ^ 32) }
    ensures name { OnOk result (IsName m.now.name) }
    ensures desc { OnOk result (IsName m.now.desc) }
{
    put.u32(m.number)?;
    put.u64(m.budget)?;
    put_method(put, &m.name, &m.desc)
}

fn put_call(put: &mut Put, m: &Call) -> Result<(), AllocError>
    requires least { 1 ≤ m.now.budget }
    requires most { m.now.budget ≤ MAX_BUDGET }
    requires few { length m.now.args ≤ 255 }
    ensures text { OnOk result (put.new ≡ put.old ++ call_text m.now) }
    ensures fits { OnOk result (IsCall m.now) }
{
    put_head(put, m)?;
    put_args(put, m.args.as_slice())?;
    put.bytes(m.stream.as_slice())
}

fn written(alloc: Global, m: &Call) -> Result<Vec<u8>, AllocError>
    requires least { 1 ≤ m.now.budget }
    requires most { m.now.budget ≤ MAX_BUDGET }
    requires few { length m.now.args ≤ 255 }
    ensures text { IfOk result (λ bytes. bytes.items ≡ call_text m.now) }
    ensures fits { IfOk result (λ bytes. IsCall m.now) }
{
    let mut put = Put::new(alloc);
    put_call(&mut put, m)?;
    Ok(put.done())
}

/// The bytes of a call, which are read as the call again. The error comes only for want of memory.
pub fn call_bytes(alloc: Global, m: &Call) -> Result<Vec<u8>, AllocError>
    requires least { 1 ≤ m.now.budget }
    requires most { m.now.budget ≤ MAX_BUDGET }
    requires few { length m.now.args ≤ 255 }
    ensures spelled { IfOk result (λ bytes. call m.now bytes.items) }
    ensures back { IfOk result (λ bytes. call_of bytes.items ≡ Ok m.now) }
{
    written(alloc, m)
}
