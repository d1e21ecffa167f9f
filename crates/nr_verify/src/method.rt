//! The checks of a method.

ghost use Rattle.std.specs.Prelude.{◌≡◌, Some};
ghost use Rattle.nr_linked.specs.Programs.{method_at};
ghost use Rattle.nr_linked.specs.TypingFaults.{first_fault, first_in};
ghost use Rattle.nr_verify.specs.Walking.{IsFirst};

use crate::entry::{argument_types, entry_frame};
use crate::fault::MethodFault;
use crate::walk::check_instrs;
use nr_linked::{MethodId, MethodInfo, OpFault, Program};
use nr_prog::Body;
use nr_types::total_size;
use std::alloc::Global;

/// The first check of a method with this code that fails: of its places, then of its instructions.
fn check_body(
    alloc: Global,
    p: &Program,
    id: MethodId,
    method: &MethodInfo,
    body: &Body,
) -> Result<(), MethodFault>
    requires there { method_at p.now id ≡ Some method.now }
    requires body { method.now.body ≡ Some body.now }
    ensures { IsFirst result (first_in p.now method.now body.now) }
{
    let _tables = p.tables();
    let types = argument_types(alloc, p, method)?;
    if total_size(types.as_slice()) > u128::from(method.max_locals) {
        return Err(MethodFault::Op(0, OpFault::LocalRange(method.max_locals)));
    }
    let entry = entry_frame(alloc, p, method, types.as_slice())?;
    check_instrs(alloc, p, method, body, entry)
}

/// The first check of a method that fails; a method without code has none.
pub(crate) fn check_method(
    alloc: Global,
    p: &Program,
    id: MethodId,
    method: &MethodInfo,
) -> Result<(), MethodFault>
    requires { method_at p.now id ≡ Some method.now }
    ensures { IsFirst result (first_fault p.now method.now) }
{
    match &method.body {
        Some(body) => check_body(alloc, p, id, method, body),
        None => Ok(()),
    }
}
