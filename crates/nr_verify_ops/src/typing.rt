//! The typing rule of an instruction on a whole frame, which stays as it is.

ghost use Rattle.std.specs.Prelude.{◌≡◌, ◌<◌, length, Some};
ghost use Rattle.nr_linked.specs.declared.program.tables.MethodInfo.{MethodInfo};
ghost use Rattle.nr_linked.specs.Programs.{method_at};
ghost use Rattle.nr_linked.specs.Sites.{Site, site_at};
ghost use Rattle.nr_linked.specs.TypingRules.{type_op};
ghost use Rattle.nr_linked.specs.WellTyped.{mapped_frame};
ghost use Rattle.nr_verify_ops.specs.Answers.{IsTypedWith};
ghost use Rattle.nr_verify_ops.specs.Sites.{IsInstrOf};

use crate::error::OpError;
use crate::frame::Frame;
use crate::sites::site_at;
use nr_linked::{MethodId, MethodInfo, Program, VFrame};
use nr_prog::Instr;
use std::alloc::Global;

/// The frame that an instruction of the method leaves, from the frame before it. Where that lists fewer
/// local variables than the method has places, the others are `Top`.
///
/// # Errors
///
/// `Fault` with the first check of the instruction's rule that fails; `NoMemory` for want of memory.
pub fn type_op(
    alloc: Global,
    p: &Program,
    method: MethodId,
    instr: &Instr,
    frame: &VFrame,
) -> Result<VFrame, OpError>
    requires method { method < length p.now.methods }
    requires own { IsInstrOf p.now method instr.now }
    ensures { (m : MethodInfo) (s : Site) → method_at p.now method ≡ Some m → site_at m instr.now.at ≡ Some s
        → IsTypedWith result (type_op p.now m s (mapped_frame m frame.now)) }
{
    let info = p.method(method);
    type_instr(alloc, p, method, info, instr, frame)
}

/// The same with the method's entry.
fn type_instr(
    alloc: Global,
    p: &Program,
    id: MethodId,
    method: &MethodInfo,
    instr: &Instr,
    frame: &VFrame,
) -> Result<VFrame, OpError>
    requires there { method_at p.now id ≡ Some method.now }
    requires own { IsInstrOf p.now id instr.now }
    ensures { (s : Site) → site_at method.now instr.now.at ≡ Some s
        → IsTypedWith result (type_op p.now method.now s (mapped_frame method.now frame.now)) }
{
    let _tables = p.tables();
    let Some((_, found)) = site_at(method, instr.at) else {
        unreachable!()
    };
    let mut working = Frame::of_map(alloc, method, frame)?;
    if let Err(error) = working.type_op(p, method, instr, found) {
        return Err(error);
    }
    let left = working.into_frame()?;
    Ok(left)
}
