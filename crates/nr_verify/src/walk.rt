//! The checks of a method's instructions, by their offsets. One frame goes through them in place.

ghost use Rattle.std.specs.Prelude.{◌≡◌, ◌≤◌, ℕ, IsTrue, None, Option, Some, length};
ghost use Rattle.nr_linked.specs.Sites.{first_offset};
ghost use Rattle.nr_linked.specs.Suited.{is_suited};
ghost use Rattle.nr_linked.specs.TypingFaults.{Passed, Passes, check_end, check_rule, check_site, first_among, frame_here};
ghost use Rattle.nr_linked.specs.TypingFrames.{TypeFrame};
ghost use Rattle.nr_linked.specs.TypingRules.{type_op};
ghost use Rattle.nr_linked.specs.WellTyped.{falls_through, map_at};
ghost use Rattle.nr_verify.specs.Walking.{HasMapsInOrder, IsFirst, IsStep, are_suited, coming};
ghost use Rattle.nr_verify_ops.specs.Sites.{HasCodeInOrder};

use crate::branches::check_targets;
use crate::fault::MethodFault;
use crate::handlers::check_handlers;
use crate::maps::map_at;
use nr_linked::{MethodInfo, Program, Resolved};
use nr_optable::Family;
use nr_prog::{Body, Instr};
use nr_verify_ops::{Frame, OpError};
use std::alloc::Global;

/// Whether control goes on to the next instruction.
fn falls_through(family: Family) -> bool
    ensures { result ≡ falls_through family }
{
    !matches!(family, Family::F6 | Family::F28 | Family::F29 | Family::F36)
}

/// The frame with which the instruction at the offset begins, from what comes to it.
fn enter(
    alloc: Global,
    p: &Program,
    method: &MethodInfo,
    at: u16,
    comes: bool,
    frame: &mut Frame,
) -> Result<(), MethodFault>
    requires { HasMapsInOrder method.now }
    ensures { (k : TypeFrame → Passed) → IsStep result (λ u. k frame.new) (frame_here p.now at (map_at method.now at) (coming comes frame.old) k) }
{
    let Some(map) = map_at(method, at) else {
        return if comes {
            Ok(())
        } else {
            Err(MethodFault::NoMap(at))
        };
    };
    if comes && !frame.fits(p, method, map) {
        return Err(MethodFault::MapMismatch(at));
    }
    *frame = Frame::of_map(alloc, method, map)?;
    Ok(())
}

/// The instruction's own rule.
fn apply(
    p: &Program,
    method: &MethodInfo,
    instr: &Instr,
    found: Resolved,
    frame: &mut Frame,
) -> Result<(), MethodFault>
    requires suited { IsTrue (is_suited p.now (record { instr = instr.now; resolved = found; next = None })) }
    requires order { HasCodeInOrder method.now }
    ensures { (next : Option ℕ) (k : TypeFrame → Passed) → IsStep result (λ u. k frame.new) (check_rule instr.now.at (type_op p.now method.now (record { instr = instr.now; resolved = found; next = next }) frame.old) k) }
{
    match frame.type_op(p, method, instr, found) {
        Ok(()) => Ok(()),
        Err(OpError::Fault(fault)) => Err(MethodFault::Op(instr.at, fault)),
        Err(OpError::NoMemory) => Err(MethodFault::NoMemory),
    }
}

/// After the last instruction nothing falls through. Answers whether control goes on.
fn check_end(at: u16, falls: bool, next: Option<u16>) -> Result<bool, MethodFault>
    ensures { (f : TypeFrame) → IsStep result (λ goes. Passes (coming goes f)) (check_end at falls next f) }
{
    if falls && next.is_none() {
        Err(MethodFault::FallsOff(at))
    } else {
        Ok(falls)
    }
}

/// The checks of an instruction, whose frame changes in place. Whether control falls through to it, and
/// then to the next one, comes and goes beside the frame.
fn check_site(
    alloc: Global,
    p: &Program,
    method: &MethodInfo,
    body: &Body,
    instr: &Instr,
    found: Resolved,
    next: Option<u16>,
    comes: bool,
    frame: &mut Frame,
) -> Result<bool, MethodFault>
    requires body { method.now.body ≡ Some body.now }
    requires handlers { length body.now.handlers ≤ 65536 }
    requires suited { IsTrue (is_suited p.now (record { instr = instr.now; resolved = found; next = None })) }
    requires order { HasCodeInOrder method.now }
    requires maps { HasMapsInOrder method.now }
    ensures { IsStep result (λ goes. Passes (coming goes frame.new)) (check_site p.now method.now (record { instr = instr.now; resolved = found; next = next }) (coming comes frame.old)) }
{
    let at = instr.at;
    enter(alloc, p, method, at, comes, frame)?;
    check_handlers(
        p,
        method,
        frame,
        at,
        body.handlers.as_slice(),
        method.catches.as_slice(),
    )?;
    apply(p, method, instr, found, frame)?;
    check_targets(p, method, frame, &instr.args)?;
    check_end(at, falls_through(instr.row.family), next)
}

/// The offset of the first instruction.
fn first_offset(instrs: &[Instr]) -> Option<u16>
    ensures { result ≡ first_offset instrs.now }
{
    match instrs.split_first() {
        Some((instr, _)) => Some(instr.at),
        None => None,
    }
}

/// The first check that fails of the instructions of a method, which begins with the frame.
pub(crate) fn check_instrs(
    alloc: Global,
    p: &Program,
    method: &MethodInfo,
    body: &Body,
    entry: Frame,
) -> Result<(), MethodFault>
    requires body { method.now.body ≡ Some body.now }
    requires handlers { length body.now.handlers ≤ 65536 }
    requires suited { IsTrue (are_suited p.now body.now.instrs method.now.resolved) }
    requires order { HasCodeInOrder method.now }
    requires maps { HasMapsInOrder method.now }
    ensures { IsFirst result (first_among p.now method.now body.now.instrs method.now.resolved (Some entry)) }
{
    let mut frame = entry;
    let mut comes = true;
    let mut instrs = body.instrs.as_slice();
    let mut resolved = method.resolved.as_slice();
    while let Some((instr, more_instrs)) = instrs.split_first() {
        let Some((found, more_resolved)) = resolved.split_first() else {
            unreachable!()
        };
        comes = check_site(
            alloc,
            p,
            method,
            body,
            instr,
            *found,
            first_offset(more_instrs),
            comes,
            &mut frame,
        )?;
        instrs = more_instrs;
        resolved = more_resolved;
    }
    Ok(())
}
