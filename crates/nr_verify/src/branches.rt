//! The branches of an instruction (JVM Specification 4.10.1.9).

ghost use Rattle.std.specs.Prelude.{◌≡◌};
ghost use Rattle.nr_linked.specs.TypingFaults.{Passed, check_branch, check_branches};
ghost use Rattle.nr_linked.specs.WellTyped.{map_at, targets_of};
ghost use Rattle.nr_verify.specs.Walking.{HasMapsInOrder, IsStep};

use crate::fault::MethodFault;
use crate::maps::map_at;
use nr_linked::{MethodInfo, Program};
use nr_prog::Args;
use nr_verify_ops::Frame;

/// A branch to the offset: a map is there, and the frame fits it.
fn check_branch(p: &Program, method: &MethodInfo, frame: &Frame, to: u16) -> Result<(), MethodFault>
    requires { HasMapsInOrder method.now }
    ensures { (next : Passed) → IsStep result (λ u. next) (check_branch p.now frame.now to (map_at method.now to) next) }
{
    let Some(map) = map_at(method, to) else {
        return Err(MethodFault::NoMap(to));
    };
    if frame.fits(p, method, map) {
        Ok(())
    } else {
        Err(MethodFault::MapMismatch(to))
    }
}

fn check_branches(
    p: &Program,
    method: &MethodInfo,
    frame: &Frame,
    targets: &[u16],
) -> Result<(), MethodFault>
    requires { HasMapsInOrder method.now }
    ensures { (next : Passed) → IsStep result (λ u. next) (check_branches p.now method.now frame.now targets.now next) }
{
    let mut left = targets;
    while let Some((to, more)) = left.split_first() {
        check_branch(p, method, frame, *to)?;
        left = more;
    }
    Ok(())
}

/// The branches of an instruction with these operands, for a switch the default first.
pub(crate) fn check_targets(
    p: &Program,
    method: &MethodInfo,
    frame: &Frame,
    args: &Args,
) -> Result<(), MethodFault>
    requires { HasMapsInOrder method.now }
    ensures { (next : Passed) → IsStep result (λ u. next) (check_branches p.now method.now frame.now (targets_of args.now) next) }
{
    match args {
        Args::Branch(to) => check_branch(p, method, frame, *to),
        Args::Switch { other, targets, .. } | Args::Look { other, targets, .. } => {
            check_branch(p, method, frame, *other)?;
            check_branches(p, method, frame, targets.as_slice())
        }
        _ => Ok(()),
    }
}
