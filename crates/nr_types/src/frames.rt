//! Frames that fit (JVM Specification 4.10.1.3 and 4.10.1.4).

ghost use Rattle.std.specs.Prelude.{◌≡◌, ◌||◌, not};
ghost use Rattle.nr_linked.specs.declared.program.tables.MethodInfo.{MethodInfo};
ghost use Rattle.nr_linked.specs.TypingFrames.{frame_fits, turned};
ghost use Rattle.nr_linked.specs.TypingLocals.{local_type};
ghost use Rattle.nr_linked.specs.WellTyped.{mapped_frame};

use crate::assign::{locals_fit, operands_fit};
use nr_linked::{Program, VFrame, VType};

/// The type of the local variable at the place; past the listed ones it is `Top`.
pub fn local_type(locals: &[VType], i: usize) -> VType
    ensures { result ≡ local_type locals.now i }
{
    match locals.get(i) {
        Some(t) => *t,
        None => VType::Top,
    }
}

/// Whether a frame's mark, that `this` isn't yet initialised, fits another frame's: the first is marked
/// only if the second is.
pub fn mark_fits(a: bool, b: bool) -> bool
    ensures { result ≡ (not a || b) }
{
    !a || b
}

/// Whether the frame `a` fits `b`: local variables and operands go for those of `b` place by place, the
/// stacks are of one length, and `a` is marked only if `b` is. Places past the listed local variables are
/// `Top`, so it is the same for the frames of any method, filled up to its number of places.
#[tactic(auto, using(crate::proofs::Padding::mapped_fit))]
pub fn frame_fits(p: &Program, a: &VFrame, b: &VFrame) -> bool
    ensures listed { result ≡ frame_fits p.now (turned a.now) (turned b.now) }
    ensures filled { (m : MethodInfo) → result ≡ frame_fits p.now (mapped_frame m a.now) (mapped_frame m b.now) }
{
    locals_fit(p, a.locals.as_slice(), b.locals.as_slice())
        && (operands_fit(p, a.stack.as_slice(), b.stack.as_slice())
            && mark_fits(a.this_uninit, b.this_uninit))
}
