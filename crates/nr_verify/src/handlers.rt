//! Exception handlers (JVM Specification 4.10.1.6, instructionSatisfiesHandlers).

ghost use Rattle.std.specs.Prelude.{◌≡◌, ◌≤◌, length};
ghost use Rattle.nr_linked.specs.Handlers.{covers};
ghost use Rattle.nr_linked.specs.TypingFaults.{Passed, check_handlers, is_handled};
ghost use Rattle.nr_linked.specs.WellTyped.{caught_type, is_catchable, with_catches};
ghost use Rattle.nr_verify.specs.Walking.{HasMapsInOrder, IsStep};

use crate::fault::MethodFault;
use crate::maps::map_at;
use nr_linked::{Base, BuiltIn, Kind, MethodInfo, Program, VType};
use nr_prog::Handler;
use nr_verify_ops::Frame;

/// Whether the handler's range holds the offset.
fn covers(handler: &Handler, at: u16) -> bool
    ensures { result ≡ covers handler.now at }
{
    handler.start <= at && at < handler.end
}

/// The type of what a handler of this kind, or of all, catches.
fn caught_type(p: &Program, kind: Option<Kind>) -> VType
    ensures { result ≡ caught_type p.now kind }
{
    match kind {
        Some(kind) => VType::Class(kind),
        None => VType::Class(Kind {
            dims: 0,
            base: Base::Object(p.built_in(BuiltIn::Throwable)),
        }),
    }
}

/// Whether what the handler catches is a throwable.
fn is_catchable(p: &Program, kind: Option<Kind>) -> bool
    ensures { result ≡ is_catchable p.now kind }
{
    match kind {
        Some(kind) => p.is_assignable(
            kind,
            Kind {
                dims: 0,
                base: Base::Object(p.built_in(BuiltIn::Throwable)),
            },
        ),
        None => true,
    }
}

/// Whether the frame suits the handler.
fn is_handled(
    p: &Program,
    method: &MethodInfo,
    frame: &Frame,
    handler: &Handler,
    kind: Option<Kind>,
) -> bool
    requires { HasMapsInOrder method.now }
    ensures { result ≡ is_handled p.now method.now frame.now handler.now kind }
{
    if !is_catchable(p, kind) || method.max_stack < 1 {
        return false;
    }
    match map_at(method, handler.handler) {
        Some(map) => frame.fits_with(p, method, caught_type(p, kind), map),
        None => false,
    }
}

/// The handlers whose ranges hold the offset, by their numbers: the first that the frame doesn't suit.
pub(crate) fn check_handlers(
    p: &Program,
    method: &MethodInfo,
    frame: &Frame,
    at: u16,
    handlers: &[Handler],
    catches: &[Option<Kind>],
) -> Result<(), MethodFault>
    requires handlers { length handlers.now ≤ 65536 }
    requires maps { HasMapsInOrder method.now }
    ensures { (next : Passed) → IsStep result (λ u. next) (check_handlers p.now method.now at frame.now 0 (with_catches handlers.now catches.now) next) }
{
    let mut n: u32 = 0;
    let mut hs = handlers;
    let mut ks = catches;
    while let Some((h, more_hs)) = hs.split_first() {
        let Some((k, more_ks)) = ks.split_first() else {
            return Ok(());
        };
        if covers(h, at) && !is_handled(p, method, frame, h, *k) {
            return Err(MethodFault::HandlerMismatch(at, n as u16));
        }
        n += 1;
        hs = more_hs;
        ks = more_ks;
    }
    Ok(())
}
