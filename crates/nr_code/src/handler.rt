//! Exception handlers (JVM Specification 4.7.3, exception_table).

ghost use Rattle.std.specs.Prelude.{◌≡◌, ◌+◌, ◌≤◌, ◌^◌, length};
ghost use Rattle.nr_base.specs.Clauses.{GivesWhole, GivesWholeBy};
ghost use Rattle.nr_instrs.specs.Faults.{is_free};
ghost use Rattle.nr_code.specs.HandlerChecks.{handler_step, handlers_checked, is_handler};

use nr_instrs::{CodeFault, Starts, is_class};
use nr_prog::{Class, Handler};

#[tactic(auto, unfolding(crate::specs::HandlerChecks::is_handler))]
fn is_in_order(class: &Class, len: usize, starts: &Starts, handler: &Handler) -> bool
    ensures { result ≡ is_handler class.now.pool len starts.now handler.now }
{
    if !starts.is_start(handler.start) {
        return false;
    }
    if !starts.is_start(handler.end) && usize::from(handler.end) != len {
        return false;
    }
    if handler.start >= handler.end || !starts.is_start(handler.handler) {
        return false;
    }
    handler.catch_type == 0 || is_class(class, handler.catch_type)
}

#[tactic(auto, unfolding(crate::specs::HandlerChecks::handler_step))]
fn check_handler(
    class: &Class,
    len: usize,
    starts: &Starts,
    place: u16,
    handler: &Handler,
) -> Result<(), CodeFault>
    ensures { GivesWholeBy is_free (λ _. place + 1) result (handler_step class.now.pool len starts.now place handler.now) }
{
    if is_in_order(class, len, starts, handler) {
        Ok(())
    } else {
        Err(CodeFault::HandlerRange(place))
    }
}

/// Looks at each handler, in order, in code of so many bytes.
#[tactic(auto, using(nr_instrs::proofs::Walks::goes_on, nr_instrs::proofs::Walks::ends), unfolding(crate::specs::HandlerChecks::handlers_checked))]
pub fn check_handlers(
    class: &Class,
    len: usize,
    starts: &Starts,
    handlers: &[Handler],
) -> Result<(), CodeFault>
    requires { length handlers.now ≤ 2 ^ 16 }
    ensures { GivesWholeBy is_free (λ _. length handlers.now) result (handlers_checked class.now.pool len starts.now handlers.now) }
{
    for (place, handler) in handlers.iter().enumerate() {
        check_handler(class, len, starts, place as u16, handler)?;
    }
    Ok(())
}
