//! Exception handlers (JVM Specification 2.10, 4.7.3 exception_table).

ghost use Rattle.std.specs.Prelude.{◌≡◌, ◌&&◌, ◌==◌, ◌<◌, ℕ, MatchOption, None, Some, length, position};
ghost use Rattle.nr_linked.specs.Handlers.{covers};
ghost use Rattle.nr_model.specs.Steps.{catches, first_handler, handler_at};
ghost use Rattle.nr_machine.specs.CallStacks.{IsPlaced, StandsAt, code_at, offset_at};

use super::Frame;
use nr_linked::{Kind, Program};
use nr_prog::{Handler, Instr};

/// Whether the handler's range holds the instruction at the offset.
fn covers(handler: &Handler, offset: u16) -> bool
    ensures { result ≡ covers handler.now offset }
{
    handler.start <= offset && offset < handler.end
}

/// Whether a handler for this class, or for all, catches an object of the kind.
fn catches(program: &Program, kind: Kind, caught: Option<Kind>) -> bool
    ensures { result ≡ catches program.now kind caught }
{
    match caught {
        Some(class) => program.is_sub(kind, class),
        None => true,
    }
}

/// Whether a handler handles a throw of an object of the kind at the offset.
fn handles(
    program: &Program,
    offset: u16,
    kind: Kind,
    handler: &Handler,
    caught: Option<Kind>,
) -> bool
    ensures { result ≡ (covers handler.now offset && catches program.now kind caught) }
{
    covers(handler, offset) && catches(program, kind, caught)
}

/// Where the first handler begins that covers the offset and catches an object of the kind.
fn first_handler(
    program: &Program,
    offset: u16,
    kind: Kind,
    handlers: &[Handler],
    caught: &[Option<Kind>],
) -> Option<u16>
    ensures { result ≡ first_handler program.now offset kind handlers.now caught.now }
{
    for i in 0..handlers.len().min(caught.len()) {
        if handles(program, offset, kind, &handlers[i], caught[i]) {
            return Some(handlers[i].handler);
        }
    }
    None
}

/// The place of the instruction at an offset.
fn place_of(code: &[Instr], offset: u16) -> Option<usize>
    ensures { result ≡ position (λ i. i.at == offset) code.now }
{
    code.iter().position(|instr| instr.at == offset)
}

/// The place at which the first handler of the frame's method begins that handles a throw of an object of the
/// kind where the frame stands.
pub fn handler_of(program: &Program, frame: &Frame, kind: Kind) -> Option<usize>
    requires placed { IsPlaced program.now frame.now }
    requires stands { (t : ℕ) → handler_at program.now frame.now.method (offset_at program.now frame.now.method frame.now.instr) kind ≡ Some t
        → StandsAt program.now frame.now.method t }
    ensures { let handler = handler_at program.now frame.now.method (offset_at program.now frame.now.method frame.now.instr) kind in
        MatchOption result (handler ≡ None) (λ place. (place < length (code_at program.now frame.now.method))
        × (handler ≡ Some (offset_at program.now frame.now.method place))) }
{
    let info = program.method(frame.method);
    let Some(body) = &info.body else {
        unreachable!()
    };
    let code = body.instrs.as_slice();
    let target = first_handler(
        program,
        code[frame.instr].at,
        kind,
        body.handlers.as_slice(),
        info.catches.as_slice(),
    )?;
    place_of(code, target)
}
