//! The code of a method, from its bytes.

ghost use Rattle.std.specs.Prelude.{◌≡◌, ◌<◌, ◌^◌, All, [], length, Ok, Some, IfOk, IfSome, IsOkUnless, IsSome, slice_get};
ghost use Rattle.nr_base.specs.Clauses.{GivesWhole};
ghost use Rattle.nr_instrs.specs.Faults.{is_free};
ghost use Rattle.nr_prog.specs.BodyText.{CodeAs, IsBody, code_at};
ghost use Rattle.nr_prog.specs.declared.member.Method.{Method as MethodView};
ghost use Rattle.nr_prog.specs.declared.member.Code.{Code as CodeView};
ghost use Rattle.nr_code.specs.Bounds.{HasShortMaps, IsSized};
ghost use Rattle.nr_base.specs.Grammar.{IsBytes};
ghost use Rattle.nr_prog.specs.Form.{IsFormed, IsMethodFormed};
ghost use Rattle.nr_prog.specs.Pool.{IsText};
ghost use Rattle.nr_prog.specs.declared.body.whole.Body.{Body as BodyView};
ghost use Rattle.nr_code.specs.Decoding.{body_of, maps_of};

use crate::handler::check_handlers;
use crate::maps::{Room, entry_locals, read_frames};
use nr_base::Items;
use nr_instrs::{CodeFault, Starts, decode_instrs};
use nr_prog::{Body, Class, Code, FrameMap, Handler, Method};
use std::alloc::Global;

#[tactic(auto, unfolding(crate::specs::Decoding::maps_of))]
fn maps(
    alloc: Global,
    class: &Class,
    method: &Method,
    starts: &Starts,
    maps: &Option<Items<u8>>,
    room: &mut Room,
) -> Result<Items<FrameMap>, CodeFault>
    requires { IfSome maps.now (λ contents. length contents < 2 ^ 32) }
    ensures { GivesWhole is_free result (maps_of class.now method.now starts.now maps.now) }
{
    match maps {
        None => Ok(Items::new(alloc)),
        Some(contents) => {
            let locals = entry_locals(alloc, class, method)?;
            read_frames(alloc, class, starts, locals, contents.as_slice(), room)
        }
    }
}

fn copied(alloc: Global, handlers: &[Handler]) -> Result<Items<Handler>, CodeFault>
    ensures copy { IfOk result (λ copy. copy ≡ handlers.now) }
    ensures err { IsOkUnless result CodeFault.NoMemory }
{
    let mut copies = Items::new(alloc);
    for handler in handlers {
        copies.push(*handler)?;
    }
    Ok(copies)
}

/// The code of a method, by its reading.
#[tactic(auto, unfolding(crate::specs::Decoding::body_of))]
fn body(
    alloc: Global,
    class: &Class,
    method: &Method,
    code: &Code,
    room: &mut Room,
) -> Result<Body, CodeFault>
    requires { IsSized code.now }
    ensures { GivesWhole is_free result (body_of class.now method.now code.now) }
{
    let instrs = decode_instrs(alloc, class, code.bytes.as_slice())?;
    let starts = Starts::of(instrs.as_slice());
    let handlers = code.handlers.as_slice();
    check_handlers(class, code.bytes.len(), &starts, handlers)?;
    let maps = maps(alloc, class, method, &starts, &code.maps, room)?;
    Ok(Body {
        instrs,
        handlers: copied(alloc, handlers)?,
        maps,
    })
}

/// Bytes, of which contracts learn that each of them is one.
fn know(bytes: &[u8])
    ensures { IsBytes bytes.now }
{}

/// Code, of which contracts learn the same.
fn know_code(code: &Code)
    ensures bytes { IsBytes code.now.bytes }
    ensures maps { IfSome code.now.maps IsBytes }
{
    know(code.bytes.as_slice());
    if let Some(contents) = &code.maps {
        know(contents.as_slice());
    }
}

/// A class, of which contracts learn that it keeps the form.
pub fn know_class(class: &Class)
    ensures formed { IsFormed class.now }
    ensures texts { All IsText class.now.pool }
{
    let _parts = class.parts();
}

/// The code of a method of the class, whose frame maps take their types out of the room.
pub fn decode_code(
    alloc: Global,
    class: &Class,
    method: &Method,
    code: &Code,
    room: &mut Room,
) -> Result<Body, CodeFault>
    requires sized { IsSized code.now }
    requires method { IsMethodFormed class.now.pool method.now }
    ensures found { IfOk result (λ b. IsBody class.now method.now code.now b) }
    ensures only { (b : BodyView) → IsBody class.now method.now code.now b → GivesWhole is_free result (Ok b) }
    ensures exact { GivesWhole is_free result (body_of class.now method.now code.now) }
{
    know_class(class);
    know_code(code);
    body(alloc, class, method, code, room)
}

/// The code of the method at a place in the class, from 0 (JVM Specification 4.7.3, 4.7.4, 6.5).
///
/// # Errors
///
/// The first fault of the code, as `CodeFault` says: of the instructions, then of the targets of
/// their branches, then of the exception handlers, then of the frame maps. `NoMemory` for want of
/// memory, and where the frame maps have more than 16,777,216 types in all.
pub fn decode(alloc: Global, class: &Class, method: u16) -> Result<Body, CodeFault>
    requires code { IsSome (code_at class.now method) }
    requires maps { HasShortMaps (code_at class.now method) }
    ensures found { IfOk result (λ b. CodeAs class.now method b) }
    ensures only { (b : BodyView) → CodeAs class.now method b → GivesWhole is_free result (Ok b) }
    ensures exact { (m : MethodView) (code : CodeView) → slice_get class.now.methods method ≡ Some m → m.code ≡ Some code → GivesWhole is_free result (body_of class.now m code) }
{
    let Some(method) = class.parts().methods.as_slice().get(usize::from(method)) else {
        unreachable!()
    };
    let Some(code) = &method.code else {
        unreachable!()
    };
    decode_code(alloc, class, method, code, &mut Room::new())
}
