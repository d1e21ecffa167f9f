//! Classes with the code of their methods.

ghost use Rattle.std.specs.Prelude.{◌≡◌, ◌<◌, ◌≤◌, ◌^◌, [], ◌∷◌, ◌++◌, List, Option, Ok, IfOk, OnOk, length};
ghost use Rattle.nr_base.specs.Clauses.{GivesWhole, GivesWholeBy};
ghost use Rattle.nr_prog.specs.Form.{IsMethodFormed};
ghost use Rattle.nr_prog.specs.BodyText.{BodyFor, EachBody, HasBodies};
ghost use Rattle.nr_prog.specs.declared.member.Method.{Method as MethodView};
ghost use Rattle.nr_prog.specs.declared.body.whole.Body.{Body as BodyView};
ghost use Rattle.nr_prog.specs.declared.body.loaded.Loaded.{Loaded as LoadedView};
ghost use Rattle.nr_classread.specs.ClassText.{ReadsAs};
ghost use Rattle.nr_code.specs.LoadFaults.{is_load_free};
ghost use Rattle.nr_code.specs.Decoding.{bodies_of, body_in, body_step, loaded_of};
ghost use Rattle.nr_code.specs.Bounds.{IsShort, AreShort};

use crate::fault::LoadFault;
use crate::maps::Room;
use crate::whole::{decode_code, know_class};
use nr_base::Items;
use nr_classread::read_class;
use nr_instrs::CodeFault;
use nr_prog::{Body, Class, Loaded, Method};
use std::alloc::Global;

#[tactic(auto, unfolding(crate::specs::Decoding::body_in))]
fn read_body(
    alloc: Global,
    class: &Class,
    place: u16,
    method: &Method,
    room: &mut Room,
) -> Result<Option<Body>, LoadFault>
    requires short { IsShort method.now.code }
    requires formed { IsMethodFormed class.now.pool method.now }
    ensures found { IfOk result (λ b. BodyFor class.now method.now method.now.code b) }
    ensures exact { GivesWhole is_load_free result (body_in class.now place method.now method.now.code) }
{
    let Some(code) = &method.code else {
        return Ok(None);
    };
    match decode_code(alloc, class, method, code, room) {
        Ok(body) => Ok(Some(body)),
        Err(CodeFault::NoMemory) => Err(LoadFault::NoMemory),
        Err(fault) => Err(LoadFault::Code(place, fault)),
    }
}

#[tactic(auto, unfolding(crate::specs::Decoding::body_step))]
fn body_onto(
    alloc: Global,
    class: &Class,
    place: u16,
    method: &Method,
    bodies: &mut Items<Option<Body>>,
    room: &mut Room,
) -> Result<(), LoadFault>
    requires short { IsShort method.now.code }
    requires formed { IsMethodFormed class.now.pool method.now }
    requires place { place ≡ length bodies.old }
    ensures found { OnOk result ((ms : List MethodView) → EachBody class.now ms bodies.old → EachBody class.now (ms ++ method.now ∷ []) bodies.new) }
    ensures exact { GivesWholeBy is_load_free (λ _. bodies.new) result (body_step class.now bodies.old method.now) }
{
    let body = read_body(alloc, class, place, method, room)?;
    bodies.push(body)?;
    Ok(())
}

#[tactic(auto, using(nr_instrs::proofs::Walks::goes_on, nr_instrs::proofs::Walks::ends), unfolding(crate::specs::Decoding::bodies_of))]
fn read_all(alloc: Global, class: &Class) -> Result<Items<Option<Body>>, LoadFault>
    requires { AreShort class.now }
    ensures found { IfOk result (λ bodies. HasBodies class.now bodies) }
    ensures exact { GivesWhole is_load_free result (bodies_of class.now) }
{
    let mut bodies = Items::new(alloc);
    let mut room = Room::new();
    for (place, method) in class.parts().methods.as_slice().iter().enumerate() {
        body_onto(alloc, class, place as u16, method, &mut bodies, &mut room)?;
    }
    Ok(bodies)
}

/// The code of each method, in order.
fn read_bodies(alloc: Global, class: &Class) -> Result<Items<Option<Body>>, LoadFault>
    requires { AreShort class.now }
    ensures found { IfOk result (λ bodies. HasBodies class.now bodies) }
    ensures only { (bodies : List (Option BodyView)) → HasBodies class.now bodies → GivesWhole is_load_free result (Ok bodies) }
    ensures exact { GivesWhole is_load_free result (bodies_of class.now) }
{
    know_class(class);
    read_all(alloc, class)
}

/// The class of a class file, with the code of each of its methods (JVM Specification 4, version
/// 50.0).
///
/// # Errors
///
/// `Class` with the first fault of the file, whatever its code; then `Code`, with the place of the
/// first method whose code is refused and the first fault of that code; `NoMemory` for want of
/// memory, and where the frame maps of all methods have more than 16,777,216 types.
#[tactic(auto, unfolding(crate::specs::Decoding::loaded_of))]
pub fn load_class(alloc: Global, bytes: &[u8]) -> Result<Loaded, LoadFault>
    requires { length bytes.now < 2 ^ 32 }
    ensures found { IfOk result (λ l. ReadsAs bytes.now l.class × HasBodies l.class l.bodies) }
    ensures only { (l : LoadedView) → ReadsAs bytes.now l.class → HasBodies l.class l.bodies → GivesWhole is_load_free result (Ok l) }
    ensures exact { GivesWhole is_load_free result (loaded_of bytes.now) }
{
    let class = read_class(alloc, bytes)?;
    let bodies = read_bodies(alloc, &class)?;
    Ok(Loaded { class, bodies })
}
