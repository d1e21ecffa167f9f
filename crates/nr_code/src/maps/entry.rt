//! The frame at a method's entry (JVM Specification 4.10.1.6).

ghost use Rattle.std.specs.Prelude.{◌≡◌, IfOk, IsOkUnless, codes, option_copied};
ghost use Rattle.std.specs.Str.{bytes_eq};
ghost use Rattle.nr_prog.specs.Members.{spells};
ghost use Rattle.nr_prog.specs.BodyMaps.{base_is, this_type as this_type_of};
ghost use Rattle.nr_prog.specs.TextForms.{form_at};
ghost use Rattle.nr_code.specs.EntryForms.{listed_params};
ghost use Rattle.nr_code.specs.MapReading.{entry_of, params_of, receiver_of};

use super::copies::copied;
use nr_base::{Desc, DescBase, Items, Shared};
use nr_instrs::{CodeFault, class_type};
use nr_prog::{Class, MapType, Method};
use std::alloc::Global;

// A method without a receiver (JVM Specification, table 4.6-A).
const STATIC: u16 = 0x0008;

/// The types of the parameters of a method with the descriptor at an index, where one stands there.
fn params_in(class: &Class, desc: u16) -> Option<&[MapType]>
    ensures { option_copied result ≡ listed_params (form_at class.now.pool desc) }
{
    match &class.form(desc)?.method {
        Some(method) => Some(method.params.as_slice()),
        None => None,
    }
}

/// The types of the parameters. Each method of a class has a descriptor.
#[tactic(auto, using(crate::proofs::Params::params_told, crate::proofs::Params::params_untold))]
fn params(alloc: Global, class: &Class, method: &Method) -> Result<Items<MapType>, CodeFault>
    ensures types { IfOk result (λ types. types ≡ params_of class.now method.now) }
    ensures err { IsOkUnless result CodeFault.NoMemory }
{
    match params_in(class, method.desc) {
        Some(params) => copied(alloc, params),
        None => Ok(Items::new(alloc)),
    }
}

fn is_object(base: &DescBase) -> bool
    ensures { result ≡ base_is (codes "java/lang/Object") base.now }
{
    match base {
        DescBase::Object(name) => name.as_bytes() == b"java/lang/Object".as_slice(),
        _ => false,
    }
}

#[tactic(auto, unfolding(nr_prog::specs::Members::spells))]
fn is_initialiser(class: &Class, method: &Method) -> bool
    ensures { result ≡ spells (bytes_eq (codes "<init>")) class.now.pool method.now.name }
{
    match class.text(method.name) {
        Some(name) => b"<init>".as_slice() == name,
        None => false,
    }
}

fn this_type(class: &Class, method: &Method, this: &Shared<Desc>) -> Result<MapType, CodeFault>
    ensures kind { IfOk result (λ kind. kind ≡ this_type_of class.now method.now this.now) }
    ensures err { IsOkUnless result CodeFault.NoMemory }
{
    if is_initialiser(class, method) && !is_object(&this.get().base) {
        Ok(MapType::UninitThis)
    } else {
        Ok(MapType::Object(this.share()?))
    }
}

/// The type of the receiver, where the method has one. Each class has a name.
#[tactic(auto, unfolding(crate::specs::MapReading::receiver_of))]
fn receiver(alloc: Global, class: &Class, method: &Method) -> Result<Items<MapType>, CodeFault>
    ensures types { IfOk result (λ types. types ≡ receiver_of class.now method.now) }
    ensures err { IsOkUnless result CodeFault.NoMemory }
{
    let mut types = Items::new(alloc);
    if method.flags & STATIC != 0 {
        return Ok(types);
    }
    if let Some(this) = class_type(class, class.parts().this_class) {
        types.push(this_type(class, method, this)?)?;
    }
    Ok(types)
}

/// The locals at the entry of a method.
#[tactic(auto, unfolding(crate::specs::MapReading::entry_of))]
pub fn entry_locals(
    alloc: Global,
    class: &Class,
    method: &Method,
) -> Result<Items<MapType>, CodeFault>
    ensures locals { IfOk result (λ locals. locals ≡ entry_of class.now method.now) }
    ensures err { IsOkUnless result CodeFault.NoMemory }
{
    let receiver = receiver(alloc, class, method)?;
    let params = params(alloc, class, method)?;
    let mut all = receiver.into_vec();
    let mut more = params.into_vec();
    all.append(&mut more)?;
    Ok(Items::from_vec(all))
}
