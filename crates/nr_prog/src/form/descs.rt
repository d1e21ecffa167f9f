//! Descriptors, and the classes that texts name.

ghost use Rattle.std.specs.Prelude.{◌≡◌, ◌<◌, ◌^◌, length, map, IfOk, IsOkUnless};
ghost use Rattle.nr_base.specs.DescReading.{desc_of, method_of};
ghost use Rattle.nr_prog.specs.BodyMaps.{type_of as type_of_desc};
ghost use Rattle.nr_prog.specs.TextForms.{array_in, class_desc, dims_in, method_form};

use super::legal::class_name;
use crate::body::MapType;
use crate::fault::FormFault;
use crate::text::MethodForm;
use nr_base::{Desc, DescBase, DescFault, Items, MethodDesc, Shared};
use std::alloc::Global;

/// The dimensions of the type whose descriptor the bytes are (JVM Specification 4.3.2), where they
/// are one. The error is `NoMemory`.
pub fn dimensions(alloc: Global, bytes: &[u8]) -> Result<Option<u8>, FormFault>
    requires { length bytes.now < 2 ^ 16 }
    ensures dims { IfOk result (λ dims. dims ≡ dims_in (desc_of bytes.now)) }
    ensures err { IsOkUnless result FormFault.NoMemory }
{
    match Desc::read(alloc, bytes) {
        Ok(desc) => Ok(Some(desc.dims)),
        Err(DescFault::NoMemory) => Err(FormFault::NoMemory),
        Err(_) => Ok(None),
    }
}

// ---- classes

fn array(alloc: Global, bytes: &[u8]) -> Result<Option<Desc>, FormFault>
    requires { length bytes.now < 2 ^ 16 }
    ensures array { IfOk result (λ array. array ≡ array_in (desc_of bytes.now)) }
    ensures err { IsOkUnless result FormFault.NoMemory }
{
    match Desc::read(alloc, bytes) {
        Ok(desc) if desc.dims != 0 => Ok(Some(desc)),
        Err(DescFault::NoMemory) => Err(FormFault::NoMemory),
        _ => Ok(None),
    }
}

#[tactic(auto, unfolding(crate::specs::TextForms::class_desc))]
fn class_or_array(alloc: Global, bytes: &[u8]) -> Result<Option<Desc>, FormFault>
    requires { length bytes.now < 2 ^ 16 }
    ensures class { IfOk result (λ class. class ≡ class_desc bytes.now) }
    ensures err { IsOkUnless result FormFault.NoMemory }
{
    match class_name(alloc, bytes)? {
        Some(name) => Ok(Some(Desc {
            dims: 0,
            base: DescBase::Object(name),
        })),
        None => array(alloc, bytes),
    }
}

/// The class or the array that the bytes name (JVM Specification 4.4.1). The error is `NoMemory`.
pub fn class(alloc: Global, bytes: &[u8]) -> Result<Option<Shared<Desc>>, FormFault>
    requires { length bytes.now < 2 ^ 16 }
    ensures class { IfOk result (λ class. class ≡ class_desc bytes.now) }
    ensures err { IsOkUnless result FormFault.NoMemory }
{
    match class_or_array(alloc, bytes)? {
        Some(desc) => Ok(Some(Shared::new(alloc, desc)?)),
        None => Ok(None),
    }
}

// ---- descriptors of methods

fn copied_base(base: &DescBase) -> Result<DescBase, FormFault>
    ensures copy { IfOk result (λ copy. copy ≡ base.now) }
    ensures err { IsOkUnless result FormFault.NoMemory }
{
    Ok(match base {
        DescBase::Bool => DescBase::Bool,
        DescBase::Byte => DescBase::Byte,
        DescBase::Char => DescBase::Char,
        DescBase::Short => DescBase::Short,
        DescBase::Int => DescBase::Int,
        DescBase::Long => DescBase::Long,
        DescBase::Object(name) => DescBase::Object(name.clone()?),
    })
}

fn object(alloc: Global, desc: &Desc) -> Result<MapType, FormFault>
    ensures kind { IfOk result (λ kind. kind ≡ MapType.Object desc.now) }
    ensures err { IsOkUnless result FormFault.NoMemory }
{
    let copy = Desc {
        dims: desc.dims,
        base: copied_base(&desc.base)?,
    };
    Ok(MapType::Object(Shared::new(alloc, copy)?))
}

/// The type of a parameter.
fn type_of(alloc: Global, desc: &Desc) -> Result<MapType, FormFault>
    ensures kind { IfOk result (λ kind. kind ≡ type_of_desc desc.now) }
    ensures err { IsOkUnless result FormFault.NoMemory }
{
    if desc.dims != 0 {
        return object(alloc, desc);
    }
    match &desc.base {
        DescBase::Long => Ok(MapType::Long),
        DescBase::Object(_) => object(alloc, desc),
        _ => Ok(MapType::Int),
    }
}

fn types(alloc: Global, params: &[Desc]) -> Result<Items<MapType>, FormFault>
    ensures types { IfOk result (λ types. types ≡ map type_of_desc params.now) }
    ensures err { IsOkUnless result FormFault.NoMemory }
{
    let mut types = Items::new(alloc);
    for param in params {
        types.push(type_of(alloc, param)?)?;
    }
    Ok(types)
}

/// What the bytes say as a descriptor of a method (JVM Specification 4.3.3), where they are one. The
/// error is `NoMemory`.
pub fn method(alloc: Global, bytes: &[u8]) -> Result<Option<MethodForm>, FormFault>
    requires { length bytes.now < 2 ^ 16 }
    ensures method { IfOk result (λ method. method ≡ method_form (method_of bytes.now)) }
    ensures err { IsOkUnless result FormFault.NoMemory }
{
    match MethodDesc::read(alloc, bytes) {
        Ok(desc) => Ok(Some(MethodForm {
            slots: desc.slots(),
            void: desc.result.is_none(),
            params: types(alloc, desc.params.as_slice())?,
        })),
        Err(DescFault::NoMemory) => Err(FormFault::NoMemory),
        Err(_) => Ok(None),
    }
}
