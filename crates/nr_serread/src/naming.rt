//! The classes that names in streams name.

ghost use Rattle.std.specs.Prelude.{◌≡◌, ◌<◌, ◌^◌, length, map, IfOk, IfSome};
ghost use Rattle.nr_linked.specs.Kinds.{class_kind};
ghost use Rattle.nr_linked.specs.Programs.{class_named};
ghost use Rattle.nr_base.specs.DescReading.{desc_of};
ghost use Rattle.nr_serread.specs.Describing.{array_named, base_named, is_descriptor, kind_named, kind_of, with_slash};

use nr_base::{Desc, DescBase, DescFault};
use nr_linked::{Base, ClassId, Kind, Program, ProgramTables};
use std::alloc::{AllocError, Global};

fn with_slash(byte: u8) -> u8
    ensures { result ≡ with_slash byte }
{
    if byte == b'.' { b'/' } else { byte }
}

/// The text with slashes for dots.
fn slashed(alloc: Global, text: &[u8]) -> Result<Vec<u8>, AllocError>
    ensures { IfOk result (λ v. v.items ≡ map with_slash text.now) }
{
    text.iter().map(|byte| with_slash(*byte)).collect(alloc)
}

fn place_of(tables: &ProgramTables, name: &[u8]) -> Option<usize>
    ensures named { result ≡ class_named tables.now name.now }
    ensures within { IfSome result (λ c. c < length tables.now.classes) }
{
    tables
        .classes
        .as_slice()
        .iter()
        .position(|info| info.name.as_bytes() == name)
}

fn class_named(program: &Program, name: &[u8]) -> Option<ClassId>
    ensures { result ≡ class_named program.now name.now }
{
    let place = place_of(program.tables(), name)?;
    Some(place as u32)
}

fn base_named(program: &Program, base: &DescBase) -> Option<Base>
    ensures { result ≡ base_named program.now base.now }
{
    match base {
        DescBase::Bool => Some(Base::Bool),
        DescBase::Byte => Some(Base::Byte),
        DescBase::Char => Some(Base::Char),
        DescBase::Short => Some(Base::Short),
        DescBase::Int => Some(Base::Int),
        DescBase::Long => Some(Base::Long),
        DescBase::Object(name) => Some(Base::Object(class_named(program, name.as_bytes())?)),
    }
}

/// The kind of arrays that a descriptor names.
fn array_named(alloc: Global, program: &Program, text: &[u8]) -> Result<Option<Kind>, AllocError>
    requires { length text.now < 2 ^ 16 }
    ensures { IfOk result (λ kind. kind ≡ array_named program.now (desc_of text.now)) }
{
    match Desc::read(alloc, text) {
        Ok(desc) => Ok(kind_of(program, &desc)),
        Err(DescFault::NoMemory) => Err(AllocError),
        Err(_) => Ok(None),
    }
}

fn kind_of(program: &Program, desc: &Desc) -> Option<Kind>
    ensures { result ≡ kind_of program.now desc.now }
{
    let base = base_named(program, &desc.base)?;
    Some(Kind {
        dims: desc.dims,
        base,
    })
}

/// The kind of a class's objects.
pub fn class_kind(class: ClassId) -> Kind
    ensures { result ≡ class_kind class }
{
    Kind {
        dims: 0,
        base: Base::Object(class),
    }
}

fn is_descriptor(text: &[u8]) -> bool
    ensures { result ≡ is_descriptor text.now }
{
    matches!(text, [b'[', ..])
}

/// The class that a stream's name names: an array's descriptor or a class's name, with dots for slashes.
/// The error comes only for want of memory.
#[tactic(auto, unfolding(crate::specs::Describing::kind_named))]
pub fn kind_named(alloc: Global, program: &Program, name: &[u8]) -> Result<Option<Kind>, AllocError>
    requires { length name.now < 2 ^ 16 }
    ensures { IfOk result (λ kind. kind ≡ kind_named program.now name.now) }
{
    if name.contains(&b'/') {
        return Ok(None);
    }
    let text = slashed(alloc, name)?;
    if is_descriptor(name) {
        return array_named(alloc, program, text.as_slice());
    }
    Ok(class_named(program, text.as_slice()).map(class_kind))
}
