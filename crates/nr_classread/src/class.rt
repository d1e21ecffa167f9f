//! Class files (JVM Specification 4.1).

ghost use Rattle.std.specs.Prelude.{◌≡◌, ◌<◌, ◌^◌, [], IfOk, Ok, length};
ghost use Rattle.nr_base.specs.Clauses.{Gives, GivesBy, GivesWhole};
ghost use Rattle.nr_base.specs.Reader.{times, onto};
ghost use Rattle.nr_prog.specs.Form.{IsFormed};
ghost use Rattle.nr_prog.specs.declared.parts.ClassParts.{ClassParts as PartsView};
ghost use Rattle.nr_classread.specs.ClassReading.{magic_at, version_at, parts_at, parts_of, class_of};
ghost use Rattle.nr_classread.specs.ClassText.{ReadsAs};
ghost use Rattle.nr_classread.specs.Faults.{is_free};
ghost use Rattle.nr_classread.specs.Numbers.{u2_at};
ghost use Rattle.nr_classread.specs.PoolReading.{list_at};

use crate::attribute::skip_attributes;
use crate::fault::ClassFault;
use crate::field::read_fields;
use crate::method::read_methods;
use crate::pool::read_pool;
use nr_base::{Cur, Items};
use nr_prog::{Class, ClassParts};
use std::alloc::Global;

#[tactic(auto, unfolding(crate::specs::ClassReading::magic_at, nr_base::specs::Reader::bind, nr_base::specs::Reader::pure, nr_base::specs::Reader::refuse, nr_base::specs::Reader::choose, nr_base::specs::Reader::from, nr_base::specs::Reader::with_fault))]
fn read_magic(cur: &mut Cur) -> Result<(), ClassFault>
    ensures { Gives is_free result cur.new (magic_at cur.old) }
{
    if cur.u32()? == 0xCAFE_BABE {
        Ok(())
    } else {
        Err(ClassFault::BadMagic)
    }
}

#[tactic(auto, unfolding(crate::specs::ClassReading::version_at, nr_base::specs::Reader::bind, nr_base::specs::Reader::pure, nr_base::specs::Reader::refuse, nr_base::specs::Reader::choose, nr_base::specs::Reader::from, nr_base::specs::Reader::with_fault))]
fn read_version(cur: &mut Cur) -> Result<(), ClassFault>
    ensures { Gives is_free result cur.new (version_at cur.old) }
{
    let minor = cur.u16()?;
    let major = cur.u16()?;
    if minor == 0 && major == 50 {
        Ok(())
    } else {
        Err(ClassFault::Version(minor, major))
    }
}

#[tactic(auto, unfolding(nr_base::specs::Reader::onto, nr_base::specs::Reader::bind, nr_base::specs::Reader::pure, nr_base::specs::Reader::refuse, nr_base::specs::Reader::choose, nr_base::specs::Reader::from, nr_base::specs::Reader::with_fault))]
fn index_onto(cur: &mut Cur, indices: &mut Items<u16>) -> Result<(), ClassFault>
    ensures { GivesBy is_free (λ _. indices.new) result cur.new (onto u2_at indices.old cur.old) }
{
    indices.push(cur.u16()?)?;
    Ok(())
}

#[tactic(auto, using(nr_base::proofs::Loops::goes_on, nr_base::proofs::Loops::is_done, crate::proofs::Exits::fails_in))]
fn read_indices(alloc: Global, cur: &mut Cur, count: u16) -> Result<Items<u16>, ClassFault>
    ensures { Gives is_free result cur.new (times (onto u2_at) count [] cur.old) }
{
    let mut indices = Items::new(alloc);
    for _ in 0..count {
        index_onto(cur, &mut indices)?;
    }
    Ok(indices)
}

#[tactic(auto, unfolding(crate::specs::PoolReading::list_at, nr_base::specs::Reader::bind, nr_base::specs::Reader::pure, nr_base::specs::Reader::refuse, nr_base::specs::Reader::choose, nr_base::specs::Reader::from, nr_base::specs::Reader::with_fault))]
fn read_interfaces(alloc: Global, cur: &mut Cur) -> Result<Items<u16>, ClassFault>
    ensures { Gives is_free result cur.new (list_at u2_at cur.old) }
{
    let count = cur.u16()?;
    read_indices(alloc, cur, count)
}

#[tactic(auto, unfolding(crate::specs::ClassReading::parts_at, nr_base::specs::Reader::bind, nr_base::specs::Reader::pure, nr_base::specs::Reader::refuse, nr_base::specs::Reader::choose, nr_base::specs::Reader::from, nr_base::specs::Reader::with_fault))]
fn read_body(alloc: Global, cur: &mut Cur) -> Result<ClassParts, ClassFault>
    ensures { Gives is_free result cur.new (parts_at cur.old) }
{
    let pool = read_pool(alloc, cur)?;
    let flags = cur.u16()?;
    let this_class = cur.u16()?;
    let super_class = cur.u16()?;
    let interfaces = read_interfaces(alloc, cur)?;
    let fields = read_fields(alloc, pool.as_slice(), cur)?;
    let methods = read_methods(alloc, pool.as_slice(), cur)?;
    Ok(ClassParts {
        pool,
        flags,
        this_class,
        super_class,
        interfaces,
        fields,
        methods,
    })
}

/// The parts of a class file, whether or not they keep the form.
#[tactic(auto, unfolding(crate::specs::ClassReading::file_at, nr_base::specs::Reader::whole, nr_base::specs::Reader::bind, nr_base::specs::Reader::pure, nr_base::specs::Reader::refuse, nr_base::specs::Reader::choose, nr_base::specs::Reader::from, nr_base::specs::Reader::with_fault))]
fn read_parts(alloc: Global, bytes: &[u8]) -> Result<ClassParts, ClassFault>
    requires { length bytes.now < 2 ^ 32 }
    ensures { GivesWhole is_free result (parts_of bytes.now) }
{
    let mut cur = Cur::new(bytes);
    read_magic(&mut cur)?;
    read_version(&mut cur)?;
    let parts = read_body(alloc, &mut cur)?;
    let count = cur.u16()?;
    skip_attributes(&mut cur, count)?;
    if !cur.is_empty() {
        return Err(ClassFault::Trailing(cur.at()));
    }
    Ok(parts)
}

fn read_formed(alloc: Global, bytes: &[u8]) -> Result<Class, ClassFault>
    requires { length bytes.now < 2 ^ 32 }
    ensures exact { GivesWhole is_free result (class_of bytes.now) }
    ensures formed { IfOk result IsFormed }
{
    let parts = read_parts(alloc, bytes)?;
    Ok(Class::from_parts(alloc, parts)?)
}

/// The class of a class file (JVM Specification 4, version 50.0).
///
/// # Errors
///
/// The first fault of the bytes from left to right, as `ClassFault` says. Only a file that is read whole
/// can have a fault of the form. `NoMemory` for want of memory.
pub fn read_class(alloc: Global, bytes: &[u8]) -> Result<Class, ClassFault>
    requires { length bytes.now < 2 ^ 32 }
    ensures found { IfOk result (λ c. ReadsAs bytes.now c) }
    ensures only { (c : PartsView) → ReadsAs bytes.now c → GivesWhole is_free result (Ok c) }
    ensures exact { GivesWhole is_free result (class_of bytes.now) }
{
    read_formed(alloc, bytes)
}
