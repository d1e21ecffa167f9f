//! Whole class files, written (JVM Specification 4.1).

ghost use Rattle.std.specs.Prelude.{◌≡◌, ◌<◌, ◌+◌, ◌^◌, ◌++◌, length, All, OnOk, IfOk};
ghost use Rattle.std.specs.List.{AllByRecursion};
ghost use Rattle.nr_classwrite.specs.Fits.{IndexFits, PartsFit, HasCounts};
ghost use Rattle.nr_classwrite.specs.Names.{names_of};
ghost use Rattle.nr_classwrite.specs.Text.{two, list_text, front_text, indices_text, class_text};

use crate::names::AttrNames;
use crate::write::field::put_fields;
use crate::write::method::put_methods;
use crate::write::number::{put_four, put_two};
use crate::write::pool::put_pool;
use nr_base::Put;
use nr_prog::ClassParts;
use std::alloc::{AllocError, Global};

/// Writes the magic number and the version.
fn put_front(put: &mut Put) -> Result<(), AllocError>
    ensures { OnOk result (put.new ≡ put.old ++ front_text) }
{
    put_four(put, 0xCAFE_BABE)?;
    put_two(put, 0)?;
    put_two(put, 50)
}

fn put_interfaces(put: &mut Put, interfaces: &[u16]) -> Result<(), AllocError>
    requires { length interfaces.now < 2 ^ 16 }
    ensures text { OnOk result (put.new ≡ put.old ++ list_text two interfaces.now) }
    ensures fits { OnOk result (AllByRecursion IndexFits interfaces.now) }
{
    put_two(put, interfaces.len() as u16)?;
    for index in interfaces {
        put_two(put, *index)?;
    }
    Ok(())
}

/// Writes the flags and the indices of this class and of those above it.
fn put_indices(put: &mut Put, class: &ClassParts) -> Result<(), AllocError>
    requires { length class.now.interfaces < 2 ^ 16 }
    ensures text { OnOk result (put.new ≡ put.old ++ indices_text class.now) }
    ensures flags { OnOk result (class.now.flags < 2 ^ 16) }
    ensures this { OnOk result (class.now.this_class < 2 ^ 16) }
    ensures above { OnOk result (class.now.super_class < 2 ^ 16) }
    ensures interfaces { OnOk result (AllByRecursion IndexFits class.now.interfaces) }
{
    put_two(put, class.flags)?;
    put_two(put, class.this_class)?;
    put_two(put, class.super_class)?;
    put_interfaces(put, class.interfaces.as_slice())
}

fn put_class(put: &mut Put, class: &ClassParts, names: AttrNames) -> Result<(), AllocError>
    requires counts { HasCounts class.now }
    requires names { names ≡ names_of class.now.pool }
    ensures text { OnOk result (put.new ≡ put.old ++ class_text class.now) }
    ensures fits { OnOk result (PartsFit class.now) }
{
    put_front(put)?;
    put_pool(put, class.pool.as_slice())?;
    put_indices(put, class)?;
    put_fields(put, names, class.fields.as_slice())?;
    put_methods(put, names, class.methods.as_slice())?;
    put_two(put, 0)
}

/// The bytes of the file of a class for whose counts there is room.
pub fn written(alloc: Global, class: &ClassParts, names: AttrNames) -> Result<Vec<u8>, AllocError>
    requires counts { HasCounts class.now }
    requires names { names ≡ names_of class.now.pool }
    ensures text { IfOk result (λ bytes. bytes.items ≡ class_text class.now) }
    ensures fits { IfOk result (λ bytes. PartsFit class.now) }
{
    let mut put = Put::new(alloc);
    put_class(&mut put, class, names)?;
    Ok(put.done())
}
