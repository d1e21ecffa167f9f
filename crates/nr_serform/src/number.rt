//! The numbers of classes.

ghost use Rattle.std.specs.Prelude.{◌≡◌, ◌&&◌, IfOk, IsTrue, find, option_copied};
ghost use Rattle.std.specs.Str.{bytes_eq};
ghost use Rattle.nr_linked.specs.Linked.{is_loaded};
ghost use Rattle.nr_prog.specs.Members.{spells};
ghost use Rattle.nr_serform.specs.ClassNumbers.{class_number, declared_number, digest_number, is_number_field, long_at, parts_number};

use crate::flags::{FINAL, STATIC, has_flag};
use crate::parts::parts_text;
use nr_base::Name;
use nr_linked::{ClassId, Program};
use nr_prog::{Class, Field, PoolEntry};
use sha1::Sha1;
use std::alloc::{AllocError, Global};

#[tactic(auto, unfolding(nr_prog::specs::Members::spells))]
fn is_text(class: &Class, index: u16, text: &[u8]) -> bool
    ensures { result ≡ spells (bytes_eq text.now) class.now.pool index }
{
    match class.text(index) {
        Some(found) => text == found,
        None => false,
    }
}

/// Whether it declares the class's number (Java Object Serialization Specification 4.6).
fn is_number_field(class: &Class, field: &Field) -> bool
    ensures { result ≡ is_number_field class.now.pool field.now }
{
    has_flag(field.flags, STATIC)
        && has_flag(field.flags, FINAL)
        && is_text(class, field.name, b"serialVersionUID")
        && is_text(class, field.desc, b"J")
        && field.constant != 0
}

fn long_at(class: &Class, index: u16) -> Option<i64>
    ensures { result ≡ long_at class.now.pool index }
{
    match class.entry(index)? {
        PoolEntry::Long(number) => Some(*number),
        _ => None,
    }
}

fn number_field(class: &Class) -> Option<&Field>
    ensures { option_copied result ≡ find (is_number_field class.now.pool) class.now.fields }
{
    let fields = class.parts().fields.as_slice();
    fields.iter().find(|field| is_number_field(class, field))
}

/// The number that the class declares, if it declares one.
fn declared_number(class: &Class) -> Option<i64>
    ensures { result ≡ declared_number class.now }
{
    let field = number_field(class)?;
    long_at(class, field.constant)
}

/// The first eight bytes of a digest of the class's parts.
#[tactic(auto, unfolding(crate::specs::ClassNumbers::digest_number))]
fn digest_number(alloc: Global, name: &Name, class: &Class) -> Result<u64, AllocError>
    ensures { IfOk result (λ n. n ≡ digest_number name.now class.now) }
{
    let text = parts_text(alloc, name, class)?;
    let [a, b, c, d, e, f, g, h, ..] = Sha1::digest(text.as_slice());
    Ok(u64::from_le_bytes([a, b, c, d, e, f, g, h]))
}

/// The number that the class declares, or else its digest's.
#[tactic(auto, unfolding(crate::specs::ClassNumbers::parts_number))]
pub fn parts_number(alloc: Global, name: &Name, class: &Class) -> Result<u64, AllocError>
    ensures { IfOk result (λ n. n ≡ parts_number name.now class.now) }
{
    match declared_number(class) {
        Some(number) => Ok(number.cast_unsigned()),
        None => digest_number(alloc, name, class),
    }
}

/// The class's number, and 0 for a built-in class.
#[tactic(auto, unfolding(crate::specs::ClassNumbers::class_number))]
pub fn number_of(alloc: Global, program: &Program, class: ClassId) -> Result<u64, AllocError>
    ensures { IfOk result (λ n. n ≡ class_number program.now class) }
{
    match program.tables().class_at(class) {
        Some(info) => match &info.read {
            Some(read) => parts_number(alloc, &info.name, read),
            None => Ok(0),
        },
        None => Ok(0),
    }
}

/// The number of a class that was loaded (Java Object Serialization Specification 4.6): the
/// `serialVersionUID` that it declares, or else the first eight bytes of a digest of its parts. The
/// digest's text has the class's own flags and members as its file has them, so it isn't said to be that
/// of another machine. The error comes only for want of memory.
pub fn uid_of(alloc: Global, program: &Program, class: ClassId) -> Result<u64, AllocError>
    requires { IsTrue (is_loaded program.now class) }
    ensures { IfOk result (λ n. n ≡ class_number program.now class) }
{
    number_of(alloc, program, class)
}
