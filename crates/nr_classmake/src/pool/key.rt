//! What an entry is looked up by.

ghost use Rattle.std.specs.Prelude.{◌≡◌, [], IfOk, pos};
ghost use Rattle.nr_classmake.specs.Keys.{key_in};

use nr_base::Items;
use nr_prog::PoolEntry;
use std::alloc::{AllocError, Global};

/// The tag of an entry (JVM Specification 4.4), its number, its two indices and its text.
pub type Key = (u8, i64, u16, u16, Items<u8>);

fn of_indices(alloc: Global, tag: u8, first: u16, second: u16) -> Key
    ensures { result ≡ (tag, pos 0, first, second, []) }
{
    (tag, 0, first, second, Items::new(alloc))
}

fn of_number(alloc: Global, tag: u8, number: i64) -> Key
    ensures { result ≡ (tag, number, 0, 0, []) }
{
    (tag, number, 0, 0, Items::new(alloc))
}

fn of_text(alloc: Global, text: &Items<u8>) -> Result<Key, AllocError>
    ensures { IfOk result (λ key. key ≡ (1, pos 0, 0, 0, text.now)) }
{
    Ok((1, 0, 0, 0, Items::of(alloc, text.as_slice())?))
}

/// The key of an entry.
pub fn key_of(alloc: Global, entry: &PoolEntry) -> Result<Key, AllocError>
    ensures { IfOk result (λ key. key ≡ key_in entry.now) }
{
    match entry {
        PoolEntry::Utf8(text) => of_text(alloc, text),
        PoolEntry::Integer(n) => Ok(of_number(alloc, 3, i64::from(*n))),
        PoolEntry::Long(n) => Ok(of_number(alloc, 5, *n)),
        PoolEntry::Class(name) => Ok(of_indices(alloc, 7, *name, 0)),
        PoolEntry::FieldRef(class, member) => Ok(of_indices(alloc, 9, *class, *member)),
        PoolEntry::MethodRef(class, member) => Ok(of_indices(alloc, 10, *class, *member)),
        PoolEntry::InterfaceMethodRef(class, member) => Ok(of_indices(alloc, 11, *class, *member)),
        PoolEntry::NameAndType(name, desc) => Ok(of_indices(alloc, 12, *name, *desc)),
        _ => Ok(of_indices(alloc, 0, 0, 0)),
    }
}
