//! The constant pool, written (JVM Specification 4.4).

ghost use Rattle.std.specs.Prelude.{◌≡◌, ◌<◌, ◌+◌, ◌^◌, ◌++◌, length, All, OnOk};
ghost use Rattle.std.specs.List.{AllByRecursion};
ghost use Rattle.nr_prog.specs.Pool.{text_len};
ghost use Rattle.nr_classwrite.specs.Fits.{EntryFits};
ghost use Rattle.nr_classwrite.specs.Text.{one, two, entry_text, pool_text};

use crate::write::number::{put_eight, put_four, put_one, put_two};
use nr_base::{Items, Put};
use nr_prog::PoolEntry;
use std::alloc::AllocError;

/// Writes a tag and two indices.
fn put_pair(put: &mut Put, tag: u8, a: u16, b: u16) -> Result<(), AllocError>
    ensures { OnOk result (put.new ≡ put.old ++ (one tag ++ (two a ++ two b))) }
{
    put_one(put, tag)?;
    put_two(put, a)?;
    put_two(put, b)
}

/// Writes a tag and an index.
fn put_index(put: &mut Put, tag: u8, index: u16) -> Result<(), AllocError>
    ensures { OnOk result (put.new ≡ put.old ++ (one tag ++ two index)) }
{
    put_one(put, tag)?;
    put_two(put, index)
}

fn put_utf8(put: &mut Put, bytes: &Items<u8>) -> Result<(), AllocError>
    requires { length bytes.now < 2 ^ 16 }
    ensures { OnOk result (put.new ≡ put.old ++ (one 1 ++ (two (length bytes.now) ++ bytes.now))) }
{
    put_one(put, 1)?;
    put_two(put, bytes.len() as u16)?;
    put.bytes(bytes.as_slice())
}

fn put_entry(put: &mut Put, entry: &PoolEntry) -> Result<(), AllocError>
    requires { text_len entry.now < 2 ^ 16 }
    ensures text { OnOk result (put.new ≡ put.old ++ entry_text entry.now) }
    ensures fits { OnOk result (EntryFits entry.now) }
{
    match entry {
        PoolEntry::Utf8(bytes) => put_utf8(put, bytes),
        PoolEntry::Integer(n) => {
            put_one(put, 3)?;
            put_four(put, n.cast_unsigned())
        }
        PoolEntry::Float(bits) => {
            put_one(put, 4)?;
            put_four(put, *bits)
        }
        PoolEntry::Long(n) => {
            put_one(put, 5)?;
            put_eight(put, n.cast_unsigned())
        }
        PoolEntry::Double(bits) => {
            put_one(put, 6)?;
            put_eight(put, *bits)
        }
        PoolEntry::Class(name) => put_index(put, 7, *name),
        PoolEntry::Str(text) => put_index(put, 8, *text),
        PoolEntry::FieldRef(class, member) => put_pair(put, 9, *class, *member),
        PoolEntry::MethodRef(class, member) => put_pair(put, 10, *class, *member),
        PoolEntry::InterfaceMethodRef(class, member) => put_pair(put, 11, *class, *member),
        PoolEntry::NameAndType(name, desc) => put_pair(put, 12, *name, *desc),
        PoolEntry::Unused => Ok(()),
    }
}

/// Writes the pool's count, which is one more than its entries, and the entries.
pub fn put_pool(put: &mut Put, pool: &[PoolEntry]) -> Result<(), AllocError>
    requires few { length pool.now + 1 < 2 ^ 16 }
    requires short { All (λ e. text_len e < 2 ^ 16) pool.now }
    ensures text { OnOk result (put.new ≡ put.old ++ pool_text pool.now) }
    ensures fits { OnOk result (AllByRecursion EntryFits pool.now) }
{
    put_two(put, pool.len() as u16 + 1)?;
    for entry in pool {
        put_entry(put, entry)?;
    }
    Ok(())
}
