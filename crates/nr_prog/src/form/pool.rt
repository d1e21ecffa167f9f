//! What each entry of a constant pool owes.

ghost use Rattle.std.specs.Prelude.{◌≡◌, ◌+◌, ◌<◌, ◌≤◌, ◌^◌, length, All, OnOk};
ghost use Rattle.nr_base.specs.Grammar.{IsBytes};
ghost use Rattle.nr_prog.specs.Pool.{IsText, names, is_class, is_entry_formed, is_name_and_type, is_unused, is_utf8, is_wide};
ghost use Rattle.nr_prog.specs.Faults.{Finds};
ghost use Rattle.nr_prog.specs.Rules.{pool_fault};

use crate::fault::FormFault;
use crate::pool::{PoolEntry, entry};

fn names_utf8(pool: &[PoolEntry], index: u16) -> bool
    ensures { result ≡ names is_utf8 pool.now index }
{
    matches!(entry(pool, usize::from(index)), Some(PoolEntry::Utf8(_)))
}

fn names_class(pool: &[PoolEntry], index: u16) -> bool
    ensures { result ≡ names is_class pool.now index }
{
    matches!(entry(pool, usize::from(index)), Some(PoolEntry::Class(_)))
}

fn names_name_and_type(pool: &[PoolEntry], index: u16) -> bool
    ensures { result ≡ names is_name_and_type pool.now index }
{
    matches!(
        entry(pool, usize::from(index)),
        Some(PoolEntry::NameAndType(_, _))
    )
}

fn is_unused_at(pool: &[PoolEntry], index: usize) -> bool
    ensures { result ≡ names is_unused pool.now index }
{
    matches!(entry(pool, index), Some(PoolEntry::Unused))
}

fn is_wide_at(pool: &[PoolEntry], index: usize) -> bool
    ensures { result ≡ names is_wide pool.now index }
{
    matches!(
        entry(pool, index),
        Some(PoolEntry::Long(_) | PoolEntry::Double(_))
    )
}

/// A text, of which contracts learn that each of its elements is a byte.
fn know_bytes(text: &[u8])
    ensures { IsBytes text.now }
{}

fn know_text(entry: &PoolEntry)
    ensures { IsText entry.now }
{
    if let PoolEntry::Utf8(text) = entry {
        know_bytes(text.as_slice());
    }
}

/// Whether the entry at an index owes nothing (JVM Specification 4.4).
#[tactic(auto, unfolding(crate::specs::Pool::is_entry_formed))]
fn is_formed(pool: &[PoolEntry], index: usize, entry: &PoolEntry) -> bool
    requires low { 1 ≤ index }
    requires high { index < 2 ^ 16 }
    ensures { result ≡ is_entry_formed pool.now index entry.now }
{
    match entry {
        PoolEntry::Utf8(_) | PoolEntry::Integer(_) | PoolEntry::Float(_) => true,
        PoolEntry::Long(_) | PoolEntry::Double(_) => is_unused_at(pool, index + 1),
        PoolEntry::Unused => is_wide_at(pool, index - 1),
        PoolEntry::Class(name) | PoolEntry::Str(name) => names_utf8(pool, *name),
        PoolEntry::FieldRef(class, member)
        | PoolEntry::MethodRef(class, member)
        | PoolEntry::InterfaceMethodRef(class, member) => {
            names_class(pool, *class) && names_name_and_type(pool, *member)
        }
        PoolEntry::NameAndType(name, desc) => names_utf8(pool, *name) && names_utf8(pool, *desc),
    }
}

/// Looks at each entry (JVM Specification 4.4). In passing contracts learn that its texts are bytes.
#[tactic(auto, using(crate::proofs::Walks::goes_on, crate::proofs::Walks::stops, crate::proofs::Walks::ends), unfolding(crate::specs::Rules::pool_fault))]
pub fn check_pool(pool: &[PoolEntry]) -> Result<(), FormFault>
    requires { length pool.now < 2 ^ 16 }
    ensures fault { Finds result (pool_fault pool.now) }
    ensures texts { OnOk result (All IsText pool.now) }
{
    for (place, entry) in pool.iter().enumerate() {
        know_text(entry);
        let index = place + 1;
        if !is_formed(pool, index, entry) {
            return Err(FormFault::PoolKind(index as u16));
        }
    }
    Ok(())
}
