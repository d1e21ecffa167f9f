//! Entries, compared.

ghost use Rattle.std.specs.Prelude.{◌≡◌};
ghost use Rattle.nr_prog.specs.Pool.{is_wide};
ghost use Rattle.nr_classmake.specs.Places.{is_same, is_at};

use nr_prog::PoolEntry;

/// Whether the entry takes two places.
pub fn is_wide(entry: &PoolEntry) -> bool
    ensures { result ≡ is_wide entry.now }
{
    matches!(entry, PoolEntry::Long(_) | PoolEntry::Double(_))
}

fn is_same(a: &PoolEntry, b: &PoolEntry) -> bool
    ensures { result ≡ is_same a.now b.now }
{
    match (a, b) {
        (PoolEntry::Utf8(a), PoolEntry::Utf8(b)) => a.as_slice() == b.as_slice(),
        (PoolEntry::Integer(a), PoolEntry::Integer(b)) => a == b,
        (PoolEntry::Long(a), PoolEntry::Long(b)) => a == b,
        (PoolEntry::Class(a), PoolEntry::Class(b)) => a == b,
        (PoolEntry::FieldRef(a, b), PoolEntry::FieldRef(c, d)) => a == c && b == d,
        (PoolEntry::MethodRef(a, b), PoolEntry::MethodRef(c, d)) => a == c && b == d,
        (PoolEntry::InterfaceMethodRef(a, b), PoolEntry::InterfaceMethodRef(c, d)) => {
            a == c && b == d
        }
        (PoolEntry::NameAndType(a, b), PoolEntry::NameAndType(c, d)) => a == c && b == d,
        _ => false,
    }
}

/// Whether an entry stands at a slot.
pub fn stands_at(pool: &[PoolEntry], slot: usize, entry: &PoolEntry) -> bool
    ensures { result ≡ is_at entry.now pool.now slot }
{
    match pool.get(slot) {
        Some(there) => is_same(entry, there),
        None => false,
    }
}
