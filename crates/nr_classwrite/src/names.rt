//! The names of attributes in the constant pool.

ghost use Rattle.std.specs.Prelude.{◌≡◌, ◌<◌, ◌^◌, length};
ghost use Rattle.nr_classwrite.specs.Names.{is_utf8_of, index_in, names_of};

use nr_prog::PoolEntry;

/// The indices of the first Utf8 entries that spell the names of the attributes that are written.
#[derive(Clone, Copy, Debug)]
pub struct AttrNames {
    pub code: Option<u16>,
    pub maps: Option<u16>,
    pub constant: Option<u16>,
}

fn spells(entry: &PoolEntry, text: &[u8]) -> bool
    ensures { result ≡ is_utf8_of text.now entry.now }
{
    match entry {
        PoolEntry::Utf8(bytes) => text == bytes.as_slice(),
        _ => false,
    }
}

#[tactic(auto, using(crate::proofs::Walks::looks_on, crate::proofs::Walks::is_there, crate::proofs::Walks::is_nowhere))]
fn index_of(pool: &[PoolEntry], text: &[u8]) -> Option<u16>
    requires { length pool.now < 2 ^ 16 }
    ensures { result ≡ index_in pool.now text.now }
{
    let mut index = 0;
    for entry in pool {
        index += 1;
        if spells(entry, text) {
            return Some(index);
        }
    }
    None
}

impl AttrNames {
    /// The names in a pool.
    pub fn of(pool: &[PoolEntry]) -> AttrNames
        requires { length pool.now < 2 ^ 16 }
        ensures { result ≡ names_of pool.now }
    {
        AttrNames {
            code: index_of(pool, b"Code"),
            maps: index_of(pool, b"StackMapTable"),
            constant: index_of(pool, b"ConstantValue"),
        }
    }
}
