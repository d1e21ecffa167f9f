//! Places of members, by their keys.

ghost use Rattle.std.specs.Prelude.{◌≡◌, ◌<◌, ◌^◌, None, OnOk, Some, if◌then◌else◌, length};
ghost use Rattle.std.specs.Option.{option_or};
ghost use Rattle.nr_names.specs.Numbers.{texts};
ghost use Rattle.nr_names.specs.Tables.{has_key, key_by, key_of, place_in};

use crate::numbers::small_number;
use indexmap::{IndexMap, IndexSet};
use std::alloc::{AllocFailed, Global};

/// A member by the number of the class that declares it, and by the numbers of its name and its
/// descriptor.
#[derive(Clone, Copy, Debug, Drop, PartialEq, Eq, Hash)]
pub struct Key {
    pub holder: u32,
    pub name: u32,
    pub desc: u32,
}

impl Key {
    /// The key of a member of the class, by the numbers of its name and its descriptor; none where one
    /// has no number.
    pub fn by(holder: u32, name: Option<u32>, desc: Option<u32>) -> Option<Key>
        ensures { result ≡ key_by holder name desc }
    {
        let name = name?;
        let desc = desc?;
        Some(Key { holder, name, desc })
    }

    /// The same by the texts themselves.
    pub fn of(known: &IndexSet<&[u8]>, holder: u32, name: &[u8], desc: &[u8]) -> Option<Key>
        requires few { length (texts known.now) < 2 ^ 32 }
        ensures { result ≡ key_of (texts known.now) holder name.now desc.now }
    {
        Key::by(holder, small_number(known, name), small_number(known, desc))
    }
}

/// The place of the first member of each key.
#[derive(Drop)]
pub struct Table {
    places: IndexMap<Key, usize>,
}

impl Table {
    /// A table of no members.
    pub fn new(alloc: Global) -> Table
        ensures { (k : Key) → place_in result k ≡ None }
    {
        Table {
            places: IndexMap::new(alloc),
        }
    }

    /// Adds the member at the place, which has no key where its name or its descriptor has no number.
    pub fn add(&mut self, place: usize, key: Option<Key>) -> Result<(), AllocFailed<(Key, usize)>>
        ensures { OnOk result ((k : Key) → place_in self.new k ≡ option_or (place_in self.old k) (if has_key k key then Some place else None)) }
    {
        let Some(key) = key else {
            return Ok(());
        };
        match self.places.get(&key) {
            Some(_) => Ok(()),
            None => {
                self.places.insert(key, place)?;
                Ok(())
            }
        }
    }

    /// The place of the first member of this key.
    pub fn get(&self, key: Key) -> Option<usize>
        ensures { result ≡ place_in self.now key }
    {
        self.places.get(&key).copied()
    }
}
