//! The constant pool of a class that is made, with an index of its entries.

ghost use Rattle.std.specs.Prelude.{◌≡◌, ◌<◌, ◌^◌, ◌+◌, [], length, take, None, IsTrue, IfSome, OnOk, OnErr};
ghost use Rattle.nr_prog.specs.Pool.{text_len};
ghost use Rattle.nr_classmake.specs.Places.{HasShortTexts, slot_of, with_entry, added};
ghost use Rattle.nr_classmake.specs.Keys.{is_kept, key_in};
ghost use Rattle.nr_classmake.specs.Making.{class_ref, member_ref};
ghost use Rattle.nr_classmake.specs.Words.{Tries, Makes};

mod chains;
mod key;
mod members;
mod same;

use crate::fault::MakeFault;
use key::{Key, key_of};
use nr_base::{Items, Name};
use nr_prog::PoolEntry;
use same::{is_wide, stands_at};
use std::alloc::Global;
use std::collections::BTreeMap;
use std::marker::Model;

/// A constant pool. The index has the slot of each entry, its place less one; slots of entries that
/// were taken back may stand in it too, so what it finds is compared.
#[derive(Debug, Drop)]
pub struct Pool {
    entries: Vec<PoolEntry>,
    index: BTreeMap<Key, usize>,
}

impl Model for Pool {
    ghost use Rattle.std.specs.Prelude.{List, length, ◌<◌, ◌^◌};
    ghost use Rattle.nr_prog.specs.declared.pool.PoolEntry.{PoolEntry};
    ghost use Rattle.nr_classmake.specs.Keys.{IsIndexed};
    ghost use Rattle.nr_classmake.specs.Places.{HasShortTexts};

    ghost Value = { List PoolEntry };

    ghost view = { λ p. p.entries.items };

    ghost invariant = { λ p. (length p.entries.items < 2 ^ 16) × HasShortTexts p.entries.items × IsIndexed p.index p.entries.items };
}

impl Pool {
    /// An empty pool. It takes no memory.
    pub fn new(alloc: Global) -> Pool
        ensures { result ≡ [] }
    {
        Pool {
            entries: Vec::new(alloc),
            index: BTreeMap::new(alloc),
        }
    }

    pub fn len(&self) -> usize
        ensures len { result ≡ length self.now }
        ensures bound { result < 2 ^ 16 }
    {
        self.entries.len()
    }

    /// The entries.
    pub fn into_entries(self) -> Items<PoolEntry>
        ensures entries { result ≡ self }
        ensures bound { length self < 2 ^ 16 }
        ensures texts { HasShortTexts self }
    {
        let Pool { entries, index: _ } = self;
        Items::from_vec(entries)
    }

    /// Takes back all entries but the first ones.
    pub fn truncate(&mut self, len: usize)
        ensures first { self.new ≡ take len self.old }
        ensures bound { length self.new < 2 ^ 16 }
    {
        self.entries.truncate(len);
    }

    /// The slot of an entry.
    fn find(&self, key: &Key, entry: &PoolEntry) -> Option<usize>
        requires kept { IsTrue (is_kept entry.now) }
        requires key { key.now ≡ key_in entry.now }
        ensures value { result ≡ slot_of entry.now self.now }
        ensures within { IfSome result (λ slot. slot + 1 < 2 ^ 16) }
    {
        let slot = *self.index.get(key)?;
        if stands_at(&self.entries, slot, entry) {
            Some(slot)
        } else {
            None
        }
    }

    /// Puts a new entry at the end.
    fn push(&mut self, key: Key, entry: PoolEntry) -> Result<u16, MakeFault>
        requires kept { IsTrue (is_kept entry) }
        requires key { key ≡ key_in entry }
        requires short { text_len entry < 2 ^ 16 }
        requires new { slot_of entry self.old ≡ None }
        ensures { Tries result self.old self.new (added entry self.old) }
    {
        let wide = is_wide(&entry);
        let slot = self.entries.as_slice().len();
        if slot + usize::from(wide) >= 0xFFFF {
            return Err(MakeFault::PoolFull);
        }
        self.index.insert(key, slot)?;
        self.entries.push(entry)?;
        if wide {
            self.entries.push(PoolEntry::Unused)?;
        }
        Ok(slot as u16 + 1)
    }

    /// The place of an entry, which is added at the end where the pool doesn't have it.
    pub fn place(&mut self, alloc: Global, entry: PoolEntry) -> Result<u16, MakeFault>
        requires kept { IsTrue (is_kept entry) }
        requires short { text_len entry < 2 ^ 16 }
        ensures { Tries result self.old self.new (with_entry entry self.old) }
    {
        let key = key_of(alloc, &entry)?;
        match self.find(&key, &entry) {
            Some(slot) => Ok(slot as u16 + 1),
            None => self.push(key, entry),
        }
    }

    /// Takes back what a call that failed had added since the pool had so many entries.
    fn settled<T>(&mut self, mark: usize, made: Result<T, MakeFault>) -> Result<T, MakeFault>
        ensures same { result ≡ made }
        ensures ok { OnOk made (self.new ≡ self.old) }
        ensures err { OnErr made (self.new ≡ take mark self.old) }
        ensures bound { length self.new < 2 ^ 16 }
    {
        let _ = &self.entries;
        match made {
            Ok(made) => Ok(made),
            Err(fault) => {
                self.truncate(mark);
                Err(fault)
            }
        }
    }

    /// The place of an entry, as in the calls below.
    pub fn entry(&mut self, alloc: Global, entry: PoolEntry) -> Result<u16, MakeFault>
        requires kept { IsTrue (is_kept entry) }
        requires short { text_len entry < 2 ^ 16 }
        ensures { Makes result self.old self.new (with_entry entry self.old) }
    {
        let mark = self.len();
        let made = self.place(alloc, entry);
        self.settled(mark, made)
    }

    pub fn class_ref(&mut self, alloc: Global, name: &Name) -> Result<u16, MakeFault>
        ensures { Makes result self.old self.new (class_ref name.now self.old) }
    {
        let mark = self.len();
        let made = self.try_class(alloc, name);
        self.settled(mark, made)
    }

    pub fn member_ref(
        &mut self,
        alloc: Global,
        tag: u8,
        class: &Name,
        name: &Name,
        desc: &Name,
    ) -> Result<u16, MakeFault>
        ensures { Makes result self.old self.new (member_ref tag class.now name.now desc.now self.old) }
    {
        let mark = self.len();
        let made = self.try_member(alloc, tag, class, name, desc);
        self.settled(mark, made)
    }
}
