//! The handles that a stream gives.

ghost use Rattle.std.specs.Prelude.{◌≡◌, ◌++◌, ◌∷◌, [], false, true, MatchOption, OnErr, OnOk};
ghost use Rattle.std.specs.Option.{option_map};
ghost use Rattle.nr_serform.specs.Handles.{entry_at, handle, has};
ghost use Rattle.nr_serform.specs.Keys.{entry_of};

use crate::handled::Handled;
use indexmap::IndexSet;
use std::alloc::{AllocError, Global};
use std::marker::Model;

/// What has a handle, in the order in which they were given (Java Object Serialization Specification
/// 6.4.2). Contracts see it as the list of these. A handle has 32 bits.
#[derive(Drop)]
pub struct Handles<'p> {
    keys: IndexSet<Handled<'p>>,
}

impl<'p> Model for Handles<'p> {
    ghost use Rattle.std.specs.Prelude.{List, ◌+◌, ◌≤◌, ◌^◌, length, map};
    ghost use Rattle.nr_serform.specs.Entries.{Entry};
    ghost use Rattle.nr_serform.specs.Keys.{entry_of};

    ghost Value = { List Entry };

    ghost view = { λ h. map entry_of h.keys.keys };

    ghost invariant = { λ h. 0x7E0000 + length h.keys.keys ≤ 2 ^ 32 };
}

/// The first handle.
const FIRST: u32 = 0x7E0000;

impl<'p> Handles<'p> {
    /// No handles. It takes no memory.
    pub fn new(alloc: Global) -> Handles<'p>
        ensures { result ≡ [] }
    {
        Handles {
            keys: IndexSet::new(alloc),
        }
    }

    /// The handle of something, or none where it has none.
    pub fn find(&self, key: Handled<'p>) -> Option<u32>
        ensures { MatchOption result (has self.now (entry_of key.entry) ≡ false)
            (λ n. (n ≡ handle self.now (entry_of key.entry)) × (has self.now (entry_of key.entry) ≡ true)) }
    {
        match self.keys.get_index_of(&key) {
            Some(place) => Some(FIRST + place as u32),
            None => None,
        }
    }

    /// Gives the next handle to something that has none. The error comes only for want of memory, or
    /// where there are no more handles, and leaves the handles as they were.
    pub fn give(&mut self, key: Handled<'p>) -> Result<(), AllocError>
        requires { has self.old (entry_of key) ≡ false }
        ensures ok { OnOk result (self.new ≡ self.old ++ entry_of key.entry ∷ []) }
        ensures err { OnErr result (self.new ≡ self.old) }
    {
        if self.keys.len() >= (u32::MAX - FIRST) as usize {
            return Err(AllocError);
        }
        self.keys.insert(key)?;
        Ok(())
    }

    /// What has a handle, or none where it isn't given.
    pub fn at(&self, handle: u32) -> Option<Handled<'p>>
        ensures { option_map entry_of result ≡ entry_at self.now handle }
    {
        if handle < FIRST {
            return None;
        }
        self.keys.get_index((handle - FIRST) as usize).copied()
    }
}
