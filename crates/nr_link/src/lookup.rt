//! What is kept beside the tables, so that what instructions name is found without looking at texts.

ghost use Rattle.std.specs.Prelude.{◌≡◌, ◌<◌, ◌≤◌, ◌^◌, length, map, None, IfOk, IfSome, IsOkUnless, OnOk};
ghost use Rattle.std.specs.Option.{option_map};
ghost use Rattle.nr_names.specs.Numbers.{texts};
ghost use Rattle.nr_link.specs.Lookups.{IsIndexed, IsKept};

use crate::meanings::Meaning;
use indexmap::IndexSet;
use nr_base::Items;
use nr_linked::{ClassId, ProgramTables};
use nr_names::{Key, Table};

/// What is kept of a class.
#[derive(Drop)]
pub struct Kept {
    /// What the texts of its constant pool mean, by their places.
    pub meanings: Items<Option<Meaning>>,
    /// The numbers of these texts.
    pub numbers: Items<Option<u32>>,
    /// The methods that it declares, by their places in the table of methods.
    pub methods: Table,
    /// The fields that it declares, by their places.
    pub fields: Table,
    /// The slots of its objects, by their places.
    pub slots: Table,
}

/// What is kept beside the tables.
#[derive(Drop)]
pub struct Lookup<'a> {
    /// What stands above which class.
    pub rows: &'a [Items<bool>],
    /// The direct superinterfaces of each class, each once.
    pub lists: Items<Items<ClassId>>,
    /// The texts that have numbers.
    pub texts: IndexSet<&'a [u8]>,
    /// What is kept of each class.
    pub classes: Items<Kept>,
}

/// A member that is looked for.
#[derive(Clone, Copy, Debug)]
pub struct Sought<'a> {
    pub name: &'a [u8],
    pub desc: &'a [u8],
    /// The numbers of both, where they are known.
    pub numbers: Option<(u32, u32)>,
}

/// The key of the member, where the class declares it.
pub fn key_in(sought: &Sought, holder: ClassId) -> Option<Key>
    ensures { result ≡ option_map (λ p. record { holder = holder; name = p.0; desc = p.1 }) sought.now.numbers }
{
    let (name, desc) = sought.numbers?;
    Some(Key { holder, name, desc })
}

/// What is kept of the class.
#[tactic(auto, using(crate::proofs::Looked::kept_at, crate::proofs::Looked::kept_past))]
pub fn kept_of<'a>(tables: &ProgramTables, lookup: &'a Lookup, class: ClassId) -> Option<&'a Kept>
    requires indexed { IsIndexed tables.now lookup.now }
    ensures kept { IfSome result (λ k. IsKept tables.now (texts lookup.now.texts) class k.now) }
    ensures past { result ≡ None → length tables.now.classes ≤ class }
{
    lookup.classes.as_slice().get(class as usize)
}
