//! Entries with those that they name. A call that fails may leave a part of them.

ghost use Rattle.std.specs.Prelude.{◌≡◌, ◌<◌, ◌≤◌, ◌^◌, ◌⊎◌, length};
ghost use Rattle.nr_classmake.specs.Making.{class_ref, name_and_type, names, member_ref, ref_entry};
ghost use Rattle.nr_classmake.specs.Places.{with_entry};
ghost use Rattle.nr_classmake.specs.Words.{Tries};
ghost use Rattle.nr_prog.specs.declared.pool.PoolEntry.TheVariants.{Utf8};

use super::Pool;
use crate::fault::MakeFault;
use nr_base::{Items, Name};
use nr_prog::PoolEntry;
use std::alloc::Global;

/// A reference by its tag.
fn ref_entry(tag: u8, class: u16, member: u16) -> PoolEntry
    ensures { result ≡ ref_entry tag class member }
{
    if tag == 9 {
        PoolEntry::FieldRef(class, member)
    } else if tag == 10 {
        PoolEntry::MethodRef(class, member)
    } else {
        PoolEntry::InterfaceMethodRef(class, member)
    }
}

impl Pool {
    pub fn try_text(&mut self, alloc: Global, bytes: &[u8]) -> Result<u16, MakeFault>
        requires { length bytes.now < 2 ^ 16 }
        ensures { Tries result self.old self.new (with_entry (Utf8 bytes.now) self.old) }
    {
        let text = Items::of(alloc, bytes)?;
        self.place(alloc, PoolEntry::Utf8(text))
    }

    pub fn try_class(&mut self, alloc: Global, name: &Name) -> Result<u16, MakeFault>
        ensures { Tries result self.old self.new (class_ref name.now self.old) }
    {
        let name = self.try_text(alloc, name.as_bytes())?;
        self.place(alloc, PoolEntry::Class(name))
    }

    pub fn try_names(
        &mut self,
        alloc: Global,
        name: &Name,
        desc: &Name,
    ) -> Result<(u16, u16), MakeFault>
        ensures { Tries result self.old self.new (names name.now desc.now self.old) }
    {
        let name = self.try_text(alloc, name.as_bytes())?;
        let desc = self.try_text(alloc, desc.as_bytes())?;
        Ok((name, desc))
    }

    pub fn try_name_and_type(
        &mut self,
        alloc: Global,
        name: &Name,
        desc: &Name,
    ) -> Result<u16, MakeFault>
        ensures { Tries result self.old self.new (name_and_type name.now desc.now self.old) }
    {
        let (name, desc) = self.try_names(alloc, name, desc)?;
        self.place(alloc, PoolEntry::NameAndType(name, desc))
    }

    pub fn try_member(
        &mut self,
        alloc: Global,
        tag: u8,
        class: &Name,
        name: &Name,
        desc: &Name,
    ) -> Result<u16, MakeFault>
        ensures { Tries result self.old self.new (member_ref tag class.now name.now desc.now self.old) }
    {
        let class = self.try_class(alloc, class)?;
        let member = self.try_name_and_type(alloc, name, desc)?;
        self.place(alloc, ref_entry(tag, class, member))
    }
}
