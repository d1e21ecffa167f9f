//! The slots of a class's objects.

ghost use Rattle.std.specs.Prelude.{◌≡◌, ◌<◌, length, IfSome};
ghost use Rattle.nr_linked.specs.Slots.{kind_of_slot, slot_named, slots_of};

use super::kind::{ClassId, Kind};
use super::tables::{ProgramTables, SlotInfo};
use nr_base::Name;

impl ProgramTables {
    pub(super) fn slots_of(&self, class: ClassId) -> &[SlotInfo]
        ensures { result.now ≡ slots_of self.now class }
    {
        match self.class_at(class) {
            Some(info) => info.slots.as_slice(),
            None => &[],
        }
    }

    pub(super) fn kind_of_slot(&self, class: ClassId, slot: u32) -> Option<Kind>
        ensures { result ≡ kind_of_slot self.now class slot }
    {
        let info = self.slots_of(class).get(slot as usize)?;
        Some(info.kind)
    }

    pub(super) fn slot_named(
        &self,
        class: ClassId,
        declared_in: ClassId,
        name: &Name,
    ) -> Option<usize>
        ensures named { result ≡ slot_named self.now class declared_in name.now }
        ensures within { IfSome result (λ i. i < length (slots_of self.now class)) }
    {
        self.slots_of(class).iter().position(|slot| slot.declared_in == declared_in
            && slot.name.as_bytes() == name.as_bytes())
    }
}
