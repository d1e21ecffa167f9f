//! New objects and arrays.

ghost use Rattle.std.specs.Prelude.{◌≡◌, ◌+◌, ◌-◌, ◌++◌, ◌<◌, ◌≤◌, max, length, map, replicate, Err, IfOk, IsOk, IsOkUnless, IsTrue, OnOk, OnErr};
ghost use Rattle.std.specs.Vec.{vec_len, vec_capacity};
ghost use Rattle.nr_linked.specs.TypingFacts.{is_makeable};
ghost use Rattle.nr_model.specs.Heaps.{Obj, cells, cells_of};
ghost use Rattle.nr_model.specs.Outcomes.{max_cells};
ghost use Rattle.nr_heap.specs.Arenas.{new_slots, width};
ghost use Rattle.nr_heap.specs.Forms.{form_of};
ghost use Rattle.nr_heap.specs.Contents.{array_with, object_of, reached, HasMade};

use super::super::fault::HeapFault;
use super::super::form::Form;
use super::super::place::Place;
use super::Heap;
use nr_linked::{Base, ClassId, Kind, Program, SlotInfo};
use nr_model::Ref;

/// The cells that a heap may have.
const MAX_CELLS: u64 = 0x10_0000;

impl Heap {
    /// A new object of a class, each of whose slots is zero or null (JVM Specification 6.5, new). It
    /// takes no memory where the spare cells are enough for it. `HeapFull` exactly where the heap
    /// would have more than 1,048,576 cells, with their number; `NoMemory` for want of memory.
    pub fn new_object(&mut self, p: &Program, class: ClassId) -> Result<Ref, HeapFault>
        requires { IsTrue (is_makeable p.now class) }
        ensures made { IfOk result (λ name. HasMade self.old self.new name (object_of p.now class)) }

        // It fails exactly where the heap would pass its limit, or for want of memory.
        ensures full { let n = reached self.old.objects (object_of p.now class) in
            max_cells < n → result ≡ Err (HeapFault.HeapFull n) }
        ensures other { reached self.old.objects (object_of p.now class) ≤ max_cells → IsOkUnless result HeapFault.NoMemory }
        ensures spared { reached self.old.objects (object_of p.now class) ≤ max_cells
            → cells_of (object_of p.now class) ≤ self.old.spare → IsOk result }
        ensures err { OnErr result (self.new ≡ self.old) }
    {
        let slots = p.class(class).slots.as_slice();
        let len = p.slots(class);
        self.room_for(len)?;
        let kind = Kind {
            dims: 0,
            base: Base::Object(class),
        };
        Ok(self.make(kind, len, slots))
    }

    /// A new array of so many elements of a kind, each of which is zero or null (JVM Specification
    /// 6.5, newarray, anewarray). It takes no memory where the spare cells are enough for it.
    /// `HeapFull` exactly where the heap would have more than 1,048,576 cells, with their number;
    /// `NoMemory` for want of memory.
    pub fn new_array(&mut self, elem: Kind, len: u32) -> Result<Ref, HeapFault>
        requires { elem.dims ≤ 254 }
        ensures made { IfOk result (λ name. HasMade self.old self.new name (array_with elem len)) }

        // It fails exactly where the heap would pass its limit, or for want of memory.
        ensures full { let n = reached self.old.objects (array_with elem len) in
            max_cells < n → result ≡ Err (HeapFault.HeapFull n) }
        ensures other { reached self.old.objects (array_with elem len) ≤ max_cells → IsOkUnless result HeapFault.NoMemory }
        ensures spared { reached self.old.objects (array_with elem len) ≤ max_cells
            → cells_of (array_with elem len) ≤ self.old.spare → IsOk result }
        ensures err { OnErr result (self.new ≡ self.old) }
    {
        self.room_for(len)?;
        let kind = Kind {
            dims: elem.dims + 1,
            base: elem.base,
        };
        Ok(self.make(kind, len, &[]))
    }

    /// Makes room for an object with so many slots.
    fn room_for(&mut self, slots: u32) -> Result<(), HeapFault>
        ensures room { OnOk result (self.new ≡ record self.old { spare = max self.old.spare (slots + 1) }) }
        ensures few { OnOk result (cells self.old.objects + (slots + 1) ≤ max_cells) }
        ensures full { let n = cells self.old.objects + (slots + 1) in max_cells < n → result ≡ Err (HeapFault.HeapFull n) }
        ensures other { cells self.old.objects + (slots + 1) ≤ max_cells → IsOkUnless result HeapFault.NoMemory }
        ensures spared { cells self.old.objects + (slots + 1) ≤ max_cells → slots + 1 ≤ self.old.spare → IsOk result }
        ensures err { OnErr result (self.new ≡ self.old) }
    {
        let reached = u64::from(self.cells()) + (u64::from(slots) + 1);
        if reached > MAX_CELLS {
            return Err(HeapFault::HeapFull(reached));
        }
        self.reserve(slots + 1)?;
        Ok(())
    }

    /// An object with so many slots, for which there is room: an array, or an object with these.
    fn make(&mut self, kind: Kind, len: u32, slots: &[SlotInfo]) -> Ref
        requires room { len + 1 ≤ self.old.spare }
        requires few { cells self.old.objects + (len + 1) ≤ max_cells }
        requires slots { length slots.now ≤ width kind len }
        ensures { HasMade self.old self.new result (record { kind = kind; slots = new_slots kind len slots.now }) }
    {
        let name = self.places.len() as u32;
        let start = self.words.len() as u32;
        let place = Place { kind, start, len };
        push_words(
            &mut self.forms,
            &mut self.words,
            place.width() as usize,
            slots,
        );
        let _ = self.places.push(place);
        self.cells += len + 1;
        self.spare -= len + 1;
        name
    }
}

/// Puts so many words at the end, each 0, with the forms of slots and then any, where there is room.
fn push_words(forms: &mut Vec<Form>, words: &mut Vec<u64>, width: usize, slots: &[SlotInfo])
    requires slots { length slots.now ≤ width }
    requires form_room { vec_len forms.old + width ≤ vec_capacity forms.old }
    requires word_room { vec_len words.old + width ≤ vec_capacity words.old }
    ensures forms { forms.new.items ≡ forms.old.items ++ (map (λ s. form_of s.kind) slots.now
        ++ replicate (width - length slots.now) Form.Int) }
    ensures words { words.new.items ≡ words.old.items ++ replicate width 0 }
    ensures form_capacity { vec_capacity forms.old ≤ vec_capacity forms.new }
    ensures word_capacity { vec_capacity words.old ≤ vec_capacity words.new }
{
    let end = forms.len() + width;
    push_forms(forms, slots);
    let _ = forms.resize(end, Form::Int);
    let end = words.len() + width;
    let _ = words.resize(end, 0);
}

/// Puts the forms of slots at the end, where there is room for them.
fn push_forms(forms: &mut Vec<Form>, slots: &[SlotInfo])
    requires { vec_len forms.old + length slots.now ≤ vec_capacity forms.old }
    ensures items { forms.new.items ≡ forms.old.items ++ map (λ s. form_of s.kind) slots.now }
    ensures capacity { vec_capacity forms.old ≤ vec_capacity forms.new }
{
    for slot in slots {
        let _ = forms.push(Form::of(slot.kind));
    }
}
