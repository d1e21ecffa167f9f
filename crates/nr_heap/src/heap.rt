//! Objects and arrays by their names.

ghost use Rattle.std.specs.Prelude.{◌≡◌, ◌<◌, ◌≤◌, max, IsOk, OnOk, OnErr, IsSomeAnd, Some, None, length, slice_get, if◌then◌else◌};
ghost use Rattle.std.specs.FinMap.{empty, get};
ghost use Rattle.nr_linked.specs.Kinds.{is_array};
ghost use Rattle.nr_model.specs.Heaps.{cells};
ghost use Rattle.nr_model.specs.Outcomes.{max_cells};
ghost use Rattle.nr_model.specs.Scripts.{with_slot};
ghost use Rattle.nr_heap.specs.Contents.{Keeps};

mod make;
mod mark;
mod run;

use super::form::Form;
use super::place::Place;
pub use mark::Mark;
use nr_linked::Kind;
use nr_model::{Ref, Value};
use std::alloc::{AllocError, Global};
use std::marker::Model;

/// Objects and arrays by their names, with room for some more. Contracts see `Contents` of
/// `specs/Contents.antt`: the objects as the model's finite map, and the spare cells. It has at most
/// 1,048,576 cells: one for each object or array, and one for each of its slots.
#[derive(Debug, Drop)]
pub struct Heap {
    places: Vec<Place>,
    words: Vec<u64>,
    forms: Vec<Form>,
    cells: u32,
    spare: u32,
}

impl Model for Heap {
    ghost use Rattle.nr_heap.specs.Contents.{Contents, contents_code};

    ghost Value = { Contents };

    ghost coded = { contents_code };

    ghost use Rattle.nr_heap.specs.Views.{contents_of, IsArena};

    ghost view = { contents_of };

    ghost invariant = { IsArena };
}

impl Heap {
    /// A heap without objects. It takes no memory.
    pub fn new(alloc: Global) -> Heap
        ensures { result ≡ record { objects = empty; spare = 0 } }
    {
        Heap {
            places: Vec::new(alloc),
            words: Vec::new(alloc),
            forms: Vec::new(alloc),
            cells: 0,
            spare: 0,
        }
    }

    /// How many cells the objects and arrays take.
    pub fn cells(&self) -> u32
        ensures cells { result ≡ cells self.now.objects }
        ensures few { cells self.now.objects ≤ max_cells }
    {
        self.cells
    }

    /// The cells for which there is room.
    pub fn spare(&self) -> u32
        ensures { result ≡ self.now.spare }
    {
        self.spare
    }

    /// Makes room for so many cells. The error comes only for want of memory.
    pub fn reserve(&mut self, cells: u32) -> Result<(), AllocError>
        ensures ok { OnOk result (self.new ≡ record self.old { spare = max self.old.spare cells }) }
        ensures enough { cells ≤ self.old.spare → IsOk result }
        ensures err { OnErr result (self.new ≡ self.old) }
    {
        if self.spare < cells {
            self.places.reserve(cells as usize)?;
            self.words.reserve(cells as usize)?;
            self.forms.reserve(cells as usize)?;
            self.spare = cells;
        }
        Ok(())
    }

    /// The class of an object or an array.
    #[inline(always)]
    pub fn kind_of(&self, r: Ref) -> Kind
        requires { IsSomeAnd (get self.now.objects r) (λ o. Unit {0}) }
        ensures { IsSomeAnd (get self.now.objects r) (λ o. o.kind ≡ result) }
    {
        self.places[r as usize].kind
    }

    /// How many elements an array has, or `None` for an object.
    #[inline(always)]
    pub fn len_of(&self, r: Ref) -> Option<u32>
        requires { IsSomeAnd (get self.now.objects r) (λ o. Unit {0}) }
        ensures { IsSomeAnd (get self.now.objects r) (λ o. result ≡ (if is_array o.kind then Some (length o.slots) else None)) }
    {
        let place = self.places[r as usize];
        if place.kind.dims == 0 {
            return None;
        }
        Some(place.len)
    }

    /// What a slot of an object or an array holds.
    #[inline(always)]
    pub fn get_slot(&self, r: Ref, slot: u32) -> Value
        requires { IsSomeAnd (get self.now.objects r) (λ o. slot < length o.slots) }
        ensures { IsSomeAnd (get self.now.objects r) (λ o. slice_get o.slots slot ≡ Some result) }
    {
        let place = self.places[r as usize];
        place.load(&self.forms, &self.words, slot)
    }

    /// Puts a value into a slot of an object or an array.
    #[inline(always)]
    pub fn set_slot(&mut self, r: Ref, slot: u32, value: Value)
        requires slot { IsSomeAnd (get self.old.objects r) (λ o. slot < length o.slots) }
        requires keeps { IsSomeAnd (get self.old.objects r) (λ o. Keeps o.kind value) }
        ensures { IsSomeAnd (get self.old.objects r)
            (λ o. self.new ≡ record self.old { objects = with_slot self.old.objects r o slot value }) }
    {
        let place = self.places[r as usize];
        place.store(&mut self.forms, &mut self.words, slot, value);
    }
}
