//! Several slots at once.

ghost use Rattle.std.specs.Prelude.{◌≡◌, ◌+◌, ◌++◌, ◌≤◌, IsSomeAnd, length, take, drop, slice_range};
ghost use Rattle.std.specs.List.{All};
ghost use Rattle.std.specs.FinMap.{get, insert};
ghost use Rattle.nr_heap.specs.Contents.{Keeps, with_run};

use super::Heap;
use nr_model::{Ref, Value};

impl Heap {
    /// What a run of slots of an object or an array holds, from a slot on, as many as there are places.
    pub fn read_run(&self, r: Ref, start: u32, out: &mut [Value])
        requires { IsSomeAnd (get self.now.objects r) (λ o. start + length out.old ≤ length o.slots) }
        ensures { IsSomeAnd (get self.now.objects r) (λ o. out.new ≡ slice_range o.slots start (start + length out.old)) }
    {
        let place = self.places[r as usize];
        for (i, value) in out.iter_mut().enumerate() {
            *value = place.load(&self.forms, &self.words, start + i as u32);
        }
    }

    /// Puts values into a run of slots of an object or an array, from a slot on.
    pub fn write_run(&mut self, r: Ref, start: u32, values: &[Value])
        requires run { IsSomeAnd (get self.old.objects r) (λ o. start + length values.now ≤ length o.slots) }
        requires keeps { IsSomeAnd (get self.old.objects r) (λ o. All (Keeps o.kind) values.now) }
        ensures { IsSomeAnd (get self.old.objects r)
            (λ o. self.new ≡ record self.old { objects = with_run self.old.objects r o start values.now }) }
    {
        let _ = &self.places;
        for (i, value) in values.iter().enumerate() {
            self.set_slot(r, start + i as u32, *value);
        }
    }
}
