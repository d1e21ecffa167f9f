//! Marks, and what came after them given up.

ghost use Rattle.std.specs.Prelude.{◌≡◌, ◌^◌, ◌<◌};
ghost use Rattle.std.specs.FinMap.{keys};
ghost use Rattle.nr_heap.specs.Arenas.{cells_at};
ghost use Rattle.nr_heap.specs.Contents.{with_only};

use super::super::place::Place;
use super::Heap;
use std::marker::Model;

/// The names that a heap had when it was marked. Contracts see it as their list.
#[derive(Debug, Drop)]
pub struct Mark {
    places: u32,
}

impl Model for Mark {
    ghost use Rattle.std.specs.Prelude.{ℕ, List};
    ghost use Rattle.std.specs.List.{range_with_len};

    ghost Value = { List ℕ };

    ghost view = { λ m. range_with_len 0 m.places };
}

impl Heap {
    /// A mark of the names that the heap has. It takes no memory.
    pub fn mark(&self) -> Mark
        ensures { result ≡ keys self.now.objects }
    {
        Mark {
            places: self.places.len() as u32,
        }
    }

    /// Gives up all objects and arrays whose names aren't among those of the mark. Those that stay may
    /// not name them any more. It takes no memory.
    pub fn cut_back(&mut self, mark: Mark)
        ensures { self.new ≡ record self.old { objects = with_only mark self.old.objects } }
    {
        let kept = mark.places as usize;
        if kept < self.places.len() {
            let start = self.places[kept].start as usize;
            self.cells -= cells_of(&self.places[kept..]);
            self.places.truncate(kept);
            self.words.truncate(start);
            self.forms.truncate(start);
        }
    }
}

/// The cells of some objects.
fn cells_of(places: &[Place]) -> u32
    requires { cells_at places.now < 2 ^ 32 }
    ensures { result ≡ cells_at places.now }
{
    let mut cells = 0;
    for place in places {
        cells += place.len + 1;
    }
    cells
}
