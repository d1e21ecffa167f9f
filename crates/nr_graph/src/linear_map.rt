//! The objects that a call passes, in order.

ghost use Rattle.std.specs.Prelude.{◌≡◌, ◌<◌, ◌↔◌, [], length, slice_get, IfOk, IsTrue, MatchOption, OnErr, OnOk, false};
ghost use Rattle.std.specs.List.{AllByRecursion};
ghost use Rattle.nr_model.specs.Heaps.{EachOnce};
ghost use Rattle.nr_graph.specs.Listing.{Picked, Rises, with_last};
ghost use Rattle.nr_graph.specs.Walks.{is_met};

use indexmap::IndexSet;
use nr_model::Ref;
use std::alloc::{AllocError, Global};
use std::marker::Model;

/// Distinct names of objects and arrays in order, each with its place from 0, as a call passes them. Contracts
/// see it as the list of the names. It has fewer than 2^32 names.
#[derive(Drop)]
pub struct LinearMap {
    refs: IndexSet<Ref>,
}

impl Model for LinearMap {
    ghost use Rattle.std.specs.Prelude.{ℕ, List, ◌<◌, ◌^◌, length};
    ghost use Rattle.nr_model.specs.Heaps.{EachOnce};

    ghost Value = { List ℕ };

    ghost view = { λ m. m.refs.keys };

    ghost invariant = { λ m. EachOnce m.refs.keys × (length m.refs.keys < 2 ^ 32) };
}

impl LinearMap {
    /// A map without names. It takes no memory.
    pub fn new(alloc: Global) -> LinearMap
        ensures { result ≡ [] }
    {
        LinearMap {
            refs: IndexSet::new(alloc),
        }
    }

    /// The place of a name, which is put at the end where it isn't listed. The error comes only for want of
    /// memory, or where 2^32 - 1 other names are listed, and leaves the map as it was.
    pub fn add(&mut self, r: Ref) -> Result<u32, AllocError>
        ensures added { OnOk result (self.new ≡ with_last self.old r) }
        ensures place { IfOk result (λ i. slice_get self.new i ≡ Some r) }
        ensures listed { IfOk result (λ i. (i < length self.old) ↔ IsTrue (is_met self.old r)) }
        ensures once { EachOnce self.new }
        ensures err { OnErr result (self.new ≡ self.old) }
    {
        if let Some(place) = self.find(r) {
            return Ok(place);
        }
        let place = self.len();
        if place == u32::MAX {
            return Err(AllocError);
        }
        self.refs.insert(r)?;
        Ok(place)
    }

    /// How many names are listed.
    pub fn len(&self) -> u32
        ensures len { result ≡ length self.now }
        ensures once { EachOnce self.now }
    {
        self.refs.len() as u32
    }

    /// The name at a place, or none past the end.
    pub fn get(&self, i: u32) -> Option<Ref>
        ensures { result ≡ slice_get self.now i }
    {
        self.refs.get_index(i as usize).copied()
    }

    /// The place of a name, or none where it isn't listed.
    pub fn find(&self, r: Ref) -> Option<u32>
        ensures { MatchOption result (is_met self.now r ≡ false) (λ i. slice_get self.now i ≡ Some r) }
    {
        match self.refs.get_index_of(&r) {
            Some(place) => Some(place as u32),
            None => None,
        }
    }

    /// The names at these places, in their order. The error comes only for want of memory.
    pub fn pick(&self, nodes: &[u32]) -> Result<LinearMap, AllocError>
        requires rises { Rises nodes.now }
        requires within { AllByRecursion (λ i. i < length self.now) nodes.now }
        ensures { IfOk result (λ picked. Picked self.now nodes.now picked) }
    {
        let mut picked = LinearMap::new(*self.refs.allocator());
        for node in nodes {
            picked.add(self.refs.as_slice()[*node as usize])?;
        }
        Ok(picked)
    }
}
