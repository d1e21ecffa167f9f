//! The order in which a stream has the slots of an object.

ghost use Rattle.std.specs.Prelude.{◌≡◌, ◌<◌, ℕ, length, slice_get, IsSomeAnd, Some};
ghost use Rattle.nr_linked.specs.declared.program.tables.ProgramTables.{ProgramTables};
ghost use Rattle.nr_linked.specs.Kinds.{class_kind};
ghost use Rattle.nr_linked.specs.Linked.{Linked};
ghost use Rattle.nr_linked.specs.Slots.{slots_of};
ghost use Rattle.nr_graph.specs.StreamOrder.{stream_kind, stream_place, stream_slots};

/// Promises that the stream has each slot of a linked class's objects in just one place, and as many slots
/// as they have; and that what it has in a place is a slot, with its kind. It does nothing.
pub fn streams_have_each_slot_once()
    ensures once { (p : ProgramTables) (c i : ℕ) → Linked p → i < length (slots_of p c)
        → (k : ℕ) × (k < length (slots_of p c)) × (stream_place p (class_kind c) k ≡ Some i)
        × ((l : ℕ) → stream_place p (class_kind c) l ≡ Some i → l ≡ k) }
    ensures long { (p : ProgramTables) (c : ℕ) → Linked p → length (stream_slots p c) ≡ length (slots_of p c) }
    ensures kinds { (p : ProgramTables) (c k i : ℕ) → stream_place p (class_kind c) k ≡ Some i
        → IsSomeAnd (slice_get (slots_of p c) i) (λ s. stream_kind p (class_kind c) k ≡ Some s.kind) }
{}
