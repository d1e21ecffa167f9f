//! What is still to be written.

ghost use Rattle.std.specs.Prelude.{◌≡◌, [], ◌∷◌, map, MatchOption};
ghost use Rattle.std.specs.Option.{option_map_or};
ghost use Rattle.nr_linked.specs.Kinds.{class_in};
ghost use Rattle.nr_graph.specs.declared.graph.Node.{Node as NodeView};
ghost use Rattle.nr_graph.specs.StreamOrder.{stream_slots};
ghost use Rattle.nr_serform.specs.Spelling.{items_of};
ghost use Rattle.nr_serform.specs.StreamSlots.{placed_of};
ghost use Rattle.nr_serwrite.specs.Working.{frame_items, kinds_items};

use nr_base::Put;
use nr_graph::{Node, Slot};
use nr_linked::{Base, Kind};
use nr_serform::{Forms, Handles, StreamSlot};

/// What the next slots of a node hold.
#[derive(Clone, Copy)]
pub enum Kinds<'w, 'p> {
    /// These slots of an object.
    Fields(&'w [StreamSlot<'p>]),
    /// Elements of an array.
    Elements(Kind),
}

/// A node that is open, with the slots that are still to be written.
#[derive(Clone, Copy)]
pub struct Frame<'w, 'p> {
    pub kinds: Kinds<'w, 'p>,
    pub slots: &'w [Slot],
}

#[derive(Drop)]
pub struct Work<'w, 'p> {
    pub out: Put,
    pub handles: Handles<'p>,
    /// The open nodes, the innermost last.
    pub frames: Vec<Frame<'w, 'p>>,
}

/// What comes next of a node: a kind, what its slot holds, and what is left then.
pub fn first_of<'w, 'p>(frame: Frame<'w, 'p>) -> Option<(Kind, Slot, Frame<'w, 'p>)>
    ensures { MatchOption result (frame_items frame.entry ≡ [])
        (λ r. frame_items frame.entry ≡ (r.0, r.1) ∷ frame_items r.2) }
{
    let [slot, slots @ ..] = frame.slots else {
        return None;
    };
    match frame.kinds {
        Kinds::Fields([field, fields @ ..]) => Some((
            field.slot.kind,
            *slot,
            Frame {
                kinds: Kinds::Fields(fields),
                slots,
            },
        )),
        Kinds::Fields([]) => None,
        Kinds::Elements(kind) => Some((
            kind,
            *slot,
            Frame {
                kinds: Kinds::Elements(kind),
                slots,
            },
        )),
    }
}

/// The slots of the objects of a kind.
fn slots_of<'w, 'p>(forms: &'w Forms<'p>, kind: Kind) -> &'w [StreamSlot<'p>]
    ensures { map placed_of result.now ≡ option_map_or (stream_slots forms.now) (class_in kind.base) [] }
{
    match kind.base {
        Base::Object(class) => forms.slots(class),
        _ => &[],
    }
}

/// What the slots of a node of the kind hold.
fn kinds_of<'w, 'p>(forms: &'w Forms<'p>, kind: Kind) -> Kinds<'w, 'p>
    ensures { (n : NodeView) → n.kind ≡ kind → kinds_items result n.slots ≡ items_of forms.now n }
{
    if kind.dims > 0 {
        return Kinds::Elements(Kind {
            dims: kind.dims - 1,
            base: kind.base,
        });
    }
    Kinds::Fields(slots_of(forms, kind))
}

/// A node with all its slots.
pub fn frame_of<'w, 'p>(forms: &'w Forms<'p>, node: &'w Node) -> Frame<'w, 'p>
    ensures { frame_items result ≡ items_of forms.now node.now }
{
    Frame {
        kinds: kinds_of(forms, node.kind),
        slots: node.slots.as_slice(),
    }
}
