//! What slots hold, one behind the other.

ghost use Rattle.std.specs.Prelude.{◌≡◌, ◌<◌, ◌≤◌, ◌+◌, ◌++◌, ◌∷◌, [], length, OnOk};
ghost use Rattle.nr_graph.specs.Fitting.{IsSpellable};
ghost use Rattle.nr_serwrite.specs.Working.{AreNext, StepTo, frame_items, pending, steps_left, steps_of};

use crate::nodes::put_node;
use crate::numbers::put_int;
use crate::work::{Frame, Work, first_of};
use nr_graph::{Graph, Slot};
use nr_linked::Kind;
use nr_serform::Forms;
use std::alloc::{AllocError, Global};

/// Writes what a slot of the kind holds.
fn put_slot<'w, 'p>(
    alloc: Global,
    forms: &'w Forms<'p>,
    graph: &'w Graph,
    w: &mut Work<'w, 'p>,
    kind: Kind,
    slot: Slot,
) -> Result<(), AllocError>
    requires spellable { IsSpellable forms.now graph.now }
    requires next { AreNext forms.now graph.now ((kind, slot) ∷ pending w.old.frames.items) w.old.handles }
    ensures step { OnOk result (StepTo forms.now graph.now ((kind, slot) ∷ pending w.old.frames.items) w.old.handles w.old.out w.new) }
    ensures fewer { OnOk result (steps_of graph.now w.new ≤ steps_of graph.now w.old) }
{
    match slot {
        Slot::Int(n) => put_int(&mut w.out, kind.base, n),
        Slot::Long(n) => w.out.u64(n.cast_unsigned()),
        Slot::Null => w.out.u8(0x70),
        Slot::Node(i) => put_node(alloc, forms, graph, w, i),
    }
}

/// Writes the next slot of a node that was open, or closes it.
fn advance<'w, 'p>(
    alloc: Global,
    forms: &'w Forms<'p>,
    graph: &'w Graph,
    w: &mut Work<'w, 'p>,
    frame: Frame<'w, 'p>,
) -> Result<(), AllocError>
    requires spellable { IsSpellable forms.now graph.now }
    requires next { AreNext forms.now graph.now (frame_items frame ++ pending w.old.frames.items) w.old.handles }
    ensures step { OnOk result (StepTo forms.now graph.now (frame_items frame.entry ++ pending w.old.frames.items) w.old.handles w.old.out w.new) }
    ensures smaller { OnOk result (steps_of graph.now w.new
        < steps_left graph.now (length w.old.frames.items + 1) (frame_items frame.entry ++ pending w.old.frames.items) w.old.handles) }
{
    match first_of(frame) {
        None => Ok(()),
        Some((kind, slot, rest)) => {
            w.frames.push(rest)?;
            put_slot(alloc, forms, graph, w, kind, slot)
        }
    }
}

/// Writes all that is open.
pub fn put_open<'w, 'p>(
    alloc: Global,
    forms: &'w Forms<'p>,
    graph: &'w Graph,
    w: &mut Work<'w, 'p>,
) -> Result<(), AllocError>
    requires spellable { IsSpellable forms.now graph.now }
    requires next { AreNext forms.now graph.now (pending w.old.frames.items) w.old.handles }
    ensures step { OnOk result (StepTo forms.now graph.now (pending w.old.frames.items) w.old.handles w.old.out w.new) }
    ensures closed { OnOk result (w.new.frames.items ≡ []) }
{
    while let Some(frame) = w.frames.pop() {
        advance(alloc, forms, graph, w, frame)?;
    }
    Ok(())
}
