//! What was read so far, and what is due.

ghost use Rattle.std.specs.Prelude.{◌≡◌, ◌≤◌, ◌+◌, ◌++◌, ◌∷◌, [], List, OnOk, IfErr, length};
ghost use Rattle.nr_base.specs.Place.{Place};
ghost use Rattle.nr_base.specs.Clauses.{GivesBy};
ghost use Rattle.nr_serform.specs.Handles.{Table};
ghost use Rattle.nr_serread.specs.declared.due.Due.{Due as DueView};
ghost use Rattle.nr_serread.specs.declared.fault.StreamFault.TheVariants as faults;
ghost use Rattle.nr_serread.specs.Faults.{is_free};
ghost use Rattle.nr_serread.specs.Reading.{add_slot, kept, open_at, root_of, with_slot};
ghost use Rattle.nr_serread.specs.Working.{Fits, graph_of, left_due, state_by, state_of};

use crate::due::Due;
use crate::fault::StreamFault;
use nr_base::Items;
use nr_graph::{Node, Slot};
use nr_linked::Kind;
use nr_serform::{Handled, Handles, StreamSlot};
use std::alloc::Global;

/// What is still to be read of a node.
#[derive(Clone, Copy)]
pub enum Left<'f, 'p> {
    /// The slots of an object.
    Slots(&'f [StreamSlot<'p>]),
    /// So many elements of an array.
    Elements(Kind, u32),
}

/// A node that is open.
#[derive(Clone, Copy)]
pub struct Frame<'f, 'p> {
    pub node: u32,
    pub left: Left<'f, 'p>,
}

#[derive(Drop)]
pub struct Work<'f, 'p> {
    pub nodes: Vec<Node>,
    pub roots: Items<Option<u32>>,
    pub cells: u32,
    /// The open nodes, the innermost last.
    pub frames: Vec<Frame<'f, 'p>>,
    pub handles: Handles<'p>,
}

fn add_to(nodes: &mut Vec<Node>, i: u32, slot: Slot) -> Result<(), StreamFault>
    ensures added { OnOk result (nodes.new.items ≡ add_slot i slot nodes.old.items) }
    ensures few { OnOk result (length nodes.new.items ≡ length nodes.old.items) }
    ensures memory { IfErr result (λ e. e ≡ faults.NoMemory) }
{
    if let Some(node) = nodes.get_mut(i as usize) {
        node.slots.push(slot)?;
    }
    Ok(())
}

fn add_root(roots: &mut Items<Option<u32>>, slot: Slot) -> Result<(), StreamFault>
    ensures added { OnOk result (roots.new ≡ roots.old ++ root_of slot ∷ []) }
    ensures memory { IfErr result (λ e. e ≡ faults.NoMemory) }
{
    let root = match slot {
        Slot::Node(i) => Some(i),
        _ => None,
    };
    roots.push(root)?;
    Ok(())
}

/// Keeps a slot that was read.
#[tactic(auto, unfolding(crate::specs::Reading::kept))]
pub fn keep(w: &mut Work, due: Due, slot: Slot) -> Result<(), StreamFault>
    ensures kept { OnOk result ((roots : List DueView) → state_of w.new roots ≡ kept due slot (state_of w.old roots)) }
    ensures fits { Fits w.old → OnOk result (Fits w.new) }
    ensures graph { OnOk result (graph_of w.new ≡ with_slot due.owner slot (graph_of w.old)) }
    ensures frames { OnOk result (w.new.frames.items ≡ w.old.frames.items) }
    ensures cells { OnOk result (w.new.cells ≡ w.old.cells) }
    ensures handles { OnOk result (w.new.handles ≡ w.old.handles) }
    ensures few { OnOk result (length w.new.nodes.items ≡ length w.old.nodes.items) }
    ensures memory { IfErr result (λ e. e ≡ faults.NoMemory) }
{
    match due.owner {
        Some(i) => add_to(&mut w.nodes, i, slot),
        None => add_root(&mut w.roots, slot),
    }
}

/// The slot that was due holds a new node, of so many slots.
#[tactic(auto, unfolding(crate::specs::Reading::kept, crate::specs::Reading::opened, crate::specs::Reading::open_at, nr_base::specs::Reader::pure, nr_base::specs::Reader::refuse, nr_base::specs::Reader::choose), using(crate::proofs::Below::none_yet))]
pub fn open_node<'f, 'p>(
    alloc: Global,
    w: &mut Work<'f, 'p>,
    due: Due,
    start: u32,
    kind: Kind,
    count: usize,
    left: Left<'f, 'p>,
) -> Result<(), StreamFault>
    requires { Fits w.old }
    ensures opens { (any : Table) (roots : List DueView) (p : Place) → GivesBy is_free (λ _. state_of w.new roots) result p
        (open_at due start kind w.old.handles count (left_due (length w.old.nodes.items) left.entry) (state_by w.old any roots) p) }
    ensures fits { OnOk result (Fits w.new) }
    ensures few { OnOk result (length w.new.frames.items ≤ length w.old.frames.items + 1) }
{
    if count >= (1048576 - w.cells) as usize {
        return Err(StreamFault::LimitCells(start));
    }
    let i = w.nodes.len() as u32;
    keep(w, due, Slot::Node(i))?;
    w.cells += count as u32 + 1;
    w.nodes.push(Node {
        kind,
        slots: Items::new(alloc),
    })?;
    w.frames.push(Frame { node: i, left })?;
    w.handles.give(Handled::Object(i))?;
    Ok(())
}
