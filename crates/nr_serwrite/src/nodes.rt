//! Objects and arrays.

ghost use Rattle.std.specs.Prelude.{◌≡◌, ◌<◌, ◌^◌, ◌≤◌, ◌++◌, ◌∷◌, false, true, length, OnOk, Some};
ghost use Rattle.nr_linked.specs.declared.program.kind.Kind.{Kind as KindView};
ghost use Rattle.nr_linked.specs.Kinds.{is_reference};
ghost use Rattle.nr_graph.specs.declared.graph.Slot.TheVariants.{Node as At};
ghost use Rattle.nr_graph.specs.Fitting.{IsSpellable};
ghost use Rattle.nr_graph.specs.Graphs.{node_at};
ghost use Rattle.nr_serform.specs.Entries.{Object};
ghost use Rattle.nr_serform.specs.Handles.{has};
ghost use Rattle.nr_serform.specs.Spelling.{size_text, tag};
ghost use Rattle.nr_serwrite.specs.Working.{IsNext, StepTo, pending, steps_of};

use crate::description::describe;
use crate::texts::put_handle;
use crate::work::{Work, frame_of};
use nr_base::Put;
use nr_graph::{Graph, Node};
use nr_linked::Kind;
use nr_serform::{Forms, Handled};
use std::alloc::{AllocError, Global};

fn tag(kind: Kind) -> u8
    ensures { result ≡ tag kind }
{
    if kind.dims > 0 { 0x75 } else { 0x73 }
}

/// Writes how many elements an array has.
fn put_size(out: &mut Put, node: &Node) -> Result<(), AllocError>
    requires { length node.now.slots < 2 ^ 32 }
    ensures { OnOk result (out.new ≡ out.old ++ size_text node.now) }
{
    if node.kind.dims > 0 {
        return out.u32(node.slots.len() as u32);
    }
    Ok(())
}

fn node_of<'w>(graph: &'w Graph, i: u32) -> &'w Node
    requires { i < length graph.now.nodes }
    ensures { node_at graph.now i ≡ Some result.now }
{
    &graph.nodes.as_slice()[i as usize]
}

/// Writes what stands before the slots of a node that has no handle, gives it one, and opens it.
fn open_node<'w, 'p>(
    alloc: Global,
    forms: &'w Forms<'p>,
    graph: &'w Graph,
    w: &mut Work<'w, 'p>,
    i: u32,
) -> Result<(), AllocError>
    requires spellable { IsSpellable forms.now graph.now }
    requires next { IsNext forms.now graph.now i (pending w.old.frames.items) w.old.handles }
    requires anew { has w.old.handles (Object i) ≡ false }
    ensures step { (kind : KindView) → is_reference kind ≡ true → OnOk result (StepTo forms.now graph.now ((kind, At i) ∷ pending w.old.frames.items) w.old.handles w.old.out w.new) }
    ensures fewer { OnOk result (steps_of graph.now w.new ≤ steps_of graph.now w.old) }
{
    let node = node_of(graph, i);
    w.out.u8(tag(node.kind))?;
    describe(alloc, forms, &mut w.handles, &mut w.out, node.kind)?;
    w.handles.give(Handled::Object(i))?;
    put_size(&mut w.out, node)?;
    w.frames.push(frame_of(forms, node))?;
    Ok(())
}

/// Writes a node, or its handle where it has one.
pub fn put_node<'w, 'p>(
    alloc: Global,
    forms: &'w Forms<'p>,
    graph: &'w Graph,
    w: &mut Work<'w, 'p>,
    i: u32,
) -> Result<(), AllocError>
    requires spellable { IsSpellable forms.now graph.now }
    requires next { IsNext forms.now graph.now i (pending w.old.frames.items) w.old.handles }
    ensures step { (kind : KindView) → is_reference kind ≡ true → OnOk result (StepTo forms.now graph.now ((kind, At i) ∷ pending w.old.frames.items) w.old.handles w.old.out w.new) }
    ensures fewer { OnOk result (steps_of graph.now w.new ≤ steps_of graph.now w.old) }
{
    match w.handles.find(Handled::Object(i)) {
        Some(handle) => put_handle(&mut w.out, handle),
        None => open_node(alloc, forms, graph, w, i),
    }
}
