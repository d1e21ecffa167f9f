//! What the slots of new objects hold.

ghost use Rattle.std.specs.Prelude.{◌≡◌, ◌∷◌, ◌+◌, ◌<◌, ◌≤◌, [], length, IsSomeAnd, Some};
ghost use Rattle.std.specs.List.{AllByRecursion};
ghost use Rattle.nr_linked.specs.Linked.{Linked};
ghost use Rattle.nr_model.specs.Heaps.{EachOnce};
ghost use Rattle.nr_model.specs.Outcomes.{max_cells};
ghost use Rattle.nr_model.specs.TypedHeaps.{TypedHeap};
ghost use Rattle.nr_graph.specs.Fitting.{GraphFits};
ghost use Rattle.nr_graph.specs.Graphs.{graph_cells, nodes_in};
ghost use Rattle.nr_graph.specs.Pictures.{Draws};
ghost use Rattle.nr_graph.specs.StreamOrder.{stream_place};
ghost use Rattle.nr_capture.specs.Filling.{ChangesOnly, IsFilled};
ghost use Rattle.nr_capture.specs.Making.{AreOf};

use nr_graph::{Graph, Slot};
use nr_heap::Heap;
use nr_linked::{Base, Kind};
use nr_model::{Ref, Value};
use nr_serform::Forms;

/// What a slot stands for, where the nodes have these names.
fn value_of(names: &[Ref], slot: Slot) -> Value
    requires { AllByRecursion (λ i. i < length names.now) (nodes_in (slot ∷ [])) }
    ensures { Draws names.now result slot }
{
    match slot {
        Slot::Int(n) => Value::Int(n),
        Slot::Long(n) => Value::Long(n),
        Slot::Null => Value::Null,
        Slot::Node(node) => Value::Ref(names[node as usize]),
    }
}

/// Where an object or an array of a kind has a slot of a stream.
fn place_of(forms: &Forms, kind: Kind, slot: u32) -> u32
    requires { IsSomeAnd (stream_place forms.now kind slot) (λ place. Unit {0}) }
    ensures { stream_place forms.now kind slot ≡ Some result }
{
    match kind {
        Kind { dims: 0, base } => match base {
            Base::Object(class) => forms.slots(class)[slot as usize].place,
            _ => unreachable!(),
        },
        _ => slot,
    }
}

/// Puts what the slots of a node stand for into its object.
fn fill(forms: &Forms, heap: &mut Heap, graph: &Graph, names: &[Ref], node: usize)
    requires linked { Linked forms.now }
    requires fits { GraphFits forms.now graph.now }
    requires few { graph_cells graph.now ≤ max_cells }
    requires distinct { EachOnce names.now }
    requires node { node < length graph.now.nodes }
    requires filled { IsFilled forms.now names.now graph.now node 0 heap.old.objects }
    ensures filled { IsFilled forms.now names.now graph.now (node + 1) 0 heap.new.objects }
    ensures others { ChangesOnly names.now heap.old.objects heap.new.objects }
{
    let name = names[node];
    let nodes = graph.nodes.as_slice();
    let kind = nodes[node].kind;
    let slots = nodes[node].slots.as_slice();
    for k in 0..slots.len() {
        let value = value_of(names, slots[k]);
        let place = place_of(forms, kind, k as u32);
        heap.set_slot(name, place, value);
    }
}

/// Puts what the slots of all nodes stand for into their objects.
pub fn fill_nodes(forms: &Forms, heap: &mut Heap, graph: &Graph, names: &[Ref])
    requires linked { Linked forms.now }
    requires fits { GraphFits forms.now graph.now }
    requires few { graph_cells graph.now ≤ max_cells }
    requires distinct { EachOnce names.now }
    requires typed { TypedHeap forms.now heap.old.objects }
    requires made { AreOf heap.old.objects names.now graph.now.nodes }
    ensures filled { IsFilled forms.now names.now graph.now (length graph.now.nodes) 0 heap.new.objects }
    ensures others { ChangesOnly names.now heap.old.objects heap.new.objects }
{
    let count = graph.nodes.len();
    for node in 0..count {
        fill(forms, heap, graph, names, node);
    }
}
