//! New objects and arrays, one for each node of a graph.

ghost use Rattle.std.specs.Prelude.{◌≡◌, ◌+◌, ◌<◌, ◌≤◌, [], length, IsTrue};
ghost use Rattle.std.specs.Vec.{vec_capacity};
ghost use Rattle.nr_linked.specs.Kinds.{is_array};
ghost use Rattle.nr_linked.specs.TypingFacts.{is_makeable};
ghost use Rattle.nr_model.specs.Heaps.{cells, cells_of};
ghost use Rattle.nr_model.specs.Outcomes.{max_cells};
ghost use Rattle.nr_model.specs.TypedHeaps.{Counts, TypedHeap};
ghost use Rattle.nr_heap.specs.Contents.{HasMade, array_with, object_of, reached};
ghost use Rattle.nr_graph.specs.Fitting.{GraphFits};
ghost use Rattle.nr_graph.specs.Graphs.{graph_cells};
ghost use Rattle.nr_capture.specs.Making.{AreOf, HasMadeOf};
ghost use Rattle.nr_capture.specs.Planting.{Adds};

use nr_graph::Graph;
use nr_heap::Heap;
use nr_linked::{Base, ClassId, Kind, Program};
use nr_model::Ref;
use nr_serform::Forms;

/// An object of a class, for which there is room.
fn make_object(heap: &mut Heap, program: &Program, class: ClassId) -> Ref
    requires makeable { IsTrue (is_makeable program.now class) }
    requires room { cells_of (object_of program.now class) ≤ heap.old.spare }
    requires few { reached heap.old.objects (object_of program.now class) ≤ max_cells }
    ensures { HasMade heap.old heap.new result (object_of program.now class) }
{
    match heap.new_object(program, class) {
        Ok(name) => name,
        Err(_fault) => unreachable!(),
    }
}

/// An array of so many elements of a kind, for which there is room.
fn make_array(heap: &mut Heap, elem: Kind, len: u32) -> Ref
    requires dims { elem.dims ≤ 254 }
    requires room { cells_of (array_with elem len) ≤ heap.old.spare }
    requires few { reached heap.old.objects (array_with elem len) ≤ max_cells }
    ensures { HasMade heap.old heap.new result (array_with elem len) }
{
    match heap.new_array(elem, len) {
        Ok(name) => name,
        Err(_fault) => unreachable!(),
    }
}

/// An object or an array of a kind with so many slots, for which there is room.
fn make(forms: &Forms, heap: &mut Heap, kind: Kind, len: u32) -> Ref
    requires typed { TypedHeap forms.now heap.old.objects }
    requires counts { Counts forms.now kind len }
    requires dims { kind.dims ≤ 255 }
    requires room { len + 1 ≤ heap.old.spare }
    requires few { cells heap.old.objects + (len + 1) ≤ max_cells }
    ensures made { HasMadeOf heap.old heap.new result kind len }
    ensures typed { TypedHeap forms.now heap.new.objects }
{
    match kind {
        Kind { dims: 0, base } => match base {
            Base::Object(class) => make_object(heap, forms.program(), class),
            _ => unreachable!(),
        },
        Kind { dims, base } => {
            let elem = Kind {
                dims: dims - 1,
                base,
            };
            make_array(heap, elem, len)
        }
    }
}

/// An object or an array for each node, of its kind and with as many slots, for which there is room.
pub fn make_nodes(forms: &Forms, heap: &mut Heap, graph: &Graph, names: &mut Vec<Ref>)
    requires typed { TypedHeap forms.now heap.old.objects }
    requires fits { GraphFits forms.now graph.now }
    requires empty { names.old.items ≡ [] }
    requires capacity { length graph.now.nodes ≤ vec_capacity names.old }
    requires room { graph_cells graph.now ≤ heap.old.spare }
    requires few { cells heap.old.objects + graph_cells graph.now ≤ max_cells }
    ensures typed { TypedHeap forms.now heap.new.objects }
    ensures adds { Adds heap.old.objects heap.new.objects names.new.items }
    ensures made { AreOf heap.new.objects names.new.items graph.now.nodes }
{
    let nodes = graph.nodes.as_slice();
    for node in nodes {
        let len = node.slots.len() as u32;
        let name = make(forms, heap, node.kind, len);
        let _ = names.push(name);
    }
}
