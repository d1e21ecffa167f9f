//! A graph as new objects of a heap.

ghost use Rattle.std.specs.Prelude.{◌≡◌, ◌+◌, ◌-◌, ◌^◌, ◌<◌, ◌≤◌, min, Err, IfOk, IsOkUnless, OnErr, OnOk};
ghost use Rattle.nr_model.specs.Heaps.{cells};
ghost use Rattle.nr_model.specs.Outcomes.{max_cells};
ghost use Rattle.nr_model.specs.TypedHeaps.{TypedHeap};
ghost use Rattle.nr_graph.specs.Fitting.{GraphFits};
ghost use Rattle.nr_graph.specs.Graphs.{IsInOrder, graph_cells};
ghost use Rattle.nr_graph.specs.Pictures.{IsPicture, Pictured};
ghost use Rattle.nr_capture.specs.Planting.{Adds, names_of_roots};
ghost use Rattle.nr_capture.specs.Roots.{root_values};

use crate::fault::PlantFault;
use crate::filling::fill_nodes;
use crate::making::make_nodes;
use crate::room::cells_within;
use crate::values::program_of;
use nr_graph::Graph;
use nr_heap::Heap;
use nr_model::Ref;
use nr_serform::Forms;
use std::alloc::Global;

/// New objects and arrays, one for each node of a graph, and their names by node. Objects that the heap
/// had stay as they were. Each slot is looked at once, however deep the nodes nest. `HeapFull` exactly
/// where the heap would have more than 1,048,576 cells, with their number; `NoMemory` for want of memory.
pub fn plant(
    alloc: Global,
    forms: &Forms,
    heap: &mut Heap,
    graph: &Graph,
) -> Result<Vec<Ref>, PlantFault>
    requires typed { TypedHeap forms.now heap.old.objects }
    requires fits { GraphFits forms.now graph.now }

    // The new objects look like the graph, and nothing else changes.
    ensures pictured { IfOk result (λ names. Pictured forms.now heap.new.objects
        (root_values (names_of_roots names.items graph.now.roots)) names.items graph.now) }
    ensures picture { IfOk result (λ names. IsInOrder graph.now → IsPicture forms.now heap.new.objects
        (root_values (names_of_roots names.items graph.now.roots)) names.items graph.now) }
    ensures adds { IfOk result (λ names. Adds heap.old.objects heap.new.objects names.items) }
    ensures typed { OnOk result (TypedHeap forms.now heap.new.objects) }

    // It fails exactly where the heap would pass its limit, or for want of memory.
    ensures full { let n = cells heap.old.objects + graph_cells graph.now in
        max_cells < n → result ≡ Err (PlantFault.HeapFull (min n (2 ^ 64 - 1))) }
    ensures other { cells heap.old.objects + graph_cells graph.now ≤ max_cells → IsOkUnless result PlantFault.NoMemory }
    ensures err { OnErr result (heap.new ≡ heap.old) }
{
    // a linked program's streams have each slot once
    let _ = program_of(forms);
    let cells = cells_within(heap, graph)?;
    let mut names = Vec::with_capacity(alloc, graph.nodes.len())?;
    heap.reserve(cells)?;
    make_nodes(forms, heap, graph, &mut names);
    fill_nodes(forms, heap, graph, names.as_slice());
    Ok(names)
}
