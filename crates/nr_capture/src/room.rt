//! The cells that a graph takes.

ghost use Rattle.std.specs.Prelude.{◌≡◌, ◌+◌, ◌-◌, ◌^◌, ◌<◌, ◌≤◌, min, Err, IfOk, IsOk};
ghost use Rattle.nr_model.specs.Heaps.{cells};
ghost use Rattle.nr_model.specs.Outcomes.{max_cells};
ghost use Rattle.nr_graph.specs.Graphs.{graph_cells};

use crate::fault::PlantFault;
use nr_graph::Graph;
use nr_heap::Heap;

/// The cells that a heap may have.
const MAX_CELLS: u64 = 0x10_0000;

/// The cells of a graph, or 2^64 - 1 where it has more.
fn cells_of(graph: &Graph) -> u64
    ensures { result ≡ min (graph_cells graph.now) (2 ^ 64 - 1) }
{
    let mut cells: u64 = 0;
    let nodes = graph.nodes.as_slice();
    for node in nodes {
        let slots = node.slots.len() as u64;
        cells = cells.saturating_add(slots).saturating_add(1);
    }
    cells
}

/// The cells of a graph, where the heap has room for them under its limit.
pub fn cells_within(heap: &Heap, graph: &Graph) -> Result<u32, PlantFault>
    ensures cells { IfOk result (λ n. n ≡ graph_cells graph.now) }
    ensures full { let n = cells heap.now.objects + graph_cells graph.now in
        max_cells < n → result ≡ Err (PlantFault.HeapFull (min n (2 ^ 64 - 1))) }
    ensures ok { cells heap.now.objects + graph_cells graph.now ≤ max_cells → IsOk result }
{
    let cells = cells_of(graph);
    let reached = u64::from(heap.cells()).saturating_add(cells);
    if reached > MAX_CELLS {
        return Err(PlantFault::HeapFull(reached));
    }
    Ok(cells as u32)
}
