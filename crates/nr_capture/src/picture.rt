//! Objects of a heap as a graph.

ghost use Rattle.std.specs.Prelude.{IfErr, IfOk};
ghost use Rattle.nr_model.specs.TypedHeaps.{TypedHeap};
ghost use Rattle.nr_graph.specs.Fitting.{IsSpellable};
ghost use Rattle.nr_graph.specs.Pictures.{IsPicture};
ghost use Rattle.nr_capture.specs.Refusals.{OnNotSendable, RefusesClass};
ghost use Rattle.nr_capture.specs.Roots.{AreIn, root_values};

use crate::drawing::{nodes_of, roots_of};
use crate::fault::CaptureFault;
use crate::walk::walk;
use nr_graph::{Graph, LinearMap};
use nr_heap::Heap;
use nr_model::Ref;
use nr_serform::Forms;
use std::alloc::Global;

/// The objects and arrays that the roots reach as a graph, with their names by node: node i is the i-th
/// that is first met when the roots are walked in order, depth first, in the stream order of slots. Shared
/// objects stay shared, and equal ones apart. Each slot is looked at twice, however deep the objects nest.
/// `NotSendable` exactly where the walk meets an object that no call carries: it names the class of the
/// first, and of an array the class in its elements' kind. `NoMemory` for want of memory.
pub fn capture(
    alloc: Global,
    forms: &Forms,
    heap: &Heap,
    roots: &[Option<Ref>],
) -> Result<(LinearMap, Graph), CaptureFault>
    requires typed { TypedHeap forms.now heap.now.objects }
    requires roots { AreIn heap.now.objects roots.now }
    ensures picture { IfOk result (λ r. IsPicture forms.now heap.now.objects (root_values roots.now) r.0 r.1) }
    ensures spellable { IfOk result (λ r. IsSpellable forms.now r.1) }
    ensures refused { IfErr result (λ e. OnNotSendable e
        (λ c. RefusesClass forms.now heap.now.objects (root_values roots.now) c)) }
{
    // the heap keeps its limit, so the graph does
    let _ = heap.cells();
    let names = walk(alloc, forms, heap, roots)?;
    let nodes = nodes_of(alloc, forms, heap, &names)?;
    let roots = roots_of(alloc, &names, roots)?;
    Ok((names, Graph { nodes, roots }))
}
