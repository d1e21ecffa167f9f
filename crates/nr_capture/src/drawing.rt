//! Objects as nodes of a graph.

ghost use Rattle.std.specs.Prelude.{◌≡◌, ◌∷◌, [], true, List, IfOk, IsSomeAnd, Some, slice_get};
ghost use Rattle.std.specs.FinMap.{get};
ghost use Rattle.nr_model.specs.declared.value.Value.{Value};
ghost use Rattle.nr_model.specs.TypedHeaps.{TypedHeap};
ghost use Rattle.nr_graph.specs.Graphs.{root_slot, root_slots};
ghost use Rattle.nr_graph.specs.Pictures.{AllDraw, Draws, names_in, next_in};
ghost use Rattle.nr_graph.specs.Walks.{is_met};
ghost use Rattle.nr_capture.specs.Drawing.{AllBits, AllDrawn, HasBits, IsDrawn, IsWalked};
ghost use Rattle.nr_capture.specs.Roots.{AreMet, IsIn, root_value, root_values};

use crate::values::values_of;
use nr_base::Items;
use nr_graph::{LinearMap, Node, Slot};
use nr_heap::Heap;
use nr_model::{Ref, Value};
use nr_serform::Forms;
use std::alloc::{AllocError, Global};

/// The place of a name that is listed.
fn place_of(names: &LinearMap, name: Ref) -> u32
    requires { is_met names.now name ≡ true }
    ensures { slice_get names.now result ≡ Some name }
{
    match names.find(name) {
        Some(place) => place,
        None => unreachable!(),
    }
}

fn slot_of(names: &LinearMap, value: Value) -> Slot
    requires { AreMet names.now (names_in (value ∷ [])) }
    ensures draws { Draws names.now value result }
    ensures bits { HasBits result }
{
    match value {
        Value::Int(n) => Slot::Int(n),
        Value::Long(n) => Slot::Long(n),
        Value::Null => Slot::Null,
        Value::Ref(name) => Slot::Node(place_of(names, name)),
    }
}

fn slots_of(alloc: Global, names: &LinearMap, values: &[Value]) -> Result<Items<Slot>, AllocError>
    requires { AreMet names.now (names_in values.now) }
    ensures draws { IfOk result (λ slots. AllDraw names.now values.now slots) }
    ensures bits { IfOk result (λ slots. AllBits slots) }
{
    let mut slots = Items::new(alloc);
    for value in values {
        slots.push(slot_of(names, *value))?;
    }
    Ok(slots)
}

fn root_of(names: &LinearMap, root: Option<Ref>) -> Option<u32>
    requires { AreMet names.now (names_in (root_value root ∷ [])) }
    ensures { Draws names.now (root_value root) (root_slot result) }
{
    match root {
        Some(name) => Some(place_of(names, name)),
        None => None,
    }
}

/// Where a walk of the graph begins.
pub fn roots_of(
    alloc: Global,
    names: &LinearMap,
    roots: &[Option<Ref>],
) -> Result<Items<Option<u32>>, AllocError>
    requires { AreMet names.now (names_in (root_values roots.now)) }
    ensures { IfOk result (λ found. AllDraw names.now (root_values roots.now) (root_slots found)) }
{
    let mut found = Items::new(alloc);
    for root in roots {
        found.push(root_of(names, *root))?;
    }
    Ok(found)
}

fn node_of(
    alloc: Global,
    forms: &Forms,
    heap: &Heap,
    names: &LinearMap,
    name: Ref,
) -> Result<Node, AllocError>
    requires typed { TypedHeap forms.now heap.now.objects }
    requires inside { IsIn heap.now.objects name }
    requires met { AreMet names.now (next_in forms.now heap.now.objects name) }
    ensures { IfOk result (λ n. IsSomeAnd (get heap.now.objects name) (λ o. IsDrawn forms.now names.now o n)) }
{
    let kind = heap.kind_of(name);
    let values = values_of(alloc, forms, heap, name)?;
    let slots = slots_of(alloc, names, values.as_slice())?;
    Ok(Node { kind, slots })
}

/// The nodes of objects and arrays that a walk met.
pub fn nodes_of(
    alloc: Global,
    forms: &Forms,
    heap: &Heap,
    names: &LinearMap,
) -> Result<Items<Node>, AllocError>
    requires typed { TypedHeap forms.now heap.now.objects }
    requires walked { (vs : List Value) × IsWalked forms.now heap.now.objects vs names.now }
    ensures { IfOk result (λ nodes. AllDrawn forms.now heap.now.objects names.now nodes) }
{
    let mut nodes = Items::new(alloc);
    for place in 0..names.len() {
        let Some(name) = names.get(place) else {
            unreachable!()
        };
        nodes.push(node_of(alloc, forms, heap, names, name)?)?;
    }
    Ok(nodes)
}
