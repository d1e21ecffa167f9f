//! Graphs in the order of first visit, and others.

ghost use Rattle.std.specs.Prelude.{◌≡◌, ◌<◌, ◌∷◌, [], IsTrue};
ghost use Rattle.std.specs.List.{AllByRecursion};
ghost use Rattle.nr_graph.specs.Graphs.{IsWithin, nodes_in, root_slots};

use crate::graph::{Graph, Node, Slot};
use nr_base::Items;
use nr_linked::{Base, Kind};
use std::alloc::{AllocError, Global};
use std::test::Fail;

/// Whether the node that the slot names, if it names one, is one of so many.
fn is_there(slot: Slot, count: usize) -> bool
    ensures { IsTrue result → AllByRecursion (λ i. i < count) (nodes_in (slot ∷ [])) }
{
    match slot {
        Slot::Node(node) => (node as usize) < count,
        _ => true,
    }
}

fn are_there(slots: &[Slot], count: usize) -> bool
    ensures { IsTrue result → AllByRecursion (λ i. i < count) (nodes_in slots.now) }
{
    for slot in slots {
        if !is_there(*slot, count) {
            return false;
        }
    }
    true
}

/// Whether the root is null or one of so many nodes.
fn is_root(root: Option<u32>, count: usize) -> bool
    ensures { IsTrue result → AllByRecursion (λ i. i < count) (nodes_in (root_slots (root ∷ []))) }
{
    match root {
        Some(node) => (node as usize) < count,
        None => true,
    }
}

fn are_roots(roots: &[Option<u32>], count: usize) -> bool
    ensures { IsTrue result → AllByRecursion (λ i. i < count) (nodes_in (root_slots roots.now)) }
{
    for root in roots {
        if !is_root(*root, count) {
            return false;
        }
    }
    true
}

/// Whether each node that is named is there.
fn is_within(graph: &Graph) -> bool
    ensures { IsTrue result → IsWithin graph.now }
{
    let count = graph.nodes.len();
    for node in graph.nodes.as_slice() {
        if !are_there(node.slots.as_slice(), count) {
            return false;
        }
    }
    are_roots(graph.roots.as_slice(), count)
}

/// A node with these slots.
fn node(alloc: Global, slots: &[Slot]) -> Result<Node, AllocError> {
    Ok(Node {
        kind: Kind {
            dims: 0,
            base: Base::Object(0),
        },
        slots: Items::from_vec(Vec::from_slice(alloc, slots)?),
    })
}

/// The nodes of a text: each ends with `;`, and a digit is a slot that names that node, `i` an int, `l` a long,
/// and `-` null.
fn nodes_of(alloc: Global, text: &str) -> Result<Items<Node>, AllocError> {
    let mut nodes = Items::new(alloc);
    let mut slots = Vec::new(alloc);
    for byte in text.as_bytes() {
        match *byte {
            b';' => {
                nodes.push(node(alloc, &slots)?)?;
                slots.clear();
            }
            b'0'..=b'9' => slots.push(Slot::Node(u32::from(*byte - b'0')))?,
            b'i' => slots.push(Slot::Int(1))?,
            b'l' => slots.push(Slot::Long(0))?,
            _ => slots.push(Slot::Null)?,
        }
    }
    Ok(nodes)
}

/// The roots of a text: a digit is that node, and `-` null.
fn roots_of(alloc: Global, text: &str) -> Result<Items<Option<u32>>, AllocError> {
    let mut roots = Items::new(alloc);
    for byte in text.as_bytes() {
        match *byte {
            b'0'..=b'9' => roots.push(Some(u32::from(*byte - b'0')))?,
            _ => roots.push(None)?,
        }
    }
    Ok(roots)
}

/// Whether these nodes are in order from these roots; none where a node that is named isn't there.
fn order_of(alloc: Global, nodes: &str, roots: &str) -> Result<Option<bool>, AllocError> {
    let graph = Graph {
        nodes: nodes_of(alloc, nodes)?,
        roots: roots_of(alloc, roots)?,
    };
    if !is_within(&graph) {
        return Ok(None);
    }
    Ok(Some(graph.in_order()?))
}

/// Sharing, cycles, and the order of slots and of roots.
#[test]
fn nodes_are_numbered_as_they_are_met(rt: HostRuntime) -> Result<(), Fail> {
    for (nodes, roots, want) in [
        // No node; a node that no root names; one node too many.
        ("", "", true),
        ("", "--", true),
        (";", "", false),
        (";", "-0", true),
        (";;", "0", false),
        // One object as two roots; roots in their order.
        (";", "00", true),
        (";;", "01", true),
        (";;", "10", false),
        ("1;;", "01", true),
        // A cycle of one, of two; an object that two slots share.
        ("0;", "0", true),
        ("1;0;", "0", true),
        ("1;0;", "1", false),
        ("11;;", "0", true),
        // Numbers and null lead nowhere; slots in their order.
        ("i1-l2;;;", "0", true),
        ("21;;;", "0", false),
        // All that the first slot leads to comes before the second slot.
        ("13;2;;;", "0", true),
        ("12;3;;;", "0", false),
        // What a later slot or root names was met before.
        ("12;20;1;", "02", true),
        ("1;2;0;", "2", false),
    ] {
        let order = order_of(rt.alloc(), nodes, roots)?;
        assert_eq!(rt; order, Some(want), "{nodes} from {roots}");
    }
    Ok(())
}

/// A list of so many nodes, each of which leads to the next one. The second root is the first node.
fn list(alloc: Global, count: u32) -> Result<Graph, AllocError> {
    let mut graph = Graph {
        nodes: Items::new(alloc),
        roots: Items::from_vec(Vec::from_slice(alloc, &[None, Some(0)])?),
    };
    for i in 1..count {
        graph
            .nodes
            .push(node(alloc, &[Slot::Node(i), Slot::Null])?)?;
    }
    graph
        .nodes
        .push(node(alloc, &[Slot::Null, Slot::Node(0)])?)?;
    Ok(graph)
}

/// Nesting has no bound, and the time is linear.
#[test]
fn a_long_list_is_in_order(rt: HostRuntime) -> Result<(), Fail> {
    let graph = list(rt.alloc(), 100_000)?;
    let yes = is_within(&graph) && graph.in_order()?;
    assert!(rt; yes);
    Ok(())
}
