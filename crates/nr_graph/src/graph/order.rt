//! Whether a graph is numbered in the order of first visit.

ghost use Rattle.std.specs.Prelude.{◌≡◌, ◌++◌, ◌↔◌, reverse, IfOk, IsTrue, OnOk};
ghost use Rattle.nr_graph.specs.Graphs.{IsInOrder, IsWithin, nodes_in, root_slots};

use super::{Graph, Slot};
use std::alloc::AllocError;

/// Puts the nodes that slots name on the stack, the first on top.
fn push_nodes(stack: &mut Vec<u32>, slots: &[Slot]) -> Result<(), AllocError>
    ensures { OnOk result (stack.new.items ≡ stack.old.items ++ reverse (nodes_in slots.now)) }
{
    for slot in slots.iter().rev().copied() {
        if let Slot::Node(node) = slot {
            stack.push(node)?;
        }
    }
    Ok(())
}

/// Puts the nodes where a walk begins on the stack, the first on top.
fn push_roots(stack: &mut Vec<u32>, roots: &[Option<u32>]) -> Result<(), AllocError>
    ensures { OnOk result (stack.new.items ≡ stack.old.items ++ reverse (nodes_in (root_slots roots.now))) }
{
    for root in roots.iter().rev().copied() {
        if let Some(node) = root {
            stack.push(node)?;
        }
    }
    Ok(())
}

impl Graph {
    /// Whether node i is the i-th that is first met, depth first from the roots, and each node is met. Each
    /// slot is looked at once. The error comes only for want of memory.
    pub fn in_order(&self) -> Result<bool, AllocError>
        requires { IsWithin self.now }
        ensures { IfOk result (λ yes. IsTrue yes ↔ IsInOrder self.now) }
    {
        let mut stack = Vec::new(self.nodes.allocator());
        push_roots(&mut stack, self.roots.as_slice())?;
        let mut count: usize = 0;
        while let Some(node) = stack.pop() {
            let node = node as usize;
            if node > count {
                return Ok(false);
            }
            if node == count {
                push_nodes(&mut stack, self.nodes.as_slice()[node].slots.as_slice())?;
                count += 1;
            }
        }
        Ok(count == self.nodes.len())
    }
}
