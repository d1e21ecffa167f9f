//! The nodes that a reply restores.

ghost use Rattle.std.specs.Prelude.{◌≡◌, ◌∷◌, ◌++◌, ◌<◌, ◌^◌, [], false, if◌then◌else◌, replicate, reverse, length, IfOk, OnOk};
ghost use Rattle.nr_graph.specs.Fitting.{GraphFits};
ghost use Rattle.nr_graph.specs.Graphs.{IsWithin, nodes_in};
ghost use Rattle.nr_graph.specs.Listing.{Lists};
ghost use Rattle.nr_capture.specs.Listed.{Flags, places_from, start_of, starts};

use nr_graph::{Graph, Slot};
use nr_linked::Program;
use std::alloc::{AllocError, Global};

/// The root, where it is of a restorable kind.
fn start_of(program: &Program, graph: &Graph, root: Option<u32>) -> Option<u32>
    ensures { result ≡ start_of program.now graph.now root }
{
    let node = root?;
    match graph.nodes.as_slice().get(node as usize) {
        Some(found) => {
            if program.restorable(found.kind) {
                Some(node)
            } else {
                None
            }
        }
        None => None,
    }
}

/// The roots of a restorable kind, the last first.
fn starts(alloc: Global, program: &Program, graph: &Graph) -> Result<Vec<u32>, AllocError>
    ensures { IfOk result (λ v. v.items ≡ reverse (starts program.now graph.now graph.now.roots)) }
{
    let mut starts = Vec::new(alloc);
    for root in graph.roots.as_slice().iter().rev().copied() {
        if let Some(node) = start_of(program, graph, root) {
            starts.push(node)?;
        }
    }
    Ok(starts)
}

/// Puts the nodes that slots name on the stack, the first on top.
fn push_nodes(stack: &mut Vec<u32>, slots: &[Slot]) -> Result<(), AllocError>
    ensures { OnOk result (stack.new.items ≡ stack.old.items ++ reverse (nodes_in slots.now)) }
{
    for slot in slots.iter().rev().copied() {
        if let Slot::Node(node) = slot {
            stack.push(node)?;
        }
    }
    Ok(())
}

/// So many flags, none of which is set.
fn unset(alloc: Global, count: usize) -> Result<Vec<bool>, AllocError>
    ensures { IfOk result (λ v. v.items ≡ replicate count false) }
{
    let mut flags = Vec::new(alloc);
    flags.resize(count, false)?;
    Ok(flags)
}

/// Which nodes a root of a restorable kind reaches.
fn flags_of(alloc: Global, program: &Program, graph: &Graph) -> Result<Vec<bool>, AllocError>
    requires { IsWithin graph.now }
    ensures { IfOk result (λ v. Flags program.now graph.now v.items) }
{
    let nodes = graph.nodes.as_slice();
    let mut flags = unset(alloc, graph.nodes.len())?;
    let mut stack = starts(alloc, program, graph)?;
    while let Some(node) = stack.pop() {
        let node = node as usize;
        if flags[node] {
            continue;
        }
        flags[node] = true;
        push_nodes(&mut stack, nodes[node].slots.as_slice())?;
    }
    Ok(flags)
}

fn push_if(places: &mut Vec<u32>, place: u32, flag: bool) -> Result<(), AllocError>
    ensures { OnOk result (places.new.items ≡ places.old.items ++ (if flag then place ∷ [] else [])) }
{
    if flag {
        places.push(place)?;
    }
    Ok(())
}

/// The places of the flags that are set.
fn places_of(alloc: Global, flags: &[bool]) -> Result<Vec<u32>, AllocError>
    requires { length flags.now < 2 ^ 32 }
    ensures { IfOk result (λ v. v.items ≡ places_from 0 flags.now) }
{
    let mut places = Vec::new(alloc);
    for place in 0..flags.len() {
        push_if(&mut places, place as u32, flags[place])?;
    }
    Ok(places)
}

/// The numbers of the nodes that a root of a restorable kind reaches, rising: a call's reply restores these
/// (the project's own rule). Each slot is looked at once. The error comes only for want of memory.
pub fn listed_nodes(alloc: Global, program: &Program, graph: &Graph) -> Result<Vec<u32>, AllocError>
    requires fits { GraphFits program.now graph.now }
    requires few { length graph.now.nodes < 2 ^ 32 }
    ensures { IfOk result (λ v. Lists program.now graph.now v.items) }
{
    let flags = flags_of(alloc, program, graph)?;
    let places = places_of(alloc, flags.as_slice())?;
    Ok(places)
}
