//! Graphs of objects, numbered in the order of first visit, and the list of the objects that a call
//! passes. A graph is what a stream spells and what a reply restores (Java Object Serialization
//! Specification 6; the numbering is the project's own).
#![tactic(auto)]

mod graph;
mod law;
mod linear_map;
#[cfg(test)]
mod tests;

pub use graph::{Graph, Node, Slot};
pub use law::{
    copies_look_the_same, heaps_of_one_graph_pair, listed_nodes_are_shared,
    paired_heaps_show_one_graph, pictures_are_one, premises_can_be_met, shown_cells_are_counted,
    streams_have_each_slot_once, walks_have_one_result,
};
pub use linear_map::LinearMap;
