//! Objects of a heap as a graph, as a call passes them, new objects of a graph, and which of its nodes the
//! reply restores. The order of first visit is the project's own; the order of an object's slots is that of
//! the Java Object Serialization Specification 4.3.
#![tactic(auto)]

mod drawing;
mod fault;
mod filling;
mod law;
mod listing;
mod making;
mod picture;
mod planting;
mod room;
mod values;
mod walk;

pub use fault::{CaptureFault, PlantFault};
pub use law::{copies_can_be_made, graphs_can_be_planted, graphs_of_typed_heaps_fit};
pub use listing::listed_nodes;
pub use picture::capture;
pub use planting::plant;
