//! The laws of walks, graphs and pictures.

mod copy;
mod example;
mod listed;
mod pair;
mod picture;
mod size;
mod stream;
mod walk;

pub use copy::copies_look_the_same;
pub use example::premises_can_be_met;
pub use listed::listed_nodes_are_shared;
pub use pair::{heaps_of_one_graph_pair, paired_heaps_show_one_graph};
pub use picture::pictures_are_one;
pub use size::shown_cells_are_counted;
pub use stream::streams_have_each_slot_once;
pub use walk::walks_have_one_result;
