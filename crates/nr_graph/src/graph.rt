//! Graphs.

mod order;

use nr_base::Items;
use nr_linked::Kind;

/// What a slot of a node holds: a number, null, or a node by its number, from 0. Booleans, bytes, chars
/// and shorts are ints.
#[derive(Clone, Copy, Debug, PartialEq, Eq)]
pub enum Slot {
    Int(i32),
    Long(i64),
    Null,
    Node(u32),
}

/// An object or an array.
#[derive(Debug, Drop)]
pub struct Node {
    /// Its class.
    pub kind: Kind,
    /// The elements of an array, or the slots of an object in stream order.
    pub slots: Items<Slot>,
}

/// Objects and arrays, and where a walk over them begins: at a node, or at null.
#[derive(Debug, Drop)]
pub struct Graph {
    pub nodes: Items<Node>,
    pub roots: Items<Option<u32>>,
}
