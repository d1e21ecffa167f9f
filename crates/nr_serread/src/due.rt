//! Slots that are still to be read.

use nr_linked::Kind;

/// A slot that is still to be read: a node's next one, or a root, which no node owns; and what it holds.
#[derive(Clone, Copy)]
pub struct Due {
    pub owner: Option<u32>,
    pub kind: Kind,
}
