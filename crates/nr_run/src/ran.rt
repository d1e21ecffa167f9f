//! What a run leaves.

use nr_base::Items;
use nr_linked::ClassId;

/// A limit of the machine (the project's own).
#[derive(Clone, Copy, Debug, PartialEq, Eq)]
pub enum Limit {
    /// At most 1,048,576 cells: one for each object or array, and one for each of its slots.
    Cells,
    /// At most 1,024 frames, and at most 65,536 places for locals and operands of all frames.
    Depth,
    /// At most 1,048,576 printed bytes.
    Output,
}

/// How a run ends.
#[derive(Clone, Copy, Debug, PartialEq, Eq)]
pub enum RunEnd {
    /// `main` returned this value (JVM Specification 2.6.4).
    Returned(i32),
    /// `main` ended by a throw of an object of this class (JVM Specification 2.6.5).
    Thrown(ClassId),
    /// As many steps as are allowed were made without an end.
    Budget,
    /// The next step would pass this limit.
    Limit(Limit),
    /// Memory ran out on the way.
    NoMemory,
}

/// What a run leaves.
#[derive(Debug, Drop)]
pub struct Ran {
    /// How it ended.
    pub end: RunEnd,
    /// What it printed.
    pub printed: Items<u8>,
}
