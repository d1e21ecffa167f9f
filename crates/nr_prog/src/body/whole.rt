//! The code of a method.

use super::{FrameMap, Instr};
use crate::member::Handler;
use nr_base::Items;

/// The decoded code of a method (JVM Specification 4.7.3, 4.7.4).
#[derive(Debug, Drop, PartialEq, Eq)]
pub struct Body {
    /// The instructions, by their offsets.
    pub instrs: Items<Instr>,
    /// The exception handlers, in their order.
    pub handlers: Items<Handler>,
    /// The frame maps, by their offsets.
    pub maps: Items<FrameMap>,
}
