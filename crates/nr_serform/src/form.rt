//! What is known of a class.

use crate::order::StreamSlot;

/// What a writer and a reader of streams know of a class.
#[derive(Drop)]
pub struct Form<'p> {
    /// The slots of its objects in the order of a stream.
    pub slots: Vec<StreamSlot<'p>>,
    /// The slots of the fields that it declares itself, in the same order.
    pub fields: Vec<StreamSlot<'p>>,
    /// Its number.
    pub number: u64,
    /// Whether a call carries its objects.
    pub sendable: bool,
}
