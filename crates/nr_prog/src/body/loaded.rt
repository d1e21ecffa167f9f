//! Classes with the code of their methods.

use super::Body;
use crate::class::Class;
use nr_base::Items;

/// A class, and the code of each of its methods.
#[derive(Debug, Drop)]
pub struct Loaded {
    pub class: Class,
    /// One for each method, in their order; none for a method without code.
    pub bodies: Items<Option<Body>>,
}
