//! What texts spell.

use crate::body::MapType;
use nr_base::{Desc, Items, Shared};

/// What a descriptor of a method says (JVM Specification 4.3.3).
#[derive(Debug, Drop)]
pub struct MethodForm {
    /// How many slots the parameters take: two for a long, else one.
    pub slots: usize,
    /// Whether the method returns nothing.
    pub void: bool,
    /// The types of the parameters, as frame maps have them.
    pub params: Items<MapType>,
}

/// What the bytes of a text spell, whatever the text is used for.
#[derive(Debug, Drop)]
pub struct TextForm {
    /// Whether they are a name: modified UTF-8 without U+0000 (JVM Specification 4.4.7).
    pub name: bool,
    /// Whether they are a legal name of a class (4.2.1).
    pub class_name: bool,
    /// Whether they are a legal name of a field (4.2.2).
    pub field_name: bool,
    /// Whether they are a legal name of a method (4.2.2).
    pub method_name: bool,
    /// The dimensions of the type whose descriptor they are, where they are one (4.3.2).
    pub dims: Option<u8>,
    /// The class that they name, or the array whose descriptor they are (4.4.1).
    pub class: Option<Shared<Desc>>,
    /// What they say as a descriptor of a method, where they are one (4.3.3).
    pub method: Option<MethodForm>,
}
