//! What a call gives back.

/// The word that a call gives back, by the kind of its result.
#[derive(Clone, Copy, Debug, PartialEq, Eq)]
pub enum ResultWord {
    /// The method returns nothing.
    Void,
    /// A value of the type int, or of a type that is an int on the operand stack.
    Int(i32),
    Long(i64),
    /// A reference, which stands elsewhere.
    Reference,
}
