//! Values.

/// The name of an object or an array in a heap.
pub type Ref = u32;

/// A value of the machine (JVM Specification 2.6.1, 2.6.2). Booleans, bytes, chars and shorts are ints.
#[derive(Clone, Copy, Debug, PartialEq, Eq)]
pub enum Value {
    Int(i32),
    Long(i64),
    Null,
    Ref(Ref),
}
