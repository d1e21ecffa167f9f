//! How an instruction went.

/// How an instruction went. But for `Next` and `Branch` the locals and the operands are as they were. (The
/// project's own.)
#[derive(Clone, Copy, Debug, PartialEq, Eq)]
pub enum Flow {
    /// On at the next instruction.
    Next,
    /// On at the offset told.
    Branch,
    /// It throws the object of the name told.
    Throw,
    /// It calls the method told, whose arguments are the topmost operands.
    Invoke,
    /// It calls the method of `nrmi/Out` told, whose arguments are the topmost operands.
    Print,
    /// From the method, with nothing.
    Return,
    /// From the method, with the topmost operand.
    ReturnTop,
    /// Memory ran out, and the heap is as it was.
    NoMemory,
    /// The heap would pass its limit, by the cells told, and is as it was.
    Full,
}

/// What an instruction tells beside how it went. Where no case is named, a field says nothing.
#[derive(Clone, Copy, Debug, PartialEq, Eq)]
pub struct Told {
    /// At `Branch` the offset of the target in the code, at `Throw` the object's name, and at `Invoke` and
    /// `Print` the method.
    pub number: u32,
    /// At `Full` the cells that the heap would have, or 2^64 - 1 where it would have more.
    pub cells: u64,
}
