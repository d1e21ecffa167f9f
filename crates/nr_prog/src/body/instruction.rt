//! Instructions.

use nr_base::Items;
use nr_optable::Row;

/// The operands of an instruction (JVM Specification 6.5, each instruction's format). A branch holds the
/// offset of its target in the code.
#[derive(Debug, Drop, PartialEq, Eq)]
pub enum Args {
    /// None.
    Empty,
    /// The number of a local variable.
    Local(u16),
    /// A number that the instruction pushes.
    Num(i32),
    /// An index of the constant pool; of invokeinterface too, whose count says nothing more.
    Pool(u16),
    /// The target of a branch.
    Branch(u16),
    /// The number of a local variable, and what is added to it.
    Inc(u16, i16),
    /// The code of a primitive type (table 6.5.newarray-A).
    Prim(u8),
    /// An index of the constant pool, and a number of dimensions.
    Dims(u16, u8),
    /// tableswitch: the target for every other number, the lowest number of the table, and the target
    /// of each number from there on.
    Switch {
        other: u16,
        low: i32,
        targets: Items<u16>,
    },
    /// lookupswitch: the target for every other number, the numbers of the table, and their targets.
    Look {
        other: u16,
        keys: Items<i32>,
        targets: Items<u16>,
    },
    /// wide: the code of the widened load or store, and the number of its local variable.
    Wide(u8, u16),
    /// wide before iinc: the number of the local variable, and what is added to it.
    WideInc(u16, i16),
}

/// An instruction.
#[derive(Debug, Drop, PartialEq, Eq)]
pub struct Instr {
    /// Its offset in the code.
    pub at: u16,
    /// Its row in the table of instructions.
    pub row: Row,
    pub args: Args,
}
