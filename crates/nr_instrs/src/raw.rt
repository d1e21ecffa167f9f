//! Instructions as they are read, before their targets are looked at.

use nr_base::Items;
use nr_optable::Row;
use nr_prog::Args;

/// The operands of an instruction. A target is an offset from the start of the code, which may lie
/// anywhere.
#[derive(Debug, Drop)]
pub enum Operands {
    /// The operands of an instruction that has no target.
    Plain(Args),
    /// The target of a branch.
    Branch(i64),
    /// tableswitch: the target for every other number, the lowest number, and the targets.
    Switch {
        other: i64,
        low: i32,
        targets: Items<i64>,
    },
    /// lookupswitch: the target for every other number, the numbers, and their targets.
    Look {
        other: i64,
        keys: Items<i32>,
        targets: Items<i64>,
    },
}

/// An instruction, its offset and its row.
#[derive(Debug, Drop)]
pub struct RawInstr {
    pub at: u16,
    pub row: Row,
    pub operands: Operands,
}
