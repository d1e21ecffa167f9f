//! Why an instruction is refused.

ghost use Rattle.std.specs.Prelude.{◌≡◌};
ghost use Rattle.nr_verify_ops.specs.declared.error.OpError.TheVariants as ops;
ghost use Rattle.nr_verify_ops.specs.declared.error.RuleError.TheVariants as rules;

use nr_linked::OpFault;
use std::alloc::AllocError;

/// Why the typing rule of an instruction gives no frame.
#[derive(Clone, Copy, Debug, PartialEq, Eq)]
pub enum OpError {
    /// The first check of the rule that fails.
    Fault(OpFault),
    /// There was no memory for the frame.
    NoMemory,
}

impl From<AllocError> for OpError {
    ghost from_gives = { λ _ e. e ≡ ops.NoMemory };

    fn from(_: AllocError) -> Self {
        OpError::NoMemory
    }
}

/// The same of an instruction of which it isn't known that its operands suit its row.
#[derive(Clone, Copy, Debug, PartialEq, Eq)]
pub enum RuleError {
    /// The first check of the rule that fails.
    Fault(OpFault),
    /// The instruction's operands, or what linking found for it, don't suit its row; never in a program.
    NoRule,
    /// There was no memory for the frame.
    NoMemory,
}

impl From<OpFault> for RuleError {
    ghost from_gives = { λ fault e. e ≡ rules.Fault fault };

    fn from(fault: OpFault) -> Self {
        RuleError::Fault(fault)
    }
}

impl From<AllocError> for RuleError {
    ghost from_gives = { λ _ e. e ≡ rules.NoMemory };

    fn from(_: AllocError) -> Self {
        RuleError::NoMemory
    }
}
