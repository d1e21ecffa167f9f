//! The checks that rules are made of.

ghost use Rattle.std.specs.Prelude.{◌≡◌, List};
ghost use Rattle.nr_linked.specs.declared.program.types.VType.{VType};
ghost use Rattle.nr_linked.specs.declared.program.types.VType.TheVariants.{Long};
ghost use Rattle.nr_linked.specs.declared.typing.fault.Wanted.TheVariants as wanted;
ghost use Rattle.nr_linked.specs.TypingChecks.{Checked, Leaves, leaves, need, take_for, take_int, take_letter, take_operand, take_reference, take_single, take_that};
ghost use Rattle.nr_linked.specs.TypingFrames.{is_long};
ghost use Rattle.nr_verify_ops.specs.Answers.{met, with_operands};

use crate::frame::Frame;
use crate::letters::{is_letter, wanted_letter};
use nr_linked::{MethodInfo, OpFault, Program, VType, Wanted};
use nr_optable::Letter;
use nr_types::{is_initialised, is_int, is_long, operand_assignable};

/// A check, which answers the fault where it fails.
pub(crate) fn need(holds: bool, fault: OpFault) -> Result<(), OpFault>
    ensures { (k : Checked) → need holds fault k ≡ met result (λ u. k) }
{
    if holds { Ok(()) } else { Err(fault) }
}

impl Frame {
    /// The topmost operand, which is at this depth of those that the instruction takes.
    pub(crate) fn take_operand(&mut self, depth: u32) -> Result<VType, OpFault>
        ensures rule { (k : VType → List VType → Checked) → take_operand depth self.old.operands k ≡ met result (λ t. k t self.new.operands) }
        ensures rest { self.new ≡ with_operands self.old self.new.operands }
    {
        match self.pop() {
            Some(t) => Ok(t),
            None => Err(OpFault::StackShort(depth)),
        }
    }

    /// An operand of the letter's type.
    pub(crate) fn take_letter(&mut self, letter: Letter, depth: u32) -> Result<VType, OpFault>
        ensures rule { (k : VType → List VType → Checked) → take_letter letter depth self.old.operands k ≡ met result (λ t. k t self.new.operands) }
        ensures rest { self.new ≡ with_operands self.old self.new.operands }
    {
        let t = self.take_operand(depth)?;
        let expected = wanted_letter(letter);
        need(
            is_letter(letter, t),
            OpFault::NeedsKind {
                depth,
                expected,
                found: t,
            },
        )?;
        Ok(t)
    }

    /// An operand that goes where the type is wanted.
    pub(crate) fn take_for(&mut self, p: &Program, wanted: VType, depth: u32) -> Result<(), OpFault>
        ensures rule { (k : List VType → Checked) → take_for p.now wanted depth self.old.operands k ≡ met result (λ u. k self.new.operands) }
        ensures rest { self.new ≡ with_operands self.old self.new.operands }
    {
        let t = self.take_operand(depth)?;
        need(
            operand_assignable(p, &t, &wanted),
            OpFault::NeedsKind {
                depth,
                expected: Wanted::Type(wanted),
                found: t,
            },
        )
    }

    /// An operand that isn't a long.
    pub(crate) fn take_single(&mut self, depth: u32) -> Result<VType, OpFault>
        ensures rule { (k : VType → List VType → Checked) → take_single depth self.old.operands k ≡ met result (λ t. k t self.new.operands) }
        ensures rest { self.new ≡ with_operands self.old self.new.operands }
    {
        let t = self.take_operand(depth)?;
        need(
            !is_long(t),
            OpFault::NeedsKind {
                depth,
                expected: Wanted::Type(VType::Top),
                found: t,
            },
        )?;
        Ok(t)
    }

    /// An int.
    pub(crate) fn take_int(&mut self, depth: u32) -> Result<(), OpFault>
        ensures rule { (k : List VType → Checked) → take_int depth self.old.operands k ≡ met result (λ u. k self.new.operands) }
        ensures rest { self.new ≡ with_operands self.old self.new.operands }
    {
        let t = self.take_operand(depth)?;
        need(
            is_int(t),
            OpFault::NeedsKind {
                depth,
                expected: Wanted::Type(VType::Int),
                found: t,
            },
        )
    }

    /// A long.
    pub(crate) fn take_long(&mut self, depth: u32) -> Result<(), OpFault>
        ensures rule { (k : List VType → Checked) → take_that is_long (wanted.Type Long) depth self.old.operands (λ t us. k us) ≡ met result (λ u. k self.new.operands) }
        ensures rest { self.new ≡ with_operands self.old self.new.operands }
    {
        let t = self.take_operand(depth)?;
        need(
            is_long(t),
            OpFault::NeedsKind {
                depth,
                expected: Wanted::Type(VType::Long),
                found: t,
            },
        )
    }

    /// A reference to an object that is initialised, or null.
    pub(crate) fn take_reference(&mut self, depth: u32) -> Result<VType, OpFault>
        ensures rule { (k : VType → List VType → Checked) → take_reference depth self.old.operands k ≡ met result (λ t. k t self.new.operands) }
        ensures rest { self.new ≡ with_operands self.old self.new.operands }
    {
        let t = self.take_operand(depth)?;
        need(
            is_initialised(t),
            OpFault::NeedsKind {
                depth,
                expected: Wanted::AnyReference,
                found: t,
            },
        )?;
        Ok(t)
    }

    /// The last check of each rule: the operands take at most the method's places.
    pub(crate) fn leave(&self, method: &MethodInfo) -> Result<(), OpFault>
        ensures { leaves method.now self.now ≡ met result (λ u. Leaves self.now) }
    {
        need(
            self.size() <= u128::from(method.max_stack),
            OpFault::StackOver,
        )
    }
}
