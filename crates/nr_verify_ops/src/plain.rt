//! The families whose rows say all that they pop and push.

ghost use Rattle.std.specs.Prelude.{◌≡◌, List, OnOk};
ghost use Rattle.nr_linked.specs.declared.program.types.VType.{VType};
ghost use Rattle.nr_linked.specs.TypingChecks.{Checked, letters_of, take_letters, with_letters};
ghost use Rattle.nr_linked.specs.TypingRules.{row_rule};
ghost use Rattle.nr_verify_ops.specs.Answers.{IsAnswer, met, with_operands};

use crate::error::RuleError;
use crate::frame::Frame;
use crate::letters::letter_type;
use nr_linked::{MethodInfo, OpFault};
use nr_optable::{Kinds, Row};
use std::alloc::AllocError;

impl Frame {
    /// Takes what the row says that it pops.
    fn take_row(&mut self, pops: Kinds) -> Result<(), OpFault>
        ensures rule { (k : List VType → Checked) → take_letters (letters_of pops) 0 self.old.operands k ≡ met result (λ u. k self.new.operands) }
        ensures rest { self.new ≡ with_operands self.old self.new.operands }
    {
        match pops {
            Kinds::Own | Kinds::Letters { n: 0, .. } => {}
            Kinds::Letters { n: 1, first, .. } => {
                self.take_letter(first, 0)?;
            }
            Kinds::Letters {
                n: 2,
                first,
                second,
                ..
            } => {
                self.take_letter(second, 0)?;
                self.take_letter(first, 1)?;
            }
            Kinds::Letters {
                first,
                second,
                third,
                ..
            } => {
                self.take_letter(third, 0)?;
                self.take_letter(second, 1)?;
                self.take_letter(first, 2)?;
            }
        }
        Ok(())
    }

    /// Puts what the row says that it pushes.
    fn push_row(&mut self, pushes: Kinds) -> Result<(), AllocError>
        ensures { OnOk result (self.new ≡ with_operands self.old (with_letters (letters_of pushes) self.old.operands)) }
    {
        match pushes {
            Kinds::Own | Kinds::Letters { n: 0, .. } => {}
            Kinds::Letters { n: 1, first, .. } => self.push(letter_type(first))?,
            Kinds::Letters {
                n: 2,
                first,
                second,
                ..
            } => {
                self.push(letter_type(first))?;
                self.push(letter_type(second))?;
            }
            Kinds::Letters {
                first,
                second,
                third,
                ..
            } => {
                self.push(letter_type(first))?;
                self.push(letter_type(second))?;
                self.push(letter_type(third))?;
            }
        }
        Ok(())
    }

    /// Takes what the row says that it pops, and puts what it pushes.
    pub(crate) fn by_row(&mut self, method: &MethodInfo, row: &Row) -> Result<(), RuleError>
        ensures { IsAnswer result self.new (row_rule method.now row.now self.old) }
    {
        self.take_row(row.pops)?;
        self.push_row(row.pushes)?;
        self.leave(method)?;
        Ok(())
    }
}
