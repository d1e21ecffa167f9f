//! new, checkcast, instanceof and athrow (JVM Specification 4.10.1.9).

ghost use Rattle.nr_linked.specs.TypingObjects.{new_rule, test_rule, throw_rule};
ghost use Rattle.nr_verify_ops.specs.Answers.{IsAnswer};

use crate::error::RuleError;
use crate::frame::Frame;
use crate::take::need;
use nr_linked::{BuiltIn, MethodInfo, OpFault, Program, Resolved, VType};
use nr_types::of_class;

impl Frame {
    /// new, at this offset: none of its earlier objects is an operand that isn't initialised, and local
    /// variables forget them
    pub(crate) fn new_object(
        &mut self,
        method: &MethodInfo,
        at: u16,
        found: Resolved,
    ) -> Result<(), RuleError>
        ensures { IsAnswer result self.new (new_rule method.now at found self.old) }
    {
        let Resolved::Kind(_) = found else {
            return Err(RuleError::NoRule);
        };
        need(!self.holds_made_at(at), OpFault::NeedsInit)?;
        self.forget(at);
        self.push(VType::Uninit(at))?;
        self.leave(method)?;
        Ok(())
    }

    /// checkcast, instanceof
    pub(crate) fn test(
        &mut self,
        method: &MethodInfo,
        code: u8,
        found: Resolved,
    ) -> Result<(), RuleError>
        ensures { IsAnswer result self.new (test_rule method.now code found self.old) }
    {
        let Resolved::Kind(k) = found else {
            return Err(RuleError::NoRule);
        };
        self.take_reference(0)?;
        self.push(if code == 192 {
            VType::Class(k)
        } else {
            VType::Int
        })?;
        self.leave(method)?;
        Ok(())
    }

    /// athrow
    pub(crate) fn throw(&mut self, p: &Program, method: &MethodInfo) -> Result<(), RuleError>
        ensures { IsAnswer result self.new (throw_rule p.now method.now self.old) }
    {
        self.take_for(p, of_class(p.built_in(BuiltIn::Throwable)), 0)?;
        self.leave(method)?;
        Ok(())
    }
}
