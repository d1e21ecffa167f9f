//! Calls (JVM Specification 4.10.1.9, invokevirtual to invokeinterface).

ghost use Rattle.std.specs.Prelude.{◌≡◌, ◌≤◌, ℕ, List, length, reverse, OnOk};
ghost use Rattle.nr_linked.specs.declared.program.types.VType.{VType};
ghost use Rattle.nr_linked.specs.Programs.{method_at};
ghost use Rattle.nr_linked.specs.TypingChecks.{Checked, take_kinds};
ghost use Rattle.nr_linked.specs.TypingCalls.{call_on, call_rule, call_static, invoke_rule, with_result};
ghost use Rattle.nr_verify_ops.specs.Answers.{IsAnswer, met, told, with_operands};
ghost use Rattle.nr_verify_ops.specs.Sites.{HasCodeInOrder};

use crate::error::RuleError;
use crate::frame::Frame;
use crate::returns::is_initialiser;
use nr_linked::{ClassId, Kind, MethodId, MethodInfo, OpFault, Program, Resolved};
use nr_types::{of_class, of_kind};
use std::alloc::AllocError;

/// The method of this number.
fn method_at(p: &Program, id: MethodId) -> Option<&MethodInfo>
    ensures { method_at p.now id ≡ told result }
{
    p.tables().methods.as_slice().get(id as usize)
}

impl Frame {
    /// Takes what goes for the kinds, the last on top, and answers how many there are.
    pub(crate) fn take_kinds(&mut self, p: &Program, kinds: &[Kind]) -> Result<u32, OpFault>
        requires { length kinds.now ≤ 254 }
        ensures rule { (k : ℕ → List VType → Checked) → take_kinds p.now (reverse kinds.now) 0 self.old.operands k ≡ met result (λ d. k d self.new.operands) }
        ensures rest { self.new ≡ with_operands self.old self.new.operands }
    {
        let mut depth = 0;
        let mut left = kinds;
        while let Some((last, before)) = left.split_last() {
            self.take_for(p, of_kind(*last), depth)?;
            depth += 1;
            left = before;
        }
        Ok(depth)
    }

    /// Puts what the method gives.
    fn push_result(&mut self, kind: Option<Kind>) -> Result<(), AllocError>
        ensures { OnOk result (self.new ≡ with_operands self.old (with_result kind self.old.operands)) }
    {
        match kind {
            Some(kind) => self.push(of_kind(kind)),
            None => Ok(()),
        }
    }

    /// A call on a receiver of this class.
    fn call_on(
        &mut self,
        p: &Program,
        method: &MethodInfo,
        callee: &MethodInfo,
        class: ClassId,
    ) -> Result<(), RuleError>
        requires { length callee.now.params ≤ 254 }
        ensures { IsAnswer result self.new (call_on p.now method.now callee.now class self.old) }
    {
        let depth = self.take_kinds(p, callee.params.as_slice())?;
        self.take_for(p, of_class(class), depth)?;
        self.push_result(callee.result)?;
        self.leave(method)?;
        Ok(())
    }

    /// invokestatic
    fn call_static(
        &mut self,
        p: &Program,
        method: &MethodInfo,
        callee: &MethodInfo,
    ) -> Result<(), RuleError>
        requires { length callee.now.params ≤ 254 }
        ensures { IsAnswer result self.new (call_static p.now method.now callee.now self.old) }
    {
        self.take_kinds(p, callee.params.as_slice())?;
        self.push_result(callee.result)?;
        self.leave(method)?;
        Ok(())
    }

    /// A call, by its code, of a method that the class has.
    #[tactic(auto, unfolding(crate::specs::Closed::init_receiver_taken, crate::specs::Closed::left_by_init))]
    fn call(
        &mut self,
        p: &Program,
        method: &MethodInfo,
        code: u8,
        callee: &MethodInfo,
        class: ClassId,
    ) -> Result<(), RuleError>
        requires order { HasCodeInOrder method.now }
        requires params { length callee.now.params ≤ 254 }
        ensures { IsAnswer result self.new (call_rule p.now method.now code callee.now class self.old) }
    {
        if code == 184 {
            self.call_static(p, method, callee)
        } else if code == 183 {
            if is_initialiser(callee) {
                self.call_init(p, method, callee, class)
            } else {
                self.call_on(p, method, callee, method.class)
            }
        } else {
            self.call_on(p, method, callee, class)
        }
    }

    /// invokevirtual, invokespecial, invokestatic, invokeinterface
    pub(crate) fn invoke(
        &mut self,
        p: &Program,
        method: &MethodInfo,
        code: u8,
        found: Resolved,
    ) -> Result<(), RuleError>
        requires { HasCodeInOrder method.now }
        ensures { IsAnswer result self.new (invoke_rule p.now method.now code found self.old) }
    {
        let Resolved::Method(id, class) = found else {
            return Err(RuleError::NoRule);
        };
        let _tables = p.tables();
        match method_at(p, id) {
            Some(callee) => self.call(p, method, code, callee, class),
            None => Err(RuleError::NoRule),
        }
    }
}
