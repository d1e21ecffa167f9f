//! Instructions that move operands: pop to swap (JVM Specification 6.5). The forms of each are those of the
//! specification: an operand that isn't a long is one place, a long two.

ghost use Rattle.std.specs.Prelude.{◌≡◌};
ghost use Rattle.nr_linked.specs.TypingMoves.{drop_rule, dup2_rule, dup2_x1_rule, dup2_x2_rule, dup_rule, dup_x1_rule, dup_x2_rule, swap_rule};
ghost use Rattle.nr_verify_ops.specs.Answers.{IsAnswer};

use crate::error::RuleError;
use crate::frame::Frame;
use nr_linked::MethodInfo;
use nr_types::is_long;

impl Frame {
    /// pop, pop2
    pub(crate) fn drop_by(&mut self, method: &MethodInfo, code: u8) -> Result<(), RuleError>
        ensures { IsAnswer result self.new (drop_rule method.now code self.old) }
    {
        if code == 87 {
            self.take_single(0)?;
        } else {
            let t = self.take_operand(0)?;
            if !is_long(t) {
                self.take_single(1)?;
            }
        }
        self.leave(method)?;
        Ok(())
    }

    /// dup
    pub(crate) fn dup(&mut self, method: &MethodInfo) -> Result<(), RuleError>
        ensures { IsAnswer result self.new (dup_rule method.now self.old) }
    {
        let a = self.take_single(0)?;
        self.push(a)?;
        self.push(a)?;
        self.leave(method)?;
        Ok(())
    }

    /// dup_x1
    pub(crate) fn dup_x1(&mut self, method: &MethodInfo) -> Result<(), RuleError>
        ensures { IsAnswer result self.new (dup_x1_rule method.now self.old) }
    {
        let a = self.take_single(0)?;
        let b = self.take_single(1)?;
        self.push(a)?;
        self.push(b)?;
        self.push(a)?;
        self.leave(method)?;
        Ok(())
    }

    /// dup_x2
    pub(crate) fn dup_x2(&mut self, method: &MethodInfo) -> Result<(), RuleError>
        ensures { IsAnswer result self.new (dup_x2_rule method.now self.old) }
    {
        let a = self.take_single(0)?;
        let b = self.take_operand(1)?;
        if is_long(b) {
            self.push(a)?;
            self.push(b)?;
            self.push(a)?;
        } else {
            let c = self.take_single(2)?;
            self.push(a)?;
            self.push(c)?;
            self.push(b)?;
            self.push(a)?;
        }
        self.leave(method)?;
        Ok(())
    }

    /// dup2
    pub(crate) fn dup2(&mut self, method: &MethodInfo) -> Result<(), RuleError>
        ensures { IsAnswer result self.new (dup2_rule method.now self.old) }
    {
        let a = self.take_operand(0)?;
        if is_long(a) {
            self.push(a)?;
            self.push(a)?;
        } else {
            let b = self.take_single(1)?;
            self.push(b)?;
            self.push(a)?;
            self.push(b)?;
            self.push(a)?;
        }
        self.leave(method)?;
        Ok(())
    }

    /// dup2_x1
    pub(crate) fn dup2_x1(&mut self, method: &MethodInfo) -> Result<(), RuleError>
        ensures { IsAnswer result self.new (dup2_x1_rule method.now self.old) }
    {
        let a = self.take_operand(0)?;
        let b = self.take_single(1)?;
        if is_long(a) {
            self.push(a)?;
            self.push(b)?;
            self.push(a)?;
        } else {
            let c = self.take_single(2)?;
            self.push(b)?;
            self.push(a)?;
            self.push(c)?;
            self.push(b)?;
            self.push(a)?;
        }
        self.leave(method)?;
        Ok(())
    }

    /// dup2_x2
    pub(crate) fn dup2_x2(&mut self, method: &MethodInfo) -> Result<(), RuleError>
        ensures { IsAnswer result self.new (dup2_x2_rule method.now self.old) }
    {
        let a = self.take_operand(0)?;
        if is_long(a) {
            let b = self.take_operand(1)?;
            if is_long(b) {
                self.push(a)?;
                self.push(b)?;
                self.push(a)?;
            } else {
                let c = self.take_single(2)?;
                self.push(a)?;
                self.push(c)?;
                self.push(b)?;
                self.push(a)?;
            }
        } else {
            let b = self.take_single(1)?;
            let c = self.take_operand(2)?;
            if is_long(c) {
                self.push(b)?;
                self.push(a)?;
                self.push(c)?;
                self.push(b)?;
                self.push(a)?;
            } else {
                let d = self.take_single(3)?;
                self.push(b)?;
                self.push(a)?;
                self.push(d)?;
                self.push(c)?;
                self.push(b)?;
                self.push(a)?;
            }
        }
        self.leave(method)?;
        Ok(())
    }

    /// swap
    pub(crate) fn swap(&mut self, method: &MethodInfo) -> Result<(), RuleError>
        ensures { IsAnswer result self.new (swap_rule method.now self.old) }
    {
        let a = self.take_single(0)?;
        let b = self.take_single(1)?;
        self.push(a)?;
        self.push(b)?;
        self.leave(method)?;
        Ok(())
    }
}
