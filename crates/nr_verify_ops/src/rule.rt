//! The typing rule of each instruction, by its family.

ghost use Rattle.std.specs.Prelude.{◌≡◌, ℕ, IsTrue, None, Option};
ghost use Rattle.nr_linked.specs.Suited.{is_suited};
ghost use Rattle.nr_linked.specs.TypingRules.{type_op};
ghost use Rattle.nr_verify_ops.specs.Answers.{IsAnswer, IsTyped};
ghost use Rattle.nr_verify_ops.specs.Sites.{HasCodeInOrder};

use crate::error::{OpError, RuleError};
use crate::frame::Frame;
use nr_linked::{MethodInfo, Program, Resolved};
use nr_optable::Family;
use nr_prog::Instr;

impl Frame {
    fn rule(
        &mut self,
        p: &Program,
        method: &MethodInfo,
        instr: &Instr,
        found: Resolved,
    ) -> Result<(), RuleError>
        requires suited { IsTrue (is_suited p.now (record { instr = instr.now; resolved = found; next = None })) }
        requires order { HasCodeInOrder method.now }
        ensures { (next : Option ℕ) → IsAnswer result self.new (type_op p.now method.now (record { instr = instr.now; resolved = found; next = next }) self.old) }
    {
        let row = &instr.row;
        match row.family {
            Family::F1
            | Family::F2
            | Family::F5
            | Family::F7
            | Family::F8
            | Family::F20
            | Family::F21
            | Family::F22
            | Family::F23
            | Family::F24
            | Family::F25
            | Family::F26
            | Family::F27
            | Family::F28
            | Family::F29 => self.by_row(method, row),
            Family::F3 => self.numbered_load(method, row, &instr.args),
            Family::F4 => self.numbered_store(method, row, &instr.args),
            Family::F6 => self.return_by(p, method, row.pops),
            Family::F9 => self.increment(method, &instr.args),
            Family::F10 => self.array_load(p, method, row.code),
            Family::F11 => self.array_store(p, method, row.code),
            Family::F12 => self.drop_by(method, row.code),
            Family::F13 => self.dup(method),
            Family::F14 => self.dup_x1(method),
            Family::F15 => self.dup_x2(method),
            Family::F16 => self.dup2(method),
            Family::F17 => self.dup2_x1(method),
            Family::F18 => self.dup2_x2(method),
            Family::F19 => self.swap(method),
            Family::F30 => self.get_field(p, method, found),
            Family::F31 => self.put_field(p, method, found),
            Family::F32 => self.invoke(p, method, row.code, found),
            Family::F33 => self.new_object(method, instr.at, found),
            Family::F34 => self.new_array(method, &instr.args, found),
            Family::F35 => self.array_length(method),
            Family::F36 => self.throw(p, method),
            Family::F37 => self.test(method, row.code, found),
            Family::F38 => self.wide(method, &instr.args),
        }
    }

    /// The typing rule of an instruction of the method, for which linking found this: the frame becomes the
    /// one that the instruction leaves.
    ///
    /// # Errors
    ///
    /// `Fault` with the first check of the rule that fails; `NoMemory` for want of memory. The frame is then
    /// of no use.
    pub fn type_op(
        &mut self,
        p: &Program,
        method: &MethodInfo,
        instr: &Instr,
        found: Resolved,
    ) -> Result<(), OpError>
        requires suited { IsTrue (is_suited p.now (record { instr = instr.now; resolved = found; next = None })) }
        requires order { HasCodeInOrder method.now }
        ensures { (next : Option ℕ) → IsTyped result self.new (type_op p.now method.now (record { instr = instr.now; resolved = found; next = next }) self.old) }
    {
        match self.rule(p, method, instr, found) {
            Ok(()) => Ok(()),
            Err(RuleError::Fault(fault)) => Err(OpError::Fault(fault)),
            Err(RuleError::NoRule) => unreachable!(),
            Err(RuleError::NoMemory) => Err(OpError::NoMemory),
        }
    }
}
