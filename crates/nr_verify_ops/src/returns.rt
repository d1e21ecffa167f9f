//! Returns (JVM Specification 4.10.1.9).

ghost use Rattle.std.specs.Prelude.{◌≡◌, List};
ghost use Rattle.nr_linked.specs.declared.program.types.VType.{VType};
ghost use Rattle.nr_linked.specs.Initialisers.{is_initialiser};
ghost use Rattle.nr_linked.specs.TypingChecks.{Checked, letters_of};
ghost use Rattle.nr_linked.specs.TypingCalls.{is_return_of, return_rule, take_result};
ghost use Rattle.nr_verify_ops.specs.Answers.{IsAnswer, met, with_operands};

use crate::error::RuleError;
use crate::frame::Frame;
use crate::take::need;
use nr_linked::{Kind, MethodInfo, OpFault, Program};
use nr_optable::{Kinds, Letter};
use nr_types::{is_int, is_long, is_reference, of_kind};

/// Whether the method is an initialiser of objects.
pub fn is_initialiser(method: &MethodInfo) -> bool
    ensures { result ≡ is_initialiser method.now }
{
    method.name.as_bytes() == b"<init>".as_slice()
}

/// Whether a return that pops this is the one of a method with the result.
fn is_return_of(pops: Kinds, result_kind: Option<Kind>) -> bool
    ensures { result ≡ is_return_of (letters_of pops) result_kind }
{
    match pops {
        Kinds::Own | Kinds::Letters { n: 0, .. } => result_kind.is_none(),
        Kinds::Letters { n: 1, first, .. } => match (first, result_kind) {
            (Letter::I, Some(k)) => is_int(of_kind(k)),
            (Letter::J, Some(k)) => is_long(of_kind(k)),
            (Letter::A, Some(k)) => is_reference(k),
            _ => false,
        },
        Kinds::Letters { n: 2, .. } => false,
        Kinds::Letters { .. } => false,
    }
}

impl Frame {
    /// What goes for the result of the descriptor, where there is one.
    fn take_result(&mut self, p: &Program, kind: Option<Kind>) -> Result<(), OpFault>
        ensures rule { (k : List VType → Checked) → take_result p.now kind self.old.operands k ≡ met result (λ u. k self.new.operands) }
        ensures rest { self.new ≡ with_operands self.old self.new.operands }
    {
        match kind {
            Some(kind) => self.take_for(p, of_kind(kind), 0),
            None => Ok(()),
        }
    }

    /// ireturn, lreturn, areturn, return
    pub(crate) fn return_by(
        &mut self,
        p: &Program,
        method: &MethodInfo,
        pops: Kinds,
    ) -> Result<(), RuleError>
        ensures { IsAnswer result self.new (return_rule p.now method.now (letters_of pops) self.old) }
    {
        need(is_return_of(pops, method.result), OpFault::ReturnKind)?;
        self.take_result(p, method.result)?;
        need(
            !(is_initialiser(method) && self.is_this_uninit()),
            OpFault::NeedsInit,
        )?;
        self.leave(method)?;
        Ok(())
    }
}
