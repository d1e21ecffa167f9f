//! getfield and putfield (JVM Specification 4.10.1.9).

ghost use Rattle.std.specs.Prelude.{◌≡◌, List, slice_get};
ghost use Rattle.nr_linked.specs.declared.program.types.VType.{VType};
ghost use Rattle.nr_linked.specs.Slots.{slots_of};
ghost use Rattle.nr_linked.specs.TypingChecks.{Checked};
ghost use Rattle.nr_linked.specs.TypingObjects.{get_field_rule, get_slot_rule, is_put_receiver, put_field_rule};
ghost use Rattle.nr_verify_ops.specs.Answers.{IsAnswer, met, told, with_operands};
ghost use Rattle.nr_verify_ops.specs.Closed.{put_by, put_receiver_taken};

use crate::error::RuleError;
use crate::frame::Frame;
use crate::returns::is_initialiser;
use crate::take::need;
use nr_linked::{ClassId, MethodInfo, OpFault, Program, Resolved, SlotInfo, VType, Wanted};
use nr_types::{of_class, of_kind, operand_assignable};

/// The slot of an object of the class.
fn slot_at(p: &Program, class: ClassId, slot: u32) -> Option<&SlotInfo>
    ensures { slice_get (slots_of p.now class) slot ≡ told result }
{
    match p.tables().classes.as_slice().get(class as usize) {
        Some(info) => info.slots.as_slice().get(slot as usize),
        None => None,
    }
}

/// Whether putfield may store into it: an object that goes for the named class, or in an initialiser `this`
/// before it is initialised, where the class itself declares the field.
fn is_put_receiver(
    p: &Program,
    method: &MethodInfo,
    class: ClassId,
    slot: &SlotInfo,
    t: VType,
) -> bool
    ensures { result ≡ is_put_receiver p.now method.now class slot.now t }
{
    match t {
        VType::UninitThis => is_initialiser(method) && slot.declared_in == method.class,
        _ => operand_assignable(p, &t, &of_class(class)),
    }
}

impl Frame {
    /// getfield, of the slot of an object of the class.
    fn get_slot(
        &mut self,
        p: &Program,
        method: &MethodInfo,
        class: ClassId,
        slot: &SlotInfo,
    ) -> Result<(), RuleError>
        ensures { IsAnswer result self.new (get_slot_rule p.now method.now class slot.now self.old) }
    {
        self.take_for(p, of_class(class), 0)?;
        self.push(of_kind(slot.kind))?;
        self.leave(method)?;
        Ok(())
    }

    #[tactic(auto, unfolding(crate::specs::Closed::put_receiver_taken))]
    fn take_receiver(
        &mut self,
        p: &Program,
        method: &MethodInfo,
        class: ClassId,
        slot: &SlotInfo,
    ) -> Result<VType, OpFault>
        ensures rule { (k : VType → List VType → Checked) → put_receiver_taken p.now method.now class slot.now self.old.operands k ≡ met result (λ t. k t self.new.operands) }
        ensures rest { self.new ≡ with_operands self.old self.new.operands }
    {
        let t = self.take_operand(1)?;
        need(
            is_put_receiver(p, method, class, slot, t),
            OpFault::NeedsKind {
                depth: 1,
                expected: Wanted::Type(of_class(class)),
                found: t,
            },
        )?;
        Ok(t)
    }

    /// putfield, into it.
    fn put_slot(
        &mut self,
        p: &Program,
        method: &MethodInfo,
        class: ClassId,
        slot: &SlotInfo,
    ) -> Result<(), RuleError>
        ensures { IsAnswer result self.new (put_by p.now method.now class slot.now self.old) }
    {
        self.take_for(p, of_kind(slot.kind), 0)?;
        self.take_receiver(p, method, class, slot)?;
        self.leave(method)?;
        Ok(())
    }

    /// getfield, of the slot that linking found in the named class
    pub(crate) fn get_field(
        &mut self,
        p: &Program,
        method: &MethodInfo,
        found: Resolved,
    ) -> Result<(), RuleError>
        ensures { IsAnswer result self.new (get_field_rule p.now method.now found self.old) }
    {
        let Resolved::Slot(class, i) = found else {
            return Err(RuleError::NoRule);
        };
        match slot_at(p, class, i) {
            Some(slot) => self.get_slot(p, method, class, slot),
            None => Err(RuleError::NoRule),
        }
    }

    /// putfield
    #[tactic(auto, unfolding(crate::specs::Closed::put_receiver_taken))]
    pub(crate) fn put_field(
        &mut self,
        p: &Program,
        method: &MethodInfo,
        found: Resolved,
    ) -> Result<(), RuleError>
        ensures { IsAnswer result self.new (put_field_rule p.now method.now found self.old) }
    {
        let Resolved::Slot(class, i) = found else {
            return Err(RuleError::NoRule);
        };
        match slot_at(p, class, i) {
            Some(slot) => self.put_slot(p, method, class, slot),
            None => Err(RuleError::NoRule),
        }
    }
}
