//! Arrays: loads, stores, lengths and new arrays (JVM Specification 4.10.1.9).

ghost use Rattle.std.specs.Prelude.{◌≡◌, List, IsTrue};
ghost use Rattle.nr_linked.specs.declared.program.types.VType.{VType};
ghost use Rattle.nr_linked.specs.ArrayKinds.{primitive_of};
ghost use Rattle.nr_linked.specs.Suited.{makes_array};
ghost use Rattle.nr_linked.specs.TypingChecks.{Checked, take_ints};
ghost use Rattle.nr_linked.specs.TypingArrays.{array_load_rule, array_store_rule, is_any_array, length_rule, made_of_counts, new_array_rule, take_stored};
ghost use Rattle.nr_verify_ops.specs.Answers.{IsAnswer, elements, met, with_operands};
ghost use Rattle.nr_verify_ops.specs.Arrays.{array_taken, load_from, store_into};

use crate::elements::{Elements, elements_of, is_array_with, loaded_type, wanted_array};
use crate::error::RuleError;
use crate::frame::Frame;
use crate::take::need;
use nr_linked::{Base, Kind, MethodInfo, OpFault, Program, Resolved, VType, Wanted};
use nr_prog::Args;
use nr_types::is_array;

/// The primitive type of a `newarray`'s operand (JVM Specification 6.5, table 6.5.newarray-A).
fn primitive_of(code: u8) -> Option<Base>
    ensures { result ≡ primitive_of code }
{
    match code {
        4 => Some(Base::Bool),
        5 => Some(Base::Char),
        8 => Some(Base::Byte),
        9 => Some(Base::Short),
        10 => Some(Base::Int),
        11 => Some(Base::Long),
        _ => None,
    }
}

/// Whether it is the type of an array, or of null.
fn is_any_array(t: VType) -> bool
    ensures { result ≡ is_any_array t }
{
    match t {
        VType::Null => true,
        VType::Class(k) => is_array(k),
        _ => false,
    }
}

impl Frame {
    /// So many ints.
    fn take_ints(&mut self, count: u8) -> Result<(), OpFault>
        ensures rule { (k : List VType → Checked) → take_ints count 0 self.old.operands k ≡ met result (λ u. k self.new.operands) }
        ensures rest { self.new ≡ with_operands self.old self.new.operands }
    {
        let mut left = count;
        let mut depth = 0;
        while left > 0 {
            if let Err(fault) = self.take_int(depth) {
                return Err(fault);
            }
            depth += 1;
            left -= 1;
        }
        Ok(())
    }

    /// Such an array, or null.
    #[tactic(auto, unfolding(crate::specs::Arrays::array_taken))]
    fn take_array(&mut self, p: &Program, e: Elements, depth: u32) -> Result<VType, OpFault>
        ensures rule { (k : VType → List VType → Checked) → array_taken p.now (elements e) depth self.old.operands k ≡ met result (λ t. k t self.new.operands) }
        ensures rest { self.new ≡ with_operands self.old self.new.operands }
    {
        let t = self.take_operand(depth)?;
        need(
            is_array_with(e, t),
            OpFault::NeedsKind {
                depth,
                expected: wanted_array(p, e),
                found: t,
            },
        )?;
        Ok(t)
    }

    /// A value to be stored; which references are of the array's elements is tested in the run.
    #[tactic(auto, unfolding(crate::specs::Answers::elements))]
    fn take_stored(&mut self, e: Elements, depth: u32) -> Result<(), OpFault>
        ensures rule { (k : List VType → Checked) → take_stored (elements e) depth self.old.operands k ≡ met result (λ u. k self.new.operands) }
        ensures rest { self.new ≡ with_operands self.old self.new.operands }
    {
        match e {
            Elements::References => {
                self.take_reference(depth)?;
                Ok(())
            }
            Elements::Of(Base::Long) => self.take_long(depth),
            _ => self.take_int(depth),
        }
    }

    fn load_from(&mut self, p: &Program, method: &MethodInfo, e: Elements) -> Result<(), RuleError>
        ensures { IsAnswer result self.new (load_from p.now method.now self.old (elements e)) }
    {
        self.take_int(0)?;
        let array = self.take_array(p, e, 1)?;
        self.push(loaded_type(e, array))?;
        self.leave(method)?;
        Ok(())
    }

    fn store_into(&mut self, p: &Program, method: &MethodInfo, e: Elements) -> Result<(), RuleError>
        ensures { IsAnswer result self.new (store_into p.now method.now self.old (elements e)) }
    {
        self.take_stored(e, 0)?;
        self.take_int(1)?;
        self.take_array(p, e, 2)?;
        self.leave(method)?;
        Ok(())
    }

    /// iaload, laload, aaload, baload, caload, saload
    #[tactic(auto, unfolding(crate::specs::Arrays::array_taken))]
    pub(crate) fn array_load(
        &mut self,
        p: &Program,
        method: &MethodInfo,
        code: u8,
    ) -> Result<(), RuleError>
        ensures { IsAnswer result self.new (array_load_rule p.now method.now code self.old) }
    {
        match elements_of(code) {
            Some(e) => self.load_from(p, method, e),
            None => Err(RuleError::NoRule),
        }
    }

    /// iastore, lastore, aastore, bastore, castore, sastore
    #[tactic(auto, unfolding(crate::specs::Arrays::array_taken))]
    pub(crate) fn array_store(
        &mut self,
        p: &Program,
        method: &MethodInfo,
        code: u8,
    ) -> Result<(), RuleError>
        ensures { IsAnswer result self.new (array_store_rule p.now method.now code self.old) }
    {
        match elements_of(code) {
            Some(e) => self.store_into(p, method, e),
            None => Err(RuleError::NoRule),
        }
    }

    /// arraylength
    pub(crate) fn array_length(&mut self, method: &MethodInfo) -> Result<(), RuleError>
        ensures { IsAnswer result self.new (length_rule method.now self.old) }
    {
        let t = self.take_operand(0)?;
        need(
            is_any_array(t),
            OpFault::NeedsKind {
                depth: 0,
                expected: Wanted::AnyReference,
                found: t,
            },
        )?;
        self.push(VType::Int)?;
        self.leave(method)?;
        Ok(())
    }

    /// An array of this kind, from so many lengths.
    fn made_of_counts(&mut self, method: &MethodInfo, count: u8, k: Kind) -> Result<(), RuleError>
        ensures { IsAnswer result self.new (made_of_counts method.now count k self.old) }
    {
        self.take_ints(count)?;
        self.push(VType::Class(k))?;
        self.leave(method)?;
        Ok(())
    }

    /// newarray; anewarray, of the named elements; multianewarray, of the named kind
    pub(crate) fn new_array(
        &mut self,
        method: &MethodInfo,
        args: &Args,
        found: Resolved,
    ) -> Result<(), RuleError>
        requires { IsTrue (makes_array args.now found) }
        ensures { IsAnswer result self.new (new_array_rule method.now args.now found self.old) }
    {
        match (args, found) {
            (Args::Prim(code), _) => match primitive_of(*code) {
                Some(base) => self.made_of_counts(method, 1, Kind { dims: 1, base }),
                None => Err(RuleError::NoRule),
            },
            (Args::Pool(_), Resolved::Kind(k)) => self.made_of_counts(
                method,
                1,
                Kind {
                    dims: k.dims + 1,
                    base: k.base,
                },
            ),
            (Args::Dims(_, count), Resolved::Kind(k)) => self.made_of_counts(method, *count, k),
            _ => Err(RuleError::NoRule),
        }
    }
}
