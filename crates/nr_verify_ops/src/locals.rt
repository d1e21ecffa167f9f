//! Local variables: loads, stores, iinc and wide (JVM Specification 4.10.1.7).

ghost use Rattle.std.specs.Prelude.{◌≡◌};
ghost use Rattle.nr_linked.specs.LocalNumbers.{first_load, first_store, local_of};
ghost use Rattle.nr_linked.specs.TypingLocals.{increment_rule, is_in_range, load_rule, store_rule, wide_rule};
ghost use Rattle.nr_linked.specs.TypingRules.{iinc_rule, numbered_load, numbered_store};
ghost use Rattle.nr_verify_ops.specs.Answers.{IsAnswer};

use crate::error::RuleError;
use crate::frame::Frame;
use crate::letters::{is_letter, only_letter, wanted_letter};
use crate::take::need;
use nr_linked::{MethodInfo, OpFault, VType, Wanted};
use nr_optable::{Letter, Row};
use nr_prog::Args;
use nr_types::is_int;

/// Whether the local variable is below the method's number of places, and of a long its second place too.
pub(crate) fn is_in_range(method: &MethodInfo, letter: Letter, i: u16) -> bool
    ensures { result ≡ is_in_range method.now letter i }
{
    match letter {
        Letter::J => u32::from(i) + 1 < u32::from(method.max_locals),
        _ => i < method.max_locals,
    }
}

/// The code of the first of the four stores whose codes name their local variables.
fn first_store(letter: Letter) -> u8
    ensures { result ≡ first_store letter }
{
    match letter {
        Letter::I => 59,
        Letter::J => 63,
        _ => 75,
    }
}

/// The same of the loads.
fn first_load(letter: Letter) -> u8
    ensures { result ≡ first_load letter }
{
    match letter {
        Letter::I => 26,
        Letter::J => 30,
        _ => 42,
    }
}

/// The local variable that an instruction names, or its code does.
fn local_of(first: u8, code: u8, args: &Args) -> Option<u16>
    ensures { result ≡ local_of first code args.now }
{
    match args {
        Args::Local(i) => Some(*i),
        Args::Empty => Some(u16::from(code.saturating_sub(first))),
        _ => None,
    }
}

impl Frame {
    /// istore, lstore, astore
    pub(crate) fn store(
        &mut self,
        method: &MethodInfo,
        letter: Letter,
        i: u16,
    ) -> Result<(), RuleError>
        ensures { IsAnswer result self.new (store_rule method.now letter i self.old) }
    {
        need(is_in_range(method, letter, i), OpFault::LocalRange(i))?;
        let t = self.take_letter(letter, 0)?;
        self.put_local(i, t)?;
        self.leave(method)?;
        Ok(())
    }

    /// iload, lload, aload
    pub(crate) fn load(
        &mut self,
        method: &MethodInfo,
        letter: Letter,
        i: u16,
    ) -> Result<(), RuleError>
        ensures { IsAnswer result self.new (load_rule method.now letter i self.old) }
    {
        need(is_in_range(method, letter, i), OpFault::LocalRange(i))?;
        let found = self.local(i);
        let expected = wanted_letter(letter);
        need(
            is_letter(letter, found),
            OpFault::NeedsKind {
                depth: 0,
                expected,
                found,
            },
        )?;
        self.push(found)?;
        self.leave(method)?;
        Ok(())
    }

    /// A store of what the row pops.
    pub(crate) fn numbered_store(
        &mut self,
        method: &MethodInfo,
        row: &Row,
        args: &Args,
    ) -> Result<(), RuleError>
        ensures { IsAnswer result self.new (numbered_store method.now row.now args.now self.old) }
    {
        let Some(letter) = only_letter(row.pops) else {
            return Err(RuleError::NoRule);
        };
        let Some(i) = local_of(first_store(letter), row.code, args) else {
            return Err(RuleError::NoRule);
        };
        self.store(method, letter, i)
    }

    /// A load of what the row pushes.
    pub(crate) fn numbered_load(
        &mut self,
        method: &MethodInfo,
        row: &Row,
        args: &Args,
    ) -> Result<(), RuleError>
        ensures { IsAnswer result self.new (numbered_load method.now row.now args.now self.old) }
    {
        let Some(letter) = only_letter(row.pushes) else {
            return Err(RuleError::NoRule);
        };
        let Some(i) = local_of(first_load(letter), row.code, args) else {
            return Err(RuleError::NoRule);
        };
        self.load(method, letter, i)
    }

    /// Adds to an int local variable, whose type stays.
    fn increment_at(&mut self, method: &MethodInfo, i: u16) -> Result<(), RuleError>
        ensures { IsAnswer result self.new (increment_rule method.now i self.old) }
    {
        need(is_in_range(method, Letter::I, i), OpFault::LocalRange(i))?;
        let found = self.local(i);
        need(
            is_int(found),
            OpFault::NeedsKind {
                depth: 0,
                expected: Wanted::Type(VType::Int),
                found,
            },
        )?;
        self.leave(method)?;
        Ok(())
    }

    /// iinc
    pub(crate) fn increment(&mut self, method: &MethodInfo, args: &Args) -> Result<(), RuleError>
        ensures { IsAnswer result self.new (iinc_rule method.now args.now self.old) }
    {
        match args {
            Args::Inc(i, _) => self.increment_at(method, *i),
            _ => Err(RuleError::NoRule),
        }
    }

    /// wide
    pub(crate) fn wide(&mut self, method: &MethodInfo, args: &Args) -> Result<(), RuleError>
        ensures { IsAnswer result self.new (wide_rule method.now args.now self.old) }
    {
        match args {
            Args::Wide(21, i) => self.load(method, Letter::I, *i),
            Args::Wide(22, i) => self.load(method, Letter::J, *i),
            Args::Wide(25, i) => self.load(method, Letter::R, *i),
            Args::Wide(54, i) => self.store(method, Letter::I, *i),
            Args::Wide(55, i) => self.store(method, Letter::J, *i),
            Args::Wide(58, i) => self.store(method, Letter::R, *i),
            Args::WideInc(i, _) => self.increment_at(method, *i),
            _ => Err(RuleError::NoRule),
        }
    }
}
