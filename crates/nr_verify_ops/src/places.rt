//! Local variables of which only the first places are kept.

ghost use Rattle.std.specs.Prelude.{◌≡◌, IfOk, OnOk};
ghost use Rattle.nr_linked.specs.TypingCalls.{initialised};
ghost use Rattle.nr_linked.specs.TypingFrames.{locals_fit, padded};
ghost use Rattle.nr_linked.specs.TypingLocals.{local_type, put};
ghost use Rattle.nr_linked.specs.TypingObjects.{forgotten};

use crate::padding::pad;
use crate::store::put;
use crate::uninit::{forget, initialise};
use nr_linked::{ClassId, Program, VType};
use nr_types::{local_type, locals_fit};
use std::alloc::AllocError;
use std::marker::Model;

/// The types of local variables. Contracts see them all; those past the listed ones, up to the count, are
/// `Top` and take no memory.
#[derive(Debug, Drop)]
pub struct Places {
    listed: Vec<VType>,
    count: u16,
}

impl Model for Places {
    ghost use Rattle.std.specs.Prelude.{List};
    ghost use Rattle.nr_linked.specs.declared.program.types.VType.{VType as Of};
    ghost use Rattle.nr_linked.specs.TypingFrames.{padded};

    ghost Value = { List Of };

    ghost view = { λ p. padded p.count p.listed.items };
}

fn pad_all(listed: &mut Vec<VType>, count: u16) -> Result<(), AllocError>
    ensures { OnOk result (listed.new.items ≡ padded count listed.old.items) }
{
    pad(listed, count as usize)
}

fn forget_listed(listed: &mut Vec<VType>, at: u16)
    ensures { listed.new.items ≡ forgotten at listed.old.items }
{
    forget(listed.as_mut_slice(), at);
}

/// Each listed place that holds the object holds one of the class that is initialised.
pub(crate) fn initialise_listed(listed: &mut Vec<VType>, t: VType, class: ClassId)
    ensures { listed.new.items ≡ initialised t class listed.old.items }
{
    initialise(listed.as_mut_slice(), t, class);
}

impl Places {
    /// The listed types, and `Top` up to the count.
    pub(crate) fn of(listed: Vec<VType>, count: u16) -> Places
        ensures { result ≡ padded count listed.items }
    {
        Places { listed, count }
    }

    /// The types of all places.
    pub(crate) fn all(self) -> Result<Vec<VType>, AllocError>
        ensures { IfOk result (λ all. all.items ≡ self) }
    {
        let Places { mut listed, count } = self;
        pad_all(&mut listed, count)?;
        Ok(listed)
    }

    /// The type at the place.
    pub(crate) fn at(&self, i: u16) -> VType
        ensures { result ≡ local_type self.now i }
    {
        local_type(self.listed.as_slice(), i as usize)
    }

    /// A type in its place, or a long in its two. The error comes only for want of memory.
    pub(crate) fn put(&mut self, i: u16, t: VType) -> Result<(), AllocError>
        ensures { OnOk result (self.new ≡ put i t self.old) }
    {
        put(&mut self.listed, i as usize, t)?;
        Ok(())
    }

    /// What the `new` at the offset made is in no place any more.
    pub(crate) fn forget(&mut self, at: u16)
        ensures { self.new ≡ forgotten at self.old }
    {
        forget_listed(&mut self.listed, at);
    }

    /// Each place that holds the object holds one of the class that is initialised.
    pub(crate) fn initialise(&mut self, t: VType, class: ClassId)
        ensures { self.new ≡ initialised t class self.old }
    {
        initialise_listed(&mut self.listed, t, class);
    }

    /// Whether the places go for those of the list.
    pub(crate) fn fit(&self, p: &Program, us: &[VType]) -> bool
        ensures { result ≡ locals_fit p.now self.now us.now }
    {
        locals_fit(p, self.listed.as_slice(), us)
    }
}
