//! A frame of types that instructions change in place.

ghost use Rattle.std.specs.Prelude.{◌≡◌, ◌&&◌, not, [], ◌∷◌, IfOk, OnOk, OnErr, MatchOption};
ghost use Rattle.nr_linked.specs.declared.program.tables.MethodInfo.{MethodInfo};
ghost use Rattle.nr_linked.specs.TypingCalls.{initialised};
ghost use Rattle.nr_linked.specs.TypingFrames.{frame_fits, padded, total_size, turned};
ghost use Rattle.nr_linked.specs.TypingLocals.{local_type, put};
ghost use Rattle.nr_linked.specs.TypingObjects.{forgotten, holds_made_at};
ghost use Rattle.nr_linked.specs.WellTyped.{mapped_frame};
ghost use Rattle.nr_verify_ops.specs.Answers.{pushed, with_operands};

use crate::places::{Places, initialise_listed};
use crate::uninit::holds_made_at;
use nr_base::Items;
use nr_linked::{ClassId, MethodInfo, Program, VFrame, VType};
use nr_types::{mark_fits, operands_fit, size_of, total_size};
use std::alloc::{AllocError, Global};
use std::marker::Model;

/// The types of a method's local variables and operands at an instruction, which the next instruction
/// changes in place. Contracts see it as a frame whose topmost operand stands first.
#[derive(Debug, Drop)]
pub struct Frame {
    locals: Places,
    /// The topmost operand stands last.
    stack: Vec<VType>,
    this_uninit: bool,
    /// The places of the operands, a long counting two.
    size: u128,
}

impl Model for Frame {
    ghost use Rattle.std.specs.Prelude.{◌≡◌, reverse};
    ghost use Rattle.nr_linked.specs.TypingFrames.{TypeFrame, total_size};

    ghost Value = { TypeFrame };

    ghost view = { λ f. record { locals = f.locals; operands = reverse f.stack.items; this_uninit = f.this_uninit } };

    ghost invariant = { λ f. f.size ≡ total_size (reverse f.stack.items) };
}

impl Frame {
    /// The frame of a frame map, with as many places as the method has.
    pub fn of_map(alloc: Global, method: &MethodInfo, map: &VFrame) -> Result<Frame, AllocError>
        ensures { IfOk result (λ frame. frame ≡ mapped_frame method.now map.now) }
    {
        let locals = Places::of(
            Vec::from_slice(alloc, map.locals.as_slice())?,
            method.max_locals,
        );
        let stack = Vec::from_slice(alloc, map.stack.as_slice())?;
        let size = total_size(stack.as_slice());
        Ok(Frame {
            locals,
            stack,
            this_uninit: map.this_uninit,
            size,
        })
    }

    /// The frame of these local variables, with as many places as the method has, and no operands.
    pub fn of_locals(
        alloc: Global,
        method: &MethodInfo,
        locals: Vec<VType>,
        this_uninit: bool,
    ) -> Frame
        ensures { result ≡ record { locals = padded method.now.max_locals locals.items; operands = []; this_uninit = this_uninit } }
    {
        Frame {
            locals: Places::of(locals, method.max_locals),
            stack: Vec::new(alloc),
            this_uninit,
            size: 0,
        }
    }

    /// The frame as a whole, with a type for each place.
    pub fn into_frame(self) -> Result<VFrame, AllocError>
        ensures { IfOk result (λ frame. turned frame ≡ self) }
    {
        let Frame {
            locals,
            stack,
            this_uninit,
            ..
        } = self;
        Ok(VFrame {
            locals: Items::from_vec(locals.all()?),
            stack: Items::from_vec(stack),
            this_uninit,
        })
    }

    /// Whether the frame fits the one of a frame map.
    pub fn fits(&self, p: &Program, method: &MethodInfo, map: &VFrame) -> bool
        ensures { result ≡ frame_fits p.now self.now (mapped_frame method.now map.now) }
    {
        let _max_locals = method.max_locals;
        self.fits_map(p, map)
    }

    /// Whether it does with this as its only operand.
    pub fn fits_with(&self, p: &Program, method: &MethodInfo, t: VType, map: &VFrame) -> bool
        ensures { result ≡ frame_fits p.now (with_operands self.now (t ∷ [])) (mapped_frame method.now map.now) }
    {
        let _max_locals = method.max_locals;
        self.fits_map_with(p, t, map)
    }

    fn fits_map(&self, p: &Program, map: &VFrame) -> bool
        ensures { result ≡ frame_fits p.now self.now (turned map.now) }
    {
        self.locals.fit(p, map.locals.as_slice())
            && (operands_fit(p, self.stack.as_slice(), map.stack.as_slice())
                && mark_fits(self.this_uninit, map.this_uninit))
    }

    fn fits_map_with(&self, p: &Program, t: VType, map: &VFrame) -> bool
        ensures { result ≡ frame_fits p.now (with_operands self.now (t ∷ [])) (turned map.now) }
    {
        self.locals.fit(p, map.locals.as_slice())
            && (operands_fit(p, [t].as_slice(), map.stack.as_slice())
                && mark_fits(self.this_uninit, map.this_uninit))
    }

    /// How many places the operands take.
    pub(crate) fn size(&self) -> u128
        ensures { result ≡ total_size self.now.operands }
    {
        self.size
    }

    /// Whether `this` isn't yet initialised.
    pub(crate) fn is_this_uninit(&self) -> bool
        ensures { result ≡ self.now.this_uninit }
    {
        self.this_uninit
    }

    /// The topmost operand.
    pub(crate) fn pop(&mut self) -> Option<VType>
        ensures { MatchOption result ((self.old.operands ≡ []) × (self.new ≡ self.old)) (λ t. self.old ≡ pushed t self.new) }
    {
        let top = self.stack.pop()?;
        self.size -= size_of(top);
        Some(top)
    }

    /// One more operand. The error comes only for want of memory.
    pub(crate) fn push(&mut self, t: VType) -> Result<(), AllocError>
        ensures ok { OnOk result (self.new ≡ pushed t self.old) }
        ensures err { OnErr result (self.new ≡ self.old) }
    {
        let _count = self.stack.len();
        self.stack.push(t)?;
        self.size += size_of(t);
        Ok(())
    }

    /// The type of a local variable.
    pub(crate) fn local(&self, i: u16) -> VType
        ensures { result ≡ local_type self.now.locals i }
    {
        self.locals.at(i)
    }

    /// A type in its place, or a long in its two. The error comes only for want of memory.
    pub(crate) fn put_local(&mut self, i: u16, t: VType) -> Result<(), AllocError>
        ensures { OnOk result (self.new ≡ record self.old { locals = put i t self.old.locals }) }
    {
        self.locals.put(i, t)
    }

    /// Whether what the `new` at the offset made is an operand that isn't initialised.
    pub(crate) fn holds_made_at(&self, at: u16) -> bool
        ensures { result ≡ holds_made_at at self.now.operands }
    {
        holds_made_at(at, self.stack.as_slice())
    }

    /// What the `new` at the offset made is in no local variable any more.
    pub(crate) fn forget(&mut self, at: u16)
        ensures { self.new ≡ record self.old { locals = forgotten at self.old.locals } }
    {
        self.locals.forget(at);
    }

    /// Each place that holds the object holds one of the class that is initialised; `this` is initialised
    /// where it was that.
    pub(crate) fn initialise(&mut self, t: VType, class: ClassId, is_this: bool)
        ensures { self.new ≡ record { locals = initialised t class self.old.locals; operands = initialised t class self.old.operands; this_uninit = self.old.this_uninit && not is_this } }
    {
        self.locals.initialise(t, class);
        initialise_listed(&mut self.stack, t, class);
        self.this_uninit = stays_uninit(self.this_uninit, is_this);
    }
}

fn stays_uninit(a: bool, is_this: bool) -> bool
    ensures { result ≡ (a && not is_this) }
{
    a && !is_this
}
