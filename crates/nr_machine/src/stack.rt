//! The frames of the methods that run, and their values (JVM Specification 2.5.2, 2.6).

ghost use Rattle.std.specs.Prelude.{◌≡◌, ◌⊎◌, ◌↔◌, ◌+◌, ◌^◌, ◌<◌, ◌≤◌, [], length, IfOk, IsTrue};
ghost use Rattle.std.specs.Vec.{vec_capacity};
ghost use Rattle.nr_model.specs.Outcomes.{max_frames, max_value_slots};

mod advance;
mod arguments;
mod asked;
mod begin;
mod enter;
mod give;
mod handlers;
mod leave;
mod places;
mod print;
mod print_chars;
mod settle;
mod stay;
mod unwind;

pub use advance::Advance;
pub use begin::is_first_too_deep;
pub use enter::operand_count;
use nr_linked::MethodId;
use nr_model::Value;
pub use print::{MAX_PRINTED, Printing};
pub use stay::Stay;
use std::alloc::{AllocError, Global};

/// The frames that a run may have.
pub const MAX_FRAMES: usize = 1024;

/// The value slots that the frames of a run may have together.
pub const MAX_VALUES: usize = 0x1_0000;

/// The frame of an invocation (JVM Specification 2.6).
#[derive(Clone, Copy, Debug, PartialEq, Eq)]
pub struct Frame {
    /// The method that runs.
    pub method: MethodId,
    /// The place of the instruction at which it stands, among those of its code.
    pub instr: usize,
    /// How many of its operands are in use.
    pub depth: usize,
}

/// The frames, that of the first method first, and their values: for each frame its locals and then its
/// operands. There is room for as many as a run may have.
#[derive(Debug, Drop)]
pub struct CallStack {
    pub frames: Vec<Frame>,
    pub values: Vec<Value>,
    ghost frame_room: { max_frames ≤ vec_capacity frames },
    ghost value_room: { max_value_slots ≤ vec_capacity values },
}

impl CallStack {
    /// No frames, with room for all of a run.
    pub fn new(alloc: Global) -> Result<CallStack, AllocError>
        ensures { IfOk result (λ s. (s.frames.items ≡ []) × (s.values.items ≡ [])) }
    {
        Ok(CallStack {
            frames: Vec::with_capacity(alloc, MAX_FRAMES)?,
            values: Vec::with_capacity(alloc, MAX_VALUES)?,
        })
    }

    /// Whether one more frame, with so many value slots, would pass a limit.
    #[inline(always)]
    pub fn is_full(&self, slots: usize) -> bool
        requires { slots < 2 ^ 32 }
        ensures { IsTrue result ↔ ((max_frames < length self.now.frames.items + 1)
            ⊎ (max_value_slots < slots + length self.now.values.items)) }
    {
        self.frames.len() >= MAX_FRAMES || self.values.len() + slots > MAX_VALUES
    }
}
