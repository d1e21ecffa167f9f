//! Throws (JVM Specification 2.10).

ghost use Rattle.std.specs.Prelude.{◌≡◌, ◌<◌, None, false, length, true};
ghost use Rattle.nr_model.specs.States.{Running, Thrown};
ghost use Rattle.nr_model.specs.Steps.{handler_at, unwound};
ghost use Rattle.nr_machine.specs.CallStacks.{CanGoOn, IsStack, OnRunning, frames_of};

use super::handlers::handler_of;
use super::{CallStack, Frame};
use nr_linked::{Kind, Program};
use nr_model::{Ref, Value};

impl CallStack {
    /// The running frame goes on at its handler for a throw of this object, of the kind, if it has one, with
    /// the object as its one operand.
    fn catch_thrown(&mut self, program: &Program, kind: Kind, thrown: Ref) -> bool
        requires some { 0 < length self.old.frames.items }
        requires stack { IsStack program.now self.old.frames.items self.old.values.items }
        requires can { CanGoOn program.now (unwound program.now kind (Value.Ref thrown)
            (frames_of program.now self.old.frames.items self.old.values.items)) }
        ensures stack { IsStack program.now self.new.frames.items self.new.values.items }
        ensures caught { result ≡ true → unwound program.now kind (Value.Ref thrown)
            (frames_of program.now self.old.frames.items self.old.values.items)
            ≡ Running (frames_of program.now self.new.frames.items self.new.values.items) }
        ensures missed { result ≡ false → OnRunning (frames_of program.now self.old.frames.items self.old.values.items)
            (λ f fs. handler_at program.now f.method f.offset kind ≡ None) }
        ensures unchanged { result ≡ false → (self.new.frames.items ≡ self.old.frames.items)
            × (self.new.values.items ≡ self.old.values.items) }
    {
        let Some(frame) = self.frames.pop() else {
            unreachable!()
        };
        match handler_of(program, &frame, kind) {
            Some(place) => {
                let frame = Frame {
                    instr: place,
                    depth: 0,
                    ..frame
                };
                self.put_back(program, frame, Value::Ref(thrown));
                true
            }
            None => {
                let _ = self.frames.push(frame);
                false
            }
        }
    }

    /// A throw of this object, of the kind: the topmost frame that handles it goes on there, and those above
    /// it end. It answers false where no frame handles it.
    pub fn unwind(&mut self, program: &Program, kind: Kind, thrown: Ref) -> bool
        requires stack { IsStack program.now self.old.frames.items self.old.values.items }
        requires can { CanGoOn program.now (unwound program.now kind (Value.Ref thrown)
            (frames_of program.now self.old.frames.items self.old.values.items)) }
        ensures stack { IsStack program.now self.new.frames.items self.new.values.items }
        ensures caught { result ≡ true → unwound program.now kind (Value.Ref thrown)
            (frames_of program.now self.old.frames.items self.old.values.items)
            ≡ Running (frames_of program.now self.new.frames.items self.new.values.items) }
        ensures uncaught { result ≡ false → unwound program.now kind (Value.Ref thrown)
            (frames_of program.now self.old.frames.items self.old.values.items)
            ≡ Thrown (Value.Ref thrown) }
    {
        while !self.frames.is_empty() {
            if self.catch_thrown(program, kind, thrown) {
                return true;
            }
            self.drop_running(program);
        }
        false
    }
}
