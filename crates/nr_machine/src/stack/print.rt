//! Printing: the methods of `nrmi/Out` (the project's own).

ghost use Rattle.std.specs.Prelude.{◌≡◌, ◌+◌, ◌<◌, ◌≤◌, ℕ, List, Option, Some, codes, length};
ghost use Rattle.nr_linked.specs.Facts.{ProgramFacts};
ghost use Rattle.nr_linked.specs.Selection.{is_called};
ghost use Rattle.nr_model.specs.Heaps.{Heap as Objects};
ghost use Rattle.nr_model.specs.Outcomes.{max_printed};
ghost use Rattle.nr_step.specs.declared.flow.Flow.TheVariants as flows;
ghost use Rattle.nr_machine.specs.CallStacks.{IsStack, frames_of};
ghost use Rattle.nr_machine.specs.Prints.{IsSingle, PrintsBy, PrintsText, printing_of};
ghost use Rattle.nr_machine.specs.Settles.{Settles, seen};
ghost use Rattle.nr_machine.specs.Stays.{FramesStand, Leaves, running};

use super::CallStack;
use crate::answer::Turn;
use crate::printing::text_of;
use nr_heap::Heap;
use nr_linked::{MethodInfo, Program};
use nr_step::Told;

/// The bytes that a run may print.
pub const MAX_PRINTED: usize = 0x10_0000;

/// A method of `nrmi/Out`.
#[derive(Clone, Copy, Debug, PartialEq, Eq)]
pub enum Printing {
    /// print([C)V: the chars of an array, as UTF-8.
    Chars,
    /// print(C)V
    Char,
    /// print(I)V
    Int,
    /// print(J)V
    Long,
    /// line()V: a line feed.
    Line,
}

/// Whether the method is of this name and descriptor.
fn is_called(info: &MethodInfo, name: &[u8], desc: &[u8]) -> bool
    ensures { result ≡ is_called name.now desc.now info.now }
{
    info.name.as_bytes() == name && info.desc.as_bytes() == desc
}

/// Which method of `nrmi/Out` it is, if it is one.
fn printing_of(info: &MethodInfo) -> Option<Printing>
    ensures { result ≡ printing_of info.now }
{
    if is_called(info, b"print", b"([C)V") {
        Some(Printing::Chars)
    } else if is_called(info, b"print", b"(C)V") {
        Some(Printing::Char)
    } else if is_called(info, b"print", b"(I)V") {
        Some(Printing::Int)
    } else if is_called(info, b"print", b"(J)V") {
        Some(Printing::Long)
    } else if is_called(info, b"line", b"()V") {
        Some(Printing::Line)
    } else {
        None
    }
}

impl CallStack {
    /// The running frame's instruction prints the text, takes so many operands, and is done. `OutputTooLong`
    /// where the run would have printed more than 1,048,576 bytes; else `NoMemory` for want of memory.
    pub fn print_text(
        &mut self,
        program: &Program,
        heap: &Heap,
        printed: &mut Vec<u8>,
        text: &[u8],
        count: usize,
    ) -> Option<Turn>
        requires facts { ProgramFacts program.now }
        requires stack { IsStack program.now self.old.frames.items self.old.values.items }
        requires short { length printed.old.items ≤ max_printed }
        requires prints { (h : Objects) × FramesStand program.now h (frames_of program.now self.old.frames.items self.old.values.items)
            × PrintsText program.now h heap.now.objects text.now count (frames_of program.now self.old.frames.items self.old.values.items) }
        ensures stack { IsStack program.now self.new.frames.items self.new.values.items }
        ensures short { length printed.new.items ≤ max_printed }
        ensures settles { (h : Objects) → FramesStand program.now h (frames_of program.now self.old.frames.items self.old.values.items)
            → PrintsText program.now h heap.now.objects text.now count (frames_of program.now self.old.frames.items self.old.values.items)
            → (service : Option ℕ)
            → Settles program.now service result (running h (frames_of program.now self.old.frames.items self.old.values.items) printed.old.items)
            (seen program.now heap.now.objects self.new.frames.items self.new.values.items result printed.new.items) }
        ensures over { max_printed < length printed.old.items + length text.now → result ≡ Some Turn.OutputTooLong }
    {
        let _cells = heap.cells();
        if printed.len() + text.len() > MAX_PRINTED {
            return Some(Turn::OutputTooLong);
        }
        match printed.extend_from_slice(text) {
            Ok(()) => {
                self.drop_operands(program, count);
                let _goes_on = self.go_on(program, None);
                None
            }
            Err(_) => Some(Turn::NoMemory),
        }
    }

    /// The running frame's instruction prints its topmost operand, a number or a char, by this method.
    fn print_single(
        &mut self,
        program: &Program,
        heap: &Heap,
        printed: &mut Vec<u8>,
        printing: Printing,
    ) -> Option<Turn>
        requires facts { ProgramFacts program.now }
        requires stack { IsStack program.now self.old.frames.items self.old.values.items }
        requires short { length printed.old.items ≤ max_printed }
        requires single { IsSingle printing }
        requires prints { (h : Objects) × FramesStand program.now h (frames_of program.now self.old.frames.items self.old.values.items)
            × PrintsBy program.now h heap.now.objects printing (frames_of program.now self.old.frames.items self.old.values.items) }
        ensures stack { IsStack program.now self.new.frames.items self.new.values.items }
        ensures short { length printed.new.items ≤ max_printed }
        ensures settles { (h : Objects) → FramesStand program.now h (frames_of program.now self.old.frames.items self.old.values.items)
            → PrintsBy program.now h heap.now.objects printing (frames_of program.now self.old.frames.items self.old.values.items)
            → (service : Option ℕ)
            → Settles program.now service result (running h (frames_of program.now self.old.frames.items self.old.values.items) printed.old.items)
            (seen program.now heap.now.objects self.new.frames.items self.new.values.items result printed.new.items) }
    {
        let _cells = heap.cells();
        let value = self.top_operand(program);
        match text_of(*printed.allocator(), printing, value) {
            Ok(text) => self.print_text(program, heap, printed, text.as_bytes(), 1),
            Err(_) => Some(Turn::NoMemory),
        }
    }

    /// The method of `nrmi/Out` that was told prints.
    #[cold]
    #[inline(never)]
    pub fn print_told(
        &mut self,
        program: &Program,
        heap: &mut Heap,
        printed: &mut Vec<u8>,
        told: &mut Told,
    ) -> Option<Turn>
        requires facts { ProgramFacts program.now }
        requires stack { IsStack program.now self.old.frames.items self.old.values.items }
        requires short { length printed.old.items ≤ max_printed }
        requires left { (h : Objects) × FramesStand program.now h (frames_of program.now self.old.frames.items self.old.values.items)
            × Leaves program.now (frames_of program.now self.old.frames.items self.old.values.items) flows.Print told.old h heap.old.objects }
        ensures stack { IsStack program.now self.new.frames.items self.new.values.items }
        ensures short { length printed.new.items ≤ max_printed }
        ensures settles { (h : Objects) → FramesStand program.now h (frames_of program.now self.old.frames.items self.old.values.items)
            → Leaves program.now (frames_of program.now self.old.frames.items self.old.values.items) flows.Print told.old h heap.old.objects
            → (service : Option ℕ)
            → Settles program.now service result (running h (frames_of program.now self.old.frames.items self.old.values.items) printed.old.items)
            (seen program.now heap.new.objects self.new.frames.items self.new.values.items result printed.new.items) }
    {
        let Some(info) = program.method_at(told.number) else {
            unreachable!()
        };
        let Some(printing) = printing_of(info) else {
            unreachable!()
        };
        match printing {
            Printing::Chars => self.print_chars(program, heap, printed, told),
            Printing::Line => self.print_text(program, heap, printed, b"\n", 0),
            _ => self.print_single(program, heap, printed, printing),
        }
    }
}
