//! The machine.

ghost use Rattle.std.specs.Prelude.{◌≡◌, IfOk, IsSome, IsSomeAnd, false, reverse, true};
ghost use Rattle.nr_linked.specs.Programs.{method_at, result_of};
ghost use Rattle.nr_model.specs.States.{State};
ghost use Rattle.nr_model.specs.Belonging.{Belong};
ghost use Rattle.nr_model.specs.Locals.{Begins};
ghost use Rattle.nr_model.specs.Outcomes.{is_too_deep};
ghost use Rattle.nr_model.specs.TypedHeaps.{TypedHeap};
ghost use Rattle.nr_model.specs.Types.{argument_tys};
ghost use Rattle.nr_machine.specs.Executions.{Stands, Starts};

mod asked;
mod going;

use super::answer::{StartFault, Turn};
use super::stack::{CallStack, is_first_too_deep};
use nr_heap::Heap;
use nr_linked::{ClassId, MethodId, Verified};
use nr_model::Value;
use nr_step::Selections;
use std::alloc::Global;
use std::marker::Model;

/// A run of a program, and how far it has come. Contracts see it as an `Execution` of
/// `specs/Executions.antt`.
#[derive(Debug, Drop)]
pub struct Machine<'p> {
    program: &'p Verified,
    service: Option<ClassId>,
    budget: u64,
    steps: u64,
    selections: Selections<'p>,
    stack: CallStack,
    printed: Vec<u8>,
    last: Option<Turn>,
}

impl<'p> Model for Machine<'p> {
    ghost use Rattle.nr_machine.specs.Executions.{Execution};

    ghost Value = { Execution };

    ghost use Rattle.nr_machine.specs.Machines.{execution_of, IsMachine};

    ghost view = { execution_of };

    ghost invariant = { IsMachine };
}

impl<'p> Machine<'p> {
    /// A machine at the start of a method with code, with its arguments, the receiver first where it has one.
    /// With a service, the machine asks for the answers of calls of that class's remote methods: the public
    /// static methods that it declares. Room for the frames and values of the whole run is made here, and for a
    /// memory of selections.
    /// `TooDeep` exactly where the first frame alone has more than 65,536 value slots; else `NoMemory` for want
    /// of memory.
    pub fn start(
        alloc: Global,
        p: &'p Verified,
        service: Option<ClassId>,
        heap: &Heap,
        method: MethodId,
        args: &[Value],
        budget: u64,
    ) -> Result<Machine<'p>, StartFault>
        requires method { IsSomeAnd (method_at p.now method) (λ i. IsSome i.body
            × Belong p.now heap.now.objects (argument_tys i) (reverse args.now)) }
        requires heap { TypedHeap p.now heap.now.objects }
        ensures started { IfOk result (λ x. Starts p.now service heap.now.objects method (reverse args.now) budget x) }
        ensures stands { IfOk result (λ x. Stands (result_of p.now method) heap.now.objects x) }
        ensures room { IfOk result (λ x. is_too_deep p.now x.control ≡ false) }
        ensures too_deep { result ≡ Err StartFault.TooDeep → (s : State)
            → Begins p.now heap.now.objects method (reverse args.now) s → is_too_deep p.now s.control ≡ true }
        ensures over { (s : State) → Begins p.now heap.now.objects method (reverse args.now) s
            → is_too_deep p.now s.control ≡ true → result ≡ Err StartFault.TooDeep }
    {
        let program = p.program();
        let _facts = program.tables();
        if is_first_too_deep(program, method) {
            return Err(StartFault::TooDeep);
        }
        let selections = Selections::new(alloc, program)?;
        let mut stack = CallStack::new(alloc)?;
        if !stack.begin(program, method, args) {
            unreachable!()
        }
        Ok(Machine {
            program: p,
            service,
            budget,
            steps: 0,
            selections,
            stack,
            printed: Vec::new(alloc),
            last: None,
        })
    }

    /// How many steps the machine has made.
    pub fn steps(&self) -> u64
        ensures { result ≡ self.now.steps }
    {
        self.steps
    }

    /// What the run has printed.
    pub fn output(&self) -> &[u8]
        ensures { result.now ≡ self.now.printed }
    {
        self.printed.as_slice()
    }
}
