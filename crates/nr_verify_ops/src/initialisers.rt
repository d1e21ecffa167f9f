//! Calls of initialisers (JVM Specification 4.10.1.9, invokespecial).

ghost use Rattle.std.specs.Prelude.{◌≡◌, ◌≤◌, List, length};
ghost use Rattle.nr_linked.specs.declared.program.types.VType.{VType};
ghost use Rattle.nr_linked.specs.Programs.{super_of};
ghost use Rattle.nr_linked.specs.TypingChecks.{Checked};
ghost use Rattle.nr_linked.specs.TypingCalls.{initialised_class, is_init_receiver};
ghost use Rattle.nr_verify_ops.specs.Answers.{IsAnswer, met, with_operands};
ghost use Rattle.nr_verify_ops.specs.Closed.{init_by, init_receiver_taken, left_by_init};
ghost use Rattle.nr_verify_ops.specs.Sites.{HasCodeInOrder};

use crate::error::RuleError;
use crate::frame::Frame;
use crate::sites::class_made_at;
use crate::take::need;
use nr_linked::{ClassId, MethodInfo, OpFault, Program, VType, Wanted};
use nr_types::of_class;

/// The superclass.
fn super_of(p: &Program, class: ClassId) -> Option<ClassId>
    ensures { result ≡ super_of p.now class }
{
    match p.tables().classes.as_slice().get(class as usize) {
        Some(info) => info.super_class,
        None => None,
    }
}

/// Whether an initialiser of the class may be called on it: on what a `new` of just that class made, or on
/// `this` by the initialiser of its own class or of its direct superclass.
fn is_init_receiver(p: &Program, method: &MethodInfo, class: ClassId, t: VType) -> bool
    requires { HasCodeInOrder method.now }
    ensures { result ≡ is_init_receiver p.now method.now class t }
{
    match t {
        VType::UninitThis => {
            class == method.class
                || match super_of(p, method.class) {
                    Some(above) => above == class,
                    None => false,
                }
        }
        VType::Uninit(n) => match class_made_at(method, n) {
            Some(made) => made == class,
            None => false,
        },
        _ => false,
    }
}

/// The class of the object once it is initialised.
fn initialised_class(method: &MethodInfo, class: ClassId, t: VType) -> ClassId
    ensures { result ≡ initialised_class method.now class t }
{
    match t {
        VType::UninitThis => method.class,
        _ => class,
    }
}

impl Frame {
    /// What an initialiser of the class may be called on.
    #[tactic(auto, unfolding(crate::specs::Closed::init_receiver_taken))]
    fn take_init_receiver(
        &mut self,
        p: &Program,
        method: &MethodInfo,
        class: ClassId,
        depth: u32,
    ) -> Result<VType, OpFault>
        requires { HasCodeInOrder method.now }
        ensures rule { (k : VType → List VType → Checked) → init_receiver_taken p.now method.now class depth self.old.operands k ≡ met result (λ t. k t self.new.operands) }
        ensures rest { self.new ≡ with_operands self.old self.new.operands }
    {
        let t = self.take_operand(depth)?;
        need(
            is_init_receiver(p, method, class, t),
            OpFault::NeedsKind {
                depth,
                expected: Wanted::Type(of_class(class)),
                found: t,
            },
        )?;
        Ok(t)
    }

    /// The object of that type is initialised.
    #[tactic(auto, unfolding(crate::specs::Closed::left_by_init))]
    fn init(&mut self, method: &MethodInfo, class: ClassId, t: VType)
        ensures { self.new ≡ left_by_init method.now class t self.old.operands self.old }
    {
        self.initialise(
            t,
            initialised_class(method, class, t),
            matches!(t, VType::UninitThis),
        );
    }

    /// invokespecial of an initialiser
    #[tactic(auto, unfolding(crate::specs::Closed::left_by_init))]
    pub(crate) fn call_init(
        &mut self,
        p: &Program,
        method: &MethodInfo,
        callee: &MethodInfo,
        class: ClassId,
    ) -> Result<(), RuleError>
        requires order { HasCodeInOrder method.now }
        requires params { length callee.now.params ≤ 254 }
        ensures { IsAnswer result self.new (init_by p.now method.now callee.now class self.old) }
    {
        let depth = self.take_kinds(p, callee.params.as_slice())?;
        let t = self.take_init_receiver(p, method, class, depth)?;
        self.init(method, class, t);
        self.leave(method)?;
        Ok(())
    }
}
