//! That well-typed programs are those of which no check fails, and which check a fault is of.

ghost use Rattle.std.specs.Prelude.{◌≡◌, ◌↔◌, ℕ, IsTrue, List, Option, Some};
ghost use Rattle.nr_prog.specs.declared.body.instruction.Instr.{Instr};
ghost use Rattle.nr_linked.specs.declared.program.tables.MethodInfo.{MethodInfo};
ghost use Rattle.nr_linked.specs.declared.program.tables.ProgramTables.{ProgramTables};
ghost use Rattle.nr_linked.specs.declared.program.tables.Resolved.{Resolved};
ghost use Rattle.nr_linked.specs.BuiltInTables.{built_in_tables};
ghost use Rattle.nr_linked.specs.Layout.{IsLaidOut};
ghost use Rattle.nr_linked.specs.Programs.{method_at};
ghost use Rattle.nr_linked.specs.Sites.{Site};
ghost use Rattle.nr_linked.specs.Suited.{IsSuited, is_suited};
ghost use Rattle.nr_linked.specs.TypingChecks.{NoRule};
ghost use Rattle.nr_linked.specs.TypingFaults.{MethodFault, Unsuited, first_among, first_fault};
ghost use Rattle.nr_linked.specs.TypingFrames.{TypeFrame};
ghost use Rattle.nr_linked.specs.TypingRules.{type_op};
ghost use Rattle.nr_linked.specs.WellTyped.{WellTyped};
ghost use Rattle.nr_typelaws.specs.ByHand.{AreTold, cases};
ghost use Rattle.nr_typelaws.specs.Failing.{FailsFrom};
ghost use Rattle.nr_typelaws.specs.Faultless.{HasNoFault};

/// Promises that a program whose code is laid out as bytes of code spell it is well typed exactly where
/// no check of any of its methods fails. It does nothing.
pub fn no_first_fault_means_well_typed()
    ensures { (p : ProgramTables) → IsLaidOut p → (HasNoFault p ↔ WellTyped p) }
{}

/// Promises that there is a typing rule for each instruction whose operands, and what linking found for
/// it, are those of its row. It does nothing.
pub fn suited_instructions_have_a_rule()
    ensures { (p : ProgramTables) (m : MethodInfo) (s : Site) (f : TypeFrame)
        → IsTrue (is_suited p s) → type_op p m s f ≡ NoRule → ⊥ }
{}

/// Promises that where this is so of all instructions, no fault says that it isn't. It does nothing.
pub fn suited_code_is_never_unsuited()
    ensures { (p : ProgramTables) (n : ℕ) (m : MethodInfo) (at : ℕ) → IsLaidOut p → IsSuited p
        → method_at p n ≡ Some m → first_fault p m ≡ Some (Unsuited at) → ⊥ }
{}

/// Promises that a fault of a method's instructions is that of the first check that fails: the
/// instructions in front pass all their checks, each with the frame that comes to it, and of the checks
/// of the next one those before it pass. It does nothing.
pub fn faults_are_of_the_first_check_that_fails()
    ensures { (p : ProgramTables) (m : MethodInfo) (is : List Instr) (rs : List Resolved)
        (comes : Option TypeFrame) (e : MethodFault)
        → first_among p m is rs comes ≡ Some e → FailsFrom p m is rs comes e }
{}

/// Promises that small methods have the faults that were worked out by hand. It does nothing.
pub fn faults_by_hand()
    ensures { AreTold built_in_tables cases }
{}
