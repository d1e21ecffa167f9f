//! Linked programs as tables, and the typing of their instructions (JVM Specification 4.10.1, 5.4).
#![tactic(auto)]

mod program;
mod typing;

pub use program::{
    Base, BuiltIn, ClassId, ClassInfo, Kind, MethodId, MethodInfo, MethodName, Program,
    ProgramTables, Resolved, SlotInfo, Superclasses, VFrame, VType, built_in_classes_have_no_slot,
    built_ins_are_linked, static_methods_are_found,
};
pub use typing::{OpFault, Verified, Wanted};
