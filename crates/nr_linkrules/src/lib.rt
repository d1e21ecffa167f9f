//! The first fault of linking as a definition (JVM Specification 5.3 and 5.4, and the project's own
//! profile and order): which rule some classes break first, and laws that tie it to the tables that
//! classes link to. There is no linker here.
#![tactic(auto)]

mod fault;
mod law;

pub use fault::LinkFault;
pub use law::{
    acyclic_classes_inherit, classes_without_fault_link, examples_can_link,
    found_is_what_linking_finds, linked_classes_have_no_fault, linked_programs_have_the_outline,
    lists_have_their_faults, lists_without_fault_have_names, what_is_reached_is_above,
};
pub use nr_linked::MethodName;
