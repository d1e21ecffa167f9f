//! Linking as a definition: which tables are those of the program that some loaded classes make
//! (JVM Specification 5.3.5 and 5.4), and laws about them. There is no linker here.
#![tactic(auto)]

mod law;

pub use law::{classes_can_link, classes_make_one_program, linked_programs_have_the_facts};
