//! Laws of typing: well-typed programs and the first check that fails (JVM Specification 4.10.1).
#![tactic(auto)]

mod law;

pub use law::{
    faults_are_of_the_first_check_that_fails, faults_by_hand, no_first_fault_means_well_typed,
    suited_code_is_never_unsuited, suited_instructions_have_a_rule,
};
