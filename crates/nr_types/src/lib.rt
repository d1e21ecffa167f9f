//! Types of the verifier in code: what goes where another type is wanted, and which frames fit (JVM
//! Specification 4.10.1.2 to 4.10.1.4).
#![tactic(auto)]

mod assign;
mod frames;
mod kinds;
mod sizes;
mod types;

pub use assign::{assignable, locals_fit, operand_assignable, operands_fit};
pub use frames::{frame_fits, local_type, mark_fits};
pub use kinds::{
    element_of, is_array, is_reference, is_same_primitive, of_base, of_class, of_kind,
};
pub use sizes::{size_of, total_size};
pub use types::{is_initialised, is_int, is_long};
