//! The arithmetic of the instructions that have one, on numbers that were popped already.

mod binary;
mod condition;
mod conversion;
mod division;
mod shift;

pub use binary::{int_arithmetic, int_negation, long_arithmetic, long_negation};
pub use condition::{int_pair_test, int_test, long_comparison};
pub use conversion::{
    int_narrowed, int_to_byte, int_to_char, int_to_long, int_to_short, long_to_int,
};
pub use division::{int_quotient, long_quotient};
pub use shift::{int_shifted, long_shifted};
