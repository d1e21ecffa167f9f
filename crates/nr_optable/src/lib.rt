//! The table of the profile's 137 instructions (JVM Specification 6.5), and the arithmetic of those that have one.
#![tactic(auto)]

mod arithmetic;
mod listing;
mod lookup;
mod table;

pub use arithmetic::{
    int_arithmetic, int_narrowed, int_negation, int_pair_test, int_quotient, int_shifted, int_test,
    int_to_byte, int_to_char, int_to_long, int_to_short, long_arithmetic, long_comparison,
    long_negation, long_quotient, long_shifted, long_to_int,
};
pub use listing::rows;
pub use lookup::{codes_rise, operations_cover, row, shape_len};
pub use table::{Family, Kinds, Letter, Row, Shape, Table};

#[cfg(test)]
mod tests;
