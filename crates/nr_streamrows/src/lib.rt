//! Tests of streams that cross the crates: of graphs of a program that was linked.
#![tactic(auto)]

#[cfg(test)]
mod tests;
