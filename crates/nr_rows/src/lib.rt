//! Tests that cross the crates: whole runs of the top call over a folder, a wire and sinks in memory,
//! and classes that are made and written.
#![tactic(auto)]

#[cfg(test)]
mod tests;
