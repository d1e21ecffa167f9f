//! The instructions, each with its whole rule: what the model's script at its site does.

pub mod arrays;
pub mod calls;
pub mod constants;
pub mod direct_calls;
pub mod divisions;
pub mod fields;
pub mod jumps;
pub mod locals;
pub mod nested_arrays;
pub mod new_arrays;
pub mod numbers;
pub mod objects;
pub mod returns;
pub mod stack_moves;
pub mod switches;
pub mod wide;
