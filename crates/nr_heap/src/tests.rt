//! The calls of a heap, each answer worked out by hand.

mod arrays;
mod limits;
