//! Graphs and linear maps, each answer worked out by hand.

mod map;
mod order;
