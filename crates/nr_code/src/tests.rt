//! Code with its faults, at places that were counted by hand, and what it is decoded to.

mod bodies;
mod faults;
mod files;
mod listing;
mod loaded;
