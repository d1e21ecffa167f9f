//! Class files with their parts and their faults, at places that were counted by hand.

mod faults;
mod files;
mod listing;
mod parts;
