//! The accessors over small tables, each answer worked out by hand.

mod features;
mod kinds;
mod members;
mod twins;
mod world;
