//! Linking (JVM Specification 5.3 and 5.4, and the project's own profile and order): the program that
//! some classes make, or the first rule that they break; the method with which a run begins, and the
//! class that is served.
#![tactic(auto)]

mod above;
mod around;
mod built_in;
mod built_in_methods;
mod closure;
mod code;
mod completion;
mod cycles;
mod fields;
mod finals;
mod frames;
mod gathering;
mod keeping;
mod kinds;
mod known;
mod layout;
mod linking;
mod list;
mod lookup;
mod mains;
mod meanings;
mod members;
mod methods;
mod named;
mod names;
mod outline;
mod room;
mod service;
mod sites;
mod superinterfaces;
mod tables;

pub use linking::link;
pub use mains::find_main;
pub use service::find_service;
