//! The command line of the program: what its words mean, what it does and what it prints.
#![tactic(auto)]

mod command;
mod ending;
mod law;
mod load;
mod main_run;
mod plan;
mod program;
mod report;
mod spelling;
mod top;
mod words;

pub use law::nothing_fails_by_itself;
pub use top::nrmi;
