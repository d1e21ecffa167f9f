//! Runs of a program's `main` on one machine, within the machine's limits and a budget of steps (the
//! project's own).
#![tactic(auto)]

mod answer;
mod call;
mod law;
mod ran;
mod run;

pub use law::{runs_have_one_end, runs_have_texts, stopped_runs_print_a_part};
pub use ran::{Limit, Ran, RunEnd};
pub use run::run_main;
