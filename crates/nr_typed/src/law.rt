//! The laws of well-typed programs.

mod asks;
mod elsewhere;
mod example;
mod progress;
mod start;
mod typing;
mod usable;

pub use asks::{answers_stand, ask_runs_go_on, ask_runs_stand, local_answers_are_typed};
pub use elsewhere::standing_needs_only_names;
pub use example::premises_can_be_met;
pub use progress::well_typed_programs_go_on;
pub use start::first_states_stand;
pub use typing::frames_are_unique;
pub use usable::usable_pairs_are_kept;
