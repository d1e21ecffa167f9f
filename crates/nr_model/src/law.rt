//! The laws of the model.

mod ask;
mod call;
mod closed;
mod example;
mod follow;
mod found;
mod local;
mod outcome;
mod over;
mod pair;
mod print;
mod reach;
mod remote;
mod restore;
mod script;
mod size;
mod typed;

pub use ask::{machines_without_service_never_ask, outcomes_come_of_limited_runs};
pub use call::{lone_arguments_start_alike, paired_calls_go_alike, parts_are_paired};
pub use closed::heaps_stay_closed;
pub use example::premises_can_be_met;
pub use follow::{limited_runs_are_runs, restored_calls_keep_pairs, restored_runs_follow};
pub use found::remote_methods_are_found;
pub use local::local_runs_without_copies;
pub use outcome::{
    ended_outcomes_are_runs, outcomes_keep_limits, outcomes_keep_pairs, smaller_heaps_do_as_well,
};
pub use over::runs_go_on_over_frames;
pub use pair::{closed_states_pair_with_themselves, paired_ends_throw_one_class, runs_keep_pairs};
pub use print::{calls_print_in_order, runs_print_in_order};
pub use reach::runs_change_what_they_reach;
pub use remote::{
    local_calls_end_alike, mirrored_calls_have_the_fates_of_the_first, own_calls_are_local,
    own_runs_are_local, remote_runs_are_local, remote_runs_are_mirrored,
};
pub use restore::restores_are_local;
pub use script::scripts_do_what_they_promise;
pub use size::{cells_are_counted, paired_heaps_have_one_size, runs_keep_lengths};
pub use typed::typed_heaps_are_closed;
