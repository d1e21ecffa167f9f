//! What a server answers (the project's own rule): to a request, to a batch of them, and to the bytes of a
//! connection; what a host does with jobs that take turns; and what a responder may still say. The definitions
//! are in `specs/`, and each law is the contract of a function that does nothing.
#![tactic(auto)]

mod law;

pub use law::{
    answers_worked_by_hand, connections_have_texts, connections_stand, frames_are_said_in_turn,
    hosts_agree, paced_responders_can_say, replies_fit_frames, requests_have_one_length,
    requests_have_one_reply, rounds_give_their_answers, talks_are_answered,
};
