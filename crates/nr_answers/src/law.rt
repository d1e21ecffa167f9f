//! The laws of answers.

mod connection;
mod example;
mod host;
mod reply;
mod request;
mod responder;
mod round;
mod talk;

pub use connection::{connections_have_texts, frames_are_said_in_turn};
pub use example::answers_worked_by_hand;
pub use host::hosts_agree;
pub use reply::replies_fit_frames;
pub use request::{requests_have_one_length, requests_have_one_reply};
pub use responder::{connections_stand, paced_responders_can_say};
pub use round::rounds_give_their_answers;
pub use talk::talks_are_answered;
