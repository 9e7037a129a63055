//! Messages are written in one form of wire bytes each, and their lengths are told.
#![tactic(auto)]

mod encode;
mod encode_message;
mod lengths;

pub use encode_message::EncodeMessage;
