//! Messages are read from wire bytes as exactly what their types' fields allow, and a refusal
//! changes nothing.
#![tactic(auto)]

mod decode;
mod decode_message;

pub use decode_message::DecodeMessage;
