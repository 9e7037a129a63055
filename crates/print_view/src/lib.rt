//! What is printed of messages, in the words of `text_model`: laws of what the printer of texts
//! says. It has no code.
#![tactic(auto)]

pub mod bytes;
pub mod decoder;
pub mod laws;
pub mod told;
pub mod unknown;
pub mod walks;
