//! Cases of messages: what each call of one answers, as text, and the texts of messages.
#![tactic(auto)]

mod by_extension;
mod by_field;
mod by_name;
mod by_number;
mod lent;
mod messages;
mod options;
mod printed;
mod texts;

pub use options::write_options;
pub use printed::{tell_merged, tell_printed, tell_text_refusal};
pub use texts::{replay_message, replay_values};
