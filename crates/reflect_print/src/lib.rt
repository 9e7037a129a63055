//! Messages, values and unknown records as text, in any of the forms that the options name.
#![tactic(auto)]

mod error;
mod messages;
mod writer;

pub use error::WriteError;
pub use text_lines::FormatOptions;
pub use writer::{Writer, message_text};
