//! The words of the program's command line, and what they ask for.
#![tactic(auto)]

mod command_line;
mod request;

pub use command_line::{parse, requested, require_type};
pub use request::{Action, Request, Task};
