//! Cases in JSON: their files and their members, and what comes of a case beside what is wanted.
#![tactic(auto)]

mod cases;
mod files;
pub mod members;
mod text;
mod told;

pub use cases::{tell_case, write_case};
pub use files::{Replays, replay_files};
pub use text::Text;
pub use told::Told;
