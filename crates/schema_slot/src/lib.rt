//! A schema behind a struct of C's, with the sources that wait for it and what it last answered.
#![tactic(auto)]

mod code;
mod loose;
mod session;
mod slot;
mod source;

pub use code::Code;
pub use session::{Place, Session};
pub use slot::Slot;
