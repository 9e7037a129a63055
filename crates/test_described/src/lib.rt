//! What the readers of a pool's descriptors answer, as text, and the options that its files hold.
#![tactic(auto)]

mod declarations;
mod fields;
mod listed;
mod options;
mod parts;
mod types;

pub use declarations::described;
pub use options::tell_options;
