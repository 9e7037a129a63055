//! Cases of sources, schemas, messages and texts, as far as no run of the program is asked for.
#![tactic(auto)]

mod layers;
mod messages;
mod refusals;
mod replay;
mod schemas;

pub use replay::Replay;
