//! Cases of calls: each is a list of calls of one pool, type, message, value or key of a map, with
//! what each answers.
//!
//! Answers are worked by hand from the published documentation of the language, the encoding and
//! the text format. docs/TESTS.md says what each file asserts.
#![tactic(auto)]

mod pools;
mod replay;
mod starts;

pub use replay::Replay;
