//! The grammar of sources as the language specification has it: the tokens of each tree, and that
//! the parser reads exactly these. It has no code.
#![tactic(auto)]

pub mod answers;
pub mod laws;
pub mod refusals;
