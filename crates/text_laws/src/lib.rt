//! Laws of the messages that texts give: that they suit their types, and what their bytes mean. It
//! has no code.
#![tactic(auto)]

pub mod laws;
