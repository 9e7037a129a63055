//! Laws of messages whose fields and extensions are set, cleared and taken, and whose lists and
//! maps take further values, in the words of the model. It has no code.
#![tactic(auto)]

pub mod laws;
pub mod lists;
pub mod maps;
pub mod meant;
pub mod order;
pub mod own;
pub mod refused;
