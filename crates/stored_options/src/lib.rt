//! Laws of the bytes that options of sources are stored in, and of what options set in a message of
//! options, in the words of the models of messages and texts: that the options of sources set it,
//! and the same in whatever order files come; that one in braces holds what its text gives; and that
//! none are set that are refused. It has no code.
#![tactic(auto)]

pub mod braces;
pub mod laws;
pub mod names;
pub mod of_sources;
pub mod orders;
pub mod refused;
pub mod setting;
