//! What full names stand for behind a walk over declarations, and which of them a file gives.
#![tactic(auto)]

mod laws;

pub use laws::given_names_tell_what_is_known;
