//! What the references of files mean, taken one after another as a walk meets the names.
#![tactic(auto)]

mod references;

pub use references::References;
