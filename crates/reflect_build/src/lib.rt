//! Adds batches of files to a pool, and takes them back: a refused batch leaves the pool as it was,
//! and `cut` goes back to it.
#![tactic(auto)]

mod batch;
mod build;
mod forget;
mod many;

pub use build::BuildFiles;
pub use reflect_faults::DescriptorErrorKind;
pub use reflect_growth::Edit;
pub use reflect_passes::DescriptorError;
