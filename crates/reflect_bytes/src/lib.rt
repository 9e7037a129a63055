//! Linked files and wire bytes: files are linked from descriptor sets, and written as them.
#![tactic(auto)]

mod pool_bytes;
mod pool_ext;

pub use pool_bytes::PoolBytes;
pub use pool_ext::{PoolError, PoolExt};
