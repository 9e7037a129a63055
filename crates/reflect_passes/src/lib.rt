//! The passes of linking over a batch of files: each lists all faults that it finds, and the first
//! faulty one ends it.
#![tactic(auto)]

mod error;
mod extension_numbers;
mod index_pass;
mod linked_types;
mod passes;

pub use error::{DescriptorError, write_place};
pub use extension_numbers::list_extensions;
pub use index_pass::{add_links, index_files};
pub use linked_types::LinkedTypes;
pub use passes::{check_numbers, declare_names, resolve_references, walk_error};
