//! The declarations of protobuf files, their names and what they refer to: a visitor is called at
//! each declaration in order, and each refusal lists every fault that is true.
#![tactic(auto)]

mod imports;
mod name_visitor;
mod names;
mod required;
mod resolve_visitor;

pub use imports::{is_index, links_of, name_files};
pub use name_visitor::NameVisitor;
pub use resolve_visitor::{Reference, ResolveVisitor};
