//! Options are read by the types of the pool alone, and settled as a whole or not at all.
#![tactic(auto)]

mod options_visitor;
mod resolve;
mod settled_options;

pub use option_parts::{OptionError, OptionErrorKind, copy_typed_options, require_option_types};
pub use options_visitor::OptionsVisitor;
pub use resolve::ResolveOptions;
