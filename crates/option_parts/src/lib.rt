//! What reading options asks of declarations alone: which types of options there are and what they
//! must have, where the locations of options move, the options that linking reads itself, and how
//! all this is refused.
#![tactic(auto)]

mod moved_locations;
mod option_error;
mod option_scope;
mod option_types;
mod typed_options;

pub use moved_locations::move_locations;
pub use option_error::{OptionError, OptionErrorKind};
pub use option_scope::OptionScope;
pub use option_types::{UNINTERPRETED_OPTION, check_option_types, require_option_types};
pub use typed_options::{copy_typed_options, truth_said};
