//! The rules that hold of numbers: those of fields and extensions, of enums, of defaults, of oneofs
//! and of map entries, in files whose references are resolved.
#![tactic(auto)]

mod check;
mod default_rules;
mod entry_rules;
mod enums;
mod extension_number;
mod map_entry;
mod numbers;
mod repeats;
mod rule_visitor;
mod types;
mod uses;

pub use check::check_rules;
pub use types::Types;
