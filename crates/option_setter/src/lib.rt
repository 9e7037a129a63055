//! One option that a source wrote, set in a message of options, or what is wrong with it.
#![tactic(auto)]

mod option_setter;
mod option_value;
mod part_target;

pub use option_setter::{NameScope, OptionSetter, option_name};
