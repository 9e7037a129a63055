//! Values in braces, in which text format stands.
#![tactic(auto)]

mod aggregate_rules;

pub use aggregate_rules::aggregate;
