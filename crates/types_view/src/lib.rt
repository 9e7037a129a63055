//! That the types of messages that a pool has are those that `schema_view` has of its records: what
//! the entries of a pool tell of the fields that its records declare, and both definitions of types
//! side by side. Nothing here does anything.
#![tactic(auto)]

pub mod laws;
