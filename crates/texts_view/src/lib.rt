//! That texts are read and printed alike by pools of the same files: how texts name what types
//! have, in the words of the view of records, and that a pool names it so; files that differ in
//! options and in locations alone are linked alike; and what a text gives, and its bytes, stay as
//! schemas grow. It has no code.
#![tactic(auto)]

pub mod growth;
pub mod laws;
pub mod other_options;
