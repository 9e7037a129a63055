//! Laws of pools whose options were settled since their files were linked, in the words of
//! `schema_view`. Nothing here does anything.
#![tactic(auto)]

pub mod laws;
