//! Laws of the records of pools: bytes can say them where bytes can say those of the files that were
//! linked, and of settled options what they say; and where options settle alike in two pools, they
//! are the same. It has no code.
#![tactic(auto)]

pub mod alike_files;
pub mod laws;
pub mod linking;
pub mod records;
pub mod said_bytes;
