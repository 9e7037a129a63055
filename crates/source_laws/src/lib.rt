//! That sources have identifiers for names, and their records names as sources spell them, without
//! dots, that no list in these records is in a oneof, and that bytes can say them, but for options
//! that are left to settle. It has no code.
#![tactic(auto)]

pub mod laws;
