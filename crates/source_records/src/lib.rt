//! What names have in the records of sources, and that no list in them is in a oneof. It has no
//! code.
#![tactic(auto)]
