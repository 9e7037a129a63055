//! What holds of records that bytes can say: of their numbers, their levels and their options. It
//! has no code.
#![tactic(auto)]
