//! Laws of what a schema encodes, decodes and recodes, in the words of the model, and of its records,
//! which link and settle to themselves. It has no code.
#![tactic(auto)]

pub mod batches;
pub mod braces;
pub mod detour;
pub mod exact;
pub mod growth;
pub mod laws;
pub mod names;
pub mod older;
pub mod option_bytes;
pub mod option_types;
pub mod orders;
pub mod own_records;
pub mod places;
pub mod presence;
pub mod records;
pub mod texts;
pub mod told;
