//! What stands under field numbers: sorted entries, the records of undeclared numbers, and the
//! members that oneofs have.
#![tactic(auto)]

mod choices;
pub mod entries;
mod unknown_records;

pub use choices::Choices;
pub use entries::Entries;
pub use unknown_records::{Descent, UnknownFields, UnknownRecords};
