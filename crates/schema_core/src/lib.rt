//! Schemas: sources in, refused or added as one batch; text to bytes and bytes to text of a type
//! named at run time.
#![tactic(auto)]

mod error;
mod payload;
mod schema;

pub use error::SchemaError;
pub use payload::{Fault, serve, write_bytes};
pub use schema::Schema;
pub use schema_words::Action;
