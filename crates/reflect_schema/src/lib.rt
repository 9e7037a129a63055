//! Schemas, and the program over any files and any streams.
#![tactic(auto)]

mod program;

pub use program::{RunFault, answer, run};
pub use run_parts::{FileFault, ReadFault, SourceFiles};
pub use schema_core::{Action, Fault, Schema, SchemaError, serve};
pub use schema_words::{Request, Task};
