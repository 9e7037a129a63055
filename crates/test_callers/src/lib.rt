//! Callers of the library, one for each of its jobs, and what comes of each: the answers are those
//! that protobuf's documentation gives.
#![tactic(auto)]

pub mod evolution;
pub mod files;
pub mod messages;
pub mod options;
pub mod texts;

use schema_core::{Schema, SchemaError};
use std::io;

/// Prints what comes of a job, or why nothing does.
fn tell(rt: &HostRuntime, job: &str, came: Result<String, SchemaError>) -> io::Result<()> {
    match came {
        Ok(answer) => println!(rt; "{job}: {answer}"),
        Err(refusal) => println!(rt; "{job}: {refusal}"),
    }
}

/// Does the jobs of files and messages, and prints what comes of each.
fn tell_messages(rt: &HostRuntime, schema: &Schema) -> io::Result<()> {
    let alloc = rt.alloc();
    tell(rt, "sources in any order", files::in_any_order(schema))?;
    let missing = files::with_one_missing(alloc);
    tell(rt, "a source that is missing", missing)?;
    tell(rt, "a descriptor set", files::as_a_set(alloc, schema))?;
    let changed = messages::changed(alloc, schema);
    tell(rt, "a message that is changed", changed)?;
    let cut_short = messages::cut_short(alloc, schema);
    tell(rt, "a message that is cut short", cut_short)
}

/// Does the jobs of texts, options and schemas that change, and prints what comes of each.
fn tell_texts(rt: &HostRuntime, schema: &Schema) -> io::Result<()> {
    let alloc = rt.alloc();
    let shown = texts::read_and_shown(alloc, schema);
    tell(rt, "a text that is read and shown", shown)?;
    let fault = texts::with_a_fault(alloc, schema);
    tell(rt, "a text with a fault", fault)?;
    tell(rt, "options of a message", options::of_a_message(alloc))?;
    let passed = evolution::passed_on(alloc, schema);
    tell(rt, "a message through an older schema", passed)
}

/// Does each job, and prints what comes of it.
fn tell_jobs(rt: &HostRuntime, schema: &Schema) -> io::Result<()> {
    tell_messages(rt, schema)?;
    tell_texts(rt, schema)
}

/// Does each job on the schema of the examples, and prints what comes of it.
pub fn tell_all(rt: &HostRuntime) -> io::Result<()> {
    match files::examples(rt.alloc()) {
        Ok(schema) => tell_jobs(rt, &schema),
        Err(refusal) => println!(rt; "{refusal}"),
    }
}
