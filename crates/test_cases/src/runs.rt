//! Runs of the program over files and streams in memory.

use crate::streams::{Calls, CaseFiles, Input, Output, content};
use reflect_schema::run;
use serde_json::Value;
use std::alloc::{AllocError, Global};
use test_json::members::items;
use test_json::{Text, Told};

/// What a run came to.
#[derive(Drop)]
struct Outcome {
    status: u8,
    output: Output,
    errors: Output,
}

/// The calls that a stream answers, where the case counts them.
fn calls(case: &Value, name: &'static str) -> Calls {
    Calls::new(case.get(name).and_then(Value::as_u64))
}

/// A writer of a case.
fn writer(alloc: Global, case: &Value, name: &'static str) -> Output {
    Output {
        bytes: Vec::new(alloc),
        calls: calls(case, name),
    }
}

/// Runs the program with the case's words, files and input.
fn outcome_of(alloc: Global, case: &Value) -> Result<Outcome, AllocError> {
    let mut words = Vec::new(alloc);
    for word in items(case, "words") {
        words.push(word.as_str().unwrap_or(""))?;
    }
    let given = match case.get("stdin") {
        Some(member) => content(alloc, member)?,
        None => Vec::new(alloc),
    };
    let mut input = Input {
        bytes: given.as_slice(),
        calls: calls(case, "good_reads"),
    };
    let mut output = writer(alloc, case, "good_writes");
    let mut errors = writer(alloc, case, "good_error_writes");
    let status = run(
        alloc,
        words.as_slice(),
        &mut CaseFiles { case },
        &mut input,
        &mut output,
        &mut errors,
    );
    Ok(Outcome {
        status,
        output,
        errors,
    })
}

/// Tells what a stream took, as text where it is one, else as hex text.
fn tell_stream(told: &mut Told<'_>, stream: &Output, name: &'static str, hex_name: &'static str) {
    told.tell_bytes(hex_name, stream.bytes.as_slice());
    if let Ok(text) = str::from_utf8(stream.bytes.as_slice()) {
        told.tell(name, text);
    }
}

/// Tells what a run came to: its status, what its streams took and whether they took anything,
/// whether the output failed, and how many calls came to each after it had failed.
fn tell_outcome(alloc: Global, told: &mut Told<'_>, outcome: &Outcome) {
    let (output, errors) = (&outcome.output, &outcome.errors);
    told.tell("status", outcome.status);
    tell_stream(told, output, "stdout", "stdout_hex");
    tell_stream(told, errors, "stderr", "stderr_hex");
    told.tell("answers", !output.bytes.is_empty());
    told.tell("complains", !errors.bytes.is_empty());
    told.tell("output_failed", output.calls.has_failed);
    let mut later = Text::new(alloc);
    write!(later, "{} {}", output.calls.later, errors.calls.later);
    told.tell_text("later_writes", later);
}

/// Runs the program, and tells what comes of it.
pub fn tell_run(alloc: Global, case: &Value, told: &mut Told<'_>) {
    match outcome_of(alloc, case) {
        Ok(outcome) => tell_outcome(alloc, told, &outcome),
        Err(_) => told.give_up(),
    }
}
