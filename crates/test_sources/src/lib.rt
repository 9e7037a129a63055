//! Cases of the layers below the pool: tokens, sources as their records and places, records of no
//! type, files and descriptor sets, and calls that no source reaches.
#![tactic(auto)]

mod comments;
mod faults;
mod options;
mod parts;
mod places;
mod records;
mod shown;
mod sources;
mod tokens;
mod trees;
mod wire;

use comments::tell_comments;
use parts::{tell_int, tell_lines, tell_part};
use records::{tell_file, tell_record, tell_third_record};
use serde_json::Value;
use sources::tell_parsed;
pub use sources::tell_source_refusal;
use std::alloc::Global;
use test_json::Told;
use test_json::members::{bytes, number, text};
use tokens::{tell_text_tokens, tell_tokens};
pub use wire::tell_plain;
use wire::{tell_records, tell_set};

/// Does what a case asks that has no schema, and tells what comes.
pub fn tell_case_of_sources(alloc: Global, case: &Value, told: &mut Told<'_>) {
    match text(case, "op") {
        "tokens" => tell_tokens(alloc, case, told),
        "text_tokens" => tell_text_tokens(alloc, case, told),
        "int" => tell_int(alloc, case, told),
        "lines" => tell_lines(alloc, case, told),
        "parse" => tell_parsed(alloc, case, told),
        "comments" => tell_comments(alloc, case, told),
        "part" => tell_part(alloc, case, told),
        op => tell_decoded(alloc, op, case, told),
    }
}

/// Does what a case asks of its bytes.
fn tell_decoded(alloc: Global, op: &str, case: &Value, told: &mut Told<'_>) {
    match bytes(alloc, case, "bytes") {
        Ok(bytes) => tell_bytes(alloc, told, op, case, bytes.as_slice()),
        Err(_) => told.give_up(),
    }
}

/// Tells what bytes spell.
fn tell_bytes(alloc: Global, told: &mut Told<'_>, op: &str, case: &Value, bytes: &[u8]) {
    match op {
        "records" => tell_records(alloc, told, bytes),
        "record" => tell_record(alloc, told, bytes, number(case, "levels")),
        "record_value" => tell_third_record(alloc, told, bytes),
        "file" => tell_file(alloc, told, bytes),
        "set" => tell_set(alloc, told, bytes),
        _ => {}
    }
}
