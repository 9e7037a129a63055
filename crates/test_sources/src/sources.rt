//! Sources as the records that they describe, or what is wrong with them.

use crate::options::write_file;
use crate::places::{write_commented, write_places};
use descriptor_records::FileDescriptorProto;
use protox_lex::Span;
use protox_parse::{ParseError, ParseErrorKind, parse};
use reflect_codec::encode_file;
use serde_json::Value;
use std::alloc::Global;
use test_json::members::text;
use test_json::{Text, Told, write_case};

/// Tells the bytes of a file's record.
pub fn tell_file_bytes(
    alloc: Global,
    told: &mut Told<'_>,
    name: &'static str,
    file: &FileDescriptorProto,
) {
    let mut bytes = Vec::new(alloc);
    match encode_file(file, &mut bytes) {
        Ok(()) => told.tell_bytes(name, bytes.as_slice()),
        Err(_) => told.give_up(),
    }
}

/// Tells the places of a record, and its comments.
fn tell_places(alloc: Global, told: &mut Told<'_>, file: &FileDescriptorProto) {
    let mut places = Text::new(alloc);
    let mut comments = Text::new(alloc);
    if let Some(info) = &file.source_code_info {
        write_places(&mut places, info);
        write_commented(&mut comments, info);
    }
    told.tell_text("places", places);
    told.tell_text("comments", comments);
}

/// Tells the options of a record: those that linking reads, and those that no type has read.
pub fn tell_options(alloc: Global, told: &mut Told<'_>, file: &FileDescriptorProto) {
    let mut options = Text::new(alloc);
    write_file(&mut options, file);
    told.tell_text("options", options);
}

/// Tells a record, with and without its places, its options, and its places and comments alone.
fn tell_accepted(alloc: Global, told: &mut Told<'_>, file: &mut FileDescriptorProto) {
    told.tell("ok", "accepted");
    tell_options(alloc, told, file);
    tell_places(alloc, told, file);
    tell_file_bytes(alloc, told, "placed", file);
    file.source_code_info = None;
    tell_file_bytes(alloc, told, "record", file);
}

/// The record of a source, or the refusal.
pub fn tell_parsed(alloc: Global, case: &Value, told: &mut Told<'_>) {
    match parse(alloc, text(case, "file"), text(case, "source")) {
        Ok(mut file) => tell_accepted(alloc, told, &mut file),
        Err(error) => tell_source_refusal(alloc, told, &error),
    }
}

/// Writes a space unless nothing is written yet.
fn write_gap(out: &mut Text) {
    if !out.is_empty() {
        out.push_str(" ");
    }
}

/// The names of all faults in their order, and their places.
fn tell_faults(alloc: Global, told: &mut Told<'_>, faults: &[ParseErrorKind]) {
    let mut names = Text::new(alloc);
    let mut spans = Text::new(alloc);
    for fault in faults {
        write_gap(&mut names);
        write_case(alloc, &mut names, fault);
        if let Some(Span { start, end }) = fault.span() {
            write_gap(&mut spans);
            spans.push_span(start, end);
        }
    }
    told.tell_text("codes", names);
    told.tell_text("spans", spans);
}

/// Tells a place.
fn tell_span(alloc: Global, told: &mut Told<'_>, span: Span) {
    let mut shown = Text::new(alloc);
    shown.push_span(span.start, span.end);
    told.tell_text("span", shown);
}

/// A source's refusal: all faults with their places, the place of the first, the text in front of
/// which it stands, and what it says with and without the place.
pub fn tell_source_refusal(alloc: Global, told: &mut Told<'_>, error: &ParseError) {
    tell_faults(alloc, told, error.faults());
    if let Some(span) = error.span() {
        tell_span(alloc, told, span);
    }
    if let Some(ParseErrorKind::UnexpectedToken { found, .. }) = error.kind() {
        told.tell("found", found.as_str());
    }
    let mut shown = Text::new(alloc);
    write!(shown, "{error:?}");
    told.tell_text("debug", shown);
}
