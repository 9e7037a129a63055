//! Where the faults of files stand, and indexes that do not fit.

use crate::shown::write_shown;
use descriptor_records::FileDescriptorProto;
use name_table::NameTable;
use protox_parse::parse;
use reflect_faults::{DescriptorErrorKind, Faults, Label, SourceSpan};
use reflect_names::{NameVisitor, name_files};
use reflect_passes::DescriptorError;
use reflect_walk::{Offsets, VisitError};
use std::alloc::{AllocError, Global};
use std::collections::BTreeMap;
use std::ops::Range;
use test_json::Text;

/// A file that imports one that is not there.
const SOURCE: &str = "syntax = \"proto3\"; import \"b.proto\";";

/// The faults of the names that files declare, behind those of the files' own.
fn faults_behind(
    alloc: Global,
    out: &mut Text,
    faults: Faults<'_>,
    file_names: &BTreeMap<String, u32>,
    files: &[FileDescriptorProto],
) -> Vec<DescriptorErrorKind> {
    let mut names = NameVisitor::new(NameTable::new(alloc), faults, file_names);
    let none = Offsets {
        messages: 0,
        enums: 0,
        extensions: 0,
        services: 0,
    };
    if names.declare_files(alloc, none, 0, files).is_err() {
        out.give_up();
    }
    let (_names, faults) = names.into_parts();
    faults.into_list()
}

/// The faults of the names of files and of what they declare.
fn faults_in(
    alloc: Global,
    out: &mut Text,
    files: &[FileDescriptorProto],
) -> Vec<DescriptorErrorKind> {
    let mut faults = Faults::new(alloc, files, 0);
    let mut file_names = BTreeMap::new(alloc);
    if name_files(alloc, &mut file_names, 0, files, &mut faults).is_err() {
        out.give_up();
    }
    faults_behind(alloc, out, faults, &file_names, files)
}

/// The file of the source; none where it is refused.
fn files_of_source(alloc: Global) -> Result<Vec<FileDescriptorProto>, AllocError> {
    match parse(alloc, "a.proto", SOURCE) {
        Ok(file) => Ok(vec![in alloc; file]?),
        Err(_) => Ok(Vec::new(alloc)),
    }
}

/// The faults of the source.
fn faults_of_source(alloc: Global, out: &mut Text) -> Vec<DescriptorErrorKind> {
    match files_of_source(alloc) {
        Ok(files) => faults_in(alloc, out, files.as_slice()),
        Err(_) => {
            out.give_up();
            Vec::new(alloc)
        }
    }
}

/// Writes where a label or an error stands in its source, if it knows that.
fn write_bytes(out: &mut Text, bytes: Option<Range<usize>>) {
    match bytes {
        Some(bytes) => out.push_span(bytes.start, bytes.end),
        None => out.push_str("no bytes"),
    }
    out.push_str(" ");
}

/// Writes the file, line and column of a fault, and its bytes.
fn write_fault(out: &mut Text, fault: &DescriptorErrorKind) {
    if let Some(label) = fault.label() {
        out.push_pair(label.file(), " ");
        write_shown(out, label.line());
        write_shown(out, label.column());
        write_bytes(out, label.span());
    }
}

/// The place of the source's fault, in the words of the parser.
pub fn write_faults(alloc: Global, out: &mut Text) {
    let mut faults = faults_of_source(alloc, out);
    for fault in faults.iter_mut() {
        fault.resolve_span("a.proto", SOURCE);
        write_fault(out, fault);
    }
}

/// The bytes of a label in two sources, of which the second ends before it.
pub fn write_labels(alloc: Global, out: &mut Text) -> Result<(), AllocError> {
    let span = SourceSpan::from_location(&[1, 2, 2, 1]);
    let mut label = Label::new(alloc, "b", Vec::new(alloc), span)?;
    for source in ["a\nbcd\nef", "a\nbcd"] {
        label.resolve_span("b", source);
        write_bytes(out, label.span());
    }
    Ok(())
}

/// Writes the bytes of an error, before and after it knows its source, and the error.
fn write_located(out: &mut Text, error: DescriptorError) {
    write_bytes(out, error.span());
    let located = error.with_source_code(SOURCE);
    write_bytes(out, located.span());
    write!(out, "{located:?}");
}

/// The bytes of the source's error, and the error.
pub fn write_error(alloc: Global, out: &mut Text) {
    let faults = faults_of_source(alloc, out);
    if let Some(error) = DescriptorError::from_list(faults) {
        write_located(out, error);
    }
}

fn named_file(alloc: Global, name: &str) -> Result<FileDescriptorProto, AllocError> {
    let name = String::from_str(alloc, name)?;
    let mut file = FileDescriptorProto::new(alloc);
    file.name = Some(name);
    Ok(file)
}

/// Names files whose first has this index.
fn name_from(alloc: Global, files: &[FileDescriptorProto], first: u32) -> Result<(), VisitError> {
    let mut names = BTreeMap::new(alloc);
    let mut faults = Faults::new(alloc, files, first);
    name_files(alloc, &mut names, first, files, &mut faults)
}

/// Writes whether files are named whose first has this index.
fn write_named(alloc: Global, out: &mut Text, files: &[FileDescriptorProto], first: u32) {
    match name_from(alloc, files, first) {
        Ok(()) => out.push_str("named "),
        Err(VisitError::TooMany) => write!(out, "{} ", DescriptorErrorKind::TooMany),
        Err(VisitError::Memory) => out.give_up(),
    }
}

fn named_files(alloc: Global, names: &[&str]) -> Result<Vec<FileDescriptorProto>, AllocError> {
    let mut files = Vec::new(alloc);
    for name in names {
        files.push(named_file(alloc, name)?)?;
    }
    Ok(files)
}

/// Two files of which the second has the largest index, and of which the first has it.
pub fn write_indexes(alloc: Global, out: &mut Text) -> Result<(), AllocError> {
    const LAST: u32 = 2_147_483_647;
    let files = named_files(alloc, &["a", "b"])?;
    write_named(alloc, out, files.as_slice(), LAST - 1);
    write_named(alloc, out, files.as_slice(), LAST);
    Ok(())
}
