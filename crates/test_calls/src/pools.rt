//! Calls of pools: what they have, and files that are added, refused and taken back.

use crate::starts::file_of;
use descriptor_records::Options;
use reflect_build::{BuildFiles, Edit};
use reflect_bytes::PoolExt;
use reflect_link::{DescriptorPool, EnumReaders, PoolReaders};
use serde_json::Value as Json;
use std::alloc::{AllocError, Global};
use test_described::described;
use test_json::Text;
use test_json::members::{bytes, items, text, truth};
use test_messages::write_options;
use test_values::{Answers, bytes_of, i32_of, text_of, write_name, write_truth};

/// A pool whose calls change it too.
pub struct PoolCase {
    pub pool: DescriptorPool,
}

impl PoolCase {
    /// A pool without files.
    pub fn new(alloc: Global) -> PoolCase {
        let pool = DescriptorPool::new(alloc);
        PoolCase { pool }
    }
}

/// Taken apart here once: a function that owns a case need not prove how a pool goes.
impl Drop for PoolCase {
    fn drop(self) {
        let PoolCase { pool: _ } = self;
    }
}

impl Answers for PoolCase {
    fn answer(&mut self, alloc: Global, call: &Json, out: &mut Text) {
        let pool = &mut self.pool;
        match text(call, "call") {
            "add" => add(alloc, out, pool, call),
            "build" => {
                let outcome = build(alloc, out, pool, call);
                out.check(outcome);
            }
            "settle" => out.check(settle(alloc, pool, call)),
            "options" => write_options(alloc, out, pool, call),
            "line" => write_line(alloc, out, pool, text(call, "of")),
            name => write_found(out, pool, name, call),
        }
    }
}

/// Writes the name of what the pool has by a name, or what it says of the name.
fn write_found(out: &mut Text, pool: &DescriptorPool, sort: &str, call: &Json) {
    let name = text(call, "name");
    match sort {
        "has_file" => write_truth(out, pool.has_file(name)),
        "files" => out.push_shown("", pool.files().len()),
        "message" => write_name(out, message_name(pool, name)),
        "extension" => write_name(out, extension_name(pool, name)),
        "value" => write_name(out, value_name(pool, call)),
        "values" => match pool.get_enum_by_name(name) {
            Some(found) => out.push_shown("", found.enum_descriptor_proto().value.len()),
            None => out.push_str("-"),
        },
        _ => out.push_str("no call"),
    }
}

/// The full name of the message type that the pool has by a name.
fn message_name<'p>(pool: &'p DescriptorPool, name: &str) -> Option<&'p str> {
    Some(pool.get_message_by_name(name)?.full_name())
}

/// The full name of the extension that the pool has by a name.
fn extension_name<'p>(pool: &'p DescriptorPool, name: &str) -> Option<&'p str> {
    Some(pool.get_extension_by_name(name)?.full_name())
}

/// The full name of the value of an enum, which the call names by its number or its name.
fn value_name<'p>(pool: &'p DescriptorPool, call: &Json) -> Option<&'p str> {
    let kind = pool.get_enum_by_name(text(call, "enum"))?;
    match text_of(call, "name") {
        Some(name) => Some(kind.get_value_by_name(name)?.full_name()),
        None => Some(kind.get_value(i32_of(call, "number")?)?.full_name()),
    }
}

/// Writes the line that begins with some words of all that the pool's descriptors answer, without
/// those words.
fn write_line(alloc: Global, out: &mut Text, pool: &DescriptorPool, words: &str) {
    let Ok(lines) = described(alloc, pool) else {
        return out.give_up();
    };
    for line in lines.as_str().lines() {
        if let Some(rest) = line.strip_prefix(words) {
            out.push_str(rest);
        }
    }
}

/// Adds the file that bytes spell, or writes that it is refused.
fn add(alloc: Global, out: &mut Text, pool: &mut DescriptorPool, call: &Json) {
    let file = bytes_of(alloc, out, call, "file");
    if pool
        .decode_file_descriptor_proto(alloc, file.as_slice())
        .is_err()
    {
        out.push_str("refused");
    }
}

/// Builds the file that bytes spell, and takes it back where the call says so; or writes that it is
/// refused.
fn build(
    alloc: Global,
    out: &mut Text,
    pool: &mut DescriptorPool,
    call: &Json,
) -> Result<(), AllocError> {
    let files = vec![in alloc; file_of(alloc, call, "file")?]?;
    let mark = pool.mark();
    if pool.build_files(alloc, files).is_err() {
        out.push_str("refused");
    } else if truth(call, "then_cut") {
        pool.cut(mark);
    }
    Ok(())
}

/// The path of a declaration, which a call gives as a list of numbers.
fn path_of(alloc: Global, call: &Json) -> Result<Vec<i32>, AllocError> {
    let mut path = Vec::new(alloc);
    for step in items(call, "path") {
        if let Some(step) = step.as_i64() {
            if let Ok(step) = i32::try_from(step) {
                path.push(step)?;
            }
        }
    }
    Ok(path)
}

/// The bytes that a call gives as options.
fn options_given(alloc: Global, call: &Json) -> Result<Options, AllocError> {
    let encoded = bytes(alloc, call, "bytes")?;
    let mut options = Options::new(alloc);
    options.encoded = encoded;
    Ok(options)
}

/// An edit by which bytes are the options of the declaration at a path of the first file.
fn edit_of(alloc: Global, call: &Json) -> Result<Edit, AllocError> {
    let path = path_of(alloc, call)?;
    Ok(Edit::Options {
        file: 0,
        path,
        options: options_given(alloc, call)?,
    })
}

/// Settles the options that a call gives.
fn settle(alloc: Global, pool: &mut DescriptorPool, call: &Json) -> Result<(), AllocError> {
    let edit = edit_of(alloc, call)?;
    pool.settle(vec![in alloc; edit]?);
    Ok(())
}
