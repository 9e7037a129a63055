//! Options that a pool's files hold, and places of their declarations.

use descriptor_records::{DescriptorProto, FileDescriptorProto, Options};
use reflect_link::{DescriptorPool, MessageReaders, PoolReaders};
use serde_json::Value;
use std::alloc::{AllocError, Global};
use test_json::members::{items, number, text};
use test_json::{Text, Told};

/// The options of a message, or of the extension range that the case names.
fn options_of<'m>(case: &Value, message: &'m DescriptorProto) -> Option<&'m Options> {
    if case.get("range").is_none() {
        return message.options.as_ref();
    }
    let place = usize::try_from(number(case, "range")).ok()?;
    message.extension_range.get(place)?.options.as_ref()
}

/// Whether the file has a location of a path, which is given as it prints.
fn has_location(alloc: Global, file: &FileDescriptorProto, path: &str) -> Result<bool, AllocError> {
    let Some(info) = &file.source_code_info else {
        return Ok(false);
    };
    for location in &info.location {
        if format!(in alloc; "{:?}", location.path.as_slice())?.as_str() == path {
            return Ok(true);
        }
    }
    Ok(false)
}

/// Tells of some paths those of which the file has locations.
fn tell_located(alloc: Global, file: &FileDescriptorProto, case: &Value, told: &mut Told<'_>) {
    let mut located = Text::new(alloc);
    for path in items(case, "paths") {
        let path = path.as_str().unwrap_or("");
        match has_location(alloc, file, path) {
            Ok(true) => located.push_str(path),
            Ok(false) => {}
            Err(_) => located.give_up(),
        }
    }
    told.tell_text("located", located);
}

/// The bytes of the options of a file, of a message of it or of one of its extension ranges, and of
/// some paths those of which the file has locations.
pub fn tell_options(alloc: Global, pool: &DescriptorPool, case: &Value, told: &mut Told<'_>) {
    let Some(file) = pool.get_file_by_name(text(case, "file")) else {
        return;
    };
    let file = file.file_descriptor_proto();
    let options = match pool.get_message_by_name(text(case, "message")) {
        Some(message) => options_of(case, message.descriptor_proto()),
        None => file.options.as_ref(),
    };
    if let Some(options) = options {
        told.tell_bytes("ok", options.encoded.as_slice());
    }
    tell_located(alloc, file, case, told);
}
