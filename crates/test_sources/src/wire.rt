//! Records of no type and descriptor sets, as they are written again; sets as far as they say what
//! is compared.

use descriptor_records::FileDescriptorSet;
use reflect_codec::{decode_set, encode_set};
use reflect_wire::{UnknownFieldSet, WireError};
use std::alloc::Global;
use test_json::{Told, tell_case};

/// Tells what was written, or why the bytes are refused.
pub fn tell_written(alloc: Global, told: &mut Told<'_>, written: Result<Vec<u8>, WireError>) {
    match written {
        Ok(written) => told.tell_bytes("ok", written.as_slice()),
        Err(error) => {
            told.tell("code", "Wire");
            tell_case(alloc, told, "wire", &error);
        }
    }
}

fn records(alloc: Global, bytes: &[u8]) -> Result<Vec<u8>, WireError> {
    let records = UnknownFieldSet::decode(alloc, bytes)?;
    let mut written = Vec::new(alloc);
    records.clone()?.encode(&mut written)?;
    Ok(written)
}

/// The bytes of a set.
fn written(alloc: Global, set: &FileDescriptorSet) -> Result<Vec<u8>, WireError> {
    let mut written = Vec::new(alloc);
    encode_set(set, &mut written)?;
    Ok(written)
}

fn set(alloc: Global, bytes: &[u8]) -> Result<Vec<u8>, WireError> {
    let set = decode_set(alloc, bytes)?;
    written(alloc, &set)
}

/// Records of no type.
pub fn tell_records(alloc: Global, told: &mut Told<'_>, bytes: &[u8]) {
    tell_written(alloc, told, records(alloc, bytes));
}

/// A descriptor set.
pub fn tell_set(alloc: Global, told: &mut Told<'_>, bytes: &[u8]) {
    tell_written(alloc, told, set(alloc, bytes));
}

/// Takes places of declarations out of a set, and the file of a name.
fn make_plain(set: &mut FileDescriptorSet, left_out: &str) {
    set.file
        .retain(|file| file.name.as_deref() != Some(left_out));
    for file in set.file.iter_mut() {
        file.source_code_info = None;
    }
}

/// The set without places of declarations, and without the file of a name.
fn plain_set(alloc: Global, set: &[u8], left_out: &str) -> Result<Vec<u8>, WireError> {
    let mut set = decode_set(alloc, set)?;
    make_plain(&mut set, left_out);
    written(alloc, &set)
}

/// Tells the bytes of a set without places of declarations.
pub fn tell_plain(alloc: Global, told: &mut Told<'_>, set: &[u8], left_out: &str) {
    match plain_set(alloc, set, left_out) {
        Ok(plain) => told.tell_bytes("plain", plain.as_slice()),
        Err(_) => told.give_up(),
    }
}
