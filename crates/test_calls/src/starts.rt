//! What cases begin with: pools and records of files.

use descriptor_records::FileDescriptorProto;
use protox_parse::parse;
use reflect_build::BuildFiles;
use reflect_bytes::PoolExt;
use reflect_codec::decode_file;
use reflect_link::DescriptorPool;
use serde_json::Value as Json;
use std::alloc::{AllocError, Global};
use test_json::members::{bytes, text};

/// The record of a file that the bytes of a member spell.
pub fn file_of(
    alloc: Global,
    given: &Json,
    name: &'static str,
) -> Result<FileDescriptorProto, AllocError> {
    match decode_file(alloc, bytes(alloc, given, name)?.as_slice()) {
        Ok(file) => Ok(file),
        Err(_) => Err(AllocError),
    }
}

/// Builds a file by itself; false where it is refused.
pub fn build_file(
    alloc: Global,
    pool: &mut DescriptorPool,
    file: FileDescriptorProto,
) -> Result<bool, AllocError> {
    let files = vec![in alloc; file]?;
    Ok(pool.build_files(alloc, files).is_ok())
}

/// Adds the file `a.proto` of a source; false where it is refused.
fn link(alloc: Global, pool: &mut DescriptorPool, source: &str) -> Result<bool, AllocError> {
    match parse(alloc, "a.proto", source) {
        Ok(file) => build_file(alloc, pool, file),
        Err(_) => Ok(false),
    }
}

/// Adds the file of a record; false where it is refused.
fn add_record(alloc: Global, pool: &mut DescriptorPool, case: &Json) -> Result<bool, AllocError> {
    let file = file_of(alloc, case, "file")?;
    Ok(pool.add_file_descriptor_proto(alloc, file).is_ok())
}

/// Makes the pool that of a set; false where the set is refused.
fn read(alloc: Global, pool: &mut DescriptorPool, set: &[u8]) -> bool {
    match DescriptorPool::decode(alloc, set) {
        Ok(made) => {
            *pool = made;
            true
        }
        Err(_) => false,
    }
}

/// Makes an empty pool that of the case's `source`, of the `file` that its bytes spell, or of their
/// `set`; false where it is refused.
pub fn start(alloc: Global, pool: &mut DescriptorPool, case: &Json) -> Result<bool, AllocError> {
    if case.get("source").is_some() {
        return link(alloc, pool, text(case, "source"));
    }
    if case.get("file").is_some() {
        return add_record(alloc, pool, case);
    }
    let set = bytes(alloc, case, "set")?;
    Ok(read(alloc, pool, set.as_slice()))
}
