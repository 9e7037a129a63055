//! Files and sets, and their bytes.
ghost use Rattle.std.specs.Prelude.{◌≡◌, ◌++◌, IfErr, OnErr, OnOk};
ghost use Rattle.reflect_wire.specs.declared.wire_error.WireError.TheVariants.{Memory};
ghost use Rattle.reflect_codec.specs.Faults.{FileBytesFault, SetBytesFault};
ghost use Rattle.reflect_codec.specs.Meaning.{IsFileBytes, IsSetBytes};
ghost use Rattle.reflect_codec.specs.Reading.{ReadsMeant};
ghost use Rattle.reflect_codec.specs.Written.{file_bytes, set_bytes};

use crate::backward::{Backward, WriteRecord};
use crate::fields::{Fields, ReadRecord};
use descriptor_records::{FileDescriptorProto, FileDescriptorSet};
use reflect_wire::{MAX_LEVELS, WireError};
use std::alloc::Global;

/// The file that the bytes spell.
///
/// Lists of numbers are read packed and unpacked, unknown fields outside options are dropped, and
/// the bytes of options are kept as they came. Refused where the bytes are no records of at most
/// 100 levels (those in an options record counted by themselves), where a known field has another
/// wire type (`BadWireType`), and where a text is not UTF-8. But for want of memory a refusal tells
/// what is so of the bytes; which of several faults it tells is left open.
pub fn decode_file(alloc: Global, bytes: &[u8]) -> Result<FileDescriptorProto, WireError>
    ensures { ReadsMeant IsFileBytes FileBytesFault bytes.now result }
{
    let fields = Fields::read(alloc, bytes, MAX_LEVELS)?;
    FileDescriptorProto::from_fields(alloc, &fields)
}

/// The descriptor set that the bytes spell, read and refused as `decode_file` says.
pub fn decode_set(alloc: Global, bytes: &[u8]) -> Result<FileDescriptorSet, WireError>
    ensures { ReadsMeant IsSetBytes SetBytesFault bytes.now result }
{
    let fields = Fields::read(alloc, bytes, MAX_LEVELS)?;
    FileDescriptorSet::from_fields(alloc, &fields)
}

/// Appends the file's bytes: present fields by ascending number, options as the bytes that they
/// hold.
///
/// A refusal leaves the vector.
pub fn encode_file(file: &FileDescriptorProto, out: &mut Vec<u8>) -> Result<(), WireError>
    ensures ok { OnOk result (out.new.items ≡ out.old.items ++ file_bytes file.now) }
    ensures err { IfErr result (λ e. e ≡ Memory) }
    ensures left { OnErr result (out.new.items ≡ out.old.items) }
{
    let mut written = Backward::new(*out.allocator());
    file.put(&mut written)?;
    written.append_to(out)
}

/// Appends the set's bytes, each file written as `encode_file` does. A refusal leaves the vector.
pub fn encode_set(set: &FileDescriptorSet, out: &mut Vec<u8>) -> Result<(), WireError>
    ensures ok { OnOk result (out.new.items ≡ out.old.items ++ set_bytes set.now) }
    ensures err { IfErr result (λ e. e ≡ Memory) }
    ensures left { OnErr result (out.new.items ≡ out.old.items) }
{
    let mut written = Backward::new(*out.allocator());
    set.put(&mut written)?;
    written.append_to(out)
}
