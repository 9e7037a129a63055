//! A pool is written as the descriptor set of its files, and a file as its record.

ghost use Rattle.std.specs.Prelude.{◌≡◌, ◌++◌, ℕ, List, IfOk, IfErr, OnOk, OnErr};
ghost use Rattle.reflect_wire.specs.declared.wire_error.WireError.TheVariants.{Memory};
ghost use Rattle.reflect_bytes.specs.Written.{pool_bytes, AreOfFile};

use reflect_codec::encode_file;
use reflect_link::{DescriptorPool, FileDescriptor, PoolReaders};
use reflect_wire::{WireError, WireKey, WireType, push_delimited, push_key};
use std::alloc::Global;

/// The number of the list of files in a descriptor set.
const FILE: u32 = 1;

/// What is written as a message of `descriptor.proto`.
pub trait PoolBytes {
    /// These are its bytes.
    ghost is_written: { Self → List ℕ → Type 0 };

    /// Adds the bytes to `out`. Refused for want of memory alone, which leaves `out`.
    fn encode(&self, alloc: Global, out: &mut Vec<u8>) -> Result<(), WireError>
        ensures ok { OnOk result ((bytes : List ℕ) × is_written self.now bytes
            × (out.new.items ≡ out.old.items ++ bytes)) }
        ensures err { IfErr result (λ e. e ≡ Memory) }
        ensures left { OnErr result (out.new.items ≡ out.old.items) };

    /// The bytes. Refused as `encode` is.
    fn encode_to_vec(&self, alloc: Global) -> Result<Vec<u8>, WireError>
        ensures ok { IfOk result (λ bytes. is_written self.now bytes.items) }
        ensures err { IfErr result (λ e. e ≡ Memory) };
}

/// The bytes of the set of a pool's files.
fn set_bytes(alloc: Global, pool: &DescriptorPool) -> Result<Vec<u8>, WireError>
    ensures ok { IfOk result (λ bytes. bytes.items ≡ pool_bytes pool.now) }
    ensures err { IfErr result (λ e. e ≡ Memory) }
{
    let key = WireKey {
        number: FILE,
        wire: WireType::LengthDelimited,
    };
    let mut set = Vec::new(alloc);
    'files: for file in pool.file_descriptor_protos() {
        let mut bytes = Vec::new(alloc);
        encode_file(file, &mut bytes)?;
        push_key(&mut set, key)?;
        push_delimited(&mut set, bytes.as_slice())?;
    }
    Ok(set)
}

impl PoolBytes for DescriptorPool {
    ghost is_written = { λ p bytes. bytes ≡ pool_bytes p };

    fn encode(&self, alloc: Global, out: &mut Vec<u8>) -> Result<(), WireError> {
        let set = set_bytes(alloc, self)?;
        out.extend_from_slice(set.as_slice())?;
        Ok(())
    }

    fn encode_to_vec(&self, alloc: Global) -> Result<Vec<u8>, WireError> {
        set_bytes(alloc, self)
    }
}

impl PoolBytes for FileDescriptor<'_> {
    ghost is_written = { λ d bytes. AreOfFile d.pool.now d.index bytes };

    fn encode(&self, _alloc: Global, out: &mut Vec<u8>) -> Result<(), WireError> {
        encode_file(self.file_descriptor_proto(), out)
    }

    fn encode_to_vec(&self, alloc: Global) -> Result<Vec<u8>, WireError> {
        let mut bytes = Vec::new(alloc);
        encode_file(self.file_descriptor_proto(), &mut bytes)?;
        Ok(bytes)
    }
}
