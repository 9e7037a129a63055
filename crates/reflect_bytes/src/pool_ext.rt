//! Files for a pool, from descriptor records and from the bytes of descriptor sets.

ghost use Rattle.std.specs.Prelude.{◌≡◌, ◌∷◌, [], Some, IfOk, OnOk, OnErr, IfErr};
ghost use Rattle.reflect_codec.specs.Faults.{FileBytesFault, SetBytesFault};
ghost use Rattle.reflect_tables.specs.Types.{PoolType};
ghost use Rattle.reflect_pool.specs.Linked.{empty_pool};
ghost use Rattle.reflect_bytes.specs.Texts.{said};
ghost use Rattle.reflect_bytes.specs.Spelled.{SpellsSet, SpellsFile, of_wire, RecordsLinked, RecordsRefused, BytesLinked, BytesRefused};

use descriptor_records::{FileDescriptorProto, FileDescriptorSet};
use reflect_build::{BuildFiles, DescriptorError};
use reflect_codec::{decode_file, decode_set};
use reflect_link::DescriptorPool;
use reflect_wire::WireError;
use std::alloc::{AllocFailed, Global};
use std::error::Error;
use std::fmt;

/// Why files were not added to a pool.
#[derive(Debug, Drop)]
pub enum PoolError {
    /// The bytes are no descriptor record or set.
    Wire(WireError),
    /// The files do not fit together, or not with those that are there.
    Link(DescriptorError),
    /// Want of memory.
    Memory,
}

impl fmt::Display for PoolError {
    ghost output = { λ e. Some (said e) };

    fn fmt<W: fmt::Write>(&self, f: &mut fmt::Formatter<W>) -> fmt::Result {
        match self {
            PoolError::Wire(error) => write!(f, "{error}"),
            PoolError::Link(error) => write!(f, "{error}"),
            PoolError::Memory => f.write_str("out of memory"),
        }
    }
}

impl Error for PoolError {}

impl From<WireError> for PoolError {
    ghost from_gives = { λ error e. e ≡ of_wire error };

    fn from(error: WireError) -> PoolError {
        match error {
            WireError::Memory => PoolError::Memory,
            other => PoolError::Wire(other),
        }
    }
}

impl From<DescriptorError> for PoolError {
    ghost use Rattle.reflect_bytes.specs.Spelled.{of_linker};

    ghost from_gives = { λ error e. e ≡ of_linker error };

    fn from(error: DescriptorError) -> PoolError {
        if error.is_memory() {
            PoolError::Memory
        } else {
            PoolError::Link(error)
        }
    }
}

impl<T: Drop> From<AllocFailed<T>> for PoolError {
    ghost use Rattle.reflect_bytes.specs.declared.pool_ext.PoolError.TheVariants.{Memory};

    ghost from_gives = { λ _ e. e ≡ Memory };

    fn from(_error: AllocFailed<T>) -> PoolError {
        PoolError::Memory
    }
}

/// Calls that link files into a pool. They read no options. Files whose names the pool has are
/// passed over, and a refusal leaves the pool as it was: `Wire` where bytes spell no such files,
/// with what is so of them, `Link` with exactly the faults of the first pass that finds any.
pub trait PoolExt: Sized {
    /// What the pool holds.
    ghost holds: { Self → PoolType };

    /// A pool of the set's files.
    fn from_file_descriptor_set(alloc: Global, set: FileDescriptorSet) -> Result<Self, PoolError>
        ensures linked { IfOk result (λ p. RecordsLinked empty_pool set.file.items (holds p)) }
        ensures err { IfErr result (RecordsRefused empty_pool set.file.items) };

    /// A pool of the files of a set, from the set's bytes.
    fn decode(alloc: Global, bytes: &[u8]) -> Result<Self, PoolError>
        ensures linked { IfOk result (λ p. BytesLinked (SpellsSet bytes.now) empty_pool (holds p)) }
        ensures err { IfErr result (BytesRefused (SpellsSet bytes.now) (SetBytesFault bytes.now)
            empty_pool) };

    /// Adds the set's files as one batch.
    fn add_file_descriptor_set(
        &mut self,
        alloc: Global,
        set: FileDescriptorSet,
    ) -> Result<(), PoolError>
        ensures unchanged { OnErr result (self.new ≡ self.old) }
        ensures linked { OnOk result (RecordsLinked (holds self.old) set.file.items
            (holds self.new)) }
        ensures err { IfErr result (RecordsRefused (holds self.old) set.file.items) };

    /// Adds files as one batch.
    fn add_file_descriptor_protos(
        &mut self,
        alloc: Global,
        files: Vec<FileDescriptorProto>,
    ) -> Result<(), PoolError>
        ensures unchanged { OnErr result (self.new ≡ self.old) }
        ensures linked { OnOk result (RecordsLinked (holds self.old) files.items (holds self.new)) }
        ensures err { IfErr result (RecordsRefused (holds self.old) files.items) };

    /// Adds one file.
    fn add_file_descriptor_proto(
        &mut self,
        alloc: Global,
        file: FileDescriptorProto,
    ) -> Result<(), PoolError>
        ensures unchanged { OnErr result (self.new ≡ self.old) }
        ensures linked { OnOk result (RecordsLinked (holds self.old) (file ∷ []) (holds self.new)) }
        ensures err { IfErr result (RecordsRefused (holds self.old) (file ∷ [])) };

    /// Adds one file, from the bytes of its record.
    fn decode_file_descriptor_proto(&mut self, alloc: Global, bytes: &[u8]) -> Result<(), PoolError>
        ensures unchanged { OnErr result (self.new ≡ self.old) }
        ensures linked { OnOk result (BytesLinked (SpellsFile bytes.now) (holds self.old)
            (holds self.new)) }
        ensures err { IfErr result (BytesRefused (SpellsFile bytes.now) (FileBytesFault bytes.now)
            (holds self.old)) };

    /// Adds the files of a set as one batch, from the set's bytes.
    fn decode_file_descriptor_set(&mut self, alloc: Global, bytes: &[u8]) -> Result<(), PoolError>
        ensures unchanged { OnErr result (self.new ≡ self.old) }
        ensures linked { OnOk result (BytesLinked (SpellsSet bytes.now) (holds self.old)
            (holds self.new)) }
        ensures err { IfErr result (BytesRefused (SpellsSet bytes.now) (SetBytesFault bytes.now)
            (holds self.old)) };
}

impl PoolExt for DescriptorPool {
    ghost holds = { λ p. p };

    fn from_file_descriptor_set(
        alloc: Global,
        set: FileDescriptorSet,
    ) -> Result<DescriptorPool, PoolError> {
        let mut pool = DescriptorPool::new(alloc);
        pool.build_files(alloc, set.file)?;
        Ok(pool)
    }

    fn decode(alloc: Global, bytes: &[u8]) -> Result<DescriptorPool, PoolError> {
        DescriptorPool::from_file_descriptor_set(alloc, decode_set(alloc, bytes)?)
    }

    fn add_file_descriptor_set(
        &mut self,
        alloc: Global,
        set: FileDescriptorSet,
    ) -> Result<(), PoolError> {
        self.build_files(alloc, set.file)?;
        Ok(())
    }

    fn add_file_descriptor_protos(
        &mut self,
        alloc: Global,
        files: Vec<FileDescriptorProto>,
    ) -> Result<(), PoolError> {
        self.build_files(alloc, files)?;
        Ok(())
    }

    fn add_file_descriptor_proto(
        &mut self,
        alloc: Global,
        file: FileDescriptorProto,
    ) -> Result<(), PoolError> {
        let mut files = Vec::new(alloc);
        files.push(file)?;
        self.build_files(alloc, files)?;
        Ok(())
    }

    fn decode_file_descriptor_proto(
        &mut self,
        alloc: Global,
        bytes: &[u8],
    ) -> Result<(), PoolError> {
        self.add_file_descriptor_proto(alloc, decode_file(alloc, bytes)?)
    }

    fn decode_file_descriptor_set(&mut self, alloc: Global, bytes: &[u8]) -> Result<(), PoolError> {
        self.add_file_descriptor_set(alloc, decode_set(alloc, bytes)?)
    }
}
