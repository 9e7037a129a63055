//! The calls that change a pool.

ghost use Rattle.std.specs.Prelude.{◌≡◌, ◌⊎◌, ◌∷◌, [], true, false, OnOk, OnErr, IfErr, IsErrAnd, fold, length, map};
ghost use Rattle.descriptor_records.specs.Content.{file_view};
ghost use Rattle.reflect_scope.specs.FileIndexes.{indexes_of};
ghost use Rattle.reflect_faults.specs.Faults.{another};
ghost use Rattle.reflect_known.specs.GivenNames.{names_of_file};
ghost use Rattle.reflect_tables.specs.Types.{PoolType, IsSettled};
ghost use Rattle.reflect_growth.specs.Cut.{cut_to};
ghost use Rattle.reflect_growth.specs.Put.{edited};
ghost use Rattle.reflect_growth.specs.Settled.{bare_of};
ghost use Rattle.reflect_passes.specs.Errors.{ListsFaults, is_too_many, faults_of};
ghost use Rattle.reflect_pool.specs.Imports.{StandsAlone};
ghost use Rattle.reflect_build.specs.Accepted.{Faultless, FaultlessFiles, AddsNames, AddsFiles};
ghost use Rattle.reflect_build.specs.Parts.{AreParts, StaysOrGrows, holds_of, linking_of};
ghost use Rattle.reflect_build.specs.Refusals.{is_unknown, Faulty, AreTooMany, AreRefused};

use crate::batch::{link, next_place, offsets};
use crate::forget::forget;
use crate::many::are_too_many;
use descriptor_records::FileDescriptorProto;
use reflect_faults::DescriptorErrorKind;
use reflect_growth::{Edit, cut, settle_all};
use reflect_passes::{DescriptorError, walk_error};
use reflect_pool::{DescriptorPool, PoolParts};
use reflect_scope::FileIndex;
use std::alloc::Global;
use std::collections::BTreeMap;
use std::mem;

/// No known file has the file's name.
fn is_new(known: &BTreeMap<String, FileIndex>, file: &FileDescriptorProto) -> bool
    ensures { result ≡ is_unknown (indexes_of known.now) file.now }
{
    match &file.name {
        Some(name) => !known.contains_key(name.as_str()),
        None => true,
    }
}

/// Adds files that a pool has not yet to its parts, and leaves parts of the same entries where they
/// are refused.
fn add_new(
    alloc: Global,
    parts: &mut PoolParts,
    files: Vec<FileDescriptorProto>,
) -> Result<(), DescriptorError>
    requires fit { AreParts parts.old }
    ensures fit { AreParts parts.new }
    ensures held { StaysOrGrows result (holds_of parts.old) (holds_of parts.new) }
    ensures added { OnOk result (AddsNames (linking_of parts.old) files.items
        (holds_of parts.new)) }
    ensures accepted { OnOk result (Faultless (linking_of parts.old) files.items
        (holds_of parts.new)) }
    ensures refused { IfErr result
        (λ e. ListsFaults (Faulty (linking_of parts.old) files.items) e) }
{
    let before = offsets(&parts.tables).map_err(|error| walk_error(alloc, error))?;
    let first = next_place(parts.tables.files.len()).map_err(|error| walk_error(alloc, error))?;
    let outcome = link(
        alloc,
        before,
        first,
        files,
        &mut parts.tables,
        &mut parts.links,
        &mut parts.file_names,
        &mut parts.names,
        &mut parts.extension_numbers,
    );
    if outcome.is_err() {
        forget(parts, first);
    }
    outcome
}

/// The same refusal, but for one that there is too much of something, which is want of memory:
/// where each has an index, a walk ends early for nothing else.
fn not_of_many(alloc: Global, error: DescriptorError) -> DescriptorError
    ensures kept { (result ≡ error) ⊎ (faults_of result ≡ another ∷ []) }
    ensures few { is_too_many result.first ≡ false }
{
    if error.is_too_many() {
        DescriptorError::new(alloc, DescriptorErrorKind::Memory)
    } else {
        error
    }
}

/// Adds those files that a pool has not yet, unless they are too many, and leaves parts of the same
/// entries where they are refused.
fn add_files(
    alloc: Global,
    parts: &mut PoolParts,
    mut files: Vec<FileDescriptorProto>,
) -> Result<(), DescriptorError>
    requires fit { AreParts parts.old }
    ensures fit { AreParts parts.new }
    ensures held { StaysOrGrows result (holds_of parts.old) (holds_of parts.new) }
    ensures added { OnOk result (AddsFiles (holds_of parts.old) files.items (holds_of parts.new)) }
    ensures accepted { OnOk result
        (FaultlessFiles (holds_of parts.old) files.items (holds_of parts.new)) }
    ensures refused { IfErr result (AreRefused (holds_of parts.old) files.items) }
    ensures too_many { AreTooMany (holds_of parts.old) files.items
        → IsErrAnd result (λ e. is_too_many e.first ≡ true) }
{
    let known = &parts.file_names;
    files.retain(|file| is_new(known, file));
    if are_too_many(&parts.tables, files.as_slice()) {
        return Err(DescriptorError::new(alloc, DescriptorErrorKind::TooMany));
    }
    match add_new(alloc, parts, files) {
        Ok(()) => Ok(()),
        Err(error) => Err(not_of_many(alloc, error)),
    }
}

/// Leaves the parts of the first so many files.
fn cut_parts(parts: &mut PoolParts, mark: u32)
    requires fit { AreParts parts.old }
    requires alone { StandsAlone (cut_to (holds_of parts.old) mark) }
    ensures fit { AreParts parts.new }
    ensures cut { holds_of parts.new ≡ cut_to (holds_of parts.old) mark }
{
    cut(&mut parts.tables, mark);
    forget(parts, mark);
}

/// Takes the parts out of a pool, which is empty then. Takes no memory.
fn take_parts(pool: &mut DescriptorPool) -> PoolParts
    ensures fit { AreParts result }
    ensures holds { holds_of result ≡ pool.old }
{
    let alloc = *pool.tables().files.allocator();
    mem::replace(pool, DescriptorPool::new(alloc)).into_parts()
}

/// Calls that add files to a pool, take the last ones back, and settle the options of their
/// records.
pub trait BuildFiles {
    /// What the pool holds.
    ghost holds: { Self → PoolType };

    /// Adds files, linked with each other and with those that are there. Files whose names the pool
    /// has are passed over.
    ///
    /// Files are accepted only where no pass finds a fault. The error is `TooMany` exactly where
    /// the pool's files, types, extensions and services, and all that files declare which it has
    /// not, are 2^31 or more; else it lists exactly the faults of the first faulty pass, or is
    /// `Memory`. After a refusal the pool is as it was.
    fn build_files(
        &mut self,
        alloc: Global,
        files: Vec<FileDescriptorProto>,
    ) -> Result<(), DescriptorError>
        ensures unchanged { OnErr result (holds self.new ≡ holds self.old) }
        ensures grown { OnOk result (cut_to (holds self.new) (length (holds self.old).files)
            ≡ holds self.old) }
        ensures can_cut { OnOk result (StandsAlone
            (cut_to (holds self.new) (length (holds self.old).files))) }
        ensures added { OnOk result (AddsFiles (holds self.old) files.items (holds self.new)) }
        ensures accepted { OnOk result
            (FaultlessFiles (holds self.old) files.items (holds self.new)) }
        ensures refused { IfErr result (AreRefused (holds self.old) files.items) }
        ensures too_many { AreTooMany (holds self.old) files.items
            → IsErrAnd result (λ e. is_too_many e.first ≡ true) };

    /// Leaves the first so many files as they stand, and their names. Takes no memory.
    ///
    /// None of them may name a type of a file behind them, or import one, as is so of the files
    /// that were there before a call of `build_files`.
    fn cut(&mut self, mark: u32)
        requires { StandsAlone (cut_to (holds self.old) mark) }
        ensures { holds self.new ≡ cut_to (holds self.old) mark };

    /// Moves settled options, and the paths of locations that speak of them, into the files'
    /// records, one behind the other. An edit of a path that leads to nothing with options, or of a
    /// location that is not there, is passed over. Takes no memory; the types stay as they are,
    /// also what linking read from options for them.
    fn settle(&mut self, edits: Vec<Edit>)
        ensures settled { IsSettled (holds self.old) (holds self.new) }
        ensures names { map names_of_file (holds self.new).records
            ≡ map names_of_file (holds self.old).records }
        ensures bare { map bare_of (holds self.new).records
            ≡ map bare_of (holds self.old).records }
        ensures put { map file_view (holds self.new).records
            ≡ fold edited (map file_view (holds self.old).records) edits.items };
}

impl BuildFiles for DescriptorPool {
    ghost holds = { λ p. p };

    fn build_files(
        &mut self,
        alloc: Global,
        files: Vec<FileDescriptorProto>,
    ) -> Result<(), DescriptorError> {
        let mut parts = take_parts(self);
        let outcome = add_files(alloc, &mut parts, files);
        *self = DescriptorPool::from_parts(parts);
        outcome
    }

    fn cut(&mut self, mark: u32) {
        let mut parts = take_parts(self);
        cut_parts(&mut parts, mark);
        *self = DescriptorPool::from_parts(parts);
    }

    fn settle(&mut self, edits: Vec<Edit>) {
        let mut parts = take_parts(self);
        settle_all(&mut parts.tables, edits);
        *self = DescriptorPool::from_parts(parts);
    }
}
