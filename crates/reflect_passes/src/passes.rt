//! The passes over a batch of files, each of which lists all faults that it finds.

ghost use Rattle.std.specs.Prelude.{◌≡◌, ◌∷◌, [], length, map, OnOk, IfOk, IfErr};
ghost use Rattle.reflect_declarations.specs.Batches.{batch_declarations};
ghost use Rattle.reflect_faults.specs.Faults.{fault_view, list_of, of_walk, another, batch_places};
ghost use Rattle.reflect_scope.specs.FileIndexes.{indexes_of, KeepsIndexes};
ghost use Rattle.reflect_names.specs.FileNames.{with_files};
ghost use Rattle.reflect_scope.specs.Known.{known_of};
ghost use Rattle.reflect_known.specs.KnownNames.{known_behind};
ghost use Rattle.reflect_names.specs.NameSteps.{KeepsFrom};
ghost use Rattle.reflect_names.specs.ReferencePass.{BatchReferences};
ghost use Rattle.reflect_names.specs.ReferenceSteps.{target_of};
ghost use Rattle.reflect_rules.specs.RulePass.{BatchFaults};
ghost use Rattle.reflect_passes.specs.Linked.{linked_says, linked_values};
ghost use Rattle.reflect_passes.specs.Errors.{faults_of, ListsFaults};
ghost use Rattle.reflect_passes.specs.NameFaults.{name_faults, ReferenceFaults};

use crate::error::DescriptorError;
use crate::linked_types::LinkedTypes;
use descriptor_records::FileDescriptorProto;
use name_table::NameTable;
use reflect_faults::{DescriptorErrorKind, Faults};
use reflect_names::{NameVisitor, Reference, ResolveVisitor, name_files};
use reflect_rules::check_rules;
use reflect_scope::{Definition, FileIndex, Links};
use reflect_walk::{Offsets, VisitError};
use std::alloc::Global;
use std::collections::BTreeMap;
use std::mem;

/// The error of a walk that ended early.
pub fn walk_error(alloc: Global, error: VisitError) -> DescriptorError
    ensures first { result.first ≡ of_walk error }
    ensures alone { faults_of result ≡ another ∷ [] }
{
    DescriptorError::new(alloc, DescriptorErrorKind::from(error))
}

/// Ok where there are no faults, else the error that lists them.
fn none_of(faults: Vec<DescriptorErrorKind>) -> Result<(), DescriptorError>
    ensures ok { OnOk result (faults.items ≡ []) }
    ensures err { IfErr result (λ e. faults_of e ≡ map fault_view faults.items) }
{
    match DescriptorError::from_list(faults) {
        Some(error) => Err(error),
        None => Ok(()),
    }
}

/// Ok where no faults were met, else the error that lists them.
pub fn without_faults(faults: Faults<'_>) -> Result<(), DescriptorError>
    ensures ok { OnOk result (list_of faults.entry ≡ []) }
    ensures err { IfErr result (λ e. faults_of e ≡ list_of faults.entry) }
{
    none_of(faults.into_list())
}

/// Declares the names of the files, and puts their own names into the map of those. Refused where a
/// name is missing or taken, or where a file lacks or misnames something that is found by its name
/// or by its record alone, with all of these faults.
///
/// Want of memory, or an index past the last, is alone. After a refusal both maps may have some of
/// the names of these files.
pub fn declare_names(
    alloc: Global,
    before: Offsets,
    first: FileIndex,
    files: &[FileDescriptorProto],
    file_names: &mut BTreeMap<String, FileIndex>,
    names: &mut NameTable<Definition>,
) -> Result<(), DescriptorError>
    ensures ok { OnOk result (name_faults (indexes_of file_names.old) (known_of names.old) before
        first files.now ≡ []) }
    ensures files { OnOk result (indexes_of file_names.new
        ≡ with_files (indexes_of file_names.old) first files.now) }
    ensures names { OnOk result (known_of names.new
        ≡ known_behind (known_of names.old) (batch_declarations before first files.now)) }
    ensures err { IfErr result (λ e. ListsFaults
        (λ xs. xs ≡ name_faults (indexes_of file_names.old) (known_of names.old) before first
        files.now) e) }
    ensures keeps { KeepsFrom first (length files.now) (known_of names.old) (known_of names.new) }
    ensures keeps_files { KeepsIndexes first (indexes_of file_names.old)
        (indexes_of file_names.new) }
{
    let mut faults = Faults::new(alloc, files, first);
    if let Err(error) = name_files(alloc, file_names, first, files, &mut faults) {
        return Err(walk_error(alloc, error));
    }
    let known = mem::replace(names, NameTable::new(alloc));
    let mut visitor = NameVisitor::new(known, faults, &*file_names);
    let declared = visitor.declare_files(alloc, before, first, files);
    let (all, faults) = visitor.into_parts();
    *names = all;
    match declared {
        Ok(_) => without_faults(faults),
        Err(error) => Err(walk_error(alloc, error)),
    }
}

/// What the files' references mean, in the order in which a walk meets them, or the faults of those
/// that mean nothing of the kind that they need. Want of memory, or an index past the last, is
/// alone.
pub fn resolve_references(
    alloc: Global,
    before: Offsets,
    first: FileIndex,
    files: &[FileDescriptorProto],
    names: &NameTable<Definition>,
    links: &[Links],
) -> Result<Vec<Reference>, DescriptorError>
    ensures ok { IfOk result (λ references. BatchReferences (known_of names.now) links.now
        (batch_places files.now first) before first files.now (map target_of references.items) []) }
    ensures err { IfErr result (λ e. ListsFaults
        (λ xs. ReferenceFaults (known_of names.now) links.now before first files.now xs) e) }
{
    let faults = Faults::new(alloc, files, first);
    let mut visitor = ResolveVisitor::new(alloc, faults, names, links);
    if let Err(error) = visitor.resolve_files(alloc, before, first, files) {
        return Err(walk_error(alloc, error));
    }
    let (references, faults) = visitor.into_parts();
    without_faults(faults)?;
    Ok(references)
}

/// Ok where the files, whose references mean this, break no rule of numbers, defaults, oneof
/// indexes and map entries, else all that is wrong with them. Want of memory, or an index past the
/// last, is alone.
pub fn check_numbers(
    alloc: Global,
    before: Offsets,
    first: FileIndex,
    files: &[FileDescriptorProto],
    references: &[Reference],
    types: &LinkedTypes<'_>,
) -> Result<(), DescriptorError>
    ensures ok { OnOk result (BatchFaults (linked_says types.now) (linked_values types.now) before
        first files.now references.now []) }
    ensures err { IfErr result (λ e. ListsFaults
        (λ xs. BatchFaults (linked_says types.now) (linked_values types.now) before first files.now
        references.now xs) e) }
{
    match check_rules(alloc, before, first, files, references, types) {
        Ok(faults) => none_of(faults),
        Err(error) => Err(walk_error(alloc, error)),
    }
}
