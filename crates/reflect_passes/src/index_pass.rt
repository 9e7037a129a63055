//! The entries of a batch of files, and what they import.

ghost use Rattle.std.specs.Prelude.{◌≡◌, ◌++◌, [], length, map, take, OnOk, IfOk};
ghost use Rattle.reflect_declarations.specs.Batches.{batch_declarations};
ghost use Rattle.reflect_scope.specs.FileIndexes.{indexes_of, link_view};
ghost use Rattle.reflect_names.specs.ImportedFiles.{links_to};
ghost use Rattle.std.specs.List.{AllByRecursion};
ghost use Rattle.reflect_tables.specs.Types.{ListsMembers};
ghost use Rattle.reflect_tables.specs.Views.{message_of};
ghost use Rattle.reflect_tables.specs.Names.{messages, enums, extensions, services};
ghost use Rattle.reflect_known.specs.DeclaredNames.{with_names};
ghost use Rattle.reflect_index.specs.OfDeclarations.{AllDeclared, messages_in, enums_in, stored_ranges, stored_values, declared_values};
ghost use Rattle.reflect_index.specs.BatchEntries.{IsBatchOf};
ghost use Rattle.reflect_index.specs.DraftNames.{stored_message_name, stored_enum_name, stored_extension_name, stored_service_name};

use descriptor_records::FileDescriptorProto;
use reflect_index::{Batch, IndexVisitor};
use reflect_names::{Reference, links_of};
use reflect_scope::{FileIndex, Links};
use reflect_walk::{Offsets, VisitError, visit_all};
use std::alloc::Global;
use std::collections::BTreeMap;

/// The entries of the files' declarations, whose references mean this: each is that of its
/// declaration, and none is missing. Message types have the ranges of theirs, and enums the values;
/// messages and files list what they declare themselves.
pub fn index_files(
    alloc: Global,
    before: Offsets,
    first: FileIndex,
    files: &[FileDescriptorProto],
    references: &[Reference],
) -> Result<Batch, VisitError>
    ensures messages { IfOk result
        (λ b. map stored_message_name b.messages.items
        ≡ with_names messages [] (batch_declarations before first files.now)) }
    ensures listed { IfOk result (λ b. AllByRecursion ListsMembers
        (map message_of b.messages.items)) }
    ensures enums { IfOk result (λ b. map stored_enum_name b.enums.items
        ≡ with_names enums [] (batch_declarations before first files.now)) }
    ensures extensions { IfOk result
        (λ b. map stored_extension_name b.extensions.items
        ≡ with_names extensions [] (batch_declarations before first files.now)) }
    ensures services { IfOk result
        (λ b. map stored_service_name b.services.items
        ≡ with_names services [] (batch_declarations before first files.now)) }
    ensures ranges { IfOk result (λ b. AllDeclared
        (messages_in (batch_declarations before first files.now))
        (map stored_ranges b.messages.items)) }
    ensures values { IfOk result (λ b. map stored_values b.enums.items
        ≡ map declared_values (enums_in (batch_declarations before first files.now))) }
    ensures entries { IfOk result (IsBatchOf references.now before first
        (batch_declarations before first files.now)) }
{
    let mut visitor = IndexVisitor::new(alloc, before, first, references);
    visit_all(alloc, before, first, files, &mut visitor)?;
    visitor.into_batch(alloc)
}

/// Adds what the new files import, by the indexes that the map has for the names, behind what is
/// there. A refusal may leave some of it.
pub fn add_links(
    alloc: Global,
    file_names: &BTreeMap<String, FileIndex>,
    links: &mut Vec<Links>,
    files: &[FileDescriptorProto],
) -> Result<(), VisitError>
    ensures added { OnOk result (map link_view links.new.items ≡ map link_view links.old.items
        ++ map (links_to (indexes_of file_names.now)) files.now) }
    ensures kept { take (length links.old.items) links.new.items ≡ links.old.items }
{
    'turns: for file in files {
        let link = links_of(alloc, file_names, file)?;
        links.push(link)?;
    }
    Ok(())
}
