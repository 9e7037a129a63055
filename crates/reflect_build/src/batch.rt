//! Adds a batch of files to the tables of a pool, or refuses it, and leaves the entries then.

ghost use Rattle.std.specs.Prelude.{◌≡◌, ◌+◌, ◌++◌, ◌<◌, ◌^◌, [], map, take, IfOk, IfErr, OnOk, OnErr, length};
ghost use Rattle.std.specs.List.{AllByRecursion};
ghost use Rattle.reflect_declarations.specs.Batches.{batch_declarations};
ghost use Rattle.reflect_scope.specs.FileIndexes.{indexes_of, KeepsIndexes, link_view};
ghost use Rattle.reflect_names.specs.ImportedFiles.{links_to};
ghost use Rattle.reflect_scope.specs.Known.{known_of, KeepsFirst};
ghost use Rattle.reflect_growth.specs.Cut.{cut_to};
ghost use Rattle.reflect_growth.specs.Growth.{Together, Appended};
ghost use Rattle.reflect_tables.specs.Types.{ArePooled, AreFew, ListsMembers};
ghost use Rattle.reflect_tables.specs.Views.{file_of, record_file, message_of, pool_of};
ghost use Rattle.reflect_tables.specs.Names.{messages, enums, extensions, services};
ghost use Rattle.reflect_known.specs.DeclaredNames.{with_names};
ghost use Rattle.reflect_index.specs.DraftNames.{stored_message_name, stored_enum_name, stored_extension_name, stored_service_name};
ghost use Rattle.reflect_passes.specs.Errors.{ListsFaults};
ghost use Rattle.reflect_tables.specs.ExtensionNumbers.{KeepsNumbers, numbers_of};
ghost use Rattle.reflect_pool.specs.Linked.{IsLinked, AreNumbered, key_of};
ghost use Rattle.reflect_pool.specs.Stored.{AreStored};
ghost use Rattle.reflect_build.specs.Refusals.{CountsOf, linking, FaultyBatch, Faulty};
ghost use Rattle.reflect_build.specs.Accepted.{AddsRecords, FaultlessBatch, Faultless, AddsNames};

use descriptor_records::FileDescriptorProto;
use name_table::NameTable;
use reflect_faults::Faults;
use reflect_growth::{append, are_from, are_within};
use reflect_index::rewritten;
use reflect_passes::{
    DescriptorError, LinkedTypes, add_links, check_numbers, declare_names, index_files,
    list_extensions, resolve_references, walk_error,
};
use reflect_scope::{Definition, ExtensionIndex, FileIndex, Links, MessageIndex};
use reflect_tables::{Counts, Tables};
use reflect_walk::{Offsets, VisitError};
use std::alloc::Global;
use std::collections::BTreeMap;

/// A count as the number of the next place.
pub fn next_place(count: usize) -> Result<FileIndex, VisitError>
    ensures { IfOk result (λ place. (place ≡ count) × (place < 2 ^ 31)) }
{
    match i32::try_from(count) {
        Ok(place) => Ok(place.unsigned_abs()),
        Err(_) => Err(VisitError::TooMany),
    }
}

/// Two counts together.
fn total(count: usize, more: usize) -> Result<u32, VisitError>
    ensures sum { IfOk result (λ place. place ≡ count + more) }
    ensures few { IfOk result (λ place. place < 2 ^ 31) }
{
    next_place(count.checked_add(more).ok_or(VisitError::TooMany)?)
}

/// How many entries there are with further ones.
fn counts_with(tables: &Tables, more: &Tables) -> Result<Counts, VisitError>
    ensures together { IfOk result (Together tables.now more.now) }
    ensures few { IfOk result AreFew }
{
    Ok(Counts {
        files: total(tables.files.len(), more.files.len())?,
        messages: total(tables.messages.len(), more.messages.len())?,
        enums: total(tables.enums.len(), more.enums.len())?,
        extensions: total(tables.extensions.len(), more.extensions.len())?,
        services: total(tables.services.len(), more.services.len())?,
    })
}

/// How many messages, enums, extensions and services there are.
pub fn offsets(tables: &Tables) -> Result<Offsets, VisitError>
    ensures { IfOk result (CountsOf (pool_of tables.now)) }
{
    Ok(Offsets {
        messages: next_place(tables.messages.len())?,
        enums: next_place(tables.enums.len())?,
        extensions: next_place(tables.extensions.len())?,
        services: next_place(tables.services.len())?,
    })
}

/// The passes over files whose names are declared, and at last the files themselves. A refusal may
/// leave some of the links and the numbers of extensions.
fn link_declared(
    alloc: Global,
    before: Offsets,
    first: FileIndex,
    files: Vec<FileDescriptorProto>,
    tables: &mut Tables,
    links: &mut Vec<Links>,
    file_names: &BTreeMap<String, FileIndex>,
    names: &NameTable<Definition>,
    extension_numbers: &mut BTreeMap<(MessageIndex, u32), ExtensionIndex>,
) -> Result<(), DescriptorError>
    requires pooled { ArePooled (pool_of tables.old) }
    requires numbered { AreNumbered (numbers_of extension_numbers.old)
        (map key_of (pool_of tables.old).extensions) }
    requires stored { AreStored (pool_of tables.old).records tables.old.messages.items }
    ensures unchanged { OnErr result (pool_of tables.new ≡ pool_of tables.old) }
    ensures same_messages { OnErr result (tables.new.messages.items ≡ tables.old.messages.items) }
    ensures grown { OnOk result (cut_to (pool_of tables.new) (length tables.old.files.items)
        ≡ pool_of tables.old) }
    ensures pooled { OnOk result (ArePooled (pool_of tables.new)) }
    ensures files { OnOk result (map file_of tables.new.files.items
        ≡ map file_of tables.old.files.items ++ map record_file files.items) }
    ensures messages { OnOk result
        (map stored_message_name tables.new.messages.items
        ≡ map stored_message_name tables.old.messages.items
        ++ with_names messages [] (batch_declarations before first files.items)) }
    ensures enums { OnOk result (map stored_enum_name tables.new.enums.items
        ≡ map stored_enum_name tables.old.enums.items
        ++ with_names enums [] (batch_declarations before first files.items)) }
    ensures extensions { OnOk result
        (map stored_extension_name tables.new.extensions.items
        ≡ map stored_extension_name tables.old.extensions.items
        ++ with_names extensions [] (batch_declarations before first files.items)) }
    ensures services { OnOk result
        (map stored_service_name tables.new.services.items
        ≡ map stored_service_name tables.old.services.items
        ++ with_names services [] (batch_declarations before first files.items)) }
    ensures records { OnOk result
        (AddsRecords (pool_of tables.old) files.items (pool_of tables.new)) }
    ensures kept_links { take (length links.old.items) links.new.items ≡ links.old.items }
    ensures linked { OnOk result (map link_view links.new.items ≡ map link_view links.old.items
        ++ map (links_to (indexes_of file_names.now)) files.items) }
    ensures kept_numbers { KeepsNumbers (length tables.old.extensions.items)
        (numbers_of extension_numbers.old) (numbers_of extension_numbers.new) }
    ensures numbered { OnOk result
        (AreNumbered (numbers_of extension_numbers.new)
        (map key_of (pool_of tables.new).extensions)) }
    ensures stored { OnOk result
        (AreStored (pool_of tables.new).records tables.new.messages.items) }
    ensures accepted { OnOk result
        (FaultlessBatch (linking file_names.now names.now links.old.items tables.old
        extension_numbers.old before first) files.items (pool_of tables.new)) }
    ensures refused { IfErr result
        (λ e. ListsFaults (FaultyBatch (linking file_names.now names.now links.old.items tables.old
        extension_numbers.old before first) files.items) e) }
{
    add_links(alloc, file_names, links, files.as_slice()).map_err(|error| walk_error(
        alloc, error,
    ))?;
    let references = resolve_references(
        alloc,
        before,
        first,
        files.as_slice(),
        names,
        links.as_slice(),
    )?;
    let batch = index_files(
        alloc,
        before,
        first,
        files.as_slice(),
        references.as_slice(),
    )
    .map_err(|error| walk_error(alloc, error))?;
    let types = LinkedTypes {
        old: &*tables,
        new: &batch,
    };
    check_numbers(
        alloc,
        before,
        first,
        files.as_slice(),
        references.as_slice(),
        &types,
    )?;
    list_extensions(
        alloc,
        &types,
        Faults::new(alloc, files.as_slice(), first),
        extension_numbers,
    )?;
    let more = batch
        .with_records(alloc, rewritten(files, references))
        .map_err(|error| walk_error(alloc, error))?;
    add(tables, more).map_err(|error| walk_error(alloc, error))
}

/// Adds the entries.
fn add(tables: &mut Tables, more: Tables) -> Result<(), VisitError>
    requires pooled { ArePooled (pool_of tables.old) }
    requires listed { AllByRecursion ListsMembers (map message_of more.messages.items) }
    ensures unchanged { OnErr result (pool_of tables.new ≡ pool_of tables.old) }
    ensures same_messages { OnErr result (tables.new.messages.items ≡ tables.old.messages.items) }
    ensures grown { OnOk result (cut_to (pool_of tables.new) (length tables.old.files.items)
        ≡ pool_of tables.old) }
    ensures pooled { OnOk result (ArePooled (pool_of tables.new)) }
    ensures appended { OnOk result (Appended tables.old more tables.new) }
{
    let first = next_place(tables.files.len())?;
    let counts = counts_with(tables, &more)?;
    if !are_within(&more, counts) {
        return Err(VisitError::TooMany);
    }
    if !are_from(&more, first) {
        return Err(VisitError::TooMany);
    }
    append(tables, more)?;
    Ok(())
}

/// Declares the names of the files, and adds these with what they declare. A refusal may leave some
/// of the names.
pub fn link(
    alloc: Global,
    before: Offsets,
    first: FileIndex,
    files: Vec<FileDescriptorProto>,
    tables: &mut Tables,
    links: &mut Vec<Links>,
    file_names: &mut BTreeMap<String, FileIndex>,
    names: &mut NameTable<Definition>,
    extension_numbers: &mut BTreeMap<(MessageIndex, u32), ExtensionIndex>,
) -> Result<(), DescriptorError>
    requires linked { IsLinked (pool_of tables.old) names.old file_names.old extension_numbers.old
        links.old.items tables.old.messages.items }
    requires before { CountsOf (pool_of tables.old) before }
    requires first { first ≡ length tables.old.files.items }
    ensures unchanged { OnErr result (pool_of tables.new ≡ pool_of tables.old) }
    ensures same_messages { OnErr result (tables.new.messages.items ≡ tables.old.messages.items) }
    ensures kept { KeepsFirst first (known_of names.old) (known_of names.new) }
    ensures kept_files { KeepsIndexes first (indexes_of file_names.old)
        (indexes_of file_names.new) }
    ensures grown { OnOk result (cut_to (pool_of tables.new) (length tables.old.files.items)
        ≡ pool_of tables.old) }
    ensures kept_links { take (length links.old.items) links.new.items ≡ links.old.items }
    ensures kept_numbers { KeepsNumbers (length tables.old.extensions.items)
        (numbers_of extension_numbers.old) (numbers_of extension_numbers.new) }
    ensures linked { OnOk result (IsLinked (pool_of tables.new) names.new file_names.new
        extension_numbers.new links.new.items tables.new.messages.items) }
    ensures added { OnOk result (AddsNames
        (linking file_names.old names.old links.old.items tables.old extension_numbers.old before
        first) files.items (pool_of tables.new)) }
    ensures accepted { OnOk result
        (Faultless (linking file_names.old names.old links.old.items tables.old
        extension_numbers.old before first) files.items (pool_of tables.new)) }
    ensures refused { IfErr result
        (λ e. ListsFaults (Faulty (linking file_names.old names.old links.old.items tables.old
        extension_numbers.old before first) files.items) e) }
{
    declare_names(alloc, before, first, files.as_slice(), file_names, names)?;
    link_declared(
        alloc,
        before,
        first,
        files,
        tables,
        links,
        &*file_names,
        &*names,
        extension_numbers,
    )
}
