//! What is known of a type once all of it was visited: what its parts are looked up by, members of
//! oneofs, a map entry's parts.

ghost use Rattle.std.specs.Prelude.{◌≡◌, [], map, OnOk, IfOk};
ghost use Rattle.reflect_index.specs.Finished.{IsFinished, IsFinishedEnum, FinishedMessages, FinishedEnums};
ghost use Rattle.reflect_index.specs.Entry.{IsEntryOf};
ghost use Rattle.reflect_index.specs.Members.{Joins, AreMarked, is_lone, oneof_members};
ghost use Rattle.reflect_tables.specs.Types.{AreListed};
ghost use Rattle.reflect_tables.specs.Views.{field_of, oneof_of};
ghost use Rattle.reflect_index.specs.Grown.{oneof_name};

use crate::drafts::{EnumDraft, MessageDraft};
use crate::index::{field_list, value_list};
use reflect_tables::{FieldList, StoredEntry, StoredEnum, StoredField, StoredMessage, StoredOneof};
use reflect_walk::VisitError;
use std::alloc::{AllocError, Global};

/// The key and the value, where the type is one of a map's entries: its fields of the numbers 1 and
/// 2 (protobuf.dev, "Language Guide (proto 3)", "Maps").
fn entry_of(is_entry: bool, fields: &FieldList) -> Option<StoredEntry>
    ensures { IsEntryOf is_entry (map field_of fields.now.list.items) result }
{
    if !is_entry {
        return None;
    }
    Some(StoredEntry {
        key: fields.of_number(1)?,
        value: fields.of_number(2)?,
    })
}

/// Leaves the oneofs without members.
fn forget_members(oneofs: &mut Vec<StoredOneof>)
    ensures listed { AreListed (map oneof_of oneofs.new.items) [] }
    ensures names { map oneof_name oneofs.new.items ≡ map oneof_name oneofs.old.items }
{
    'turns: for place in 0..oneofs.len() {
        oneofs[place].fields.clear();
    }
}

/// Lists the field at a place in its oneof, if it is in one.
fn add_member(
    oneofs: &mut Vec<StoredOneof>,
    field: &StoredField,
    place: u32,
) -> Result<(), AllocError>
    ensures joins { OnOk result (Joins (field_of field.now) place (map oneof_of oneofs.old.items)
        (map oneof_of oneofs.new.items)) }
    ensures names { OnOk result (map oneof_name oneofs.new.items
        ≡ map oneof_name oneofs.old.items) }
{
    let Some(index) = field.oneof else {
        return Ok(());
    };
    let index = index as usize;
    if index < oneofs.len() {
        oneofs[index].fields.push(place)?;
    }
    Ok(())
}

/// Lists the members of each oneof.
fn list_members(fields: &[StoredField], oneofs: &mut Vec<StoredOneof>) -> Result<(), VisitError>
    ensures listed { OnOk result (AreListed (map oneof_of oneofs.new.items)
        (map field_of fields.now)) }
    ensures names { OnOk result (map oneof_name oneofs.new.items
        ≡ map oneof_name oneofs.old.items) }
{
    forget_members(oneofs);
    let mut place: u32 = 0;
    'turns: for field in fields {
        add_member(oneofs, field, place)?;
        place = place.checked_add(1).ok_or(VisitError::TooMany)?;
    }
    Ok(())
}

/// The only member is a field that was declared `optional` in a proto3 file.
fn is_lone(fields: &[StoredField], members: &[u32]) -> bool
    ensures { result ≡ is_lone fields.now members.now }
{
    match members {
        [place] => match fields.get(*place as usize) {
            Some(field) => field.is_proto3_optional,
            None => false,
        },
        _ => false,
    }
}

/// Marks the oneofs that stand for one field, and no others (descriptor.proto, `proto3_optional`).
fn mark_oneofs(fields: &[StoredField], oneofs: &mut Vec<StoredOneof>)
    ensures marked { AreMarked fields.now oneofs.new.items }
    ensures members { map oneof_members oneofs.new.items ≡ map oneof_members oneofs.old.items }
    ensures names { map oneof_name oneofs.new.items ≡ map oneof_name oneofs.old.items }
{
    'turns: for place in 0..oneofs.len() {
        let is_synthetic = is_lone(fields, oneofs[place].fields.as_slice());
        oneofs[place].is_synthetic = is_synthetic;
    }
}

fn finished_message(alloc: Global, draft: MessageDraft) -> Result<StoredMessage, VisitError>
    ensures { IfOk result (IsFinished draft) }
{
    let MessageDraft {
        file,
        parent,
        path,
        name,
        full_name,
        is_entry,
        fields,
        mut oneofs,
        children,
        reserved_numbers,
        extension_numbers,
    } = draft;
    list_members(fields.as_slice(), &mut oneofs)?;
    mark_oneofs(fields.as_slice(), &mut oneofs);
    let fields = field_list(alloc, fields)?;
    let entry = entry_of(is_entry, &fields);
    Ok(StoredMessage {
        file,
        parent,
        path,
        name,
        full_name,
        is_entry,
        entry,
        fields,
        oneofs,
        children,
        reserved_numbers,
        extension_numbers,
    })
}

fn finished_enum(alloc: Global, draft: EnumDraft) -> Result<StoredEnum, VisitError>
    ensures { IfOk result (IsFinishedEnum draft) }
{
    let EnumDraft {
        file,
        parent,
        path,
        name,
        full_name,
        values,
    } = draft;
    Ok(StoredEnum {
        file,
        parent,
        path,
        name,
        full_name,
        values: value_list(alloc, values)?,
    })
}

/// The messages with all that is known of them.
pub fn finished_messages(
    alloc: Global,
    drafts: Vec<MessageDraft>,
) -> Result<Vec<StoredMessage>, VisitError>
    ensures { IfOk result (λ v. FinishedMessages drafts.items v.items) }
{
    let mut messages = Vec::with_capacity(alloc, drafts.len())?;
    for draft in drafts {
        messages.push(finished_message(alloc, draft)?)?;
    }
    Ok(messages)
}

/// The enums with all that is known of them.
pub fn finished_enums(alloc: Global, drafts: Vec<EnumDraft>) -> Result<Vec<StoredEnum>, VisitError>
    ensures { IfOk result (λ v. FinishedEnums drafts.items v.items) }
{
    let mut enums = Vec::with_capacity(alloc, drafts.len())?;
    for draft in drafts {
        enums.push(finished_enum(alloc, draft)?)?;
    }
    Ok(enums)
}
