//! The walk through a file, message by message.

ghost use Rattle.std.specs.Prelude.{◌≡◌, length, map, OnOk, IfOk};
ghost use Rattle.reflect_declarations.specs.Tree.{parts_of, tree_of, messages_of};
ghost use Rattle.reflect_declarations.specs.Declarations.{Runs, past_enums, past_extensions, past_services, past_tree, past_trees, past_file, tree_declarations, trees_declarations, file_declarations};
ghost use Rattle.reflect_walk.specs.Items.{message_items, file_items};

use crate::item::visit_items;
use crate::part::visit_parts;
use crate::place::{entry_path, name_in, next_index};
use crate::visit_error::VisitError;
use crate::visitor::Visitor;
use descriptor_records::{DescriptorProto, FileDescriptorProto, tag, text_of};
use reflect_declarations::Offsets;
use reflect_scope::{FileIndex, MessageIndex};
use std::alloc::Global;

#[cycle(messages)]
fn visit_message<V: Visitor>(
    alloc: Global,
    visitor: &mut V,
    offsets: &mut Offsets,
    path: &[i32],
    scope: &str,
    file: FileIndex,
    parent: Option<MessageIndex>,
    message: &DescriptorProto,
) -> Result<(), VisitError>
    ensures runs { OnOk result (Runs V.steps visitor.old
        (tree_declarations path.now scope.now file parent offsets.old (tree_of message.now))
        visitor.new) }
    ensures counts { OnOk result (offsets.new ≡ past_tree offsets.old (tree_of message.now)) }
    ensures keeps { V.kept file visitor.old visitor.new }
{
    let full_name = name_in(alloc, scope, &message.name)?;
    let inner = full_name.as_str();
    let number = next_index(&mut offsets.messages)?;
    visitor.visit_message(alloc, path, inner, file, parent, number, message)?;
    visit_parts(alloc, visitor, path, inner, file, number, &message.field)?;
    visit_messages(
        alloc,
        visitor,
        offsets,
        path,
        tag::message::NESTED_TYPE,
        inner,
        file,
        Some(number),
        &message.nested_type,
    )?;
    visit_message_items(alloc, visitor, offsets, path, inner, file, number, message)?;
    visit_parts(
        alloc,
        visitor,
        path,
        inner,
        file,
        number,
        &message.oneof_decl,
    )?;
    Ok(())
}

#[cycle(messages)]
fn visit_messages<V: Visitor>(
    alloc: Global,
    visitor: &mut V,
    offsets: &mut Offsets,
    path: &[i32],
    tag: i32,
    scope: &str,
    file: FileIndex,
    parent: Option<MessageIndex>,
    messages: &Vec<DescriptorProto>,
) -> Result<(), VisitError>
    ensures runs { OnOk result (Runs V.steps visitor.old
        (trees_declarations path.now tag scope.now file parent 0 offsets.old
        (messages_of (map tree_of messages.now.items))) visitor.new) }
    ensures counts { OnOk result (offsets.new
        ≡ past_trees offsets.old (messages_of (map tree_of messages.now.items))) }
    ensures keeps { V.kept file visitor.old visitor.new }
{
    'turns: for (at, message) in messages.iter().enumerate() {
        let place = entry_path(alloc, path, tag, at)?;
        visit_message(
            alloc,
            visitor,
            offsets,
            place.as_slice(),
            scope,
            file,
            parent,
            message,
        )?;
    }
    Ok(())
}

/// Calls the visitor at each declaration of the file at index `file_index`: a declaration before
/// its parts, and parts by the number that stands for them in a path, those of one number in their
/// order.
///
/// `offsets` counts what is declared in the files before; the answer counts this file's
/// declarations too. An index past `i32::MAX` is `TooMany`; the visitor may then have been called.
pub fn visit<V: Visitor>(
    alloc: Global,
    offsets: Offsets,
    file_index: FileIndex,
    file: &FileDescriptorProto,
    visitor: &mut V,
) -> Result<Offsets, VisitError>
    ensures runs { OnOk result (Runs V.steps visitor.old
        (file_declarations offsets file_index file.now) visitor.new) }
    ensures counts { IfOk result (λ o. o ≡ past_file offsets file.now) }
    ensures keeps { V.kept file_index visitor.old visitor.new }
{
    let mut offsets = offsets;
    let scope = text_of(&file.package);
    visitor.visit_file(alloc, &[], file_index, file)?;
    visit_messages(
        alloc,
        visitor,
        &mut offsets,
        &[],
        tag::file::MESSAGE_TYPE,
        scope,
        file_index,
        None,
        &file.message_type,
    )?;
    visit_file_items(alloc, visitor, &mut offsets, scope, file_index, file)?;
    Ok(offsets)
}

/// Visits the enums and the extensions of a message.
fn visit_message_items<V: Visitor>(
    alloc: Global,
    visitor: &mut V,
    offsets: &mut Offsets,
    path: &[i32],
    scope: &str,
    file: FileIndex,
    index: MessageIndex,
    message: &DescriptorProto,
) -> Result<(), VisitError>
    ensures runs { OnOk result (Runs V.steps visitor.old
        (message_items path.now scope.now file index offsets.old (parts_of message.now))
        visitor.new) }
    ensures counts { OnOk result (offsets.new ≡ past_extensions
        (past_enums offsets.old (length (parts_of message.now).enum_type))
        (length (parts_of message.now).extension)) }
    ensures keeps { V.kept file visitor.old visitor.new }
{
    visit_items(
        alloc,
        visitor,
        &mut offsets.enums,
        path,
        tag::message::ENUM_TYPE,
        scope,
        file,
        Some(index),
        &message.enum_type,
    )?;
    visit_items(
        alloc,
        visitor,
        &mut offsets.extensions,
        path,
        tag::message::EXTENSION,
        scope,
        file,
        Some(index),
        &message.extension,
    )?;
    Ok(())
}

/// Visits the enums, the services and the extensions of a file.
fn visit_file_items<V: Visitor>(
    alloc: Global,
    visitor: &mut V,
    offsets: &mut Offsets,
    scope: &str,
    file_index: FileIndex,
    file: &FileDescriptorProto,
) -> Result<(), VisitError>
    ensures runs { OnOk result (Runs V.steps visitor.old
        (file_items scope.now file_index offsets.old file.now) visitor.new) }
    ensures counts { OnOk result (offsets.new ≡ past_extensions
        (past_services (past_enums offsets.old (length file.now.enum_type.items))
        (length file.now.service.items)) (length file.now.extension.items)) }
    ensures keeps { V.kept file_index visitor.old visitor.new }
{
    visit_items(
        alloc,
        visitor,
        &mut offsets.enums,
        &[],
        tag::file::ENUM_TYPE,
        scope,
        file_index,
        None,
        &file.enum_type,
    )?;
    visit_items(
        alloc,
        visitor,
        &mut offsets.services,
        &[],
        tag::file::SERVICE,
        scope,
        file_index,
        None,
        &file.service,
    )?;
    visit_items(
        alloc,
        visitor,
        &mut offsets.extensions,
        &[],
        tag::file::EXTENSION,
        scope,
        file_index,
        None,
        &file.extension,
    )?;
    Ok(())
}
