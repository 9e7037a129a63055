//! The records of messages, and of the types in them.

ghost use Rattle.std.specs.Prelude.{IfOk, OnOk, map};
ghost use Rattle.std.specs.List.{flat_map};
ghost use Rattle.descriptor_records.specs.Content.{message_view, messages_of};
ghost use Rattle.protox_message_records.specs.MessageRecords as messages;

use crate::item::{
    enums, extension_ranges, oneofs, options, own_extensions, reserved_names, reserved_ranges,
};
use crate::member::fields;
use crate::synthetic::synthetic_oneofs;
use descriptor_records::DescriptorProto;
use protox_field_records::entry_record;
use protox_tree::{
    Extend, ExtendItem, Field, FieldKind, Message, MessageItem, Oneof, OneofItem, Syntax,
};
use std::alloc::{AllocError, Global};

/// The record of a message.
#[cycle(build)]
pub fn message_record(
    alloc: Global,
    syntax: Syntax,
    message: &Message,
) -> Result<DescriptorProto, AllocError>
    ensures { IfOk result (λ made. messages.IsType syntax (messages.type_of_message message.now)
        (message_view made)) }
{
    type_record(alloc, syntax, message.name.value.as_str(), &message.items)
}

/// A message or the type of a group.
#[cycle(build)]
fn type_record(
    alloc: Global,
    syntax: Syntax,
    name: &str,
    items: &Vec<MessageItem>,
) -> Result<DescriptorProto, AllocError>
    ensures { IfOk result (λ made. messages.IsType syntax
        (messages.of_items name.now items.now.items) (message_view made)) }
{
    let nested_type = nested_types(alloc, syntax, items)?;
    message_of(alloc, syntax, name, items, nested_type)
}

/// The record of a message in which these types are.
fn message_of(
    alloc: Global,
    syntax: Syntax,
    name: &str,
    items: &Vec<MessageItem>,
    nested_type: Vec<DescriptorProto>,
) -> Result<DescriptorProto, AllocError>
    ensures { IfOk result (λ made. messages.IsMessage syntax name.now items.now.items
        (messages_of (map message_view nested_type.items)) (message_view made)) }
{
    let oneof_decl = oneofs(alloc, items)?;
    let mut record = DescriptorProto {
        name: Some(String::from_str(alloc, name)?),
        field: fields(alloc, syntax, oneof_decl.len(), items)?,
        extension: own_extensions(alloc, items)?,
        nested_type,
        enum_type: enums(alloc, items)?,
        extension_range: extension_ranges(alloc, items)?,
        oneof_decl,
        options: options(alloc, items)?,
        reserved_range: reserved_ranges(alloc, items)?,
        reserved_name: reserved_names(alloc, items)?,
    };
    let mut more = synthetic_oneofs(alloc, syntax, items, &record)?;
    record.oneof_decl.append(&mut more)?;
    Ok(record)
}

/// The types that are declared in a message.
#[cycle(build)]
fn nested_types(
    alloc: Global,
    syntax: Syntax,
    items: &Vec<MessageItem>,
) -> Result<Vec<DescriptorProto>, AllocError>
    ensures { IfOk result (λ types. messages.AreTypes syntax
        (flat_map messages.types_at items.now.items) (messages_of (map message_view types.items))) }
{
    let mut types = Vec::new(alloc);
    'each: for item in items {
        add_types(alloc, syntax, item, &mut types)?;
    }
    Ok(types)
}

/// Adds the types that an item declares.
#[cycle(build)]
fn add_types(
    alloc: Global,
    syntax: Syntax,
    item: &MessageItem,
    types: &mut Vec<DescriptorProto>,
) -> Result<(), AllocError>
    ensures { OnOk result (messages.AddsTypes syntax (messages.types_at item.now)
        (map message_view types.old.items) (map message_view types.new.items)) }
{
    match item {
        MessageItem::Field(field) => add_type(alloc, syntax, field, types),
        MessageItem::Oneof(oneof) => types_of_oneof(alloc, syntax, oneof, types),
        MessageItem::Message(message) => {
            types.push(message_record(alloc, syntax, message)?)?;
            Ok(())
        }
        MessageItem::Extend(extend) => types_of_extend(alloc, syntax, extend, types),
        _ => Ok(()),
    }
}

/// Adds the type of a group, or of a map's entries.
#[cycle(build)]
fn add_type(
    alloc: Global,
    syntax: Syntax,
    field: &Field,
    types: &mut Vec<DescriptorProto>,
) -> Result<(), AllocError>
    ensures { OnOk result (messages.AddsTypes syntax (messages.types_of_field field.now)
        (map message_view types.old.items) (map message_view types.new.items)) }
{
    let name = field.name.value.as_str();
    match &field.kind {
        FieldKind::Normal(_) => Ok(()),
        FieldKind::Group(group) => {
            types.push(type_record(alloc, syntax, name, &group.items)?)?;
            Ok(())
        }
        FieldKind::Map(map) => {
            types.push(entry_record(alloc, name, map)?)?;
            Ok(())
        }
    }
}

#[cycle(build)]
fn types_of_oneof(
    alloc: Global,
    syntax: Syntax,
    oneof: &Oneof,
    types: &mut Vec<DescriptorProto>,
) -> Result<(), AllocError>
    ensures { OnOk result (messages.AddsTypes syntax (messages.types_of_oneof oneof.now)
        (map message_view types.old.items) (map message_view types.new.items)) }
{
    'each: for item in &oneof.items {
        let OneofItem::Field(field) = item else {
            continue;
        };
        add_type(alloc, syntax, field, types)?;
    }
    Ok(())
}

/// Adds the types that the fields of an `extend` statement declare.
#[cycle(build)]
pub fn types_of_extend(
    alloc: Global,
    syntax: Syntax,
    extend: &Extend,
    types: &mut Vec<DescriptorProto>,
) -> Result<(), AllocError>
    ensures { OnOk result (messages.AddsTypes syntax (messages.types_of_extend extend.now)
        (map message_view types.old.items) (map message_view types.new.items)) }
{
    'each: for item in &extend.items {
        let ExtendItem::Field(field) = item else {
            continue;
        };
        add_type(alloc, syntax, field, types)?;
    }
    Ok(())
}
