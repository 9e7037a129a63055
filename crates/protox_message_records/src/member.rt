//! The fields of messages, each with the place of its oneof.

ghost use Rattle.std.specs.Prelude.{◌≡◌, ◌≤◌, ◌++◌, IfOk, OnOk, length, map};
ghost use Rattle.std.specs.List.{flat_map};
ghost use Rattle.descriptor_records.specs.Content.{field_view};
ghost use Rattle.protox_message_records.specs.MessageRecords as messages;

use descriptor_records::{FieldDescriptorProto, Label};
use protox_field_records::{field_record, index};
use protox_lex::Span;
use protox_tree::{Field, MessageItem, Oneof, OneofItem, Syntax};
use std::alloc::{AllocError, Global};

/// The fields of a message, those of its oneofs too. Behind its own oneofs, which are so many,
/// stand those of its `optional` fields.
pub fn fields(
    alloc: Global,
    syntax: Syntax,
    own: usize,
    items: &Vec<MessageItem>,
) -> Result<Vec<FieldDescriptorProto>, AllocError>
    ensures { IfOk result (λ fields. map field_view fields.items
        ≡ messages.fields_from syntax 0 own items.now.items) }
{
    let mut fields = Vec::new(alloc);
    let mut next = 0;
    let mut behind = own;
    'each: for item in items {
        add_fields(alloc, syntax, next, behind, item, &mut fields)?;
        next += oneofs_in(item);
        behind = behind.saturating_add(optional_fields_in(syntax, item));
    }
    Ok(fields)
}

/// How many oneofs an item is.
fn oneofs_in(item: &MessageItem) -> usize
    ensures is { result ≡ length (messages.oneof_at item.now) }
    ensures one { result ≤ 1 }
{
    match item {
        MessageItem::Oneof(_) => 1,
        _ => 0,
    }
}

/// How many fields an item is that have a oneof of their own.
fn optional_fields_in(syntax: Syntax, item: &MessageItem) -> usize
    ensures is { result ≡ length (messages.alone_at syntax item.now) }
    ensures one { result ≤ 1 }
{
    match item {
        MessageItem::Field(field) => usize::from(tells_presence(syntax, field.label)),
        _ => 0,
    }
}

/// Adds the fields of an item, where so many oneofs stand before it.
fn add_fields(
    alloc: Global,
    syntax: Syntax,
    next: usize,
    behind: usize,
    item: &MessageItem,
    fields: &mut Vec<FieldDescriptorProto>,
) -> Result<(), AllocError>
    ensures { OnOk result (map field_view fields.new.items ≡ map field_view fields.old.items
        ++ messages.fields_at syntax next behind item.now) }
{
    match item {
        MessageItem::Field(field) => {
            let field = own_field(alloc, syntax, index(behind), field)?;
            fields.push(field)?;
            Ok(())
        }
        MessageItem::Oneof(oneof) => add_members(alloc, syntax, index(next), oneof, fields),
        _ => Ok(()),
    }
}

/// A field that is in no oneof, or in this one alone.
fn own_field(
    alloc: Global,
    syntax: Syntax,
    place: i32,
    field: &Field,
) -> Result<FieldDescriptorProto, AllocError>
    ensures { IfOk result (λ made. field_view made ≡ messages.own_field syntax place field.now) }
{
    if tells_presence(syntax, field.label) {
        field_in(alloc, syntax, Some(place), field)
    } else {
        field_in(alloc, syntax, None, field)
    }
}

fn add_members(
    alloc: Global,
    syntax: Syntax,
    place: i32,
    oneof: &Oneof,
    fields: &mut Vec<FieldDescriptorProto>,
) -> Result<(), AllocError>
    ensures { OnOk result (map field_view fields.new.items ≡ map field_view fields.old.items
        ++ flat_map (messages.member_at syntax place) oneof.now.items.items) }
{
    'each: for item in &oneof.items {
        let OneofItem::Field(field) = item else {
            continue;
        };
        fields.push(field_in(alloc, syntax, Some(place), field)?)?;
    }
    Ok(())
}

/// A field of a message, in this oneof if it is in one.
fn field_in(
    alloc: Global,
    syntax: Syntax,
    oneof: Option<i32>,
    field: &Field,
) -> Result<FieldDescriptorProto, AllocError>
    ensures { IfOk result (λ made. field_view made ≡ messages.field_in syntax oneof field.now) }
{
    let mut record = field_record(alloc, field)?;
    record.oneof_index = oneof;
    if tells_presence(syntax, field.label) {
        record.proto3_optional = Some(true);
    }
    Ok(record)
}

/// The word `optional` tells of presence in proto3.
pub fn tells_presence(syntax: Syntax, label: Option<(Label, Span)>) -> bool
    ensures { result ≡ messages.tells_presence syntax label }
{
    let Some((label, _)) = label else {
        return false;
    };
    match syntax {
        Syntax::Proto2 => false,
        Syntax::Proto3 => matches!(label, Label::Optional),
    }
}
