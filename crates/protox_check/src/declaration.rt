//! The checks of messages and of what stands in them.

ghost use Rattle.std.specs.Prelude.{◌≡◌, ◌++◌, OnOk};
ghost use Rattle.protox_check.specs.Faults as spec;
ghost use Rattle.protox_tree.specs.Nest.{items_of, members_of};
ghost use Rattle.protox_tree.specs.NestView.{added_view, extend_view, field_view, item_view, items_view, kind_view, member_view, members_view, message_view, oneof_view};

use crate::field::{Holder, check_field_head};
use crate::field_option::check_field_options;
use crate::range::{check_enum, check_extensions, check_reserved};
use crate::tell_if;
use protox_tree::{
    Extend, ExtendItem, Field, FieldKind, Message, MessageItem, Oneof, OneofItem, ParseErrorKind,
    Syntax,
};
use std::alloc::{AllocError, Global};

/// Lists what is wrong with a message and with all that stands in it.
#[cycle(check)]
pub fn check_message(
    alloc: Global,
    syntax: Syntax,
    message: &Message,
    faults: &mut Vec<ParseErrorKind>,
) -> Result<(), AllocError>
    ensures { OnOk result (faults.new.items ≡ faults.old.items
        ++ spec.message_faults syntax (message_view message.now)) }
{
    check_items(alloc, syntax, &message.items, faults)
}

#[cycle(check)]
fn check_items(
    alloc: Global,
    syntax: Syntax,
    items: &Vec<MessageItem>,
    faults: &mut Vec<ParseErrorKind>,
) -> Result<(), AllocError>
    ensures { OnOk result (faults.new.items ≡ faults.old.items
        ++ spec.items_faults syntax (items_of (items_view items.now.items))) }
{
    'each: for item in items {
        check_message_item(alloc, syntax, item, faults)?;
    }
    Ok(())
}

#[cycle(check)]
fn check_message_item(
    alloc: Global,
    syntax: Syntax,
    item: &MessageItem,
    faults: &mut Vec<ParseErrorKind>,
) -> Result<(), AllocError>
    ensures { OnOk result (faults.new.items ≡ faults.old.items
        ++ spec.item_faults syntax (item_view item.now)) }
{
    match item {
        MessageItem::Field(field) => check_field(alloc, syntax, Holder::Message, field, faults),
        MessageItem::Oneof(oneof) => check_oneof(alloc, syntax, oneof, faults),
        MessageItem::Message(message) => check_message(alloc, syntax, message, faults),
        MessageItem::Enum(enumeration) => check_enum(alloc, enumeration, faults),
        MessageItem::Extend(extend) => check_extend(alloc, syntax, extend, faults),
        MessageItem::Extensions(extensions) => check_extensions(syntax, extensions, faults),
        MessageItem::Reserved(reserved) => check_reserved(alloc, reserved, faults),
        MessageItem::Option(_) | MessageItem::Empty(_) => Ok(()),
    }
}

#[cycle(check)]
fn check_field(
    alloc: Global,
    syntax: Syntax,
    holder: Holder,
    field: &Field,
    faults: &mut Vec<ParseErrorKind>,
) -> Result<(), AllocError>
    ensures { OnOk result (faults.new.items ≡ faults.old.items
        ++ spec.field_faults syntax holder (field_view field.now)) }
{
    check_field_head(syntax, holder, field, faults)?;
    check_field_options(alloc, syntax, field, faults)?;
    check_kind(alloc, syntax, &field.kind, faults)
}

/// What stands in a group.
#[cycle(check)]
fn check_kind(
    alloc: Global,
    syntax: Syntax,
    kind: &FieldKind,
    faults: &mut Vec<ParseErrorKind>,
) -> Result<(), AllocError>
    ensures { OnOk result (faults.new.items ≡ faults.old.items
        ++ spec.kind_faults syntax (kind_view kind.now)) }
{
    match kind {
        FieldKind::Group(group) => check_items(alloc, syntax, &group.items, faults),
        FieldKind::Normal(_) | FieldKind::Map(_) => Ok(()),
    }
}

#[cycle(check)]
fn check_oneof(
    alloc: Global,
    syntax: Syntax,
    oneof: &Oneof,
    faults: &mut Vec<ParseErrorKind>,
) -> Result<(), AllocError>
    ensures { OnOk result (faults.new.items ≡ faults.old.items
        ++ spec.oneof_faults syntax (oneof_view oneof.now)) }
{
    let is_empty = !has_field(&oneof.items);
    let span = oneof.span;
    tell_if(is_empty, ParseErrorKind::EmptyOneof { span }, faults)?;
    'each: for item in &oneof.items {
        check_member(alloc, syntax, item, faults)?;
    }
    Ok(())
}

#[cycle(check)]
fn check_member(
    alloc: Global,
    syntax: Syntax,
    item: &OneofItem,
    faults: &mut Vec<ParseErrorKind>,
) -> Result<(), AllocError>
    ensures { OnOk result (faults.new.items ≡ faults.old.items
        ++ spec.member_faults syntax (member_view item.now)) }
{
    match item {
        OneofItem::Field(field) => check_field(alloc, syntax, Holder::Oneof, field, faults),
        OneofItem::Option(_) | OneofItem::Empty(_) => Ok(()),
    }
}

fn has_field(items: &Vec<OneofItem>) -> bool
    ensures { result ≡ spec.has_field (members_of (members_view items.now.items)) }
{
    'each: for item in items {
        if is_field(item) {
            return true;
        }
    }
    false
}

fn is_field(item: &OneofItem) -> bool
    ensures { result ≡ spec.is_field (member_view item.now) }
{
    matches!(item, OneofItem::Field(_))
}

/// Lists what is wrong with the fields of an `extend` statement.
#[cycle(check)]
pub fn check_extend(
    alloc: Global,
    syntax: Syntax,
    extend: &Extend,
    faults: &mut Vec<ParseErrorKind>,
) -> Result<(), AllocError>
    ensures { OnOk result (faults.new.items ≡ faults.old.items
        ++ spec.extend_faults syntax (extend_view extend.now)) }
{
    'each: for item in &extend.items {
        check_added_item(alloc, syntax, item, faults)?;
    }
    Ok(())
}

#[cycle(check)]
fn check_added_item(
    alloc: Global,
    syntax: Syntax,
    item: &ExtendItem,
    faults: &mut Vec<ParseErrorKind>,
) -> Result<(), AllocError>
    ensures { OnOk result (faults.new.items ≡ faults.old.items
        ++ spec.added_item_faults syntax (added_view item.now)) }
{
    match item {
        ExtendItem::Field(field) => check_field(alloc, syntax, Holder::Extend, field, faults),
        ExtendItem::Empty(_) => Ok(()),
    }
}
