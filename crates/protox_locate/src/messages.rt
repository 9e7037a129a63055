//! Messages, and what stands in them.

ghost use Rattle.std.specs.Prelude.{◌≡◌, OnOk, map};
ghost use Rattle.protox_locate.specs.Collected.{meets, state};
ghost use Rattle.protox_locate.specs.Messages as spec;
ghost use Rattle.protox_tree.specs.Nest.{item_extend, item_field, item_oneof, items_of};
ghost use Rattle.protox_tree.specs.NestView.{added_view, extend_view, field_view, group_view, item_view, member_view, message_view, oneof_view};

use crate::enums::enumeration;
use crate::fields::{field_statement, group_field};
use crate::locator::Locator;
use crate::options::option_statement;
use crate::ranges::{ReservedLists, extensions, reserved};
use crate::slot::{Count, FieldCounts, FieldTags};
use descriptor_records::tag;
use protox_lex::Span;
use protox_tree::{
    Extend, ExtendItem, Field, FieldKind, Group, Message, MessageItem, Oneof, OneofItem,
};
use std::alloc::AllocError;

/// How many entries the lists of a message's record have so far.
#[derive(Clone, Copy)]
struct MessageCounts {
    fields: Count,
    extensions: Count,
    nested_types: Count,
    enum_types: Count,
    extension_ranges: Count,
    oneofs: Count,
    options: Count,
    reserved: ReservedLists,
}

impl MessageCounts {
    fn new() -> MessageCounts
        ensures { result ≡ spec.no_counts }
    {
        MessageCounts {
            fields: Count::new(),
            extensions: Count::new(),
            nested_types: Count::new(),
            enum_types: Count::new(),
            extension_ranges: Count::new(),
            oneofs: Count::new(),
            options: Count::new(),
            reserved: ReservedLists::new(tag::message::RESERVED_RANGE, tag::message::RESERVED_NAME),
        }
    }

    fn own_fields(self) -> FieldCounts
        ensures { result ≡ spec.own_fields self }
    {
        FieldCounts {
            fields: self.fields,
            types: self.nested_types,
        }
    }

    fn set_fields(&mut self, counts: FieldCounts)
        ensures { self.new ≡ spec.with_fields self.old counts }
    {
        self.fields = counts.fields;
        self.nested_types = counts.types;
    }
}

/// How many fields the message around a oneof has so far, and how many options the oneof's record.
#[derive(Clone, Copy)]
struct OneofCounts {
    fields: FieldCounts,
    options: Count,
}

/// The locations of a message whose record stands at a path.
#[cycle(locate)]
pub fn message(
    locator: &mut Locator<'_>,
    path: &[i32],
    statement: &Message,
) -> Result<(), AllocError>
    ensures { OnOk result (state locator.new
        ≡ meets (state locator.old) (spec.message_events path.now (message_view statement.now))) }
{
    locator.enter(path, &[], statement.span, statement.braces)?;
    locator.add(path, &[tag::message::NAME], statement.name.span)?;
    items(locator, path, &statement.items)?;
    locator.leave(statement.braces)?;
    Ok(())
}

#[cycle(locate)]
fn items(
    locator: &mut Locator<'_>,
    path: &[i32],
    items: &Vec<MessageItem>,
) -> Result<(), AllocError>
    ensures { OnOk result (state locator.new
        ≡ meets (state locator.old) (spec.items_events path.now spec.no_counts
        (items_of (map item_view items.now.items)))) }
{
    let mut counts = MessageCounts::new();
    'items: for item in items {
        message_item(locator, path, &mut counts, item)?;
    }
    Ok(())
}

#[cycle(locate)]
fn message_item(
    locator: &mut Locator<'_>,
    path: &[i32],
    counts: &mut MessageCounts,
    item: &MessageItem,
) -> Result<(), AllocError>
    ensures located { OnOk result (state locator.new
        ≡ meets (state locator.old) (spec.item_events path.now counts.old (item_view item.now))) }
    ensures counted { OnOk result (counts.new ≡ spec.after_item counts.old (item_view item.now)) }
{
    match item {
        MessageItem::Field(one) => message_field(locator, path, counts, one),
        MessageItem::Oneof(statement) => message_oneof(locator, path, counts, statement),
        MessageItem::Message(statement) => {
            let at = locator.entry(path, tag::message::NESTED_TYPE, counts.nested_types.next())?;
            message(locator, at.as_slice(), statement)
        }
        MessageItem::Enum(statement) => {
            let at = locator.entry(path, tag::message::ENUM_TYPE, counts.enum_types.next())?;
            enumeration(locator, at.as_slice(), statement)
        }
        MessageItem::Extend(statement) => message_extend(locator, path, counts, statement),
        MessageItem::Extensions(statement) => {
            extensions(locator, path, &mut counts.extension_ranges, statement)
        }
        MessageItem::Reserved(statement) => {
            reserved(locator, path, &mut counts.reserved, statement)
        }
        MessageItem::Option(option) => {
            let options = tag::message::OPTIONS;
            option_statement(locator, path, options, &mut counts.options, option)
        }
        MessageItem::Empty(span) => locator.pass(*span),
    }
}

/// Where the fields of a message stand, and the types that they declare.
fn own_tags() -> FieldTags
    ensures { result ≡ spec.own_tags }
{
    FieldTags {
        field: tag::message::FIELD,
        nested_type: tag::message::NESTED_TYPE,
    }
}

#[cycle(locate)]
fn message_field(
    locator: &mut Locator<'_>,
    path: &[i32],
    counts: &mut MessageCounts,
    one: &Field,
) -> Result<(), AllocError>
    ensures located { OnOk result (state locator.new
        ≡ meets (state locator.old) (spec.item_events path.now counts.old
        (item_field (field_view one.now)))) }
    ensures counted { OnOk result (counts.new
        ≡ spec.after_item counts.old (item_field (field_view one.now))) }
{
    let mut fields = counts.own_fields();
    field(locator, path, own_tags(), &mut fields, None, one)?;
    counts.set_fields(fields);
    Ok(())
}

#[cycle(locate)]
fn message_oneof(
    locator: &mut Locator<'_>,
    path: &[i32],
    counts: &mut MessageCounts,
    statement: &Oneof,
) -> Result<(), AllocError>
    ensures located { OnOk result (state locator.new
        ≡ meets (state locator.old) (spec.item_events path.now counts.old
        (item_oneof (oneof_view statement.now)))) }
    ensures counted { OnOk result (counts.new
        ≡ spec.after_item counts.old (item_oneof (oneof_view statement.now))) }
{
    let at = locator.entry(path, tag::message::ONEOF_DECL, counts.oneofs.next())?;
    let mut fields = counts.own_fields();
    oneof(locator, path, at.as_slice(), &mut fields, statement)?;
    counts.set_fields(fields);
    Ok(())
}

#[cycle(locate)]
fn message_extend(
    locator: &mut Locator<'_>,
    path: &[i32],
    counts: &mut MessageCounts,
    statement: &Extend,
) -> Result<(), AllocError>
    ensures located { OnOk result (state locator.new
        ≡ meets (state locator.old) (spec.item_events path.now counts.old
        (item_extend (extend_view statement.now)))) }
    ensures counted { OnOk result (counts.new
        ≡ spec.after_item counts.old (item_extend (extend_view statement.now))) }
{
    let tags = FieldTags {
        field: tag::message::EXTENSION,
        nested_type: tag::message::NESTED_TYPE,
    };
    let mut added = FieldCounts {
        fields: counts.extensions,
        types: counts.nested_types,
    };
    extend(locator, path, tags, &mut added, statement)?;
    counts.extensions = added.fields;
    counts.nested_types = added.types;
    Ok(())
}

/// The locations of a field or an extension, in the record at a path. Only a group has a location
/// of its type, and this has the statement's comments.
#[cycle(locate)]
fn field(
    locator: &mut Locator<'_>,
    path: &[i32],
    tags: FieldTags,
    counts: &mut FieldCounts,
    extendee: Option<Span>,
    field: &Field,
) -> Result<(), AllocError>
    ensures located { OnOk result (state locator.new
        ≡ meets (state locator.old) (spec.field_events path.now tags counts.old extendee
        (field_view field.now))) }
    ensures counted { OnOk result (counts.new
        ≡ spec.after_field counts.old (field_view field.now)) }
{
    let at = locator.entry(path, tags.field, counts.fields.next())?;
    let here = at.as_slice();
    match &field.kind {
        FieldKind::Group(body) => {
            group_field(locator, here, extendee, field)?;
            let inner = locator.entry(path, tags.nested_type, counts.types.next())?;
            let inside = inner.as_slice();
            group(locator, inside, field.span, field.name.span, body)?;
            Ok(())
        }
        FieldKind::Map(_) => {
            counts.types.next();
            field_statement(locator, here, extendee, field)?;
            Ok(())
        }
        FieldKind::Normal(_) => {
            field_statement(locator, here, extendee, field)?;
            Ok(())
        }
    }
}

#[cycle(locate)]
fn group(
    locator: &mut Locator<'_>,
    path: &[i32],
    span: Span,
    name: Span,
    group: &Group,
) -> Result<(), AllocError>
    ensures { OnOk result (state locator.new
        ≡ meets (state locator.old) (spec.group_events path.now span name (group_view group.now))) }
{
    locator.enter(path, &[], span, group.braces)?;
    locator.add(path, &[tag::message::NAME], name)?;
    items(locator, path, &group.items)?;
    locator.leave(group.braces)?;
    Ok(())
}

/// The locations of a oneof whose record stands at `at`, in the message at `path`.
#[cycle(locate)]
fn oneof(
    locator: &mut Locator<'_>,
    path: &[i32],
    at: &[i32],
    fields: &mut FieldCounts,
    statement: &Oneof,
) -> Result<(), AllocError>
    ensures located { OnOk result (state locator.new
        ≡ meets (state locator.old) (spec.oneof_events path.now at.now fields.old
        (oneof_view statement.now))) }
    ensures counted { OnOk result (fields.new
        ≡ spec.after_oneof fields.old (oneof_view statement.now)) }
{
    locator.enter(at, &[], statement.span, statement.braces)?;
    locator.add(at, &[tag::oneof::NAME], statement.name.span)?;
    let mut counts = OneofCounts {
        fields: *fields,
        options: Count::new(),
    };
    'members: for item in &statement.items {
        member(locator, path, at, &mut counts, item)?;
    }
    *fields = counts.fields;
    locator.leave(statement.braces)?;
    Ok(())
}

#[cycle(locate)]
fn member(
    locator: &mut Locator<'_>,
    path: &[i32],
    at: &[i32],
    counts: &mut OneofCounts,
    item: &OneofItem,
) -> Result<(), AllocError>
    ensures located { OnOk result (state locator.new
        ≡ meets (state locator.old) (spec.member_events path.now at.now counts.old
        (member_view item.now))) }
    ensures counted { OnOk result (counts.new
        ≡ spec.after_member counts.old (member_view item.now)) }
{
    match item {
        OneofItem::Field(one) => field(locator, path, own_tags(), &mut counts.fields, None, one),
        OneofItem::Option(option) => {
            option_statement(
                locator,
                at,
                tag::oneof::OPTIONS,
                &mut counts.options,
                option,
            )
        }
        OneofItem::Empty(span) => locator.pass(*span),
    }
}

/// The locations of an `extend` statement, in the record at a path.
#[cycle(locate)]
pub fn extend(
    locator: &mut Locator<'_>,
    path: &[i32],
    tags: FieldTags,
    counts: &mut FieldCounts,
    statement: &Extend,
) -> Result<(), AllocError>
    ensures located { OnOk result (state locator.new
        ≡ meets (state locator.old) (spec.extend_events path.now tags counts.old
        (extend_view statement.now))) }
    ensures counted { OnOk result (counts.new
        ≡ spec.after_extend counts.old (extend_view statement.now)) }
{
    locator.enter(path, &[tags.field], statement.span, statement.braces)?;
    let extendee = statement.extendee.span();
    'inside: for item in &statement.items {
        added(locator, path, tags, counts, extendee, item)?;
    }
    locator.leave(statement.braces)?;
    Ok(())
}

#[cycle(locate)]
fn added(
    locator: &mut Locator<'_>,
    path: &[i32],
    tags: FieldTags,
    counts: &mut FieldCounts,
    extendee: Span,
    item: &ExtendItem,
) -> Result<(), AllocError>
    ensures located { OnOk result (state locator.new
        ≡ meets (state locator.old) (spec.added_item_events path.now tags counts.old extendee
        (added_view item.now))) }
    ensures counted { OnOk result (counts.new
        ≡ spec.after_added_item counts.old (added_view item.now)) }
{
    match item {
        ExtendItem::Field(one) => field(locator, path, tags, counts, Some(extendee), one),
        ExtendItem::Empty(span) => locator.pass(*span),
    }
}
