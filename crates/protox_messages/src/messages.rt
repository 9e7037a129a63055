//! Messages, and what may stand in them.

ghost use Rattle.std.specs.Prelude.{◌≡◌, ◌<◌, OnOk};
ghost use Rattle.protox_messages.specs.MessageGrammar as spec;
ghost use Rattle.protox_tokens.specs.Left.{left};
ghost use Rattle.protox_tokens.specs.Reads.{Reads};
ghost use Rattle.protox_tokens.specs.Stream.{stream};
ghost use Rattle.protox_tree.specs.Nest as nest;
ghost use Rattle.protox_tree.specs.NestView.{kind_view, message_view, item_view, items_view, field_view, member_view, oneof_view, added_view, extend_view};

use descriptor_records::Label;
use protox_declarations::enumeration;
use protox_fields::{extend_head, flat_item, label, numbered_name, oneof_head, plain_field};
use protox_lex::{Sign, Span, token};
use protox_options::option;
use protox_tokens::{Fault, Stop, Tokens, across};
use protox_tree::{
    Extend, ExtendItem, Field, FieldKind, Group, Message, MessageItem, Oneof, OneofItem,
};
use std::alloc::Global;

/// What stands in the braces of a message or a group, and these, of which so many may be open at
/// most.
#[cycle(message)]
fn block<'a>(
    alloc: Global,
    tokens: &mut Tokens<'a>,
    levels: u8,
) -> Result<(Vec<MessageItem>, Span), Stop<'a>>
    ensures reads { Reads (λ b. (items_view b.0.items, b.1)) (spec.block levels (stream tokens.old))
        result tokens.new }
    ensures moves { OnOk result (left tokens.new < left tokens.old) }
{
    let open = tokens.expect_sign(Sign::LeftBrace)?;
    if levels == 0 {
        return Err(Stop::Refused(Fault::TooDeep { span: open }));
    }
    let mut items = Vec::new(alloc);
    'items: while !tokens.sees_sign(Sign::RightBrace) {
        let item = item(alloc, tokens, levels - 1)?;
        items.push(item)?;
    }
    let close = tokens.expect_sign(Sign::RightBrace)?;
    Ok((items, across(open, close)))
}

/// A keyword that begins a statement of messages begins it wherever it comes first.
#[cycle(message)]
fn item<'a>(alloc: Global, tokens: &mut Tokens<'a>, levels: u8) -> Result<MessageItem, Stop<'a>>
    ensures reads { Reads item_view (spec.item_with (spec.block levels) (stream tokens.old))
        result tokens.new }
    ensures moves { OnOk result (left tokens.new < left tokens.old) }
{
    if let Some(span) = tokens.eat_sign(Sign::Semicolon) {
        return Ok(MessageItem::Empty(span));
    }
    if tokens.sees(token::MESSAGE) {
        let message = message(alloc, tokens, levels)?;
        return Ok(MessageItem::Message(message));
    }
    if tokens.sees(token::ENUM) {
        let enumeration = enumeration(alloc, tokens)?;
        return Ok(MessageItem::Enum(enumeration));
    }
    if tokens.sees(token::EXTEND) {
        let extend = extend(alloc, tokens, levels)?;
        return Ok(MessageItem::Extend(extend));
    }
    if let Some(item) = flat_item(alloc, tokens)? {
        return Ok(item);
    }
    if tokens.sees(token::ONEOF) {
        let oneof = oneof(alloc, tokens, levels)?;
        return Ok(MessageItem::Oneof(oneof));
    }
    let field = field(alloc, tokens, levels)?;
    Ok(MessageItem::Field(field))
}

/// A message from its keyword on.
#[cycle(message)]
pub fn message<'a>(alloc: Global, tokens: &mut Tokens<'a>, levels: u8) -> Result<Message, Stop<'a>>
    ensures reads { Reads message_view (spec.message_with (spec.block levels) (stream tokens.old))
        result tokens.new }
    ensures moves { OnOk result (left tokens.new < left tokens.old) }
{
    let first = tokens.expect(token::MESSAGE)?;
    let name = tokens.ident(alloc)?;
    let (items, braces) = block(alloc, tokens, levels)?;
    Ok(Message {
        name,
        braces,
        items,
        span: across(first, braces),
    })
}

/// A field, a group or a map.
#[cycle(message)]
fn field<'a>(alloc: Global, tokens: &mut Tokens<'a>, levels: u8) -> Result<Field, Stop<'a>>
    ensures reads { Reads field_view (spec.field_with (spec.block levels) (stream tokens.old))
        result tokens.new }
    ensures moves { OnOk result (left tokens.new < left tokens.old) }
{
    let start = tokens.next_span();
    let label = label(tokens);
    if let Some(word) = tokens.eat(token::GROUP) {
        return group(alloc, tokens, levels, start, label, word);
    }
    plain_field(alloc, tokens, start, label)
}

fn group_kind(word: Span, braces: Span, items: Vec<MessageItem>) -> FieldKind
    ensures { kind_view result ≡ nest.group
        (nest.a_group word braces (nest.items_of (items_view items.items))) }
{
    FieldKind::Group(Group {
        word,
        braces,
        items,
    })
}

/// A group behind its word.
#[cycle(message)]
fn group<'a>(
    alloc: Global,
    tokens: &mut Tokens<'a>,
    levels: u8,
    start: Span,
    label: Option<(Label, Span)>,
    word: Span,
) -> Result<Field, Stop<'a>>
    ensures reads { Reads field_view
        (spec.group_with (spec.block levels) start label word (stream tokens.old))
        result tokens.new }
    ensures moves { OnOk result (left tokens.new < left tokens.old) }
{
    let (name, number, options) = numbered_name(alloc, tokens)?;
    let (items, braces) = block(alloc, tokens, levels)?;
    Ok(Field {
        label,
        kind: group_kind(word, braces, items),
        name,
        number,
        options,
        span: across(start, braces),
    })
}

#[cycle(message)]
fn member<'a>(alloc: Global, tokens: &mut Tokens<'a>, levels: u8) -> Result<OneofItem, Stop<'a>>
    ensures reads { Reads member_view (spec.member_with (spec.block levels) (stream tokens.old))
        result tokens.new }
    ensures moves { OnOk result (left tokens.new < left tokens.old) }
{
    if let Some(span) = tokens.eat_sign(Sign::Semicolon) {
        return Ok(OneofItem::Empty(span));
    }
    if tokens.sees(token::OPTION) {
        let option = option(alloc, tokens)?;
        return Ok(OneofItem::Option(option));
    }
    let field = field(alloc, tokens, levels)?;
    Ok(OneofItem::Field(field))
}

/// A oneof from its keyword on.
#[cycle(message)]
fn oneof<'a>(alloc: Global, tokens: &mut Tokens<'a>, levels: u8) -> Result<Oneof, Stop<'a>>
    ensures reads { Reads oneof_view (spec.oneof_with (spec.block levels) (stream tokens.old))
        result tokens.new }
    ensures moves { OnOk result (left tokens.new < left tokens.old) }
{
    let (first, name, open) = oneof_head(alloc, tokens)?;
    let mut items = Vec::new(alloc);
    'items: while !tokens.sees_sign(Sign::RightBrace) {
        let item = member(alloc, tokens, levels)?;
        items.push(item)?;
    }
    let close = tokens.expect_sign(Sign::RightBrace)?;
    Ok(Oneof {
        name,
        braces: across(open, close),
        items,
        span: across(first, close),
    })
}

#[cycle(message)]
fn added<'a>(alloc: Global, tokens: &mut Tokens<'a>, levels: u8) -> Result<ExtendItem, Stop<'a>>
    ensures reads { Reads added_view (spec.added_with (spec.block levels) (stream tokens.old))
        result tokens.new }
    ensures moves { OnOk result (left tokens.new < left tokens.old) }
{
    if let Some(span) = tokens.eat_sign(Sign::Semicolon) {
        return Ok(ExtendItem::Empty(span));
    }
    let field = field(alloc, tokens, levels)?;
    Ok(ExtendItem::Field(field))
}

/// An `extend` statement from its keyword on.
#[cycle(message)]
pub fn extend<'a>(alloc: Global, tokens: &mut Tokens<'a>, levels: u8) -> Result<Extend, Stop<'a>>
    ensures reads { Reads extend_view (spec.extend_with (spec.block levels) (stream tokens.old))
        result tokens.new }
    ensures moves { OnOk result (left tokens.new < left tokens.old) }
{
    let (first, extendee, open) = extend_head(alloc, tokens)?;
    let mut items = Vec::new(alloc);
    'items: while !tokens.sees_sign(Sign::RightBrace) {
        let item = added(alloc, tokens, levels)?;
        items.push(item)?;
    }
    let close = tokens.expect_sign(Sign::RightBrace)?;
    Ok(Extend {
        extendee,
        braces: across(open, close),
        items,
        span: across(first, close),
    })
}
