//! Statements of messages that nothing nests in, and what others begin with.

ghost use Rattle.std.specs.Prelude.{◌<◌, ◌≤◌, OnOk, option_map};
ghost use Rattle.protox_fields.specs.StatementGrammar as spec;
ghost use Rattle.protox_tokens.specs.Left.{left};
ghost use Rattle.protox_tokens.specs.Reads.{Reads};
ghost use Rattle.protox_tokens.specs.Stream.{stream};
ghost use Rattle.protox_tree.specs.NestView.{item_view};
ghost use Rattle.protox_tree.specs.View.{ident_view, type_name_view};

use crate::field::extensions;
use protox_lex::{Sign, Span, token};
use protox_options::{option, reserved, type_name};
use protox_tokens::{Stop, Tokens};
use protox_tree::{Ident, MessageItem, TypeName};
use std::alloc::Global;

/// A statement that nothing nests in, if one begins here.
pub fn flat_item<'a>(
    alloc: Global,
    tokens: &mut Tokens<'a>,
) -> Result<Option<MessageItem>, Stop<'a>>
    ensures reads { Reads (λ i. option_map item_view i) (spec.flat_item (stream tokens.old))
        result tokens.new }
    ensures moves { OnOk result (left tokens.new ≤ left tokens.old) }
{
    if tokens.sees(token::EXTENSIONS) {
        let extensions = extensions(alloc, tokens)?;
        return Ok(Some(MessageItem::Extensions(extensions)));
    }
    if tokens.sees(token::RESERVED) {
        let reserved = reserved(alloc, tokens)?;
        return Ok(Some(MessageItem::Reserved(reserved)));
    }
    if tokens.sees(token::OPTION) {
        let option = option(alloc, tokens)?;
        return Ok(Some(MessageItem::Option(option)));
    }
    Ok(None)
}

/// What a oneof begins with: its keyword, its name and the opening brace.
pub fn oneof_head<'a>(
    alloc: Global,
    tokens: &mut Tokens<'a>,
) -> Result<(Span, Ident, Span), Stop<'a>>
    ensures reads { Reads (λ h. (h.0, ident_view h.1, h.2)) (spec.oneof_head (stream tokens.old))
        result tokens.new }
    ensures moves { OnOk result (left tokens.new < left tokens.old) }
{
    let first = tokens.expect(token::ONEOF)?;
    let name = tokens.ident(alloc)?;
    let open = tokens.expect_sign(Sign::LeftBrace)?;
    Ok((first, name, open))
}

/// What an `extend` statement begins with: its keyword, the type's name and the opening brace.
pub fn extend_head<'a>(
    alloc: Global,
    tokens: &mut Tokens<'a>,
) -> Result<(Span, TypeName, Span), Stop<'a>>
    ensures reads { Reads (λ h. (h.0, type_name_view h.1, h.2))
        (spec.extend_head (stream tokens.old)) result tokens.new }
    ensures moves { OnOk result (left tokens.new < left tokens.old) }
{
    let first = tokens.expect(token::EXTEND)?;
    let extendee = type_name(alloc, tokens)?;
    let open = tokens.expect_sign(Sign::LeftBrace)?;
    Ok((first, extendee, open))
}
