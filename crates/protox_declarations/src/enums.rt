//! Enums.

ghost use Rattle.std.specs.Prelude.{◌<◌, OnOk};
ghost use Rattle.protox_declarations.specs.EnumGrammar as spec;
ghost use Rattle.protox_tokens.specs.Left.{left};
ghost use Rattle.protox_tokens.specs.Reads.{Reads};
ghost use Rattle.protox_tokens.specs.Stream.{stream};
ghost use Rattle.protox_tree.specs.View.{enum_value_view, enum_item_view, enum_view};

use protox_lex::{Sign, token};
use protox_options::{int, option, options, reserved};
use protox_tokens::{Stop, Tokens, across};
use protox_tree::{Enum, EnumItem, EnumValue};
use std::alloc::Global;

fn value<'a>(alloc: Global, tokens: &mut Tokens<'a>) -> Result<EnumValue, Stop<'a>>
    ensures reads { Reads enum_value_view (spec.an_enum_value (stream tokens.old))
        result tokens.new }
    ensures moves { OnOk result (left tokens.new < left tokens.old) }
{
    let name = tokens.ident(alloc)?;
    tokens.expect_sign(Sign::Equals)?;
    let number = int(tokens)?;
    let options = options(alloc, tokens)?;
    let last = tokens.expect_sign(Sign::Semicolon)?;
    let span = across(name.span, last);
    Ok(EnumValue {
        name,
        number,
        options,
        span,
    })
}

fn item<'a>(alloc: Global, tokens: &mut Tokens<'a>) -> Result<EnumItem, Stop<'a>>
    ensures reads { Reads enum_item_view (spec.enum_item (stream tokens.old)) result tokens.new }
    ensures moves { OnOk result (left tokens.new < left tokens.old) }
{
    if let Some(span) = tokens.eat_sign(Sign::Semicolon) {
        return Ok(EnumItem::Empty(span));
    }
    if tokens.sees(token::OPTION) {
        let option = option(alloc, tokens)?;
        return Ok(EnumItem::Option(option));
    }
    if tokens.sees(token::RESERVED) {
        let reserved = reserved(alloc, tokens)?;
        return Ok(EnumItem::Reserved(reserved));
    }
    let value = value(alloc, tokens)?;
    Ok(EnumItem::Value(value))
}

/// An enum from its keyword on.
pub fn enumeration<'a>(alloc: Global, tokens: &mut Tokens<'a>) -> Result<Enum, Stop<'a>>
    ensures reads { Reads enum_view (spec.enumeration (stream tokens.old)) result tokens.new }
    ensures moves { OnOk result (left tokens.new < left tokens.old) }
{
    let first = tokens.expect(token::ENUM)?;
    let name = tokens.ident(alloc)?;
    let open = tokens.expect_sign(Sign::LeftBrace)?;
    let mut items = Vec::new(alloc);
    'items: while !tokens.sees_sign(Sign::RightBrace) {
        let item = item(alloc, tokens)?;
        items.push(item)?;
    }
    let close = tokens.expect_sign(Sign::RightBrace)?;
    Ok(Enum {
        name,
        braces: across(open, close),
        items,
        span: across(first, close),
    })
}
