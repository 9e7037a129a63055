//! Services.

ghost use Rattle.std.specs.Prelude.{◌<◌, OnOk, option_map};
ghost use Rattle.protox_declarations.specs.ServiceGrammar as spec;
ghost use Rattle.protox_tokens.specs.Left.{left};
ghost use Rattle.protox_tokens.specs.Reads.{Reads};
ghost use Rattle.protox_tokens.specs.Stream.{stream};
ghost use Rattle.protox_tree.specs.View.{method_type_view, method_item_view, method_body_view, method_view, service_item_view, service_view};

use protox_lex::{Sign, Span, token};
use protox_options::{option, type_name};
use protox_tokens::{Stop, Tokens, across};
use protox_tree::{
    ExpectedToken, Method, MethodBody, MethodItem, MethodType, Service, ServiceItem,
};
use std::alloc::Global;

/// What a method takes or gives: the word `stream` comes first where it is the keyword.
fn method_type<'a>(alloc: Global, tokens: &mut Tokens<'a>) -> Result<MethodType, Stop<'a>>
    ensures reads { Reads method_type_view (spec.method_type (stream tokens.old))
        result tokens.new }
    ensures moves { OnOk result (left tokens.new < left tokens.old) }
{
    tokens.expect_sign(Sign::LeftParen)?;
    let stream = tokens.eat(token::STREAM);
    let name = type_name(alloc, tokens)?;
    tokens.expect_sign(Sign::RightParen)?;
    Ok(MethodType { stream, name })
}

fn method_item<'a>(alloc: Global, tokens: &mut Tokens<'a>) -> Result<MethodItem, Stop<'a>>
    ensures reads { Reads method_item_view (spec.method_item (stream tokens.old))
        result tokens.new }
    ensures moves { OnOk result (left tokens.new < left tokens.old) }
{
    if let Some(span) = tokens.eat_sign(Sign::Semicolon) {
        return Ok(MethodItem::Empty(span));
    }
    let option = option(alloc, tokens)?;
    Ok(MethodItem::Option(option))
}

/// What stands in the braces of a method, or the semicolon in their place, and where that ends.
fn method_body<'a>(
    alloc: Global,
    tokens: &mut Tokens<'a>,
) -> Result<(Option<MethodBody>, usize), Stop<'a>>
    ensures reads { Reads (λ b. (option_map method_body_view b.0, b.1))
        (spec.method_body (stream tokens.old)) result tokens.new }
    ensures moves { OnOk result (left tokens.new < left tokens.old) }
{
    let Some(open) = tokens.eat_sign(Sign::LeftBrace) else {
        let last = tokens.expect_sign(Sign::Semicolon)?;
        return Ok((None, last.end));
    };
    let mut items = Vec::new(alloc);
    'items: while !tokens.sees_sign(Sign::RightBrace) {
        let item = method_item(alloc, tokens)?;
        items.push(item)?;
    }
    let close = tokens.expect_sign(Sign::RightBrace)?;
    let braces = across(open, close);
    Ok((Some(MethodBody { braces, items }), close.end))
}

fn method<'a>(alloc: Global, tokens: &mut Tokens<'a>) -> Result<Method, Stop<'a>>
    ensures reads { Reads method_view (spec.a_method (stream tokens.old)) result tokens.new }
    ensures moves { OnOk result (left tokens.new < left tokens.old) }
{
    let first = tokens.expect(token::RPC)?;
    let name = tokens.ident(alloc)?;
    let input = method_type(alloc, tokens)?;
    tokens.expect(token::RETURNS)?;
    let output = method_type(alloc, tokens)?;
    let (body, end) = method_body(alloc, tokens)?;
    Ok(Method {
        name,
        input,
        output,
        body,
        span: Span {
            start: first.start,
            end,
        },
    })
}

fn item<'a>(alloc: Global, tokens: &mut Tokens<'a>) -> Result<ServiceItem, Stop<'a>>
    ensures reads { Reads service_item_view (spec.service_item (stream tokens.old))
        result tokens.new }
    ensures moves { OnOk result (left tokens.new < left tokens.old) }
{
    if let Some(span) = tokens.eat_sign(Sign::Semicolon) {
        return Ok(ServiceItem::Empty(span));
    }
    if tokens.sees(token::OPTION) {
        let option = option(alloc, tokens)?;
        return Ok(ServiceItem::Option(option));
    }
    if tokens.sees(token::RPC) {
        let method = method(alloc, tokens)?;
        return Ok(ServiceItem::Method(method));
    }
    Err(tokens.refuse(ExpectedToken::ServiceItem))
}

/// A service from its keyword on.
pub fn service<'a>(alloc: Global, tokens: &mut Tokens<'a>) -> Result<Service, Stop<'a>>
    ensures reads { Reads service_view (spec.service (stream tokens.old)) result tokens.new }
    ensures moves { OnOk result (left tokens.new < left tokens.old) }
{
    let first = tokens.expect(token::SERVICE)?;
    let name = tokens.ident(alloc)?;
    let open = tokens.expect_sign(Sign::LeftBrace)?;
    let mut items = Vec::new(alloc);
    'items: while !tokens.sees_sign(Sign::RightBrace) {
        let item = item(alloc, tokens)?;
        items.push(item)?;
    }
    let close = tokens.expect_sign(Sign::RightBrace)?;
    Ok(Service {
        name,
        braces: across(open, close),
        items,
        span: across(first, close),
    })
}
