//! Options.

ghost use Rattle.std.specs.Prelude.{◌≡◌, ◌<◌, ◌≤◌, OnOk, IfOk, option_map, vec_len, true};
ghost use Rattle.protox_lex.specs.Shown.{token_of};
ghost use Rattle.protox_lex.specs.declared.span.Span as spans;
ghost use Rattle.protox_options.specs.Negation.{IsInt, IsNegative, IsValue, negated_value};
ghost use Rattle.protox_options.specs.OptionGrammar as spec;
ghost use Rattle.protox_tokens.specs.Left.{left};
ghost use Rattle.protox_tokens.specs.Reads.{Reads};
ghost use Rattle.protox_tokens.specs.Stream.{stream};
ghost use Rattle.protox_tree.specs.Tree.{float_value, minus_word};
ghost use Rattle.protox_tree.specs.View.{name_part_view, name_view, value_view, body_view, bodies_view, option_view, option_list_view};

use crate::names::{is_string, strings, type_name};
use protox_aggregates::aggregate;
use protox_lex::{Float, Int, LexError, LexErrorKind, Lexeme, Sign, Span, Token, token};
use protox_tokens::{Fault, Stop, Tokens, across, one};
use protox_tree::{
    ExpectedToken, Ident, OptionBody, OptionList, OptionNamePart, OptionStatement, OptionValue,
};
use std::alloc::Global;

fn name_part<'a>(alloc: Global, tokens: &mut Tokens<'a>) -> Result<OptionNamePart, Stop<'a>>
    ensures reads { Reads name_part_view (spec.name_part (stream tokens.old)) result tokens.new }
    ensures moves { OnOk result (left tokens.new < left tokens.old) }
{
    let Some(open) = tokens.eat_sign(Sign::LeftParen) else {
        let ident = tokens.ident(alloc)?;
        return Ok(OptionNamePart::Ident(ident));
    };
    let name = type_name(alloc, tokens)?;
    let close = tokens.expect_sign(Sign::RightParen)?;
    Ok(OptionNamePart::Extension(name, across(open, close)))
}

fn name<'a>(alloc: Global, tokens: &mut Tokens<'a>) -> Result<Vec<OptionNamePart>, Stop<'a>>
    ensures reads { Reads (λ v. name_view v.items) (spec.name (stream tokens.old))
        result tokens.new }
    ensures moves { OnOk result (left tokens.new < left tokens.old) }
    ensures some { IfOk result (λ parts. 0 < vec_len parts) }
{
    let first = name_part(alloc, tokens)?;
    let mut list = one(alloc, first)?;
    'rest: while tokens.passes(Sign::Dot) {
        let next = name_part(alloc, tokens)?;
        list.push(next)?;
    }
    Ok(list)
}

/// What may stand behind a minus.
#[derive(Clone, Copy)]
enum Negated<'a> {
    Int(u64),
    Float(&'a str),
    /// `inf` or `nan`.
    Word(&'a str),
}

fn behind_minus(token: Token<'_>) -> Option<Negated<'_>>
    ensures { (at : spans.Span) → option_map (λ n. negated_value n at) result
        ≡ spec.negative_of (token_of token.entry) at }
{
    match token {
        Token::Int(value) => Some(Negated::Int(value)),
        Token::Float(text) => Some(Negated::Float(text)),
        Token::Ident(text) if text == "inf" || text == "nan" => Some(Negated::Word(text)),
        _ => None,
    }
}

fn float<'a>(alloc: Global, negative: bool, text: &str, span: Span) -> Result<OptionValue, Stop<'a>>
    ensures { IsValue (float_value negative (record { text = text.now; span = span })) result }
{
    let text = String::from_str(alloc, text)?;
    let number = Float { text, span };
    Ok(OptionValue::Float { negative, number })
}

fn negative_word<'a>(alloc: Global, text: &str, span: Span) -> Result<OptionValue, Stop<'a>>
    ensures { IsValue (minus_word (record { text = text.now; span = span })) result }
{
    let text = String::from_str(alloc, text)?;
    Ok(OptionValue::NegativeWord(Ident::new(text, span)))
}

/// An integer of at least -2^63.
fn negative_int<'a>(value: u64, span: Span) -> Result<OptionValue, Stop<'a>>
    ensures { IsInt (record { negative = true; value = value; span = span }) result }
{
    if value > 1 << 63 {
        let kind = LexErrorKind::IntegerOutOfRange;
        return Err(Stop::Refused(Fault::Lexical(LexError { kind, span })));
    }
    Ok(OptionValue::Int(Int {
        negative: true,
        value,
        span,
    }))
}

fn negative_value<'a>(
    alloc: Global,
    negated: Negated<'_>,
    span: Span,
) -> Result<OptionValue, Stop<'a>>
    ensures { IsNegative negated.entry span result }
{
    match negated {
        Negated::Int(value) => negative_int(value, span),
        Negated::Float(text) => float(alloc, true, text, span),
        Negated::Word(text) => negative_word(alloc, text, span),
    }
}

/// What stands behind a minus: an integer of at least -2^63, a float, or the word `inf` or `nan`.
fn negative<'a>(
    alloc: Global,
    tokens: &mut Tokens<'a>,
    minus: Span,
) -> Result<OptionValue, Stop<'a>>
    ensures reads { Reads value_view (spec.negative minus (stream tokens.old)) result tokens.new }
    ensures moves { OnOk result (left tokens.new < left tokens.old) }
{
    let Some(Lexeme { span, token }) = tokens.peek() else {
        return Err(tokens.refuse(ExpectedToken::Number));
    };
    let Some(negated) = behind_minus(token) else {
        return Err(tokens.refuse(ExpectedToken::Number));
    };
    tokens.advance();
    negative_value(alloc, negated, across(minus, span))
}

/// A word, or a number without a sign.
#[tactic(auto, unfolding(crate::specs::OptionGrammar::plain_value))]
fn plain_value<'a>(alloc: Global, tokens: &mut Tokens<'a>) -> Result<OptionValue, Stop<'a>>
    ensures reads { Reads value_view (spec.plain_value (stream tokens.old)) result tokens.new }
    ensures moves { OnOk result (left tokens.new < left tokens.old) }
{
    match tokens.peek() {
        Some(
            Lexeme {
                span,
                token: Token::Ident(text),
            },
        ) => {
            tokens.advance();
            let text = String::from_str(alloc, text)?;
            Ok(OptionValue::Ident(Ident::new(text, span)))
        }
        Some(
            Lexeme {
                span,
                token: Token::Int(value),
            },
        ) => {
            tokens.advance();
            Ok(OptionValue::Int(Int {
                negative: false,
                value,
                span,
            }))
        }
        Some(
            Lexeme {
                span,
                token: Token::Float(text),
            },
        ) => {
            tokens.advance();
            let value = float(alloc, false, text, span)?;
            Ok(value)
        }
        _ => Err(tokens.refuse(ExpectedToken::OptionValue)),
    }
}

fn value<'a>(alloc: Global, tokens: &mut Tokens<'a>) -> Result<OptionValue, Stop<'a>>
    ensures reads { Reads value_view (spec.value (stream tokens.old)) result tokens.new }
    ensures moves { OnOk result (left tokens.new < left tokens.old) }
{
    if is_string(tokens) {
        let strings = strings(alloc, tokens)?;
        return Ok(OptionValue::String(strings));
    }
    if let Some(minus) = tokens.eat_sign(Sign::Minus) {
        return negative(alloc, tokens, minus);
    }
    if tokens.sees_sign(Sign::LeftBrace) {
        let aggregate = aggregate(alloc, tokens)?;
        return Ok(OptionValue::Aggregate(aggregate));
    }
    plain_value(alloc, tokens)
}

fn body<'a>(alloc: Global, tokens: &mut Tokens<'a>) -> Result<OptionBody, Stop<'a>>
    ensures reads { Reads body_view (spec.body (stream tokens.old)) result tokens.new }
    ensures moves { OnOk result (left tokens.new < left tokens.old) }
{
    let name = name(alloc, tokens)?;
    tokens.expect_sign(Sign::Equals)?;
    let value = value(alloc, tokens)?;
    Ok(OptionBody { name, value })
}

/// The statement `option .. ;`.
pub fn option<'a>(alloc: Global, tokens: &mut Tokens<'a>) -> Result<OptionStatement, Stop<'a>>
    ensures reads { Reads option_view (spec.option (stream tokens.old)) result tokens.new }
    ensures moves { OnOk result (left tokens.new < left tokens.old) }
{
    let first = tokens.expect(token::OPTION)?;
    let body = body(alloc, tokens)?;
    let last = tokens.expect_sign(Sign::Semicolon)?;
    Ok(OptionStatement {
        body,
        span: across(first, last),
    })
}

fn bodies<'a>(alloc: Global, tokens: &mut Tokens<'a>) -> Result<Vec<OptionBody>, Stop<'a>>
    ensures reads { Reads (λ v. bodies_view v.items) (spec.bodies (stream tokens.old))
        result tokens.new }
    ensures moves { OnOk result (left tokens.new < left tokens.old) }
{
    let first = body(alloc, tokens)?;
    let mut list = one(alloc, first)?;
    'rest: while tokens.passes(Sign::Comma) {
        let next = body(alloc, tokens)?;
        list.push(next)?;
    }
    Ok(list)
}

/// Options in brackets, if there are any.
pub fn options<'a>(alloc: Global, tokens: &mut Tokens<'a>) -> Result<Option<OptionList>, Stop<'a>>
    ensures reads { Reads (λ o. option_map option_list_view o) (spec.options (stream tokens.old))
        result tokens.new }
    ensures moves { OnOk result (left tokens.new ≤ left tokens.old) }
{
    let Some(open) = tokens.eat_sign(Sign::LeftBracket) else {
        return Ok(None);
    };
    let options = bodies(alloc, tokens)?;
    let close = tokens.expect_sign(Sign::RightBracket)?;
    Ok(Some(OptionList {
        options,
        span: across(open, close),
    }))
}
