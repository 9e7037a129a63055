//! The braces of an option's value, where text format stands.

ghost use Rattle.std.specs.Prelude.{◌≡◌, ◌<◌, ◌≤◌, OnOk, IfOk, true, false, string_bytes};
ghost use Rattle.protox_lex.specs.Shown.{token_of};
ghost use Rattle.protox_aggregates.specs.AggregateGrammar as spec;
ghost use Rattle.protox_aggregates.specs.BraceTexts as texts;
ghost use Rattle.protox_tokens.specs.Left.{left};
ghost use Rattle.protox_tokens.specs.Parser as parser;
ghost use Rattle.protox_tokens.specs.Reads.{Reads};
ghost use Rattle.protox_tokens.specs.Refusal.{expected_view};
ghost use Rattle.protox_tokens.specs.Stream.{stream, text as text_format};

use protox_lex::{Lexeme, MAX_BRACES, Sign, Token};
use protox_tokens::{Fault, Stop, Tokens, across};
use protox_tree::{Aggregate, ExpectedToken};
use std::alloc::{AllocError, Global};

/// Adds a token to the text of those before it.
fn add(text: &mut String, token: Token<'_>) -> Result<(), AllocError>
    ensures { OnOk result (string_bytes text.new
        ≡ texts.with_token (string_bytes text.old) (token_of token.entry)) }
{
    if !text.is_empty() {
        text.push_str(" ")?;
    }
    write!(text, "{token}")
}

/// Takes the next token, if it is this sign.
fn eat<'a>(tokens: &mut Tokens<'a>, text: &mut String, sign: Sign) -> Result<bool, Stop<'a>>
    ensures reads { Reads (λ x. x) (spec.passes sign (stream tokens.old)) result tokens.new }
    ensures writes { OnOk result (texts.WritesTokens (stream tokens.old) (string_bytes text.old)
        (stream tokens.new) (string_bytes text.new)) }
    ensures taken { IfOk result (λ b. b ≡ true → left tokens.new < left tokens.old) }
    ensures not { IfOk result (λ b. b ≡ false → left tokens.new ≡ left tokens.old) }
{
    if !tokens.passes_in_text(sign) {
        return Ok(false);
    }
    add(text, Token::Sign(sign))?;
    Ok(true)
}

fn expect<'a>(tokens: &mut Tokens<'a>, text: &mut String, sign: Sign) -> Result<(), Stop<'a>>
    ensures reads { Reads (λ x. x) (spec.must sign (stream tokens.old)) result tokens.new }
    ensures writes { OnOk result (texts.WritesTokens (stream tokens.old) (string_bytes text.old)
        (stream tokens.new) (string_bytes text.new)) }
    ensures moves { OnOk result (left tokens.new < left tokens.old) }
{
    tokens.expect_in_text(sign)?;
    add(text, Token::Sign(sign))?;
    Ok(())
}

#[tactic(auto, unfolding(crate::specs::AggregateGrammar::an_ident_as))]
fn ident<'a>(
    tokens: &mut Tokens<'a>,
    text: &mut String,
    expected: ExpectedToken,
) -> Result<(), Stop<'a>>
    ensures reads { Reads (λ x. x) (spec.an_ident_as (expected_view expected) (stream tokens.old))
        result tokens.new }
    ensures writes { OnOk result (texts.WritesTokens (stream tokens.old) (string_bytes text.old)
        (stream tokens.new) (string_bytes text.new)) }
    ensures moves { OnOk result (left tokens.new < left tokens.old) }
{
    if let Some(
        Lexeme {
            token: token @ Token::Ident(_),
            ..
        },
    ) = tokens.peek_in_text()
    {
        tokens.advance();
        add(text, token)?;
        Ok(())
    } else {
        Err(tokens.refuse_in_text(expected))
    }
}

#[tactic(auto, unfolding(crate::specs::AggregateGrammar::dotted))]
fn full_ident<'a>(tokens: &mut Tokens<'a>, text: &mut String) -> Result<(), Stop<'a>>
    ensures reads { Reads (λ x. x) (spec.dotted (stream tokens.old)) result tokens.new }
    ensures writes { OnOk result (texts.WritesTokens (stream tokens.old) (string_bytes text.old)
        (stream tokens.new) (string_bytes text.new)) }
    ensures moves { OnOk result (left tokens.new < left tokens.old) }
{
    ident(tokens, text, ExpectedToken::Ident)?;
    'parts: while eat(tokens, text, Sign::Dot)? {
        ident(tokens, text, ExpectedToken::Ident)?;
    }
    Ok(())
}

/// The name behind a slash, if there is one.
#[tactic(auto, unfolding(crate::specs::AggregateGrammar::behind_slash))]
fn behind_slash<'a>(tokens: &mut Tokens<'a>, text: &mut String) -> Result<(), Stop<'a>>
    ensures reads { Reads (λ x. x) (spec.behind_slash (stream tokens.old)) result tokens.new }
    ensures writes { OnOk result (texts.WritesTokens (stream tokens.old) (string_bytes text.old)
        (stream tokens.new) (string_bytes text.new)) }
    ensures moves { OnOk result (left tokens.new ≤ left tokens.old) }
{
    if eat(tokens, text, Sign::ForwardSlash)? {
        full_ident(tokens, text)?;
    }
    Ok(())
}

/// A field's name, or the name of an extension or of an `Any`'s type in brackets.
#[tactic(auto, unfolding(crate::specs::AggregateGrammar::field_name))]
fn name<'a>(tokens: &mut Tokens<'a>, text: &mut String) -> Result<(), Stop<'a>>
    ensures reads { Reads (λ x. x) (spec.field_name (stream tokens.old)) result tokens.new }
    ensures writes { OnOk result (texts.WritesTokens (stream tokens.old) (string_bytes text.old)
        (stream tokens.new) (string_bytes text.new)) }
    ensures moves { OnOk result (left tokens.new < left tokens.old) }
{
    if !eat(tokens, text, Sign::LeftBracket)? {
        return ident(tokens, text, ExpectedToken::FieldName);
    }
    full_ident(tokens, text)?;
    behind_slash(tokens, text)?;
    expect(tokens, text, Sign::RightBracket)
}

fn is_string(tokens: &Tokens<'_>) -> bool
    ensures { result ≡ parser.is_string_in text_format (stream tokens.now) }
{
    match tokens.peek_in_text() {
        Some(lexeme) => matches!(lexeme.token, Token::String(_)),
        None => false,
    }
}

/// One string literal.
#[tactic(auto, unfolding(crate::specs::AggregateGrammar::a_literal))]
fn literal<'a>(tokens: &mut Tokens<'a>, text: &mut String) -> Result<(), Stop<'a>>
    ensures reads { Reads (λ x. x) (spec.a_literal (stream tokens.old)) result tokens.new }
    ensures writes { OnOk result (texts.WritesTokens (stream tokens.old) (string_bytes text.old)
        (stream tokens.new) (string_bytes text.new)) }
    ensures moves { OnOk result (left tokens.new < left tokens.old) }
{
    if let Some(
        Lexeme {
            token: token @ Token::String(_),
            ..
        },
    ) = tokens.peek_in_text()
    {
        tokens.advance();
        add(text, token)?;
        Ok(())
    } else {
        Err(tokens.refuse_in_text(ExpectedToken::String))
    }
}

/// String literals, one or more.
#[tactic(auto, unfolding(crate::specs::AggregateGrammar::literals))]
fn strings<'a>(tokens: &mut Tokens<'a>, text: &mut String) -> Result<(), Stop<'a>>
    ensures reads { Reads (λ x. x) (spec.literals (stream tokens.old)) result tokens.new }
    ensures writes { OnOk result (texts.WritesTokens (stream tokens.old) (string_bytes text.old)
        (stream tokens.new) (string_bytes text.new)) }
    ensures moves { OnOk result (left tokens.new < left tokens.old) }
{
    literal(tokens, text)?;
    'literals: while is_string(tokens) {
        literal(tokens, text)?;
    }
    Ok(())
}

/// A number or an identifier.
#[tactic(auto, unfolding(crate::specs::AggregateGrammar::a_plain))]
fn plain<'a>(tokens: &mut Tokens<'a>, text: &mut String) -> Result<(), Stop<'a>>
    ensures reads { Reads (λ x. x) (spec.a_plain (stream tokens.old)) result tokens.new }
    ensures writes { OnOk result (texts.WritesTokens (stream tokens.old) (string_bytes text.old)
        (stream tokens.new) (string_bytes text.new)) }
    ensures moves { OnOk result (left tokens.new < left tokens.old) }
{
    if let Some(
        Lexeme {
            token: token @ (Token::Ident(_) | Token::Int(_) | Token::Float(_)),
            ..
        },
    ) = tokens.peek_in_text()
    {
        tokens.advance();
        add(text, token)?;
        Ok(())
    } else {
        Err(tokens.refuse_in_text(ExpectedToken::FieldValue))
    }
}

#[tactic(auto, unfolding(crate::specs::AggregateGrammar::scalar))]
fn scalar<'a>(tokens: &mut Tokens<'a>, text: &mut String) -> Result<(), Stop<'a>>
    ensures reads { Reads (λ x. x) (spec.scalar (stream tokens.old)) result tokens.new }
    ensures writes { OnOk result (texts.WritesTokens (stream tokens.old) (string_bytes text.old)
        (stream tokens.new) (string_bytes text.new)) }
    ensures moves { OnOk result (left tokens.new < left tokens.old) }
{
    if is_string(tokens) {
        return strings(tokens, text);
    }
    eat(tokens, text, Sign::Minus)?;
    plain(tokens, text)
}

/// The brace that would close one that opens here.
fn closing(tokens: &Tokens<'_>) -> Option<(Sign, Sign)>
    ensures { result ≡ spec.braces_at (stream tokens.now) }
{
    if tokens.sees_in_text(Sign::LeftBrace) {
        Some((Sign::LeftBrace, Sign::RightBrace))
    } else if tokens.sees_in_text(Sign::LeftAngleBracket) {
        Some((Sign::LeftAngleBracket, Sign::RightAngleBracket))
    } else {
        None
    }
}

#[cycle(aggregate)]
#[tactic(auto, unfolding(crate::specs::AggregateGrammar::value_with))]
fn value<'a>(tokens: &mut Tokens<'a>, text: &mut String, levels: u32) -> Result<(), Stop<'a>>
    ensures reads { Reads (λ x. x) (spec.value_with (spec.braces levels) (stream tokens.old))
        result tokens.new }
    ensures writes { OnOk result (texts.WritesTokens (stream tokens.old) (string_bytes text.old)
        (stream tokens.new) (string_bytes text.new)) }
    ensures moves { OnOk result (left tokens.new < left tokens.old) }
{
    if closing(tokens).is_some() {
        braces(tokens, text, levels)
    } else {
        scalar(tokens, text)
    }
}

/// The elements of a list, behind its opening bracket, and the closing one.
#[cycle(aggregate)]
#[tactic(auto, unfolding(crate::specs::AggregateGrammar::list_with))]
fn list<'a>(tokens: &mut Tokens<'a>, text: &mut String, levels: u32) -> Result<(), Stop<'a>>
    ensures reads { Reads (λ x. x) (spec.list_with (spec.braces levels) (stream tokens.old))
        result tokens.new }
    ensures writes { OnOk result (texts.WritesTokens (stream tokens.old) (string_bytes text.old)
        (stream tokens.new) (string_bytes text.new)) }
    ensures moves { OnOk result (left tokens.new < left tokens.old) }
{
    if eat(tokens, text, Sign::RightBracket)? {
        return Ok(());
    }
    value(tokens, text, levels)?;
    'elements: while eat(tokens, text, Sign::Comma)? {
        value(tokens, text, levels)?;
    }
    expect(tokens, text, Sign::RightBracket)
}

/// Fields in braces of either kind.
#[cycle(aggregate)]
#[tactic(auto, unfolding(crate::specs::AggregateGrammar::braces))]
fn braces<'a>(tokens: &mut Tokens<'a>, text: &mut String, levels: u32) -> Result<(), Stop<'a>>
    ensures reads { Reads (λ x. x) (spec.braces levels (stream tokens.old)) result tokens.new }
    ensures writes { OnOk result (texts.WritesTokens (stream tokens.old) (string_bytes text.old)
        (stream tokens.new) (string_bytes text.new)) }
    ensures moves { OnOk result (left tokens.new < left tokens.old) }
{
    let Some((open, close)) = closing(tokens) else {
        return Err(tokens.refuse_in_text(ExpectedToken::MessageValue));
    };
    let span = tokens.expect_in_text(open)?;
    if levels == 0 {
        return Err(Stop::Refused(Fault::TooDeep { span }));
    }
    add(text, Token::Sign(open))?;
    fields(tokens, text, close, levels - 1)?;
    expect(tokens, text, close)
}

/// Fields up to a closing brace.
#[cycle(aggregate)]
#[tactic(auto, unfolding(crate::specs::AggregateGrammar::fields_with))]
fn fields<'a>(
    tokens: &mut Tokens<'a>,
    text: &mut String,
    close: Sign,
    levels: u32,
) -> Result<(), Stop<'a>>
    ensures reads { Reads (λ x. x) (spec.fields_with (spec.braces levels) close (stream tokens.old))
        result tokens.new }
    ensures writes { OnOk result (texts.WritesTokens (stream tokens.old) (string_bytes text.old)
        (stream tokens.new) (string_bytes text.new)) }
    ensures moves { OnOk result (left tokens.new ≤ left tokens.old) }
{
    'fields: while !tokens.sees_in_text(close) {
        field(tokens, text, levels)?;
    }
    Ok(())
}

/// The value of a field behind its name: only braces may stand there without a colon.
#[cycle(aggregate)]
#[tactic(auto, unfolding(crate::specs::AggregateGrammar::field_value_with))]
fn field_value<'a>(tokens: &mut Tokens<'a>, text: &mut String, levels: u32) -> Result<(), Stop<'a>>
    ensures reads { Reads (λ x. x) (spec.field_value_with (spec.braces levels) (stream tokens.old))
        result tokens.new }
    ensures writes { OnOk result (texts.WritesTokens (stream tokens.old) (string_bytes text.old)
        (stream tokens.new) (string_bytes text.new)) }
    ensures moves { OnOk result (left tokens.new < left tokens.old) }
{
    if !eat(tokens, text, Sign::Colon)? {
        return braces(tokens, text, levels);
    }
    if eat(tokens, text, Sign::LeftBracket)? {
        return list(tokens, text, levels);
    }
    value(tokens, text, levels)
}

/// The comma or the semicolon that may follow a field.
#[tactic(auto, unfolding(crate::specs::AggregateGrammar::separator))]
fn separator<'a>(tokens: &mut Tokens<'a>, text: &mut String) -> Result<(), Stop<'a>>
    ensures reads { Reads (λ x. x) (spec.separator (stream tokens.old)) result tokens.new }
    ensures writes { OnOk result (texts.WritesTokens (stream tokens.old) (string_bytes text.old)
        (stream tokens.new) (string_bytes text.new)) }
    ensures moves { OnOk result (left tokens.new ≤ left tokens.old) }
{
    if eat(tokens, text, Sign::Comma)? {
        return Ok(());
    }
    eat(tokens, text, Sign::Semicolon)?;
    Ok(())
}

#[cycle(aggregate)]
#[tactic(auto, unfolding(crate::specs::AggregateGrammar::field_with))]
fn field<'a>(tokens: &mut Tokens<'a>, text: &mut String, levels: u32) -> Result<(), Stop<'a>>
    ensures reads { Reads (λ x. x) (spec.field_with (spec.braces levels) (stream tokens.old))
        result tokens.new }
    ensures writes { OnOk result (texts.WritesTokens (stream tokens.old) (string_bytes text.old)
        (stream tokens.new) (string_bytes text.new)) }
    ensures moves { OnOk result (left tokens.new < left tokens.old) }
{
    name(tokens, text)?;
    field_value(tokens, text, levels)?;
    separator(tokens, text)
}

/// A value in braces: the text of its tokens, with one space between each two.
#[tactic(auto, unfolding(crate::specs::AggregateGrammar::aggregate))]
pub fn aggregate<'a>(alloc: Global, tokens: &mut Tokens<'a>) -> Result<Aggregate, Stop<'a>>
    ensures reads { Reads (λ a. (string_bytes a.text, a.span)) (spec.aggregate (stream tokens.old))
        result tokens.new }
    ensures moves { OnOk result (left tokens.new < left tokens.old) }
{
    let open = tokens.expect_sign(Sign::LeftBrace)?;
    let mut text = String::new(alloc);
    fields(tokens, &mut text, Sign::RightBrace, MAX_BRACES)?;
    let close = tokens.expect_in_text(Sign::RightBrace)?;
    Ok(Aggregate {
        text,
        span: across(open, close),
    })
}
