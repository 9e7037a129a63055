//! Names, numbers and strings.

ghost use Rattle.std.specs.Prelude.{◌≡◌, ◌<◌, ◌≤◌, OnOk};
ghost use Rattle.protox_options.specs.NameGrammar as spec;
ghost use Rattle.protox_tokens.specs.Left.{left};
ghost use Rattle.protox_tokens.specs.Parser as parser;
ghost use Rattle.protox_tokens.specs.Reads.{Reads};
ghost use Rattle.protox_tokens.specs.Stream.{stream};
ghost use Rattle.protox_tree.specs.View.{ident_view, full_view, type_name_view, strings_view};

use protox_lex::{Int, Sign, Span, Token};
use protox_tokens::{Stop, Tokens, across, one};
use protox_tree::{FullIdent, Ident, Strings, TypeName};
use std::alloc::Global;

/// The parts of a name that begins with this one.
pub fn parts_after<'a>(
    alloc: Global,
    tokens: &mut Tokens<'a>,
    first: Ident,
) -> Result<FullIdent, Stop<'a>>
    ensures reads { Reads full_view (spec.parts_after (ident_view first) (stream tokens.old))
        result tokens.new }
    ensures moves { OnOk result (left tokens.new ≤ left tokens.old) }
{
    let mut list = one(alloc, first)?;
    'rest: while tokens.passes(Sign::Dot) {
        let next = tokens.ident(alloc)?;
        list.push(next)?;
    }
    Ok(FullIdent::from_idents(list))
}

/// A name: words with dots between them, at least one.
pub fn full_ident<'a>(alloc: Global, tokens: &mut Tokens<'a>) -> Result<FullIdent, Stop<'a>>
    ensures reads { Reads full_view (spec.full_ident (stream tokens.old)) result tokens.new }
    ensures moves { OnOk result (left tokens.new < left tokens.old) }
{
    let first = tokens.ident(alloc)?;
    parts_after(alloc, tokens, first)
}

/// The name of a type, which may begin with a dot.
pub fn type_name<'a>(alloc: Global, tokens: &mut Tokens<'a>) -> Result<TypeName, Stop<'a>>
    ensures reads { Reads type_name_view (spec.type_name (stream tokens.old)) result tokens.new }
    ensures moves { OnOk result (left tokens.new < left tokens.old) }
{
    let leading_dot = tokens.eat_sign(Sign::Dot);
    let name = full_ident(alloc, tokens)?;
    Ok(TypeName { leading_dot, name })
}

fn from_sign(minus: Option<Span>, digits: Span) -> Span
    ensures { result ≡ spec.from_sign minus digits }
{
    match minus {
        Some(minus) => across(minus, digits),
        None => digits,
    }
}

/// An integer, which may have a sign.
pub fn int<'a>(tokens: &mut Tokens<'a>) -> Result<Int, Stop<'a>>
    ensures reads { Reads (λ n. n) (spec.an_int (stream tokens.old)) result tokens.new }
    ensures moves { OnOk result (left tokens.new < left tokens.old) }
{
    let minus = tokens.eat_sign(Sign::Minus);
    let (value, digits) = tokens.digits()?;
    Ok(Int {
        negative: minus.is_some(),
        value,
        span: from_sign(minus, digits),
    })
}

/// String literals, one or more.
pub fn strings<'a>(alloc: Global, tokens: &mut Tokens<'a>) -> Result<Strings, Stop<'a>>
    ensures reads { Reads strings_view (spec.strings (stream tokens.old)) result tokens.new }
    ensures moves { OnOk result (left tokens.new < left tokens.old) }
{
    let first = tokens.literal(alloc)?;
    let mut list = one(alloc, first)?;
    'rest: while is_string(tokens) {
        let next = tokens.literal(alloc)?;
        list.push(next)?;
    }
    Ok(Strings::from_literals(list))
}

/// The next token is a string literal.
pub fn is_string(tokens: &Tokens<'_>) -> bool
    ensures { result ≡ parser.is_string (stream tokens.now) }
{
    match tokens.peek() {
        Some(lexeme) => matches!(lexeme.token, Token::String(_)),
        None => false,
    }
}
