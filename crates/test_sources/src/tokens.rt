//! The tokens of sources and of texts as they print, each behind its place and kind, and the fault
//! that ends them.

use protox_lex::{Lexeme, Lexer, Token};
use serde_json::Value;
use std::alloc::Global;
use test_json::members::text;
use test_json::{Text, Told};
use text_lex::{LexError as TextFault, Lexer as TextLexer, Token as TextToken};

/// What kind of token it is, in a letter.
fn mark(token: &Token<'_>) -> &'static str {
    match token {
        Token::Ident(_) => "w",
        Token::Int(_) => "i",
        Token::Float(_) => "f",
        Token::String(_) => "s",
        Token::Sign(_) => "",
        Token::HashComment => "c",
    }
}

/// Writes a token, with a mark behind it where the text format alone has it.
fn write_token(out: &mut Text, lexeme: &Lexeme<'_>) {
    out.push_span(lexeme.span.start, lexeme.span.end);
    out.push_pair(" ", mark(&lexeme.token));
    write!(out, "{}", lexeme.token);
    if lexeme.text_format_fault().is_some() {
        out.push_str("!");
    }
    out.push_str(" ");
}

/// The tokens of a source.
pub fn tell_tokens(alloc: Global, case: &Value, told: &mut Told<'_>) {
    let source = text(case, "text");
    let mut lexer = Lexer::new(source);
    let mut out = Text::new(alloc);
    for _ in 0..=source.len() {
        match lexer.next() {
            Ok(Some(lexeme)) => write_token(&mut out, &lexeme),
            Ok(None) => break,
            Err(e) => {
                out.push_span(e.span.start, e.span.end);
                write!(out, " {:?}", e.kind);
                break;
            }
        }
    }
    told.tell_text("ok", out);
}

/// What kind of a text's token it is, in a letter.
fn text_mark(token: TextToken<'_>) -> &'static str {
    match token {
        TextToken::Ident(_) => "w",
        TextToken::IntLiteral(_) => "i",
        TextToken::FloatLiteral(_) => "f",
        TextToken::StringLiteral(_) => "s",
        _ => "",
    }
}

/// Writes a fault of a text and its place.
fn write_fault(out: &mut Text, error: TextFault) {
    let (name, span) = match error {
        TextFault::InvalidToken(span) => ("InvalidToken", span),
        TextFault::InvalidStringCharacters(span) => ("InvalidStringCharacters", span),
        TextFault::InvalidStringEscape(span) => ("InvalidStringEscape", span),
        TextFault::NoSpaceBetweenIntAndIdent(span) => ("NoSpaceBetweenIntAndIdent", span),
        TextFault::UnterminatedString => return out.push_str("UnterminatedString"),
    };
    out.push_span(span.start, span.end);
    out.push_pair(" ", name);
}

/// The tokens of a message's text.
pub fn tell_text_tokens(alloc: Global, case: &Value, told: &mut Told<'_>) {
    let source = text(case, "text");
    let mut lexer = TextLexer::new(source);
    let mut out = Text::new(alloc);
    for _ in 0..=source.len() {
        match lexer.next() {
            Ok(Some(lexeme)) => {
                let letter = text_mark(lexeme.token);
                out.push_span(lexeme.span.start, lexeme.span.end);
                write!(out, " {letter}{} ", lexeme.token);
            }
            Ok(None) => break,
            Err(error) => {
                write_fault(&mut out, error);
                break;
            }
        }
    }
    told.tell_text("ok", out);
}
