//! Parts of syntax trees: where they stand, and what they say as texts.

use crate::shown::write_shown;
use descriptor_records::FieldType;
use protox_lex::{Int, Span, String as Literal};
use protox_parse::tree::{
    FullIdent, Ident, OptionNamePart, OptionValue, RangeEnd, ReservedRange, Strings, Ty, TypeName,
};
use std::alloc::{AllocError, Global};
use test_json::Text;

fn span(start: usize, end: usize) -> Span {
    Span { start, end }
}

fn write_span(out: &mut Text, span: Span) {
    out.push_span(span.start, span.end);
    out.push_str(" ");
}

/// Writes a text that a part is, if there was room for it.
fn write_text(out: &mut Text, text: Result<String, AllocError>) {
    match text {
        Ok(text) => out.push_pair(text.as_str(), " "),
        Err(_) => out.give_up(),
    }
}

fn ident(alloc: Global, name: &str, start: usize) -> Result<Ident, AllocError> {
    let place = span(start, start.saturating_add(name.len()));
    Ok(Ident::new(String::from_str(alloc, name)?, place))
}

/// The name `foo.Bar`, its first part at 1.
fn dotted(alloc: Global) -> Result<FullIdent, AllocError> {
    let foo = ident(alloc, "foo", 1)?;
    let bar = ident(alloc, "Bar", 5)?;
    Ok(FullIdent::from_idents(vec![in alloc; foo, bar]?))
}

/// The name `foo`.
fn single(alloc: Global) -> Result<FullIdent, AllocError> {
    let foo = ident(alloc, "foo", 3)?;
    FullIdent::from_ident(alloc, foo)
}

/// Writes a name's place and text, if there was room for it.
fn write_name(alloc: Global, out: &mut Text, name: Result<FullIdent, AllocError>) {
    match name {
        Ok(name) => {
            write_span(out, name.span());
            write_text(out, name.to_text(alloc));
        }
        Err(_) => out.give_up(),
    }
}

/// Names of one part and of two.
pub fn write_names(alloc: Global, out: &mut Text) {
    write_name(alloc, out, single(alloc));
    write_name(alloc, out, dotted(alloc));
}

/// Writes a type's place, and which scalar or whose name it is.
fn write_type(alloc: Global, out: &mut Text, ty: &Ty) {
    write_span(out, ty.span());
    write_shown(out, ty.proto_ty());
    match ty.ty_name(alloc) {
        Ok(Some(name)) => write!(out, "{name} "),
        Ok(None) => out.push_str("no name "),
        Err(_) => out.give_up(),
    }
}

/// A name behind a dot, as a type, and a scalar.
pub fn write_types(alloc: Global, out: &mut Text) -> Result<(), AllocError> {
    let name = dotted(alloc)?;
    let leading_dot = Some(span(0, 1));
    let rooted = TypeName { leading_dot, name };
    write_span(out, rooted.span());
    write_text(out, rooted.to_text(alloc));
    write_type(alloc, out, &Ty::Named(rooted));
    write_type(alloc, out, &Ty::Scalar(FieldType::Sint32, span(2, 8)));
    Ok(())
}

/// Writes the place of an option's value, its tokens and its truth.
fn write_value(alloc: Global, out: &mut Text, value: &OptionValue) {
    write_span(out, value.span());
    write_text(out, value.to_token_string(alloc));
    write_shown(out, value.as_bool());
}

/// The name of an extension, a number and a word.
pub fn write_values(alloc: Global, out: &mut Text) -> Result<(), AllocError> {
    let name = dotted(alloc)?;
    let leading_dot = None;
    let part = OptionNamePart::Extension(TypeName { leading_dot, name }, span(0, 9));
    write_span(out, part.span());
    let number = Int {
        negative: true,
        value: 5,
        span: span(4, 6),
    };
    write_value(alloc, out, &OptionValue::Int(number));
    write_value(alloc, out, &OptionValue::Ident(ident(alloc, "true", 2)?));
    Ok(())
}

fn literal(alloc: Global, bytes: &[u8], span: Span) -> Result<Literal, AllocError> {
    let value = Vec::from_slice(alloc, bytes)?;
    Ok(Literal { value, span })
}

/// The value of two literals behind one another.
pub fn write_strings(alloc: Global, out: &mut Text) -> Result<(), AllocError> {
    let first = literal(alloc, b"a\n", span(1, 6))?;
    let second = literal(alloc, b"b", span(7, 10))?;
    let both = Strings::from_literals(vec![in alloc; first, second]?);
    write_value(alloc, out, &OptionValue::String(both));
    Ok(())
}

/// Writes the places of a range: of its start, of its end, and of the whole.
fn write_range(out: &mut Text, end: RangeEnd) {
    let start = Int {
        negative: false,
        value: 5,
        span: span(0, 1),
    };
    let range = ReservedRange { start, end };
    write_span(out, range.start_span());
    write_span(out, range.end_span());
    write_span(out, range.span());
}

/// A range of one number, and one without an end.
pub fn write_ranges(out: &mut Text) {
    write_range(out, RangeEnd::None);
    write_range(out, RangeEnd::Max(span(5, 8)));
}

/// Writes the text of a literal with its place, or its bytes where they are none.
fn write_literal(out: &mut Text, literal: Literal) {
    match literal.into_utf8() {
        Ok((text, place)) => {
            write_span(out, place);
            out.push_pair(text.as_str(), " ");
        }
        Err(back) => write!(out, "no text {:?} ", back.value.as_slice()),
    }
}

/// A literal that is a text, and one that is none.
pub fn write_literals(alloc: Global, out: &mut Text) -> Result<(), AllocError> {
    write_literal(out, literal(alloc, "\u{e9}".as_bytes(), span(0, 4))?);
    write_literal(out, literal(alloc, b"\xe9", span(0, 6))?);
    Ok(())
}
