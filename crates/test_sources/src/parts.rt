//! Integers with a sign in all types that hold them, places of a source as lines and columns, and
//! parts that are made by hand.

ghost use Rattle.std.specs.Prelude.{◌<◌, ◌^◌};

use crate::faults::{write_error, write_faults, write_indexes, write_labels};
use crate::records::write_numbers;
use crate::shown::write_shown;
use crate::trees::{
    write_literals, write_names, write_ranges, write_strings, write_types, write_values,
};
use protox_lex::{Int, LineResolver, Span};
use serde_json::Value;
use std::alloc::{AllocError, Global};
use test_json::members::{items, number, pair, text, truth};
use test_json::{Text, Told};

/// An integer in each type, where it fits, and as text.
pub fn tell_int(alloc: Global, case: &Value, told: &mut Told<'_>) {
    let int = Int {
        negative: truth(case, "negative"),
        value: number(case, "value"),
        span: Span { start: 0, end: 0 },
    };
    let mut out = Text::new(alloc);
    write_shown(&mut out, int.as_i32());
    write_shown(&mut out, int.as_i64());
    write_shown(&mut out, int.as_u32());
    write_shown(&mut out, int.as_u64());
    write!(out, "{int}");
    told.tell_text("ok", out);
}

/// The number of a list's item, zero where it is none that a place can have.
fn offset(value: &Value) -> usize
    ensures { result < 2 ^ 31 }
{
    match value.as_u64() {
        Some(number) if number < 0x8000_0000 => number as usize,
        _other => 0,
    }
}

/// Writes the numbers of a span.
fn write_span(alloc: Global, out: &mut Text, lines: &LineResolver, start: &Value, end: &Value) {
    let span = Span {
        start: offset(start),
        end: offset(end),
    };
    match lines.resolve_span(alloc, span) {
        Ok(numbers) => write_shown(out, numbers.as_slice()),
        Err(_) => out.give_up(),
    }
}

/// Writes the line and column of each place, or the numbers of each span.
fn write_places(alloc: Global, out: &mut Text, lines: &LineResolver, places: &[Value]) {
    for place in places {
        match pair(place) {
            Some((start, end)) => write_span(alloc, out, lines, start, end),
            None => write_shown(out, lines.resolve(offset(place))),
        }
    }
}

/// Writes the places that a case names, within its source.
fn write_lines(alloc: Global, out: &mut Text, case: &Value) {
    let source = text(case, "source");
    if source.len() >= 0x8000_0000 {
        return;
    }
    match LineResolver::new(alloc, source) {
        Ok(lines) => write_places(alloc, out, &lines, items(case, "places")),
        Err(_) => out.give_up(),
    }
}

/// The line and column of each place, or the numbers of each span, from 0.
pub fn tell_lines(alloc: Global, case: &Value, told: &mut Told<'_>) {
    let mut out = Text::new(alloc);
    write_lines(alloc, &mut out, case);
    told.tell_text("ok", out);
}

/// Writes a part that is made by hand.
fn write_part(alloc: Global, out: &mut Text, part: &str) -> Result<(), AllocError> {
    match part {
        "names" => write_names(alloc, out),
        "types" => write_types(alloc, out)?,
        "values" => write_values(alloc, out)?,
        "strings" => write_strings(alloc, out)?,
        "literals" => write_literals(alloc, out)?,
        "ranges" => write_ranges(out),
        "faults" => write_faults(alloc, out),
        "labels" => write_labels(alloc, out)?,
        "error" => write_error(alloc, out),
        "indexes" => write_indexes(alloc, out)?,
        "numbers" => write_numbers(alloc, out)?,
        _ => {}
    }
    Ok(())
}

/// What parts that the program makes by hand answer: of syntax trees, of faults, of numbers.
pub fn tell_part(alloc: Global, case: &Value, told: &mut Told<'_>) {
    let mut out = Text::new(alloc);
    let outcome = write_part(alloc, &mut out, text(case, "of"));
    out.check(outcome);
    told.tell_text("ok", out);
}
