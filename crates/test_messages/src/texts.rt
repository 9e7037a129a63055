//! Messages, values and records as text.

use crate::messages::answer_message;
use reflect_dynamic::{DynamicMessage, MessageWalks};
use reflect_format::{ParseError, Parser};
use reflect_link::{DescriptorPool, Kind, MessageDescriptor};
use reflect_print::{FormatOptions, WriteError, Writer};
use serde_json::Value as Json;
use std::alloc::Global;
use test_json::Text;
use test_json::members::{items, text};
use test_values::{Answers, message_of, replay_calls, scalar_of, text_of, write_other};
use text_format::TextFormat;

/// A message whose calls read and write text too.
#[derive(Drop)]
struct MessageCase<'p> {
    message: DynamicMessage<'p>,
}

/// The message that a text or bytes of a case spell; `None` where the text is refused.
fn start_of<'p>(
    alloc: Global,
    out: &mut Text,
    descriptor: MessageDescriptor<'p>,
    case: &Json,
) -> Option<DynamicMessage<'p>> {
    match text_of(case, "text") {
        Some(text) => DynamicMessage::parse_text_format(alloc, descriptor, text).ok(),
        None => Some(message_of(alloc, out, descriptor, case)),
    }
}

/// Makes the calls of a message, which the case's text or bytes spell.
pub fn replay_message(
    alloc: Global,
    descriptor: MessageDescriptor<'_>,
    case: &Json,
    difference: &mut Text,
) {
    match start_of(alloc, difference, descriptor, case) {
        Some(message) => replay_calls(alloc, &mut MessageCase { message }, case, difference),
        None => difference.push_str("no message "),
    }
}

impl Answers for MessageCase<'_> {
    fn answer(&mut self, alloc: Global, call: &Json, out: &mut Text) {
        let message = &mut self.message;
        match text(call, "call") {
            "merge_text" => write_refusal(out, message.merge_text_format(text(call, "text"))),
            "parse" => {
                let mut parser = Parser::new(alloc, text(call, "text"));
                write_refusal(out, parser.parse_message(message));
            }
            "text" => match message.to_text_format(alloc) {
                Ok(text) => out.push_str(text.as_str()),
                Err(_) => out.give_up(),
            },
            "write" => write_message(alloc, out, message),
            "write_unknown" => write_unknown(alloc, out, message),
            _ => answer_message(alloc, out, message, call),
        }
    }
}

/// Writes where a text is refused, if it is.
fn write_refusal(out: &mut Text, outcome: Result<(), ParseError>) {
    if let Err(error) = outcome {
        match error.span() {
            Some(span) => out.push_span(span.start, span.end),
            None => out.push_str("refused"),
        }
    }
}

/// Passes on to a text whether another was written.
fn check_written(out: &mut Text, outcome: Result<(), WriteError>) {
    if outcome.is_err() {
        out.give_up();
    }
}

/// Writes a message.
fn write_message(alloc: Global, out: &mut Text, message: &DynamicMessage<'_>) {
    let mut written = String::new(alloc);
    let mut writer = Writer::new(alloc, FormatOptions::new(), &mut written);
    check_written(out, writer.fmt_message(message));
    out.push_str(written.as_str());
}

/// Writes the records that the message's type does not declare.
fn write_unknown(alloc: Global, out: &mut Text, message: &DynamicMessage<'_>) {
    let mut written = String::new(alloc);
    let mut writer = Writer::new(alloc, FormatOptions::new(), &mut written);
    for record in message.unknown_fields() {
        check_written(out, writer.fmt_unknown_field(record));
    }
    out.push_str(written.as_str());
}

/// Writes the case's values, one behind the other: those that name an enum, as of this kind.
fn write_values(alloc: Global, out: &mut Text, pool: &DescriptorPool, case: &Json) {
    let mut written = String::new(alloc);
    let mut writer = Writer::new(alloc, FormatOptions::new(), &mut written);
    for given in items(case, "values") {
        let value = scalar_of(alloc, out, given);
        let kind = pool.get_enum_by_name(text(given, "of")).map(Kind::Enum);
        check_written(out, writer.fmt_value(&value, kind.as_ref()));
    }
    out.push_str(written.as_str());
}

/// Writes the case's values, and says where their text is another than the case has under `is`.
pub fn replay_values(alloc: Global, pool: &DescriptorPool, case: &Json, difference: &mut Text) {
    let mut came = Text::new(alloc);
    write_values(alloc, &mut came, pool, case);
    write_other(difference, "values", came, text(case, "is"));
}
