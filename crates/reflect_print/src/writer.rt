//! From a message to text.

ghost use Rattle.std.specs.Prelude.{◌≡◌, IfErr, IfOk, OnOk, string_bytes};
ghost use Rattle.text_lines.specs.UnknownTexts.{IsPayloadText, IsRecordText};
ghost use Rattle.reflect_print.specs.MessageTexts.{IsValueText, IsMessageText};
ghost use Rattle.reflect_print.specs.Named.{kind_given};
ghost use Rattle.reflect_print.specs.Written.{WritesOneOf};
ghost use Rattle.reflect_print.specs.declared.error.WriteError.TheVariants.{Memory};
ghost use Rattle.reflect_wire.specs.Views.{field_view};

use crate::error::WriteError;
use crate::messages::{items, value_text};
use reflect_message::{DynamicMessage, Value};
use reflect_pool::Kind;
use reflect_wire::UnknownField;
use std::alloc::Global;
use std::fmt;
use text_lines::{FormatOptions, Lines, Place};

/// Writes messages, values and unknown records as text. A text stands in memory until it is whole,
/// and is then given to the output in one call: where memory runs out nothing is written. What an
/// output that refuses a text has taken of it is for the output to say.
#[derive(Drop)]
pub struct Writer<'a, W: fmt::Write> {
    alloc: Global,
    options: FormatOptions,
    output: &'a mut W,
}

impl<'a, W: fmt::Write> Writer<'a, W> {
    /// A writer in the form of the options to an output.
    pub fn new(alloc: Global, options: FormatOptions, output: &'a mut W) -> Writer<'a, W>
        ensures same { result.output.ghost_name ≡ output.entry.ghost_name }
        ensures output { result.output.now ≡ output.old }
        ensures form { result.options ≡ options }
    {
        Writer {
            alloc,
            options,
            output,
        }
    }

    /// Writes a message, without braces around it.
    pub fn fmt_message(&mut self, message: &DynamicMessage<'_>) -> Result<(), WriteError>
        ensures text { OnOk result (WritesOneOf W.write_str_gives self.old.output.now
            (IsMessageText self.old.options message.now) self.new.output.now) }
        ensures memory { IfErr result (λ e. e ≡ Memory → self.new ≡ self.old) }
        ensures same { self.new.output.ghost_name ≡ self.old.output.ghost_name }
        ensures form { self.new.options ≡ self.old.options }
    {
        let text = message_text(self.alloc, message, self.options)?;
        self.output.write_str(text.as_str())?;
        Ok(())
    }

    /// Writes a value of a kind. Without the kind an enum's value is written as a number.
    pub fn fmt_value(
        &mut self,
        value: &Value<'_>,
        kind: Option<&Kind<'_>>,
    ) -> Result<(), WriteError>
        ensures text { OnOk result (WritesOneOf W.write_str_gives self.old.output.now
            (IsValueText self.old.options 100 100 0 (kind_given kind.entry) value.now)
            self.new.output.now) }
        ensures memory { IfErr result (λ e. e ≡ Memory → self.new ≡ self.old) }
        ensures same { self.new.output.ghost_name ≡ self.old.output.ghost_name }
        ensures form { self.new.options ≡ self.old.options }
    {
        let mut lines = Lines::new(self.alloc, self.options);
        value_text(&mut lines, value, kind, Place::TOP)?;
        self.output.write_str(lines.output.as_str())?;
        Ok(())
    }

    /// Writes a record with its number. A payload that spells records is written as such, up to 100
    /// in one another, and any other as a string.
    pub fn fmt_unknown_field(&mut self, field: &UnknownField) -> Result<(), WriteError>
        ensures text { OnOk result (WritesOneOf W.write_str_gives self.old.output.now
            (IsRecordText self.old.options.pretty (IsPayloadText 100 self.old.options.pretty) 0
            (field_view field.now))
            self.new.output.now) }
        ensures memory { IfErr result (λ e. e ≡ Memory → self.new ≡ self.old) }
        ensures same { self.new.output.ghost_name ≡ self.old.output.ghost_name }
        ensures form { self.new.options ≡ self.old.options }
    {
        let mut lines = Lines::new(self.alloc, self.options);
        lines.unknown_field(field, Place::TOP)?;
        self.output.write_str(lines.output.as_str())?;
        Ok(())
    }
}

/// The text of a message in the form of the options, without braces around it. Refused for want of
/// memory alone.
pub fn message_text(
    alloc: Global,
    message: &DynamicMessage<'_>,
    options: FormatOptions,
) -> Result<String, WriteError>
    ensures text { IfOk result (λ text. IsMessageText options message.now (string_bytes text)) }
    ensures err { IfErr result (λ e. e ≡ Memory) }
{
    let mut lines = Lines::new(alloc, options);
    items(&mut lines, message, false, Place::TOP)?;
    let Lines { output, .. } = lines;
    Ok(output)
}
