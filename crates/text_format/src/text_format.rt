ghost use Rattle.std.specs.Prelude.{◌≡◌, IfErr, IfOk, OnOk, string_bytes};
ghost use Rattle.reflect_format.specs.Reads.{IsCause};
ghost use Rattle.reflect_format.specs.Truth.{TrueOf};
ghost use Rattle.reflect_format.specs.Told.{Told};
ghost use Rattle.text_format.specs.Texts.{Fills, IsFault, IsFaultOf, IsUnfit, Makes, MakesNone, Stops};
ghost use Rattle.reflect_print.specs.MessageTexts.{IsMessageText};
ghost use Rattle.text_lines.specs.Forms.{usual_form};
ghost use Rattle.reflect_print.specs.declared.error.WriteError.TheVariants.{Memory};

use reflect_format::{ParseError, Parser};
use reflect_message::{DynamicMessage, MessageParts};
use reflect_pool::MessageDescriptor;
use reflect_print::{FormatOptions, WriteError, message_text};
use std::alloc::Global;

/// Messages as text, in protobuf's text format (protobuf.dev, "Text Format Language
/// Specification").
pub trait TextFormat<'p>: Sized {
    ghost use Rattle.reflect_message.specs.Names.{DynamicMessage};

    /// The message that it is.
    ghost message: { Self → DynamicMessage };

    /// The message of a type that a text spells. Refused with the first fault of the text, as
    /// `merge_text_format` is.
    fn parse_text_format(
        alloc: Global,
        descriptor: MessageDescriptor<'p>,
        text: &str,
    ) -> Result<Self, ParseError>
        ensures same_type { IfOk result (λ m. (message m).descriptor ≡ descriptor.entry) }
        ensures made { IfOk result (λ m. Makes descriptor.entry text.now (message m)) }
        ensures refused { IfErr result (λ e. TrueOf descriptor.entry.pool.now e.kind) }
        ensures cause { IfErr result
            (λ e. IsCause (MakesNone descriptor.entry text.now) e.kind) }
        ensures told { IfErr result (λ e. Told (IsFaultOf descriptor.entry text.now) e.kind) };

    /// Reads a text into the message. The first fault ends it; the message then has the fields at
    /// the top that were read before the fault, and for want of memory perhaps a part of the map or
    /// the `google.protobuf.Any` that was to be set.
    ///
    /// A name is called unknown only where its type, its enum or the pool has none such.
    fn merge_text_format(&mut self, text: &str) -> Result<(), ParseError>
        ensures type_stays { (message self.new).descriptor ≡ (message self.old).descriptor }
        ensures refused { IfErr result (λ e. TrueOf (message self.old).descriptor.pool.now e.kind) }
        ensures filled { OnOk result (Fills text.now (message self.old) (message self.new)) }
        ensures cause { IfErr result
            (λ e. IsCause (IsUnfit text.now (message self.old)) e.kind) }
        ensures stops { IfErr result
            (λ e. Stops text.now e.kind (message self.old) (message self.new)) }
        ensures told { IfErr result (λ e. Told (IsFault text.now (message self.old)) e.kind) };

    /// The message's text in the form of [`FormatOptions::new`]. Refused for want of memory alone.
    fn to_text_format(&self, alloc: Global) -> Result<String, WriteError>
        ensures text { IfOk result
            (λ text. IsMessageText usual_form (message self.now) (string_bytes text)) }
        ensures err { IfErr result (λ e. e ≡ Memory) };

    /// The message's text in the form of the options. Refused for want of memory alone.
    fn to_text_format_with_options(
        &self,
        alloc: Global,
        options: &FormatOptions,
    ) -> Result<String, WriteError>
        ensures text { IfOk result
            (λ text. IsMessageText options.now (message self.now) (string_bytes text)) }
        ensures err { IfErr result (λ e. e ≡ Memory) };
}

impl<'p> TextFormat<'p> for DynamicMessage<'p> {
    ghost message = { λ m. m };

    fn parse_text_format(
        alloc: Global,
        descriptor: MessageDescriptor<'p>,
        text: &str,
    ) -> Result<DynamicMessage<'p>, ParseError> {
        let mut message = DynamicMessage::new(alloc, descriptor);
        Parser::new(alloc, text).parse_message(&mut message)?;
        Ok(message)
    }

    fn merge_text_format(&mut self, text: &str) -> Result<(), ParseError> {
        Parser::new(self.allocator(), text).parse_message(self)
    }

    fn to_text_format(&self, alloc: Global) -> Result<String, WriteError> {
        self.to_text_format_with_options(alloc, &FormatOptions::new())
    }

    fn to_text_format_with_options(
        &self,
        alloc: Global,
        options: &FormatOptions,
    ) -> Result<String, WriteError> {
        message_text(alloc, self, *options)
    }
}
