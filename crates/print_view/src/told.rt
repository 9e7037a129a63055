//! Laws of what is printed of unknown records, which is no text of the language, so that no other
//! law tells what it is.
ghost use Rattle.std.specs.Prelude.{◌≡◌, ℕ, Bool, false};
ghost use Rattle.std.specs.List.{AllByRecursion};
ghost use Rattle.protox_lex.specs.Class.{Text};
ghost use Rattle.reflect_wire.specs.Records.{Payload};
ghost use Rattle.reflect_message.specs.Names.{DynamicMessage};
ghost use Rattle.reflect_print.specs.MessageTexts.{IsMessageText};
ghost use Rattle.text_lines.specs.UnknownTexts.{IsPayloadText, IsRecordText};
ghost use Rattle.text_lines.specs.declared.options.FormatOptions.{FormatOptions};
ghost use Rattle.message_view.specs.Shaped.{Shaped};
ghost use Rattle.message_view.specs.Sound.{IsSound};
ghost use Rattle.print_view.specs.Told.{told};

/// A record is told in one text, whatever its payloads spell.
pub fn records_are_told_in_one_text()
    ensures { (pretty : Bool) (payloads indent : ℕ) (r : ℕ × Payload) (a b : Text)
        → IsRecordText pretty (IsPayloadText payloads pretty) indent r a
        → IsRecordText pretty (IsPayloadText payloads pretty) indent r b → a ≡ b }
{}

/// So a message is printed in one text in each form in which no Any is expanded, whatever stands in
/// it, and whatever its unknown records spell: no two runs of the printer differ.
pub fn messages_are_printed_in_one_text()
    ensures { (options : FormatOptions) → options.expand_any ≡ false → (m : DynamicMessage)
        → (a b : Text) → IsMessageText options m a → IsMessageText options m b → a ≡ b }
{}

/// In each form, also in one in which Anys are expanded, so is a message in shape, of however many
/// levels, of a sound pool: what the bytes of an Any spell is not one value in memory, but it is
/// printed in one text.
pub fn messages_in_shape_are_printed_in_one_text()
    ensures { (options : FormatOptions) (levels : ℕ) (m : DynamicMessage)
        → IsSound m.descriptor.pool.now → Shaped levels m
        → (a b : Text) → IsMessageText options m a → IsMessageText options m b → a ≡ b }
{}

/// Worked records are told as their texts.
pub fn worked_records_are_told()
    ensures { AllByRecursion (λ e. IsRecordText e.0 (IsPayloadText 100 e.0) 0 e.1 e.2) told }
{}
