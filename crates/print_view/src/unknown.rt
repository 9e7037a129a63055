//! What is printed of unknown records, each under its number, is no text of the language.
ghost use Rattle.std.specs.Prelude.{◌≡◌, Option, false, true};
ghost use Rattle.protox_lex.specs.Class.{Text};
ghost use Rattle.reflect_pool.specs.declared.message.MessageDescriptor.{MessageDescriptor};
ghost use Rattle.reflect_message.specs.Names.{DynamicMessage};
ghost use Rattle.text_lines.specs.declared.options.FormatOptions.{FormatOptions};
ghost use Rattle.reflect_print.specs.MessageTexts.{IsMessageText};
ghost use Rattle.protobuf_model.specs.Types.{Name};
ghost use Rattle.protobuf_model.specs.Values.{Message};
ghost use Rattle.text_model.specs.Texts.{IsText};
ghost use Rattle.text_model.specs.Tree.{Fields};
ghost use Rattle.print_view.specs.Readable.{HasNoUnknown, IsReadable, IsSuited};

/// What is printed of a message of a readable type whose values suit their fields, with its unknown
/// records, each under its number, is a text of the language only where it is also what is printed
/// without them, and none is in the message, nor in those in it: so a text that tells such a record
/// is refused.
pub fn told_records_are_no_text()
    ensures { (options : FormatOptions) → options.skip_unknown_fields ≡ false
        → (decoded : Name → Text → Option Message) (d : MessageDescriptor)
        → IsReadable options decoded d → (m : DynamicMessage) → IsSuited options decoded d m
        → (z : Text) → IsMessageText options m z → (fs : Fields) → IsText z fs
        → IsMessageText (record options { skip_unknown_fields = true }) m z
        × HasNoUnknown d m }
{}
