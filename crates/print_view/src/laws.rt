//! Laws of what is printed of messages, each the contract of a function that does nothing.
ghost use Rattle.std.specs.Prelude.{◌≡◌, ◌≤◌, ℕ, List, Option, false, true};
ghost use Rattle.protox_lex.specs.Class.{Text};
ghost use Rattle.reflect_pool.specs.declared.message.MessageDescriptor.{MessageDescriptor};
ghost use Rattle.reflect_message.specs.Bytes.{message_bytes};
ghost use Rattle.reflect_message.specs.Names.{DynamicMessage};
ghost use Rattle.reflect_decode.specs.Spelled.{IsSpelled};
ghost use Rattle.reflect_format.specs.Filled.{Fills, Makes};
ghost use Rattle.reflect_format.specs.Unfit.{CannotMake, Unfit};
ghost use Rattle.text_lines.specs.declared.options.FormatOptions.{FormatOptions};
ghost use Rattle.reflect_print.specs.MessageTexts.{IsMessageText};
ghost use Rattle.protobuf_model.specs.Types.{Name};
ghost use Rattle.protobuf_model.specs.Values.{Message};
ghost use Rattle.text_model.specs.Rendered.{text_of};
ghost use Rattle.text_model.specs.Texts.{IsText};
ghost use Rattle.text_model.specs.Tokens.{open_braces};
ghost use Rattle.text_model.specs.Tree.{Fields};
ghost use Rattle.message_view.specs.Shaped.{IsInShape};
ghost use Rattle.message_view.specs.Sound.{IsSound};
ghost use Rattle.message_view.specs.Views.{view};
ghost use Rattle.print_view.specs.Expansions.{DecodesIn, HasUsualAny};
ghost use Rattle.print_view.specs.Forms.{form_of, HaveMessagePresence};
ghost use Rattle.print_view.specs.Readable.{HasNoUnknown, HasOneForms, tree_of};
ghost use Rattle.print_view.specs.Readable.{IsDecoded, IsReadable, IsSuited};

/// The text of a message in shape, as a decoded one is, in each form, is that of the tree which the
/// model prints of it in this form: with unknown records, of a message that holds none, nor do
/// those in it; with defaults, where a field of one message has presence; with expansions, of what
/// is decoded as the printer does, where a google.protobuf.Any has no defaults. Where unknown
/// records are told and Anys are expanded, each of these also holds the one form of a message and
/// nothing else.
pub fn messages_are_printed_as_their_trees()
    ensures { (options : FormatOptions)
        → (decoded : Name → Text → Option Message) (d : MessageDescriptor) → IsSound d.pool.now
        → (options.skip_default_fields ≡ false → HaveMessagePresence d.pool.now)
        → (options.expand_any ≡ true → DecodesIn d.pool.now decoded × HasUsualAny d.pool.now)
        → (m : DynamicMessage) → m.descriptor ≡ d → IsInShape m
        → (options.skip_unknown_fields ≡ false
        → HasNoUnknown d m × HasOneForms options decoded d m)
        → (z : Text) → IsMessageText options m z
        → z ≡ text_of (form_of options) (tree_of options decoded d m) }
{}

/// What is printed of a message of a readable type, however it was made, whose values suit their
/// fields and whose records all have fields, makes, in each form, and as a text of its type,
/// messages that are written in the same bytes, if no more than 100 braces are open in it at once:
/// where names are spelled as in sources; with defaults, where a field without presence has a
/// default of its kind, so that it holds no message, and no oneof; with expansions, where each Any
/// holds the one form of a message.
pub fn printed_messages_are_read_back()
    ensures { (options : FormatOptions)
        → (decoded : Name → Text → Option Message) (d : MessageDescriptor)
        → IsReadable options decoded d → (m : DynamicMessage) → IsSuited options decoded d m
        → HasNoUnknown d m → open_braces (tree_of options decoded d m) ≤ 100
        → (z : Text) → IsMessageText options m z
        → (fs : Fields) → IsText z fs → (n : DynamicMessage) → Makes d (Fills fs) n
        → message_bytes n ≡ message_bytes m }
{}

/// And it is not refused as a text that the type does not take.
pub fn printed_messages_are_taken()
    ensures { (options : FormatOptions)
        → (decoded : Name → Text → Option Message) (d : MessageDescriptor)
        → IsReadable options decoded d → (m : DynamicMessage) → IsSuited options decoded d m
        → HasNoUnknown d m → open_braces (tree_of options decoded d m) ≤ 100
        → (z : Text) → IsMessageText options m z
        → ((fs : Fields) → IsText z fs → CannotMake d (Unfit fs)) → ⊥ }
{}

/// The values of a decoded message of a readable type suit their fields.
pub fn decoded_messages_are_suited()
    ensures { (options : FormatOptions)
        → (decoded : Name → Text → Option Message) (d : MessageDescriptor)
        → IsReadable options decoded d → (m : DynamicMessage) → IsDecoded options decoded d m
        → IsSuited options decoded d m }
{}

/// Bytes of a type are seen as one message at most, whatever numbers they are.
pub fn bytes_are_seen_as_one_message()
    ensures { (d e : MessageDescriptor) → IsSound d.pool.now
        → d.pool.now ≡ e.pool.now → d.index ≡ e.index → (bytes : List ℕ) (m n : DynamicMessage)
        → m.descriptor ≡ d → n.descriptor ≡ e → IsSpelled d bytes m → IsSpelled e bytes n
        → view m ≡ view n }
{}
