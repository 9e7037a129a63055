//! Laws of what the options of sources set, in the words of the model, each the contract of a
//! function that does nothing.
ghost use Rattle.std.specs.Prelude.{◌≡◌, ℕ, ℤ, List, Option};
ghost use Rattle.descriptor_records.specs.Content.{options_view};
ghost use Rattle.descriptor_records.specs.declared.options.Options.{Options};
ghost use Rattle.known_messages.specs.KnownMessages.{KnowsAll};
ghost use Rattle.message_view.specs.Sound.{IsSound};
ghost use Rattle.message_view.specs.Types.{types_of};
ghost use Rattle.stored_options.specs.SetOptions.{SetsAll};
ghost use Rattle.option_parts.specs.OptionTypes.{CanRead, type_name};
ghost use Rattle.option_parts.specs.declared.option_scope.OptionScope.{OptionScope};
ghost use Rattle.option_setter.specs.declared.option_setter.NameScope.{NameScope};
ghost use Rattle.stored_options.specs.NamedNumbers.{numbers_named};
ghost use Rattle.plain_records.specs.SourceOptions.{HaveSmallNumbers, as_read};
ghost use Rattle.protobuf_model.specs.Bytes.{bytes_of};
ghost use Rattle.protobuf_model.specs.Types.{Name};
ghost use Rattle.protobuf_model.specs.Values.{Message, nothing};
ghost use Rattle.reflect_options.specs.Settled.{Settles};
ghost use Rattle.text_view.specs.Schemas.{schema_of};

/// Options that a source wrote settle to the bytes of the message that they set where nothing was
/// set, of which their type knows all, along the paths that are told of them. Numbers below 0 are
/// those that an `i64` holds.
pub fn options_of_sources_set_what_they_say()
    ensures { (scope : OptionScope) (s : NameScope) (o settled : Options) (paths : List (List ℤ))
        (decoded : Name → List ℕ → Option Message)
        → IsSound s.pool.now → CanRead s.pool.now scope
        → options_view o ≡ as_read scope (options_view o).uninterpreted_option
        → HaveSmallNumbers (options_view o)
        → Settles scope s o (options_view settled) paths
        → (m : Message) × KnowsAll (types_of s.pool.now) (type_name scope) m
        × (settled.encoded.items ≡ bytes_of (types_of s.pool.now) (type_name scope) m)
        × SetsAll (schema_of s.pool.now decoded) (numbers_named s) (type_name scope)
        (options_view o).uninterpreted_option nothing m paths }
{}
