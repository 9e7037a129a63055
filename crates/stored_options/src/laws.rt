//! Laws of the bytes that options are stored in, each the contract of a function that does nothing.
ghost use Rattle.std.specs.Prelude.{◌≡◌, ℕ, List, [], ℤ, Option};
ghost use Rattle.descriptor_records.specs.Content.{OptionsContent, options_view};
ghost use Rattle.descriptor_records.specs.declared.options.Options.{Options};
ghost use Rattle.message_view.specs.Sound.{IsSound};
ghost use Rattle.message_view.specs.Types.{types_of};
ghost use Rattle.option_parts.specs.OptionTypes.{CanRead, ReadsOptions};
ghost use Rattle.option_parts.specs.declared.option_error.OptionErrorKind.{OptionErrorKind};
ghost use Rattle.option_parts.specs.declared.option_scope.OptionScope.{OptionScope};
ghost use Rattle.option_setter.specs.declared.option_setter.NameScope.{NameScope};
ghost use Rattle.plain_records.specs.SaidOptions.{IsSettled, SaysAndIsSettled, SaysItsBytes};
ghost use Rattle.plain_records.specs.SourceOptions.{AreAsRead, AreAsWritten, HaveSmallNumbers};
ghost use Rattle.protobuf_model.specs.Values.{Message};
ghost use Rattle.reflect_options.specs.Settled.{RefusesOptions, Settles};
ghost use Rattle.reflect_tables.specs.Types.{PoolType};
ghost use Rattle.reflect_wire.specs.Written.{AreBytes};
ghost use Rattle.stored_options.specs.CopiedOptions.{AreCopied, ReadsItsBytes};
ghost use Rattle.stored_options.specs.StoredOptions.{AreStored};
ghost use Rattle.text_view.specs.SourceNames.{HaveOwnNames};

/// Options that a source gives settle to the bytes of one message, of which their type knows all.
/// Numbers below 0 are those that an `i64` holds.
pub fn options_of_sources_are_stored()
    ensures { (scope : OptionScope) (s : NameScope) (o settled : Options) (paths : List (List ℤ))
        → IsSound s.pool.now → CanRead s.pool.now scope
        → AreAsRead scope (options_view o) → HaveSmallNumbers (options_view o)
        → Settles scope s o (options_view settled) paths → AreBytes settled.encoded.items
        → (m : Message) × AreStored (types_of s.pool.now) scope m settled.encoded.items }
{}

/// So are those of which nothing is left to settle, as soon as there is a type to read them by.
pub fn options_without_a_type_are_stored_by_a_later_one()
    ensures { (scope : OptionScope) (pool : PoolType) (o : Options)
        → IsSound pool → ReadsOptions pool scope
        → AreAsRead scope (options_view o) → IsSettled (options_view o)
        → (m : Message) × AreStored (types_of pool) scope m o.encoded.items }
{}

/// What linking reads of options is what their bytes say where a set gives them, and where a source
/// does; and linking gets those of a source with what it reads of them where it reads it.
pub fn given_options_are_read_as_their_bytes()
    ensures set { (scope : OptionScope) (o : OptionsContent)
        → SaysItsBytes scope o → ReadsItsBytes scope o }
    ensures source { (scope : OptionScope) (o : OptionsContent)
        → AreAsWritten scope o → ReadsItsBytes scope o }
    ensures copied { (scope : OptionScope) (o : OptionsContent)
        → AreAsRead scope o → AreCopied scope o }
{}

/// Linking reads of such options afterwards what it did before they were settled, where no two
/// fields have one name.
pub fn settled_options_say_what_linking_read()
    ensures { (scope : OptionScope) (s : NameScope) (o settled : Options) (paths : List (List ℤ))
        → IsSound s.pool.now → HaveOwnNames s.pool.now → CanRead s.pool.now scope
        → AreCopied scope (options_view o) → Settles scope s o (options_view settled) paths
        → (settled.packed ≡ o.packed) × (settled.allow_alias ≡ o.allow_alias)
        × (settled.map_entry ≡ o.map_entry) }
{}

/// Settled again they are what they were, and none has a place.
pub fn stored_options_settle_to_themselves()
    ensures { (scope : OptionScope) (s : NameScope) (o settled : Options) (paths : List (List ℤ))
        (m : Message) → IsSound s.pool.now → CanRead s.pool.now scope → AreBytes o.encoded.items
        → AreStored (types_of s.pool.now) scope m o.encoded.items
        → SaysAndIsSettled scope (options_view o)
        → Settles scope s o (options_view settled) paths
        → (options_view settled ≡ options_view o) × (paths ≡ []) }
{}

/// Nor are they refused.
pub fn stored_options_are_not_refused()
    ensures { (scope : OptionScope) (s : NameScope) (o : Options) (at : Option ℕ)
        (e : OptionErrorKind) (m : Message) → IsSound s.pool.now → CanRead s.pool.now scope
        → AreBytes o.encoded.items → AreStored (types_of s.pool.now) scope m o.encoded.items
        → SaysAndIsSettled scope (options_view o) → RefusesOptions scope s o at e → ⊥ }
{}
