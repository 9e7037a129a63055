//! Laws of options that sources give in braces, each the contract of a function that does nothing.
//! `ComeTo p n scope o settled` says that options `o` of one record of a source, whose names are
//! looked up where `n` says, were settled to `settled` as a pool became `p`; `IsInBraces` that one
//! of them is given with a text in braces, and leads along numbers to a field of one message;
//! `ListsEach` that each of them leads so to a list of messages and is given with the next of some
//! texts, or keeps clear of it; and `Encoded s.pool name text out` is what `encode` promises where
//! a schema `s` answers.
ghost use Rattle.std.specs.Prelude.{◌≡◌, ◌≤◌, ◌∷◌, [], ℕ, false, List, Option, Some, Contains};
ghost use Rattle.std.specs.Prelude.{length, map, slice_get};
ghost use Rattle.descriptor_records.specs.Content.{options_view};
ghost use Rattle.descriptor_records.specs.declared.file.FileDescriptorProto.{FileDescriptorProto};
ghost use Rattle.descriptor_records.specs.declared.options.Options.{Options};
ghost use Rattle.known_messages.specs.KnownMessages.{KnowsAll};
ghost use Rattle.message_view.specs.Types.{types_of};
ghost use Rattle.option_parts.specs.OptionTypes.{type_name};
ghost use Rattle.option_parts.specs.declared.option_scope.OptionScope.{OptionScope};
ghost use Rattle.option_setter.specs.declared.option_setter.NameScope.{NameScope};
ghost use Rattle.print_parts.specs.Pairwise.{Pairwise};
ghost use Rattle.protobuf_model.specs.Bytes.{bytes_of};
ghost use Rattle.protobuf_model.specs.Meaning.{if_any};
ghost use Rattle.protobuf_model.specs.Types.{Name};
ghost use Rattle.protobuf_model.specs.Values.{Message, content, message};
ghost use Rattle.reflect_options.specs.Entities.{Entity, file_entities};
ghost use Rattle.reflect_options.specs.Settling.{IsScopeOf, SettlesPool};
ghost use Rattle.reflect_pool.specs.Dots.{without_dot};
ghost use Rattle.reflect_tables.specs.Types.{PoolType};
ghost use Rattle.settled_view.specs.BuiltBut.{ChangesOptions};
ghost use Rattle.stored_options.specs.Braces.{ListsEach, held_along};
ghost use Rattle.stored_options.specs.NamedNumbers.{numbers_named};
ghost use Rattle.text_view.specs.Schemas.{schema_of};
ghost use Rattle.schema_core.specs.Payloads.{Encoded};
ghost use Rattle.schema_core.specs.Refusals.{AreFilesOf, FilesFit, IsPool};
ghost use Rattle.schema_core.specs.declared.schema.Schema.{Schema};
ghost use Rattle.schema_laws.specs.Histories.{Sources};
ghost use Rattle.schema_laws.specs.InBraces.{ComeTo, IsInBraces, StandAt};
ghost use Rattle.schema_laws.specs.LyingBytes.{AllLieAlong, LieAlong};

/// What an option in braces holds is what `encode` gives for the text in its braces: what is stored
/// of its record's options is written of a message, of which their type knows all, and in it the
/// message that the option holds is written so. And so the bytes that `encode` gives lie in those
/// that are stored, along the numbers that the option's name leads to.
pub fn options_in_braces_hold_what_their_text_encodes_to()
    ensures message { (s : Schema) (decoded : Name → List ℕ → Option Message) (n : NameScope)
        (scope : OptionScope) (o settled : Options) → ComeTo s.pool n scope o settled
        → (ns name text out : List ℕ)
        → IsInBraces (schema_of s.pool decoded) (numbers_named n) (type_name scope)
        (options_view o).uninterpreted_option ns (without_dot name) text
        → Encoded s.pool name text out
        → (m inner : Message) × KnowsAll (types_of s.pool) (type_name scope) m
        × (settled.encoded.items ≡ bytes_of (types_of s.pool) (type_name scope) m)
        × (held_along ns m ≡ content (message inner))
        × (bytes_of (types_of s.pool) (without_dot name) inner ≡ out) }
    ensures bytes { (s : Schema) (decoded : Name → List ℕ → Option Message) (n : NameScope)
        (scope : OptionScope) (o settled : Options) → ComeTo s.pool n scope o settled
        → (ns name text out : List ℕ)
        → IsInBraces (schema_of s.pool decoded) (numbers_named n) (type_name scope)
        (options_view o).uninterpreted_option ns (without_dot name) text
        → Encoded s.pool name text out → LieAlong ns settled.encoded.items out }
{}

/// A field of a list holds one message for each option that leads there, in their order, each
/// written in what `encode` gives for the text in its braces, and nothing else: where none leads
/// there it is not set. And so the bytes that `encode` gives lie in those that are stored, each in
/// a record of its own.
pub fn options_in_braces_list_what_their_texts_encode_to()
    ensures messages { (s : Schema) (decoded : Name → List ℕ → Option Message) (n : NameScope)
        (scope : OptionScope) (o settled : Options) → ComeTo s.pool n scope o settled
        → ((options_view o).uninterpreted_option ≡ [] → ⊥)
        → (ns name : List ℕ) (texts outs : List (List ℕ))
        → ListsEach (schema_of s.pool decoded) (numbers_named n) (type_name scope) ns
        (without_dot name) false (options_view o).uninterpreted_option texts
        → Pairwise (Encoded s.pool name) texts outs
        → (m : Message) × (inners : List Message)
        × KnowsAll (types_of s.pool) (type_name scope) m
        × (settled.encoded.items ≡ bytes_of (types_of s.pool) (type_name scope) m)
        × (held_along ns m ≡ if_any (map message inners))
        × (map (bytes_of (types_of s.pool) (without_dot name)) inners ≡ outs) }
    ensures bytes { (s : Schema) (decoded : Name → List ℕ → Option Message) (n : NameScope)
        (scope : OptionScope) (o settled : Options) → ComeTo s.pool n scope o settled
        → (ns name text : List ℕ) (texts outs : List (List ℕ))
        → ListsEach (schema_of s.pool decoded) (numbers_named n) (type_name scope) ns
        (without_dot name) false (options_view o).uninterpreted_option (text ∷ texts)
        → Pairwise (Encoded s.pool name) (text ∷ texts) outs
        → AllLieAlong ns settled.encoded.items outs }
{}

/// Such are the options of each record that sources brought: where their files fit behind a pool,
/// and options were settled in the pool that they were linked to, what the options came to stands
/// at the record's path in the file that the schema has.
pub fn options_of_added_sources_come_to_what_is_stored()
    ensures { (old linked : PoolType) (s : Schema) (given : Sources)
        (files : List FileDescriptorProto) → AreFilesOf given files → FilesFit old files linked
        → SettlesPool linked (length old.files) s.pool
        → ChangesOptions linked s.pool → IsPool s.pool
        → (i : ℕ) (f : FileDescriptorProto) (c : Entity) (o : Options)
        → length old.files ≤ i → slice_get linked.records i ≡ Some f
        → Contains (file_entities i f) c → c.options ≡ Some o
        → ((options_view o).uninterpreted_option ≡ [] → ⊥)
        → (n : NameScope) × (settled : Options) × IsScopeOf linked c n
        × ComeTo s.pool n c.scope o settled × StandAt s.pool i c.path settled }
{}
