//! Laws of texts and of schemas that grow, each the contract of a function that does nothing.
ghost use Rattle.std.specs.Prelude.{◌≡◌, ◌++◌, List, Bool, true, Option, Some};
ghost use Rattle.descriptor_records.specs.Content.{FileContent};
ghost use Rattle.texts_view.specs.Declared.{is_declared};
ghost use Rattle.texts_view.specs.SaysAll.{HaveEntryValues, SaysAll};
ghost use Rattle.known_messages.specs.KnownMessages.{KnowsAll};
ghost use Rattle.protobuf_model.specs.Bytes.{bytes_of};
ghost use Rattle.protobuf_model.specs.Types.{Name};
ghost use Rattle.protobuf_model.specs.Values.{Message};
ghost use Rattle.protox_lex.specs.Class.{Text};
ghost use Rattle.schema_view.specs.Declarations.{MessageFacts};
ghost use Rattle.schema_view.specs.Lawful.{AddsLawful, Builds};
ghost use Rattle.schema_view.specs.Types.{message_at, types_of};
ghost use Rattle.schema_view.specs.Views.{view_of};
ghost use Rattle.text_model.specs.Schemas.{Schema};
ghost use Rattle.text_model.specs.Texts.{Gives, IsMerged};
ghost use Rattle.texts_view.specs.Named.{schema_in};

/// Of a message that a text gives its type knows all, whatever bytes are in it; and so it is behind
/// a start of which the type knows all.
pub fn given_messages_are_known()
    ensures given { (w : Schema) → HaveEntryValues w → (t : Name) (z : Text) (m : Message)
        → Gives w t z m → KnowsAll w.types t m }
    ensures merged { (w : Schema) → HaveEntryValues w → (t : Name) (start m : Message) (z : Text)
        → KnowsAll w.types t start → IsMerged w t start z m → KnowsAll w.types t m }
{}

/// What a text gives of a type that a schema declares it gives too where another schema says all
/// that this one does, behind the same start.
pub fn texts_give_the_same_as_schemas_grow()
    ensures given { (old new : Schema) (declared : Name → Bool) → SaysAll old new declared
        → HaveEntryValues old → (t : Name) → declared t ≡ true → (z : Text) (m : Message)
        → Gives old t z m → Gives new t z m }
    ensures merged { (old new : Schema) (declared : Name → Bool) → SaysAll old new declared
        → HaveEntryValues old → (t : Name) → declared t ≡ true → (start m : Message) (z : Text)
        → IsMerged old t start z m → IsMerged new t start z m }
{}

/// And both write it in the same bytes.
pub fn given_messages_are_written_alike()
    ensures { (old new : Schema) (declared : Name → Bool) → SaysAll old new declared
        → HaveEntryValues old → (t : Name) → declared t ≡ true → (z : Text) (m : Message)
        → Gives old t z m → bytes_of new.types t m ≡ bytes_of old.types t m }
{}

/// The types of the entries of a schema's maps have the maps' values.
pub fn entries_have_the_values_of_maps()
    ensures { (batches : List (List FileContent)) (files : List FileContent)
        (decoded : Name → Text → Option Message) → Builds batches files
        → HaveEntryValues (schema_in (view_of files) decoded) }
{}

/// After a further batch of files a schema says to texts all that it said before, of the names that
/// it declared.
pub fn schemas_grow_as_files_come()
    ensures { (earlier : List (List FileContent)) (old new after : List FileContent)
        (decoded later : Name → Text → Option Message)
        → Builds earlier old → AddsLawful old new after
        → SaysAll (schema_in (view_of old) decoded) (schema_in (view_of after) later)
        (is_declared (view_of old)) }
{}

/// So what a text gives of a message type of a schema it gives after each further batch, and it is
/// written in the same bytes.
pub fn encoded_texts_stay_as_files_come()
    ensures given { (earlier : List (List FileContent)) (old new after : List FileContent)
        (decoded later : Name → Text → Option Message)
        → Builds earlier old → AddsLawful old new after → (t : Name) (m : MessageFacts)
        → message_at (view_of old) t ≡ Some m → (z : Text) (x : Message)
        → Gives (schema_in (view_of old) decoded) t z x
        → Gives (schema_in (view_of after) later) t z x }
    ensures written { (earlier : List (List FileContent)) (old new after : List FileContent)
        (decoded later : Name → Text → Option Message)
        → Builds earlier old → AddsLawful old new after → (t : Name) (m : MessageFacts)
        → message_at (view_of old) t ≡ Some m → (z : Text) (x : Message)
        → Gives (schema_in (view_of old) decoded) t z x
        → bytes_of (types_of (view_of after)) t x ≡ bytes_of (types_of (view_of old)) t x }
{}

/// And so it is after any number of further batches.
pub fn encoded_texts_stay_as_batches_come()
    ensures given { (earlier more : List (List FileContent)) (old after : List FileContent)
        (decoded later : Name → Text → Option Message)
        → Builds earlier old → Builds (more ++ earlier) after → (t : Name) (m : MessageFacts)
        → message_at (view_of old) t ≡ Some m → (z : Text) (x : Message)
        → Gives (schema_in (view_of old) decoded) t z x
        → Gives (schema_in (view_of after) later) t z x }
    ensures written { (earlier more : List (List FileContent)) (old after : List FileContent)
        (decoded later : Name → Text → Option Message)
        → Builds earlier old → Builds (more ++ earlier) after → (t : Name) (m : MessageFacts)
        → message_at (view_of old) t ≡ Some m → (z : Text) (x : Message)
        → Gives (schema_in (view_of old) decoded) t z x
        → bytes_of (types_of (view_of after)) t x ≡ bytes_of (types_of (view_of old)) t x }
{}
