//! Laws of presence in schemas, each the contract of a function that does nothing: that a field of
//! one message has it, and that a field without it is read as not set where a text gives it its
//! default, as the laws of texts with defaults ask (`print_view`).
//! `IsMadeBy SourcesLinked batches s` says that a schema without files became `s` as these sources
//! were added.
ghost use Rattle.std.specs.Prelude.{ℕ, List};
ghost use Rattle.std.specs.List.{AllByRecursion};
ghost use Rattle.descriptor_records.specs.Content.{file_view};
ghost use Rattle.descriptor_records.specs.declared.file.FileDescriptorProto.{FileDescriptorProto};
ghost use Rattle.reflect_bytes.specs.Spelled.{SpellsSet};
ghost use Rattle.text_model.specs.Unset.{HaveReadDefaults};
ghost use Rattle.message_view.specs.Types.{types_of};
ghost use Rattle.print_view.specs.Forms.{HaveMessagePresence};
ghost use Rattle.source_records.specs.LoneLists.{GivesLoneLists};
ghost use Rattle.linked_names.specs.Presence.{HasPresentMessages};
ghost use Rattle.schema_core.specs.Refusals.{SetLinked, SourcesLinked};
ghost use Rattle.schema_core.specs.declared.schema.Schema.{Schema};
ghost use Rattle.schema_laws.specs.Histories.{IsMadeBy, Sources};

/// Sources that are added keep it so.
pub fn added_sources_keep_messages_present()
    ensures { (old new : Schema) (sources : Sources)
        → SourcesLinked old.pool sources new.pool → HasPresentMessages old.pool
        → HasPresentMessages new.pool }
{}

/// And so do descriptor sets.
pub fn added_sets_keep_messages_present()
    ensures { (old new : Schema) (bytes : List ℕ) → SetLinked old.pool bytes new.pool
        → HasPresentMessages old.pool → HasPresentMessages new.pool }
{}

/// This is what the laws of texts with defaults ask of a schema.
pub fn present_messages_are_printed()
    ensures { (s : Schema) → HasPresentMessages s.pool → HaveMessagePresence s.pool }
{}

/// Sources that are added keep it so that a field without presence is in no oneof and its default
/// is a value of its kind, as the laws of texts with defaults ask.
pub fn added_sources_keep_unset_read()
    ensures { (old new : Schema) (sources : Sources)
        → SourcesLinked old.pool sources new.pool → HaveReadDefaults (types_of old.pool)
        → HaveReadDefaults (types_of new.pool) }
{}

/// And so do descriptor sets in which no list is a member of a oneof.
pub fn added_sets_keep_unset_read()
    ensures { (old new : Schema) (bytes : List ℕ) → SetLinked old.pool bytes new.pool
        → ((files : List FileDescriptorProto) → SpellsSet bytes files
        → AllByRecursion (λ (f : FileDescriptorProto). GivesLoneLists (file_view f)) files)
        → HaveReadDefaults (types_of old.pool) → HaveReadDefaults (types_of new.pool) }
{}

/// So a schema that sources alone made is such as these laws ask.
pub fn schemas_of_sources_are_printed_with_defaults()
    ensures { (batches : List Sources) (s : Schema) → IsMadeBy SourcesLinked batches s
        → HaveMessagePresence s.pool × HaveReadDefaults (types_of s.pool) }
{}
