//! Laws of the batches that a schema is built of, each the contract of a function that does
//! nothing. With them the laws of `schema_view` speak of schemas: a batch is what was added,
//! without the files that were there, and with the options that linking reads where it reads them.
ghost use Rattle.std.specs.Prelude.{◌≡◌, ◌∷◌, ℕ, List, map};
ghost use Rattle.descriptor_records.specs.Content.{FileContent, file_view};
ghost use Rattle.descriptor_records.specs.declared.file.FileDescriptorProto.{FileDescriptorProto};
ghost use Rattle.option_parts.specs.TypedOptions.{TypedFiles};
ghost use Rattle.option_parts.specs.declared.option_error.OptionError.{OptionError};
ghost use Rattle.reflect_build.specs.Refusals.{IsOf, Linking, new_files};
ghost use Rattle.reflect_bytes.specs.Spelled.{SpellsSet};
ghost use Rattle.reflect_passes.specs.declared.error.DescriptorError.{DescriptorError};
ghost use Rattle.reflect_wire.specs.Written.{AreBytes};
ghost use Rattle.message_view.specs.Types.{types_of};
ghost use Rattle.types_view.specs.Pools.{IsBuiltBut};
ghost use Rattle.types_view.specs.Typed.{IsTyped};
ghost use Rattle.schema_core.specs.Payloads.{Decoded, Encoded, Recoded};
ghost use Rattle.schema_core.specs.Refusals.{AreFilesOf, BytesRefused, IsPool, SetLinked};
ghost use Rattle.schema_core.specs.Refusals.{SetRefused, SourcesLinked, SourcesRefused};
ghost use Rattle.schema_core.specs.Refusals.{TextRefused};
ghost use Rattle.schema_core.specs.declared.error.SchemaError.{SchemaError};
ghost use Rattle.schema_core.specs.declared.error.SchemaError.TheVariants.{Link, Memory, Options};
ghost use Rattle.schema_core.specs.declared.schema.Schema.{Schema};
ghost use Rattle.schema_laws.specs.Batches.{AreNoBatch, FitUnsettled, HaveSameFiles};
ghost use Rattle.schema_laws.specs.Histories.{Sources};

/// Sources that are added are one batch more, and the schema's pool still tells of its fields. What
/// `IsPool` asks each pool has, as `pools_are_whole` says.
pub fn added_sources_are_a_batch()
    ensures { (earlier : List (List FileContent)) (old new : Schema)
        (sources : Sources) → IsTyped earlier old.pool → IsPool new.pool
        → SourcesLinked old.pool sources new.pool
        → (files typed : List FileDescriptorProto) × (w : Linking) × AreFilesOf sources files
        × TypedFiles files typed × IsOf old.pool w
        × IsTyped (map file_view (new_files w.indexes typed) ∷ earlier) new.pool }
{}

/// And so are descriptor sets.
pub fn added_sets_are_a_batch()
    ensures { (earlier : List (List FileContent)) (old new : Schema) (bytes : List ℕ)
        → IsTyped earlier old.pool → IsPool new.pool
        → SetLinked old.pool bytes new.pool
        → (files typed : List FileDescriptorProto) × (w : Linking) × SpellsSet bytes files
        × TypedFiles files typed × IsOf old.pool w
        × IsTyped (map file_view (new_files w.indexes typed) ∷ earlier) new.pool }
{}

/// Where sources are refused for how they link, the files that they are are no batch behind the
/// schema's: those that it has not yet are not lawful there, whatever their references mean; or
/// they are too many. So lawful sources link.
pub fn sources_that_do_not_link_are_no_batch()
    ensures { (earlier : List (List FileContent)) (old : Schema)
        (sources : Sources) (e : DescriptorError)
        → (is : IsBuiltBut earlier old.pool) → IsPool old.pool
        → SourcesRefused old.pool sources (Link e)
        → (files typed : List FileDescriptorProto) × AreFilesOf sources files
        × TypedFiles files typed × AreNoBatch is.linked old.pool typed }
{}

/// And so it is of descriptor sets.
pub fn sets_that_do_not_link_are_no_batch()
    ensures { (earlier : List (List FileContent)) (old : Schema) (bytes : List ℕ)
        (e : DescriptorError) → (is : IsBuiltBut earlier old.pool) → IsPool old.pool
        → SetRefused old.pool bytes (Link e)
        → (files typed : List FileDescriptorProto) × SpellsSet bytes files
        × TypedFiles files typed × AreNoBatch is.linked old.pool typed }
{}

/// Where sources are refused for their options, the files that they are fit together with the
/// schema's, but the pool that they make has no settled one.
pub fn sources_with_refused_options_do_not_settle()
    ensures { (old : Schema) (sources : Sources) (e : OptionError)
        → SourcesRefused old.pool sources (Options e)
        → (files : List FileDescriptorProto) × AreFilesOf sources files
        × FitUnsettled old.pool files }
{}

/// And so it is of descriptor sets.
pub fn sets_with_refused_options_do_not_settle()
    ensures { (old : Schema) (bytes : List ℕ) (e : OptionError)
        → SetRefused old.pool bytes (Options e)
        → (files : List FileDescriptorProto) × SpellsSet bytes files
        × FitUnsettled old.pool files }
{}

/// Two schemas that the same files were added to, in whatever batches and order, have the same
/// types, where the files' names have no dots.
pub fn schemas_have_one_order()
    ensures { (batches others : List (List FileContent)) (s t : Schema)
        → HaveSameFiles batches others s t
        → types_of s.pool ≡ types_of t.pool }
{}

/// And so what both recode is the same bytes.
pub fn schemas_of_the_same_files_recode_alike()
    ensures { (batches others : List (List FileContent)) (s t : Schema)
        → HaveSameFiles batches others s t
        → (name bytes a b : List ℕ) → AreBytes bytes → Recoded s.pool name bytes a
        → Recoded t.pool name bytes b → a ≡ b }
{}

/// Nor does the one refuse what the other recodes or decodes, but for want of memory.
pub fn schemas_of_the_same_files_accept_alike()
    ensures recoded { (batches others : List (List FileContent)) (s t : Schema)
        → HaveSameFiles batches others s t
        → (name bytes out : List ℕ) (e : SchemaError) → AreBytes bytes
        → Recoded s.pool name bytes out → BytesRefused t.pool name bytes e → e ≡ Memory }
    ensures decoded { (batches others : List (List FileContent)) (s t : Schema)
        → HaveSameFiles batches others s t
        → (name bytes text : List ℕ) (e : SchemaError) → AreBytes bytes
        → Decoded s.pool name bytes text → BytesRefused t.pool name bytes e → e ≡ Memory }
{}

/// What both encode a text to is the same bytes too.
pub fn schemas_of_the_same_files_encode_alike()
    ensures { (batches others : List (List FileContent)) (s t : Schema)
        → HaveSameFiles batches others s t
        → (name text a b : List ℕ) → Encoded s.pool name text a → Encoded t.pool name text b
        → a ≡ b }
{}

/// And the one refuses no text that the other encodes, but for want of memory.
pub fn schemas_of_the_same_files_take_texts_alike()
    ensures { (batches others : List (List FileContent)) (s t : Schema)
        → HaveSameFiles batches others s t
        → (name text out : List ℕ) (e : SchemaError)
        → Encoded s.pool name text out → TextRefused t.pool name text e → e ≡ Memory }
{}

/// What both print of bytes is the same text.
pub fn schemas_of_the_same_files_decode_alike()
    ensures { (batches others : List (List FileContent)) (s t : Schema)
        → HaveSameFiles batches others s t
        → (name bytes a b : List ℕ) → AreBytes bytes → Decoded s.pool name bytes a
        → Decoded t.pool name bytes b → a ≡ b }
{}
