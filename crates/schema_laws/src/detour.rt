//! Laws of the detour that a schema takes through its own set, each the contract of a function that
//! does nothing. `IsMadeBy SourcesLinked batches s` says that a schema without files became `s` as
//! these sources were added, `IsGrown s` that it did as sources and sets were, `IsDetour s t` that
//! `t` is what `from_descriptor_set` answers for the own set of `s`, and `SetRefused empty_pool
//! bytes e` what it promises where it refuses a set. A set is bytes, no more than a length can say.
ghost use Rattle.std.specs.Prelude.{◌≡◌, ◌<◌, ◌^◌, ℕ, List, Option, length, map};
ghost use Rattle.descriptor_records.specs.Content.{file_view};
ghost use Rattle.descriptor_records.specs.declared.file.FileDescriptorProto.{FileDescriptorProto};
ghost use Rattle.message_view.specs.Types.{types_of};
ghost use Rattle.protobuf_model.specs.Types.{Name};
ghost use Rattle.protobuf_model.specs.Values.{Message};
ghost use Rattle.reflect_build.specs.Refusals.{AreTooMany};
ghost use Rattle.reflect_bytes.specs.Written.{pool_bytes};
ghost use Rattle.reflect_pool.specs.Linked.{empty_pool};
ghost use Rattle.reflect_wire.specs.Written.{AreBytes};
ghost use Rattle.schema_laws.specs.HeldOptions.{HoldsOptions};
ghost use Rattle.text_view.specs.Schemas.{schema_of};
ghost use Rattle.schema_core.specs.Payloads.{Decoded, Encoded, Recoded};
ghost use Rattle.schema_core.specs.Refusals.{BytesRefused, SetRefused, SourcesLinked};
ghost use Rattle.schema_core.specs.Refusals.{TextRefused};
ghost use Rattle.schema_core.specs.declared.error.SchemaError.{SchemaError};
ghost use Rattle.schema_core.specs.declared.error.SchemaError.TheVariants.{Memory};
ghost use Rattle.schema_core.specs.declared.schema.Schema.{Schema};
ghost use Rattle.schema_laws.specs.Detours.{IsDetour};
ghost use Rattle.schema_laws.specs.Histories.{AdditionLinked, IsGrown, IsMadeBy, Sources};
ghost use Rattle.schema_laws.specs.Histories.{of_sources};

/// What sources alone made is such a schema.
pub fn schemas_of_sources_are_grown()
    ensures { (batches : List Sources) (s : Schema) → IsMadeBy SourcesLinked batches s
        → IsMadeBy AdditionLinked (map of_sources batches) s }
{}

/// And it holds its options as they stand in a set: stored as their types write them, or as sources
/// give them.
pub fn schemas_of_sources_hold_their_options()
    ensures { (batches : List Sources) (s : Schema) → IsMadeBy SourcesLinked batches s
        → HoldsOptions s.pool }
{}

/// Where a schema holds its options so, the set is not refused, unless memory runs out, or its
/// files declare more together than one batch may.
pub fn own_sets_are_not_refused()
    ensures { (s : Schema) → IsGrown s → HoldsOptions s.pool
        → AreBytes (pool_bytes s.pool) → length (pool_bytes s.pool) < 2 ^ 64
        → (e : SchemaError) → (e ≡ Memory → ⊥) → SetRefused empty_pool (pool_bytes s.pool) e
        → (files : List FileDescriptorProto)
        × (map file_view files ≡ map file_view s.pool.records) × AreTooMany empty_pool files }
{}

/// The schema of the set has the same types, and says the same to texts; and where the first holds
/// its options so, it has the records that were written, so that its own set is the same.
pub fn own_sets_give_the_same_schema()
    ensures records { (s t : Schema) → IsGrown s → HoldsOptions s.pool
        → IsDetour s t → AreBytes (pool_bytes s.pool)
        → map file_view t.pool.records ≡ map file_view s.pool.records }
    ensures set { (s t : Schema) → IsGrown s → HoldsOptions s.pool
        → IsDetour s t → AreBytes (pool_bytes s.pool) → pool_bytes t.pool ≡ pool_bytes s.pool }
    ensures types { (s t : Schema) → IsGrown s → IsDetour s t
        → types_of t.pool ≡ types_of s.pool }
    ensures names { (s t : Schema) → IsGrown s → IsDetour s t
        → (decoded : Name → List ℕ → Option Message)
        → schema_of t.pool decoded ≡ schema_of s.pool decoded }
{}

/// So both recode bytes to the same, and neither refuses what the other recodes, but for want of
/// memory.
pub fn schemas_of_own_sets_recode_alike()
    ensures same { (s t : Schema) → IsGrown s → IsDetour s t
        → (name bytes a b : List ℕ) → AreBytes bytes → Recoded s.pool name bytes a
        → Recoded t.pool name bytes b → a ≡ b }
    ensures first { (s t : Schema) → IsGrown s → IsDetour s t
        → (name bytes out : List ℕ) (e : SchemaError) → AreBytes bytes
        → Recoded s.pool name bytes out → BytesRefused t.pool name bytes e → e ≡ Memory }
    ensures second { (s t : Schema) → IsGrown s → IsDetour s t
        → (name bytes out : List ℕ) (e : SchemaError) → AreBytes bytes
        → Recoded t.pool name bytes out → BytesRefused s.pool name bytes e → e ≡ Memory }
{}

/// Both encode a text to the same bytes, and neither refuses one that the other encodes, but for
/// want of memory.
pub fn schemas_of_own_sets_encode_alike()
    ensures same { (s t : Schema) → IsGrown s → IsDetour s t
        → (name text a b : List ℕ) → Encoded s.pool name text a → Encoded t.pool name text b
        → a ≡ b }
    ensures first { (s t : Schema) → IsGrown s → IsDetour s t
        → (name text out : List ℕ) (e : SchemaError)
        → Encoded s.pool name text out → TextRefused t.pool name text e → e ≡ Memory }
    ensures second { (s t : Schema) → IsGrown s → IsDetour s t
        → (name text out : List ℕ) (e : SchemaError)
        → Encoded t.pool name text out → TextRefused s.pool name text e → e ≡ Memory }
{}

/// And both print the same text of bytes, and neither refuses bytes that the other prints, but for
/// want of memory.
pub fn schemas_of_own_sets_decode_alike()
    ensures same { (s t : Schema) → IsGrown s → IsDetour s t
        → (name bytes a b : List ℕ) → AreBytes bytes → Decoded s.pool name bytes a
        → Decoded t.pool name bytes b → a ≡ b }
    ensures first { (s t : Schema) → IsGrown s → IsDetour s t
        → (name bytes text : List ℕ) (e : SchemaError) → AreBytes bytes
        → Decoded s.pool name bytes text → BytesRefused t.pool name bytes e → e ≡ Memory }
    ensures second { (s t : Schema) → IsGrown s → IsDetour s t
        → (name bytes text : List ℕ) (e : SchemaError) → AreBytes bytes
        → Decoded t.pool name bytes text → BytesRefused s.pool name bytes e → e ≡ Memory }
{}
