//! Laws of the names in schemas made of sources, each the contract of a function that does nothing.
//! `SourcesLinked p sources q` is what `Schema::new` and `add_sources` promise where they take
//! sources: that a pool `p` becomes `q` by the files that these are.
ghost use Rattle.std.specs.Prelude.{◌≡◌, ◌<◌, ◌^◌, ℕ, List, [], ◌∷◌, length, Option};
ghost use Rattle.protobuf_model.specs.Types.{Name};
ghost use Rattle.protobuf_model.specs.Values.{Message};
ghost use Rattle.reflect_pool.specs.Dots.{without_dot};
ghost use Rattle.reflect_pool.specs.Linked.{empty_pool};
ghost use Rattle.reflect_wire.specs.Written.{AreBytes};
ghost use Rattle.text_view.specs.Schemas.{schema_of};
ghost use Rattle.linked_names.specs.SourcePools.{IsSourcePool};
ghost use Rattle.schema_core.specs.Payloads.{Decoded, Encoded};
ghost use Rattle.schema_core.specs.Refusals.{SourcesLinked, TextRefused, descriptor_name};
ghost use Rattle.schema_core.specs.declared.error.SchemaError.{SchemaError};
ghost use Rattle.schema_core.specs.declared.error.SchemaError.TheVariants.{Memory};
ghost use Rattle.schema_core.specs.declared.schema.Schema.{Schema};
ghost use Rattle.schema_laws.specs.Histories.{Sources};
ghost use Rattle.schema_laws.specs.Reprints.{IsShallow};

/// The names of a new schema are as sources give them.
pub fn new_schemas_have_source_names()
    ensures { (s : Schema) (source : List ℕ)
        → SourcesLinked empty_pool ((descriptor_name, source) ∷ []) s.pool
        → IsSourcePool s.pool }
{}

/// They stay so where sources are added.
pub fn added_sources_keep_source_names()
    ensures { (old new : Schema) (sources : Sources)
        → SourcesLinked old.pool sources new.pool → IsSourcePool old.pool
        → IsSourcePool new.pool }
{}

/// So what such a schema prints of what it encoded is refused for want of memory alone, and encodes
/// to the same bytes, where no more than 100 braces are open in it at once.
pub fn schemas_of_sources_read_what_they_print()
    ensures same { (s : Schema) (decoded : Name → List ℕ → Option Message)
        → IsSourcePool s.pool → (name text out reprint again : List ℕ) → AreBytes text
        → Encoded s.pool name text out → length out < 2 ^ 64 → Decoded s.pool name out reprint
        → IsShallow (schema_of s.pool decoded) (without_dot name) text
        → Encoded s.pool name reprint again → again ≡ out }
    ensures taken { (s : Schema) (decoded : Name → List ℕ → Option Message)
        → IsSourcePool s.pool → (name text out reprint : List ℕ) → AreBytes text
        → Encoded s.pool name text out → length out < 2 ^ 64 → Decoded s.pool name out reprint
        → IsShallow (schema_of s.pool decoded) (without_dot name) text
        → (e : SchemaError) → TextRefused s.pool name reprint e → e ≡ Memory }
{}
