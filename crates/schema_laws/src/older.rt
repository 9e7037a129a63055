//! Laws of the types of schemas that grow, each the contract of a function that does nothing. What
//! `IsPool` asks each pool has, as `pools_are_whole` says.
ghost use Rattle.std.specs.Prelude.{◌++◌, ℕ, List};
ghost use Rattle.descriptor_records.specs.Content.{FileContent};
ghost use Rattle.protobuf_model.specs.Older.{IsOlder};
ghost use Rattle.reflect_pool.specs.Dots.{without_dot};
ghost use Rattle.message_view.specs.Types.{types_of};
ghost use Rattle.types_view.specs.Typed.{IsTyped};
ghost use Rattle.schema_core.specs.Refusals.{IsKnown, IsPool};
ghost use Rattle.schema_core.specs.declared.schema.Schema.{Schema};
ghost use Rattle.schema_laws.specs.Batches.{Grows};

/// Each message type of a schema is older than the same type after any number of further batches:
/// so what is said of older schemas holds of a schema as it was before.
pub fn types_stay_as_batches_come()
    ensures { (earlier more : List (List FileContent)) (old new : Schema)
        → IsTyped earlier old.pool → IsTyped (more ++ earlier) new.pool
        → IsPool old.pool → IsPool new.pool → (name : List ℕ) → IsKnown old.pool name
        → IsOlder (types_of old.pool) (without_dot name) (types_of new.pool) (without_dot name) }
{}

/// So it is after sources are added, or a descriptor set is.
pub fn types_stay_as_files_come()
    ensures { (earlier : List (List FileContent)) (old new : Schema)
        → IsTyped earlier old.pool → Grows old new → (name : List ℕ) → IsKnown old.pool name
        → IsOlder (types_of old.pool) (without_dot name) (types_of new.pool) (without_dot name) }
{}
