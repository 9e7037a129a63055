//! Laws of the records of schemas, and of the sets that are written of them, each the contract of a
//! function that does nothing. `SourcesLinked p sources q` and `SetLinked p bytes q` are what a
//! schema promises where it takes sources or a set: that a pool `p` becomes `q`.
ghost use Rattle.std.specs.Prelude.{◌≡◌, ◌<◌, ◌^◌, List, ℕ, length, map};
ghost use Rattle.descriptor_records.specs.Content.{file_view};
ghost use Rattle.descriptor_records.specs.declared.file.FileDescriptorProto.{FileDescriptorProto};
ghost use Rattle.reflect_bytes.specs.Spelled.{SpellsSet};
ghost use Rattle.reflect_bytes.specs.Written.{pool_bytes};
ghost use Rattle.reflect_pool.specs.Linked.{empty_pool};
ghost use Rattle.reflect_tables.specs.Types.{PoolType};
ghost use Rattle.types_view.specs.Pools.{IsRecorded};
ghost use Rattle.schema_core.specs.Refusals.{SetLinked, SourcesLinked};
ghost use Rattle.schema_core.specs.declared.schema.Schema.{Schema};
ghost use Rattle.schema_laws.specs.Histories.{Sources};
ghost use Rattle.schema_laws.specs.Records.{HasPlainRecords};

/// The records of a schema without files are plain, and stay so where sources are added.
pub fn added_sources_leave_records_plain()
    ensures empty { IsRecorded empty_pool × HasPlainRecords empty_pool }
    ensures kept { (old : PoolType) (new : Schema) (sources : Sources)
        → HasPlainRecords old → SourcesLinked old sources new.pool → HasPlainRecords new.pool }
{}

/// And so they stay where a set is added.
pub fn added_sets_leave_records_plain()
    ensures { (old : PoolType) (new : Schema) (bytes : List ℕ)
        → HasPlainRecords old → SetLinked old bytes new.pool → HasPlainRecords new.pool }
{}

/// The set that is written of a schema is read as its records, and as nothing else, if it is no
/// longer than a length can say.
pub fn own_sets_are_read_as_their_records()
    ensures read { (s : Schema) → HasPlainRecords s.pool → length (pool_bytes s.pool) < 2 ^ 64
        → SpellsSet (pool_bytes s.pool) s.pool.records }
    ensures same { (s : Schema) (files : List FileDescriptorProto)
        → HasPlainRecords s.pool → length (pool_bytes s.pool) < 2 ^ 64
        → SpellsSet (pool_bytes s.pool) files
        → map file_view files ≡ map file_view s.pool.records }
{}

/// Pools that have the same records have the same set.
pub fn pools_of_the_same_records_have_the_same_set()
    ensures { (p q : PoolType) → map file_view p.records ≡ map file_view q.records
        → pool_bytes p ≡ pool_bytes q }
{}
