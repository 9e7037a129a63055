//! Laws of the entities in the records of settled pools, each the contract of a function that does
//! nothing.
ghost use Rattle.std.specs.Prelude.{◌≡◌, ◌≤◌, ◌<◌, ℕ, Some, length, slice_get};
ghost use Rattle.std.specs.List.{AllZip};
ghost use Rattle.descriptor_records.specs.declared.file.FileDescriptorProto.{FileDescriptorProto};
ghost use Rattle.reflect_options.specs.Entities.{Entity, file_entities};
ghost use Rattle.reflect_options.specs.Settling.{SettlesPool};
ghost use Rattle.reflect_tables.specs.Types.{PoolType};
ghost use Rattle.settled_records.specs.Becoming.{Becomes};

/// The record of a file whose options are settled has the entities that it had, one after another:
/// each stands at the path where it stood, with the options that its own settle to, or as they were
/// where these stay as they are.
pub fn entities_stay_with_what_their_options_settle_to()
    ensures { (old new : PoolType) (first i : ℕ) (f : FileDescriptorProto)
        → SettlesPool old first new → first ≤ i → i < length old.files
        → slice_get old.records i ≡ Some f
        → (g : FileDescriptorProto) × (slice_get new.records i ≡ Some g)
        × AllZip (Becomes old) (file_entities i f) (file_entities i g) }
{}

/// Each of the entities of a record stands at a path of its own.
pub fn entities_stand_at_paths_of_their_own()
    ensures { (i k j : ℕ) (f : FileDescriptorProto) (c d : Entity)
        → slice_get (file_entities i f) k ≡ Some c → slice_get (file_entities i f) j ≡ Some d
        → c.path ≡ d.path → k ≡ j }
{}
