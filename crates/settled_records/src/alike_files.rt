//! Laws of one file in two pools, each the contract of a function that does nothing.
ghost use Rattle.std.specs.Prelude.{◌≡◌, ◌≤◌, ◌<◌, ℕ, Some, length, map, option_map, slice_get};
ghost use Rattle.std.specs.List.{AllZip};
ghost use Rattle.descriptor_records.specs.Content.{file_view, unlocated};
ghost use Rattle.descriptor_records.specs.declared.file.FileDescriptorProto.{FileDescriptorProto};
ghost use Rattle.reflect_options.specs.Entities.{file_entities};
ghost use Rattle.reflect_options.specs.Settling.{SettlesPool};
ghost use Rattle.reflect_tables.specs.Types.{PoolType};
ghost use Rattle.settled_records.specs.Alike.{AllSettleAlike, IsSameEntity};

/// Records of one content, but for lines, columns and comments, have the same entities, one after
/// another, whatever their files' indexes.
pub fn records_of_one_content_have_the_same_entities()
    ensures { (i j : ℕ) (f g : FileDescriptorProto)
        → unlocated (file_view f) ≡ unlocated (file_view g)
        → AllZip IsSameEntity (file_entities i f) (file_entities j g) }
{}

/// Where the options of a file settle alike in two pools, its records are the same once they are
/// settled: options, and the paths of its locations. A pool may have no types for some of them, as
/// long as these settle to what they are in the other.
pub fn files_whose_options_settle_alike_settle_alike()
    ensures { (p q new other : PoolType) (first second i j : ℕ) (f g : FileDescriptorProto)
        → SettlesPool p first new → SettlesPool q second other
        → first ≤ i → i < length p.files → second ≤ j → j < length q.files
        → slice_get p.records i ≡ Some f → slice_get q.records j ≡ Some g
        → file_view f ≡ file_view g → AllSettleAlike p q i j f g
        → slice_get (map file_view new.records) i ≡ slice_get (map file_view other.records) j }
{}

/// And where it differs there in lines, columns and comments alone, so do its records.
pub fn files_whose_options_settle_alike_stay_the_same_but_for_places()
    ensures { (p q new other : PoolType) (first second i j : ℕ) (f g : FileDescriptorProto)
        → SettlesPool p first new → SettlesPool q second other
        → first ≤ i → i < length p.files → second ≤ j → j < length q.files
        → slice_get p.records i ≡ Some f → slice_get q.records j ≡ Some g
        → unlocated (file_view f) ≡ unlocated (file_view g) → AllSettleAlike p q i j f g
        → option_map unlocated (slice_get (map file_view new.records) i)
        ≡ option_map unlocated (slice_get (map file_view other.records) j) }
{}
