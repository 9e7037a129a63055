//! Laws of pools whose names are as sources give them, each the contract of a function that does
//! nothing: a pool has such names that files with such names were linked into, whose options were
//! settled, and from which refused files were cut again: this gives back the pool that was there
//! before.
ghost use Rattle.std.specs.Prelude.{List};
ghost use Rattle.std.specs.List.{AllByRecursion};
ghost use Rattle.descriptor_records.specs.Content.{file_view};
ghost use Rattle.descriptor_records.specs.declared.file.FileDescriptorProto.{FileDescriptorProto};
ghost use Rattle.option_parts.specs.TypedOptions.{TypedFiles};
ghost use Rattle.reflect_build.specs.Accepted.{FaultlessFiles};
ghost use Rattle.reflect_pool.specs.Linked.{empty_pool};
ghost use Rattle.reflect_tables.specs.Types.{IsSettled, PoolType};
ghost use Rattle.text_model.specs.Unset.{HaveReadDefaults};
ghost use Rattle.message_view.specs.Sound.{HaveNumbers, IsSound};
ghost use Rattle.message_view.specs.Types.{types_of};
ghost use Rattle.text_view.specs.SourceNames.{HaveOwnNames};
ghost use Rattle.source_records.specs.LoneLists.{GivesLoneLists};
ghost use Rattle.source_records.specs.SourceNames.{IsSourceFile};
ghost use Rattle.linked_names.specs.Presence.{HasPresentMessages};
ghost use Rattle.linked_names.specs.SourcePools.{IsSourcePool};

/// Names of a pool without files are as sources give them.
pub fn the_empty_pool_has_source_names()
    ensures { IsSourcePool empty_pool }
{}

/// Where no pass finds a fault in files, the names of a pool's fields, of its enums' values and of
/// its extensions stay apart, whatever gives them.
pub fn accepted_files_keep_names_apart()
    ensures { (old new : PoolType) (files : List FileDescriptorProto)
        → IsSound old → FaultlessFiles old files new → HaveOwnNames old → HaveOwnNames new }
{}

/// Where no pass finds a fault in files whose names are as sources give them, the pool that they
/// are added to keeps names so.
pub fn accepted_sources_keep_source_names()
    ensures { (old new : PoolType) (files : List FileDescriptorProto)
        → IsSound old → FaultlessFiles old files new
        → AllByRecursion (λ (f : FileDescriptorProto). IsSourceFile (file_view f)) files
        → IsSourcePool old → IsSourcePool new }
{}

/// So it does where options are settled, which changes the records of files alone.
pub fn settled_pools_keep_source_names()
    ensures { (old new : PoolType) → IsSettled old new → IsSourcePool old → IsSourcePool new }
{}

/// Where the names in files are as sources give them, they are so in the files to which the options
/// that linking reads itself were copied.
pub fn typed_options_say_nothing_of_names()
    ensures { (files typed : List FileDescriptorProto) → TypedFiles files typed
        → AllByRecursion (λ (f : FileDescriptorProto). IsSourceFile (file_view f)) files
        → AllByRecursion (λ (f : FileDescriptorProto). IsSourceFile (file_view f)) typed }
{}

/// In a pool without files each field of one message has presence.
pub fn the_empty_pool_has_present_messages()
    ensures { HasPresentMessages empty_pool }
{}

/// So it stays where no pass finds a fault in the files that are added.
pub fn accepted_files_keep_messages_present()
    ensures { (old new : PoolType) (files : List FileDescriptorProto)
        → IsSound old → FaultlessFiles old files new → HasPresentMessages old
        → HasPresentMessages new }
{}

/// And where options are settled.
pub fn settled_pools_keep_messages_present()
    ensures { (old new : PoolType) → IsSettled old new → HasPresentMessages old
        → HasPresentMessages new }
{}

/// In a pool without files each field without presence is read as not set where a text gives it its
/// default: it is in no oneof, and the default is a value of its kind.
pub fn the_empty_pool_has_read_unset()
    ensures { HaveReadDefaults (types_of empty_pool) }
{}

/// So it stays where no pass finds a fault in the files that are added, and no list in their
/// records is a member of a oneof.
pub fn accepted_files_keep_unset_read()
    ensures { (old new : PoolType) (files : List FileDescriptorProto)
        → IsSound old → HaveNumbers new → FaultlessFiles old files new
        → AllByRecursion (λ (f : FileDescriptorProto). GivesLoneLists (file_view f)) files
        → HaveReadDefaults (types_of old) → HaveReadDefaults (types_of new) }
{}

/// And where options are settled.
pub fn settled_pools_keep_unset_read()
    ensures { (old new : PoolType) → IsSettled old new → HaveReadDefaults (types_of old)
        → HaveReadDefaults (types_of new) }
{}

/// The options that linking reads itself say nothing of what is in a oneof.
pub fn typed_options_say_nothing_of_oneofs()
    ensures { (files typed : List FileDescriptorProto)
        → TypedFiles files typed
        → AllByRecursion (λ (f : FileDescriptorProto). GivesLoneLists (file_view f)) files
        → AllByRecursion (λ (f : FileDescriptorProto). GivesLoneLists (file_view f)) typed }
{}
