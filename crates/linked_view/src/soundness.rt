//! Laws of linked pools, each the contract of a function that does nothing. With what each pool has
//! (`IsKept`, as `pools_are_whole` says) they say that a pool is sound which files were linked into,
//! whose options were settled, and from which refused files were cut again: this gives back the
//! pool that was there before.
ghost use Rattle.std.specs.Prelude.{List};
ghost use Rattle.descriptor_records.specs.declared.file.FileDescriptorProto.{FileDescriptorProto};
ghost use Rattle.reflect_build.specs.Accepted.{FaultlessFiles};
ghost use Rattle.reflect_pool.specs.Linked.{empty_pool};
ghost use Rattle.reflect_tables.specs.Types.{IsSettled, PoolType};
ghost use Rattle.message_view.specs.Sound.{IsSound};
ghost use Rattle.linked_view.specs.Kept.{IsKept};

/// A pool without files is sound.
pub fn the_empty_pool_is_sound()
    ensures { IsSound empty_pool }
{}

/// Where no pass finds a fault in files, the pool that they are added to stays sound.
pub fn accepted_files_keep_a_pool_sound()
    ensures { (old new : PoolType) (files : List FileDescriptorProto)
        → IsSound old → IsKept new → FaultlessFiles old files new → IsSound new }
{}

/// So it does where options are settled, which changes the records of files alone.
pub fn settled_pools_stay_sound()
    ensures { (old new : PoolType) → IsSettled old new → IsSound old → IsSound new }
{}
