//! Laws of the records that a pool's messages have, each the contract of a function that does
//! nothing. What is asked of pools beside this each pool has, as `pools_are_whole` says.
ghost use Rattle.std.specs.Prelude.{◌≡◌, ℕ, List, map};
ghost use Rattle.descriptor_records.specs.Content.{file_view};
ghost use Rattle.descriptor_records.specs.declared.file.FileDescriptorProto.{FileDescriptorProto};
ghost use Rattle.option_parts.specs.OptionTypes.{KeepsExtensions};
ghost use Rattle.reflect_build.specs.Accepted.{FaultlessFiles};
ghost use Rattle.reflect_pool.specs.Linked.{empty_pool};
ghost use Rattle.reflect_tables.specs.Types.{PoolType};
ghost use Rattle.settled_view.specs.BuiltBut.{ChangesOptions};
ghost use Rattle.schema_laws.specs.ToldMessages.{KeepAlike, TellsMessages};
ghost use Rattle.types_view.specs.Pools.{IsPool};

/// The files of a pool declare each of its messages under its full name: so it is without files,
/// and stays so where files are accepted, and where options are settled.
pub fn records_declare_their_messages()
    ensures empty { TellsMessages empty_pool }
    ensures accepted { (old linked : PoolType) (files : List FileDescriptorProto)
        → TellsMessages old → FaultlessFiles old files linked → TellsMessages linked }
    ensures settled { (linked new : PoolType) → ChangesOptions linked new
        → TellsMessages linked → TellsMessages new }
{}

/// So where two pools have the same records, and the second was linked behind no other, the message
/// of a name keeps the same numbers in both.
pub fn pools_of_the_same_records_keep_the_same_numbers()
    ensures { (p q : PoolType) (files : List FileDescriptorProto)
        → TellsMessages p → TellsMessages q → FaultlessFiles empty_pool files q
        → IsPool q → map file_view p.records ≡ map file_view q.records → KeepAlike p q }
{}

/// And each message keeps its numbers where options are settled.
pub fn settled_pools_keep_the_same_numbers()
    ensures { (linked new : PoolType) → ChangesOptions linked new
        → (i : ℕ) → KeepsExtensions linked i → KeepsExtensions new i }
{}
