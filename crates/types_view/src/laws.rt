//! Laws of the types of pools, each the contract of a function that does nothing.
ghost use Rattle.std.specs.Prelude.{◌≡◌, ◌∷◌, List, [], map, Contains};
ghost use Rattle.descriptor_records.specs.Content.{FileContent, file_view};
ghost use Rattle.descriptor_records.specs.declared.file.FileDescriptorProto.{FileDescriptorProto};
ghost use Rattle.reflect_build.specs.Accepted.{FaultlessFiles};
ghost use Rattle.reflect_build.specs.Refusals.{IsOf, Linking, new_files};
ghost use Rattle.reflect_pool.specs.Linked.{empty_pool};
ghost use Rattle.reflect_tables.specs.Types.{PoolType};
ghost use Rattle.message_view.specs.Types as pool;
ghost use Rattle.schema_view.specs.Lawful.{SameFiles, sources};
ghost use Rattle.schema_view.specs.Plain.{IsPlainFile};
ghost use Rattle.schema_view.specs.Types as view;
ghost use Rattle.schema_view.specs.Views.{view_of};
ghost use Rattle.linked_view.specs.Kept.{IsKept};
ghost use Rattle.linked_view.specs.Alone.{IsWellNamed};
ghost use Rattle.linked_view.specs.Built.{IsBuilt};
ghost use Rattle.linked_view.specs.Extended.{IsIndexed};
ghost use Rattle.linked_view.specs.Pools.{IsPool};
ghost use Rattle.settled_view.specs.BuiltBut.{ChangesOptions};
ghost use Rattle.types_view.specs.Fields.{TellsFields};
ghost use Rattle.types_view.specs.Typed.{IsTyped};

/// A pool without files tells of the fields that its records declare, and so it stays where files
/// are accepted: what is asked of the new pool beside this its type keeps, as `pools_are_whole`
/// says.
pub fn pools_tell_of_fields()
    ensures empty { TellsFields empty_pool }
    ensures kept { (old new : PoolType) (files : List FileDescriptorProto) → IsWellNamed old
        → IsIndexed new → IsKept new → TellsFields old
        → FaultlessFiles old files new → TellsFields new }
{}

/// The types of a pool that batches built are those of its records: which field each number is of
/// each message, and of what kind, label, default and oneof.
pub fn built_pools_have_the_types_of_their_records()
    ensures { (batches : List (List FileContent)) (p : PoolType) → IsBuilt batches p → IsKept p
        → TellsFields p
        → pool.types_of p ≡ view.types_of (view_of (map file_view p.records)) }
{}

/// A pool without files is built of no batch and tells of its fields. Where files are accepted and
/// options are settled, it is built of one batch more, of those files that the pool had not yet,
/// and tells of the fields of all.
pub fn settled_pools_are_typed()
    ensures empty { IsTyped [] empty_pool }
    ensures kept { (earlier : List (List FileContent)) (old linked new : PoolType)
        (files : List FileDescriptorProto) → IsTyped earlier old → IsPool new
        → FaultlessFiles old files linked → ChangesOptions linked new
        → (w : Linking) × IsOf old w
        × IsTyped (map file_view (new_files w.indexes files) ∷ earlier) new }
{}

/// The types of a pool whose options were settled between the batches are those of the records that
/// linking wrote.
pub fn settled_pools_have_the_types_of_their_records()
    ensures { (batches : List (List FileContent)) (p : PoolType) (t : IsTyped batches p) → IsKept p
        → pool.types_of p ≡ view.types_of (view_of (map file_view t.but.linked.records)) }
{}

/// Where the same files come in other batches, and their names have no dots, two such pools have
/// the same types.
pub fn types_in_another_order()
    ensures { (batches others : List (List FileContent)) (p q : PoolType)
        → ((f : FileContent) → Contains (sources batches) f → IsPlainFile f)
        → SameFiles (sources batches) (sources others)
        → IsTyped batches p → IsTyped others q → IsKept p → IsKept q
        → pool.types_of p ≡ pool.types_of q }
{}
