//! Laws of settled pools, each the contract of a function that does nothing. A schema settles the
//! options of each batch behind its linking, which changes records: so the next batch is linked
//! into a pool whose records are not those that linking wrote.
ghost use Rattle.std.specs.Prelude.{◌≡◌, ◌∷◌, ◌↔◌, List, [], map, Contains};
ghost use Rattle.descriptor_records.specs.Content.{FileContent, file_view};
ghost use Rattle.descriptor_records.specs.declared.file.FileDescriptorProto.{FileDescriptorProto};
ghost use Rattle.reflect_build.specs.Accepted.{FaultlessFiles};
ghost use Rattle.reflect_build.specs.Refusals.{Faulty, FaultyExtensions, FaultyFiles};
ghost use Rattle.reflect_build.specs.Refusals.{FaultyNumbers, IsOf, Linking};
ghost use Rattle.reflect_build.specs.Refusals.{new_files, with_declared};
ghost use Rattle.reflect_faults.specs.Faults.{Fault};
ghost use Rattle.reflect_pool.specs.Linked.{empty_pool};
ghost use Rattle.reflect_tables.specs.Types.{PoolType};
ghost use Rattle.schema_view.specs.Lawful.{IsLawful, Meanings, SameFiles, sources};
ghost use Rattle.schema_view.specs.Plain.{IsPlainFile};
ghost use Rattle.schema_view.specs.Views.{view_of};
ghost use Rattle.linked_view.specs.Kept.{IsKept};
ghost use Rattle.linked_view.specs.Pools.{IsPool};
ghost use Rattle.settled_view.specs.BuiltBut.{IsBuiltBut, ChangesOptions};

/// A pool without files is built of no batch. Where files are accepted and options are settled,
/// it is built of one batch more, of those files that the pool had not yet, but for its options:
/// what is asked of the new pool beside this its type keeps, as `pools_are_whole` says.
pub fn settled_pools_are_built()
    ensures empty { IsBuiltBut [] empty_pool }
    ensures kept { (earlier : List (List FileContent)) (old linked new : PoolType)
        (files : List FileDescriptorProto) → IsBuiltBut earlier old → IsPool new
        → FaultlessFiles old files linked → ChangesOptions linked new
        → (w : Linking) × IsOf old w
        × IsBuiltBut (map file_view (new_files w.indexes files) ∷ earlier) new }
{}

/// Where the same files come in other batches, and their names have no dots, two such pools were
/// linked to one view, whatever options were settled between the batches.
pub fn settled_batches_in_another_order()
    ensures { (batches others : List (List FileContent)) (p q : PoolType)
        → ((f : FileContent) → Contains (sources batches) f → IsPlainFile f)
        → SameFiles (sources batches) (sources others)
        → (a : IsBuiltBut batches p) (b : IsBuiltBut others q)
        → view_of (map file_view a.linked.records) ≡ view_of (map file_view b.linked.records) }
{}

/// Whatever options were settled since, files have the same faults as behind the pool that linking
/// made: no fault hangs on what an option in the record of an older file says.
pub fn settled_options_change_no_fault()
    ensures { (linked p : PoolType) → ChangesOptions linked p → (files : List FileDescriptorProto)
        → (xs : List Fault) → (FaultyFiles linked files xs ↔ FaultyFiles p files xs) }
{}

/// Behind the files of a pool that batches built but for its options no pass finds anything wrong
/// with files that are lawful behind the records that linking wrote: no extension whose message and
/// number are taken, nothing by the rules of numbers, and so no fault at all.
pub fn lawful_files_have_no_fault_behind_settled_pools()
    ensures extensions { (earlier : List (List FileContent)) (old : PoolType) (w : Linking)
        (new : List FileDescriptorProto) (meanings : Meanings) → (is : IsBuiltBut earlier old)
        → IsKept old → IsOf old w
        → IsLawful (map file_view is.linked.records) (map file_view new) meanings
        → (xs : List Fault) → FaultyExtensions (with_declared w new) new xs → xs ≡ [] }
    ensures numbers { (earlier : List (List FileContent)) (old : PoolType) (w : Linking)
        (new : List FileDescriptorProto) (meanings : Meanings) → (is : IsBuiltBut earlier old)
        → IsKept old → IsOf old w
        → IsLawful (map file_view is.linked.records) (map file_view new) meanings
        → (xs : List Fault) → FaultyNumbers (with_declared w new) new xs → xs ≡ [] }
    ensures whole { (earlier : List (List FileContent)) (old : PoolType) (w : Linking)
        (new : List FileDescriptorProto) (meanings : Meanings) → (is : IsBuiltBut earlier old)
        → IsKept old → IsOf old w
        → IsLawful (map file_view is.linked.records) (map file_view new) meanings
        → (xs : List Fault) → Faulty w new xs → xs ≡ [] }
{}
