//! Laws of the records of pools that files were linked into and settled, each the contract of a
//! function that does nothing. What is asked of pools beside this each pool has, as
//! `pools_are_whole` says.
ghost use Rattle.std.specs.Prelude.{◌≡◌, ◌∷◌, ℕ, List, Option, length, map};
ghost use Rattle.descriptor_records.specs.Content.{FileContent, file_view};
ghost use Rattle.descriptor_records.specs.declared.file.FileDescriptorProto.{FileDescriptorProto};
ghost use Rattle.message_view.specs.Sound.{IsSound};
ghost use Rattle.message_view.specs.Types.{types_of};
ghost use Rattle.option_parts.specs.OptionTypes.{CanRead};
ghost use Rattle.option_parts.specs.TypedOptions.{TypedFiles};
ghost use Rattle.option_parts.specs.declared.option_error.OptionErrorKind.{OptionErrorKind};
ghost use Rattle.option_parts.specs.declared.option_scope.OptionScope.{OptionScope};
ghost use Rattle.plain_records.specs.PlainRecords.{ArePlainFiles};
ghost use Rattle.plain_records.specs.SaidOptions.{SaysAndIsSettled};
ghost use Rattle.plain_records.specs.SourceOptions.{AreGiven};
ghost use Rattle.protobuf_model.specs.Types.{Name};
ghost use Rattle.protobuf_model.specs.Values.{Message};
ghost use Rattle.reflect_build.specs.Accepted.{FaultlessFiles};
ghost use Rattle.reflect_build.specs.Refusals.{IsOf, Linking, new_files};
ghost use Rattle.reflect_options.specs.Settling.{RefusesAtPlace, SettlesPool};
ghost use Rattle.reflect_pool.specs.Linked.{empty_pool};
ghost use Rattle.reflect_tables.specs.Types.{PoolType};
ghost use Rattle.reflect_faults.specs.Faults.{Place};
ghost use Rattle.reflect_wire.specs.Written.{AreBytes};
ghost use Rattle.schema_laws.specs.HeldOptions.{HoldsOptions, ReadsAlike};
ghost use Rattle.settled_view.specs.BuiltBut.{ChangesOptions};
ghost use Rattle.stored_options.specs.CopiedOptions.{ReadsItsBytes};
ghost use Rattle.text_view.specs.SourceNames.{HaveOwnNames};
ghost use Rattle.text_view.specs.Schemas.{schema_of};
ghost use Rattle.types_view.specs.Pools.{IsKept, IsPool};
ghost use Rattle.types_view.specs.Typed.{IsTyped};

/// Where files are linked and settled, whether sources give them or a set does, linking reads of
/// all records what it read of those that it made.
pub fn settled_files_are_read_alike()
    ensures { (earlier : List (List FileContent)) (old linked new : PoolType)
        (files typed : List FileDescriptorProto) (was : IsTyped earlier old)
        → IsPool new → IsSound new → HaveOwnNames new
        → ArePlainFiles ReadsItsBytes (map file_view files) → TypedFiles files typed
        → FaultlessFiles old typed linked → SettlesPool linked (length old.files) new
        → ChangesOptions linked new → ReadsAlike was.but.linked old
        → (w : Linking) × IsOf old w
        × (is : IsTyped (map file_view (new_files w.indexes typed) ∷ earlier) new)
        × ReadsAlike is.but.linked new }
{}

/// Where files of sources are linked and settled, options are held as they were or as the sources
/// gave them, and linking reads of all records what it read of those that it made.
pub fn settled_sources_hold_their_options()
    ensures { (earlier : List (List FileContent)) (old linked new : PoolType)
        (files : List FileDescriptorProto) (was : IsTyped earlier old)
        → IsKept old → IsPool new → IsSound new → HaveOwnNames new
        → FaultlessFiles old files linked → SettlesPool linked (length old.files) new
        → ChangesOptions linked new → ArePlainFiles AreGiven (map file_view files)
        → HoldsOptions old → ReadsAlike was.but.linked old
        → ArePlainFiles SaysAndIsSettled (map file_view new.records)
        → (w : Linking) × IsOf old w
        × (is : IsTyped (map file_view (new_files w.indexes files) ∷ earlier) new)
        × HoldsOptions new × ReadsAlike is.but.linked new }
{}

/// The records of such a pool, of which nothing is left to settle, are what they were where they
/// are linked behind no others and settled once more; and the pool has the same types and names.
pub fn held_records_link_and_settle_to_themselves()
    ensures records { (batches : List (List FileContent)) (p linked new : PoolType)
        (files typed : List FileDescriptorProto) (t : IsTyped batches p) → IsKept p
        → ArePlainFiles SaysAndIsSettled (map file_view p.records)
        → HoldsOptions p → ReadsAlike t.but.linked p
        → ArePlainFiles (λ scope o. AreBytes o.encoded) (map file_view p.records)
        → map file_view files ≡ map file_view p.records → TypedFiles files typed
        → FaultlessFiles empty_pool typed linked → SettlesPool linked 0 new
        → ChangesOptions linked new → IsPool new → IsSound new
        → map file_view new.records ≡ map file_view p.records }
    ensures types { (batches : List (List FileContent)) (p linked new : PoolType)
        (files typed : List FileDescriptorProto) (t : IsTyped batches p) → IsKept p
        → ArePlainFiles SaysAndIsSettled (map file_view p.records)
        → ReadsAlike t.but.linked p
        → map file_view files ≡ map file_view p.records → TypedFiles files typed
        → FaultlessFiles empty_pool typed linked → ChangesOptions linked new → IsPool new
        → types_of new ≡ types_of p }
    ensures names { (batches : List (List FileContent)) (p linked new : PoolType)
        (files typed : List FileDescriptorProto) (t : IsTyped batches p) → IsKept p
        → ArePlainFiles SaysAndIsSettled (map file_view p.records)
        → ReadsAlike t.but.linked p
        → map file_view files ≡ map file_view p.records → TypedFiles files typed
        → FaultlessFiles empty_pool typed linked → ChangesOptions linked new → IsPool new
        → (decoded : Name → List ℕ → Option Message) → schema_of new decoded ≡ schema_of p decoded }
{}

/// Nor are their options refused in the pool that linking makes, where it has types to read options
/// by.
pub fn held_options_are_not_refused()
    ensures { (batches : List (List FileContent)) (p linked : PoolType)
        (files typed : List FileDescriptorProto) (t : IsTyped batches p) → IsKept p
        → ArePlainFiles SaysAndIsSettled (map file_view p.records)
        → HoldsOptions p → ReadsAlike t.but.linked p
        → ArePlainFiles (λ scope o. AreBytes o.encoded) (map file_view p.records)
        → map file_view files ≡ map file_view p.records → TypedFiles files typed
        → FaultlessFiles empty_pool typed linked → IsPool linked → IsSound linked
        → ((scope : OptionScope) → CanRead linked scope)
        → (place : Place) (e : OptionErrorKind)
        → RefusesAtPlace linked 0 place e → ⊥ }
{}
