//! The laws of the passes over a batch, each the contract of a function that does nothing.
ghost use Rattle.std.specs.Prelude.{◌≡◌, ◌≤◌, ◌∷◌, ◌↔◌, ℕ, ℤ, Bool, List, [], map, slice_get, Some};
ghost use Rattle.descriptor_records.specs.Content.{Text, FileContent, enum_view, file_view};
ghost use Rattle.descriptor_records.specs.declared.enums.EnumDescriptorProto.{EnumDescriptorProto};
ghost use Rattle.descriptor_records.specs.declared.file.FileDescriptorProto.{FileDescriptorProto};
ghost use Rattle.reflect_build.specs.Accepted.{FaultlessFiles};
ghost use Rattle.reflect_build.specs.Refusals.{Faulty, FaultyExtensions, FaultyNumbers};
ghost use Rattle.reflect_build.specs.Refusals.{FaultyReferences, IsOf, Linking};
ghost use Rattle.reflect_build.specs.Refusals.{new_files, with_declared};
ghost use Rattle.reflect_known.specs.KnownNames.{known_of_files};
ghost use Rattle.reflect_faults.specs.Faults.{Fault};
ghost use Rattle.reflect_names.specs.Names.{Places};
ghost use Rattle.reflect_names.specs.ReferencePass.{views_of, BatchReferences, reference_faults_along};
ghost use Rattle.reflect_names.specs.ReferenceSteps.{target_of};
ghost use Rattle.reflect_names.specs.declared.resolve_visitor.Reference.{Reference};
ghost use Rattle.reflect_passes.specs.NameFaults.{name_faults};
ghost use Rattle.reflect_passes.specs.NumberFaults.{NumberFaults};
ghost use Rattle.reflect_passes.specs.Linked.{linked_values};
ghost use Rattle.reflect_passes.specs.declared.linked_types.LinkedTypes.{LinkedTypes};
ghost use Rattle.reflect_pool.specs.Imports.{names_of_files};
ghost use Rattle.reflect_pool.specs.Linked.{AreIndexed, empty_pool};
ghost use Rattle.reflect_rules.specs.EnumRules.{enum_faults};
ghost use Rattle.reflect_names.specs.ImportedFiles.{links_to};
ghost use Rattle.reflect_scope.specs.FileIndexes.{Indexes, link_view};
ghost use Rattle.reflect_scope.specs.Known.{Known};
ghost use Rattle.reflect_scope.specs.Means.{means, resolve};
ghost use Rattle.reflect_scope.specs.Sees.{Sees};
ghost use Rattle.reflect_scope.specs.declared.definition.Definition.{Definition};
ghost use Rattle.reflect_scope.specs.declared.seen.Links.{Links};
ghost use Rattle.reflect_tables.specs.Types.{PoolType};
ghost use Rattle.reflect_tables.specs.Views.{record_file};
ghost use Rattle.reflect_declarations.specs.Batches.{batch_declarations};
ghost use Rattle.reflect_declarations.specs.declared.offsets.Offsets.{Offsets};
ghost use Rattle.schema_view.specs.Files.{file_name};
ghost use Rattle.schema_view.specs.Lawful.{outlines, all_linked, AddsLawful, IsLawful, Meanings, Key, has_key, times_by};
ghost use Rattle.schema_view.specs.Means.{IsWanted, HoldsNames, MeansBy};
ghost use Rattle.schema_view.specs.Outlines as view;
ghost use Rattle.schema_view.specs.Outlines.{Outline, outline_of};
ghost use Rattle.schema_view.specs.References.{Want};
ghost use Rattle.schema_view.specs.Rules.{HasFirst};
ghost use Rattle.linked_view.specs.Enums.{IsNumbered};
ghost use Rattle.linked_view.specs.Entries.{HasDeclaredEntries, HaveOneUse, TellsEntries};
ghost use Rattle.linked_view.specs.Extended.{IsIndexed, TellsExtensions};
ghost use Rattle.linked_view.specs.Kept.{IsKept};
ghost use Rattle.linked_view.specs.Alone.{AreLawfulAlone, AreSettledAlone, IsWellNamed, IsRecorded};
ghost use Rattle.linked_view.specs.Built.{IsBuilt};
ghost use Rattle.linked_view.specs.Complete.{IsComplete};
ghost use Rattle.linked_view.specs.Known.{AreKnown};
ghost use Rattle.linked_view.specs.AtHand.{AreMetBy};
ghost use Rattle.linked_view.specs.Named.{AreWellNamed};
ghost use Rattle.linked_view.specs.Passed.{facts_of, AreTold, ReferTo};
ghost use Rattle.linked_view.specs.Referred.{AreMeant, AreSeenBy};
ghost use Rattle.linked_view.specs.Resolved.{filter_of, SeesThose};
ghost use Rattle.linked_view.specs.Ruled.{IsTyped, Each, AreRuled};
ghost use Rattle.linked_view.specs.Whole.{IsLabelled, IsFitting, AreSound};
ghost use Rattle.linked_view.specs.Ranged.{KeepNumbers};
ghost use Rattle.linked_view.specs.Valued.{SuitEnums, TellsValues};
ghost use Rattle.linked_view.specs.NamedFiles.{HaveNoFault, AreFiles};

/// The pass over names finds nothing wrong with new files themselves exactly where they have names,
/// each its own, a syntax and imports as lawful files have.
pub fn files_have_no_fault_where_they_are_files()
    ensures { (at : ℕ → Places) (indexes : Indexes) (first : ℕ)
        (old new : List FileDescriptorProto)
        → AreIndexed indexes (names_of_files (map record_file old))
        → (HaveNoFault at indexes first new
        ↔ AreFiles (map file_view old) (map file_view new)) }
{}

/// Behind files that have names as they should, the pass over names finds nothing wrong exactly
/// where the new files have names as they should: those of files, of declarations and of packages
/// apart, and all there that must be there.
pub fn names_have_no_fault_where_they_are_apart()
    ensures { (indexes : Indexes) (before : Offsets) (first : ℕ)
        (old new : List FileDescriptorProto)
        → AreIndexed indexes (names_of_files (map record_file old))
        → AreWellNamed [] (map file_view old)
        → ((name_faults indexes (known_of_files old) before first new ≡ [])
        ↔ AreWellNamed (map file_view old) (map file_view new)) }
{}

/// An enum has no fault exactly where its first value is there, in proto3 as 0, and no two of its
/// values have one number without its leave.
pub fn enums_have_no_fault_where_they_are_numbered()
    ensures { (at : Places) (path : List ℤ) (proto3 : Bool) (e : EnumDescriptorProto)
        → ((enum_faults at path proto3 e ≡ [])
        ↔ (HasFirst proto3 (enum_view e).value × IsNumbered (enum_view e))) }
{}

/// Where declarations are complete and typed, and what is told of the types of messages is what is
/// declared, the rules of numbers find nothing wrong exactly where each declaration meets them: by
/// itself and by its message, as its file's content has it, and by what it refers to.
pub fn numbers_have_no_fault_where_they_meet_the_rules()
    ensures { (t : LinkedTypes) (before : Offsets) (first : ℕ) (new : List FileDescriptorProto)
        (references : List Reference)
        → Each IsComplete (map file_view new) → Each IsTyped (map file_view new)
        → AreTold t before first new
        → (NumberFaults t before first new references []
        ↔ (AreRuled (map file_view new) × ReferTo t before first new references)) }
{}

/// The declarations of files are sound exactly where they are complete, typed and labelled, meet
/// the rules of numbers, and the numbers of enum values have 32 bits.
pub fn sound_declarations_are_complete_and_ruled()
    ensures { (fs : List FileContent) → (AreSound fs
        ↔ (Each IsComplete fs × Each IsTyped fs × Each IsLabelled fs × AreRuled fs
        × Each IsFitting fs)) }
{}

/// The file of an index sees that of another by the links of a batch exactly where it sees its
/// name.
pub fn files_see_by_names()
    ensures { (indexes : Indexes) (links : List Links) (files : List FileDescriptorProto)
        → AreIndexed indexes (names_of_files (map record_file files))
        → map link_view links ≡ map (links_to indexes) files
        → (i j : ℕ) (f g : FileDescriptorProto) → slice_get files i ≡ Some f
        → slice_get files j ≡ Some g
        → (Sees links i j
        ↔ view.Sees (outlines (map file_view files)) (outline_of (file_view f))
        (file_name (file_view g))) }
{}

/// The names that files make known are those of their packages and of their declarations, each as
/// what is declared, in the file that declares it.
pub fn names_are_known_as_they_are_declared()
    ensures { (files : List FileDescriptorProto) → AreWellNamed [] (map file_view files)
        → AreKnown files (known_of_files files) }
{}

/// A name is resolved, by what is known and by the indexes of the files that a file sees, exactly
/// to what it means by the statement on prefixes, and by the names of these files.
pub fn names_mean_what_they_are_resolved_to()
    ensures { (files : List FileDescriptorProto) (known : Known) → AreKnown files known
        → (from : Outline) (sees : ℕ → Bool) → SeesThose files from sees
        → (w : Want) (scope name full : Text)
        → (((d : Definition) × (resolve known sees (filter_of w) scope name ≡ means full d))
        ↔ MeansBy (IsWanted (outlines (map file_view files)) from w)
        (HoldsNames (outlines (map file_view files))) scope name full) }
{}

/// Where declarations are complete, the pass over references finds nothing wrong in new files
/// exactly where their labels are labels, types fit their names, and each reference means something
/// of the kind that it needs, among all files.
pub fn references_have_no_fault_where_they_mean_something()
    ensures { (files new : List FileDescriptorProto) (known : Known) (sees : ℕ → ℕ → Bool)
        (at : ℕ → Places) (before : Offsets) (first : ℕ)
        → AreKnown files known → AreSeenBy files first new sees
        → Each IsComplete (map file_view new)
        → ((reference_faults_along at (views_of known sees)
        (batch_declarations before first new) ≡ [])
        ↔ (Each IsLabelled (map file_view new) × Each IsTyped (map file_view new)
        × AreMeant (outlines (map file_view files)) (map file_view new))) }
{}

/// Where no pass finds a fault in files, those that a pool has not yet have names as they should
/// behind its own, each of their references means something, their declarations are sound, and the
/// pool's new records are its own and behind them these, linked by what their references mean.
pub fn accepted_files_are_lawful_alone()
    ensures { (old new : PoolType) (files : List FileDescriptorProto)
        → IsWellNamed old → IsKept new → FaultlessFiles old files new
        → (w : Linking) × IsOf old w × AreLawfulAlone (map file_view old.records)
        (map file_view (new_files w.indexes files)) (map file_view new.records) }
{}

/// A pool without files has names as it should, and so it stays where files are accepted: what is
/// asked of the new pool beside this its type keeps, as `pools_are_whole` says.
pub fn pools_have_names()
    ensures empty { IsWellNamed empty_pool }
    ensures kept { (old new : PoolType) (files : List FileDescriptorProto) → IsWellNamed old
        → IsRecorded new → IsKept new
        → FaultlessFiles old files new → IsWellNamed new }
{}

/// Where the references of a batch are found without a fault, what is asked of its declarations by
/// the references that are taken one after another is what is asked of each by what its names mean.
pub fn references_are_at_hand()
    ensures { (t : LinkedTypes) (known : Known) (links : List Links) (at : ℕ → Places)
        (before : Offsets) (first : ℕ) (new : List FileDescriptorProto)
        (references : List Reference)
        → (found : BatchReferences known links at before first new (map target_of references) [])
        → (ReferTo t before first new references
        ↔ AreMetBy (facts_of t before first new references) (linked_values t)
        (views_of known found.sees) (batch_declarations before first new)) }
{}

/// In files that are lawful behind a pool's own the pass over names finds nothing wrong, nor does
/// that over references.
pub fn lawful_files_have_no_fault_of_names_and_references()
    ensures names { (old : PoolType) (w : Linking) (new : List FileDescriptorProto)
        (meanings : Meanings) → IsWellNamed old → IsOf old w
        → IsLawful (map file_view old.records) (map file_view new) meanings
        → name_faults w.indexes w.known w.before w.first new ≡ [] }
    ensures references { (old : PoolType) (w : Linking) (new : List FileDescriptorProto)
        (meanings : Meanings) → IsWellNamed old → IsOf old w
        → IsLawful (map file_view old.records) (map file_view new) meanings
        → (xs : List Fault) → FaultyReferences (with_declared w new) new xs → xs ≡ [] }
{}

/// Behind the files of a pool that batches built no pass finds anything wrong with lawful files: no
/// extension whose message and number are taken, nothing by the rules of numbers, and so no fault
/// at all; so it is in a pool without files.
pub fn lawful_files_have_no_fault()
    ensures extensions { (earlier : List (List FileContent)) (old : PoolType) (w : Linking)
        (new : List FileDescriptorProto) (meanings : Meanings) → IsBuilt earlier old → IsKept old
        → IsOf old w → IsLawful (map file_view old.records) (map file_view new) meanings
        → (xs : List Fault) → FaultyExtensions (with_declared w new) new xs → xs ≡ [] }
    ensures numbers { (earlier : List (List FileContent)) (old : PoolType) (w : Linking)
        (new : List FileDescriptorProto) (meanings : Meanings) → IsBuilt earlier old → IsKept old
        → IsOf old w → IsLawful (map file_view old.records) (map file_view new) meanings
        → (xs : List Fault) → FaultyNumbers (with_declared w new) new xs → xs ≡ [] }
    ensures whole { (earlier : List (List FileContent)) (old : PoolType) (w : Linking)
        (new : List FileDescriptorProto) (meanings : Meanings) → IsBuilt earlier old → IsKept old
        → IsOf old w → IsLawful (map file_view old.records) (map file_view new) meanings
        → (xs : List Fault) → Faulty w new xs → xs ≡ [] }
    ensures first { (w : Linking) (new : List FileDescriptorProto) (meanings : Meanings)
        → IsOf empty_pool w → IsLawful [] (map file_view new) meanings
        → (xs : List Fault) → Faulty w new xs → xs ≡ [] }
{}

/// Files that are lawful by themselves are added where they agree with the others: where numbers of
/// extensions, defaults of enums and uses of maps' entries are as they should be.
pub fn lawful_files_that_agree_are_added()
    ensures { (old new after : List FileContent) (l : AreLawfulAlone old new after)
        → AreSettledAlone old new l.meanings → AddsLawful old new after }
{}

/// Where the entries of a pool's extensions are those of its records, no two extensions that these
/// declare extend one message under one number.
pub fn extensions_have_their_own_numbers()
    ensures { (p : PoolType) → IsIndexed p → TellsExtensions p
        → (k : Key) → times_by (has_key k) (map file_view p.records) ≤ 1 }
{}

/// A pool without extensions tells of those of its records, and so it stays where files are
/// accepted: what is asked of the new pool beside this its type keeps.
pub fn pools_tell_of_extensions()
    ensures empty { TellsExtensions empty_pool }
    ensures kept { (old new : PoolType) (files : List FileDescriptorProto) → IsWellNamed old
        → IsIndexed new → IsKept new → TellsExtensions old
        → FaultlessFiles old files new → TellsExtensions new }
{}

/// A pool without enums tells of those of its records, and so it stays where files are accepted.
pub fn pools_tell_of_values()
    ensures empty { TellsValues empty_pool }
    ensures kept { (old new : PoolType) (files : List FileDescriptorProto) → IsWellNamed old
        → IsKept new → TellsValues old → FaultlessFiles old files new → TellsValues new }
{}

/// Where files are accepted, each default of theirs that stands at an enum's name is the name of
/// one of the enum's values.
pub fn accepted_defaults_are_values()
    ensures { (old new : PoolType) (files : List FileDescriptorProto) → IsWellNamed old
        → IsIndexed new → IsKept new → TellsValues old → FaultlessFiles old files new
        → (w : Linking) × IsOf old w
        × (l : AreLawfulAlone (map file_view old.records)
        (map file_view (new_files w.indexes files)) (map file_view new.records))
        × SuitEnums (map file_view old.records) (map file_view (new_files w.indexes files))
        l.meanings }
{}

/// Where files are accepted, each extension of theirs has a number that the message that it extends
/// keeps for extensions, and for nothing else.
pub fn accepted_numbers_are_kept()
    ensures { (old new : PoolType) (files : List FileDescriptorProto) → IsWellNamed old
        → IsKept new → FaultlessFiles old files new
        → (w : Linking) × IsOf old w
        × (l : AreLawfulAlone (map file_view old.records)
        (map file_view (new_files w.indexes files)) (map file_view new.records))
        × KeepNumbers (map file_view old.records) (map file_view (new_files w.indexes files))
        l.meanings }
{}

/// Where files are accepted, the type of a map's entries that they declare is the type of one of
/// their fields or extensions, which is a map.
pub fn accepted_entries_have_one_use()
    ensures { (old new : PoolType) (files : List FileDescriptorProto) → IsWellNamed old
        → IsIndexed new → IsKept new → FaultlessFiles old files new
        → (w : Linking) × IsOf old w
        × (l : AreLawfulAlone (map file_view old.records)
        (map file_view (new_files w.indexes files)) (map file_view new.records))
        × HaveOneUse (all_linked l.meanings (map file_view (new_files w.indexes files))) }
{}

/// A pool without files tells of the types of maps' entries that its records declare, and so it
/// stays where files are accepted.
pub fn pools_tell_of_entries()
    ensures empty { TellsEntries empty_pool }
    ensures kept { (old new : PoolType) (files : List FileDescriptorProto) → IsWellNamed old
        → IsIndexed new → IsKept new → TellsEntries old
        → FaultlessFiles old files new → TellsEntries new }
{}

/// A pool without files has no type with the parts of a map's entry, and where files are accepted
/// it has none that its records do not declare as the type of a map's entries.
pub fn pools_have_declared_entries()
    ensures empty { HasDeclaredEntries empty_pool }
    ensures kept { (old new : PoolType) (files : List FileDescriptorProto) → IsWellNamed old
        → IsIndexed new → IsKept new → HasDeclaredEntries old
        → FaultlessFiles old files new → HasDeclaredEntries new }
{}

/// Behind a pool that batches built, accepted files are added: they are lawful behind the pool's
/// own, and the pool's new records are its own and behind them these, linked.
pub fn accepted_files_are_added()
    ensures { (earlier : List (List FileContent)) (old new : PoolType)
        (files : List FileDescriptorProto) → IsBuilt earlier old → IsIndexed new → IsKept new
        → FaultlessFiles old files new
        → (w : Linking) × IsOf old w
        × AddsLawful (map file_view old.records) (map file_view (new_files w.indexes files))
        (map file_view new.records) }
{}

/// A pool without files is built of no batch, and where files are accepted of one more, of those
/// that the pool has not yet: what is asked of the new pool beside this its type keeps, as
/// `pools_are_whole` says.
pub fn pools_are_built()
    ensures empty { IsBuilt [] empty_pool }
    ensures kept { (earlier : List (List FileContent)) (old new : PoolType)
        (files : List FileDescriptorProto) → IsBuilt earlier old → IsRecorded new → IsIndexed new
        → IsKept new → FaultlessFiles old files new
        → (w : Linking) × IsOf old w
        × IsBuilt (map file_view (new_files w.indexes files) ∷ earlier) new }
{}
