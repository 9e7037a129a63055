//! Laws of the records of schemas that sources made, in whatever order, each the contract of a
//! function that does nothing. `IsMadeBy BatchLinked batches s` says that sources made `s`, whether
//! `Schema::new` began it or a schema without files did, and that these files came, the last batch
//! of them first; `AreNewFilesOf p sources batch`, that the sources are these files and others that
//! `p` had.
ghost use Rattle.std.specs.Prelude.{◌≡◌, ◌∷◌, ℕ, List, [], Contains, map};
ghost use Rattle.descriptor_records.specs.Content.{FileContent, file_view, unlocated};
ghost use Rattle.reflect_pool.specs.Linked.{empty_pool};
ghost use Rattle.schema_view.specs.Lawful.{SameFiles, sources};
ghost use Rattle.schema_view.specs.Plain.{IsPlainFile};
ghost use Rattle.schema_view.specs.Views.{view_of};
ghost use Rattle.schema_core.specs.Refusals.{IsPool, SourcesLinked, descriptor_name};
ghost use Rattle.schema_core.specs.declared.schema.Schema.{Schema};
ghost use Rattle.schema_laws.specs.Batches.{HaveSameFiles};
ghost use Rattle.schema_laws.specs.Histories.{AreNewFilesOf, BatchLinked, IsMadeBy, Sources};
ghost use Rattle.schema_laws.specs.SameSources.{AreSameSources, given_in};

/// A schema that sources made has a history, and the sources of it (`given_in`) are these.
pub fn schemas_of_sources_have_a_history()
    ensures { (batches : List Sources) (s : Schema) → IsMadeBy SourcesLinked batches s
        → (files : List (List FileContent)) × (made : IsMadeBy BatchLinked files s)
        × (given_in files s made ≡ batches) }
{}

/// So has one that `Schema::new` made: the file of its source.
pub fn new_schemas_have_a_history()
    ensures { (s : Schema) (source : List ℕ) → IsPool s.pool
        → SourcesLinked empty_pool ((descriptor_name, source) ∷ []) s.pool
        → (batch : List FileContent)
        × AreNewFilesOf empty_pool ((descriptor_name, source) ∷ []) batch
        × IsMadeBy BatchLinked (batch ∷ []) s }
{}

/// Sources that are added to a schema of sources are one batch more: the files that they are and
/// that it had not yet.
pub fn added_sources_are_history()
    ensures { (earlier : List (List FileContent)) (old new : Schema)
        (given : Sources) → IsMadeBy BatchLinked earlier old
        → IsPool new.pool → SourcesLinked old.pool given new.pool
        → (batch : List FileContent) × AreNewFilesOf old.pool given batch
        × IsMadeBy BatchLinked (batch ∷ earlier) new }
{}

/// The names in the files of a history have no dots, as the laws of order ask.
pub fn files_of_sources_have_plain_names()
    ensures { (batches : List (List FileContent)) (s : Schema) → IsMadeBy BatchLinked batches s
        → (f : FileContent) → Contains (sources batches) f → IsPlainFile f }
{}

/// So where the same files came in other batches, but for lines, columns and comments, all laws of
/// schemas of the same files speak of the two: they have one order (`schemas_have_one_order`), and
/// answer alike.
pub fn histories_of_the_same_files_have_one_order()
    ensures { (batches others : List (List FileContent)) (s t : Schema)
        → IsMadeBy BatchLinked batches s → IsMadeBy BatchLinked others t
        → SameFiles (map unlocated (sources batches)) (map unlocated (sources others))
        → HaveSameFiles batches others s t }
{}

/// And so they speak of any two schemas that sources made, in whatever order and batches, where the
/// sources that stayed have the same names and the same tokens: gaps and comments may differ, and
/// sources may come that change nothing, under a name that was there.
pub fn sources_of_the_same_tokens_make_schemas_of_the_same_files()
    ensures { (batches others : List Sources) (s t : Schema) → IsMadeBy SourcesLinked batches s
        → IsMadeBy SourcesLinked others t → AreSameSources batches others
        → (fs : List (List FileContent)) × (gs : List (List FileContent))
        × HaveSameFiles fs gs s t }
{}

/// Histories of sources of the same names and tokens are histories of the same files, but for lines,
/// columns and comments.
pub fn histories_of_the_same_sources_are_of_the_same_files()
    ensures { (batches others : List (List FileContent)) (s t : Schema)
        (made : IsMadeBy BatchLinked batches s) (also : IsMadeBy BatchLinked others t)
        → AreSameSources (given_in batches s made) (given_in others t also)
        → SameFiles (map unlocated (sources batches)) (map unlocated (sources others)) }
{}

/// And both hold the same records: the same options, and locations. In the options of a file that
/// comes before their types nothing is written, and they are what they would settle to.
pub fn schemas_of_the_same_files_hold_the_same_records()
    ensures { (batches others : List (List FileContent)) (s t : Schema)
        → IsMadeBy BatchLinked batches s → IsMadeBy BatchLinked others t
        → SameFiles (sources batches) (sources others)
        → SameFiles (map file_view s.pool.records) (map file_view t.pool.records) }
{}

/// Where the files differ in lines, columns and comments, so do the records, and in nothing else: the
/// options are the same, in the same bytes.
pub fn schemas_of_the_same_files_hold_the_same_options()
    ensures { (batches others : List (List FileContent)) (s t : Schema)
        → IsMadeBy BatchLinked batches s → IsMadeBy BatchLinked others t
        → SameFiles (map unlocated (sources batches)) (map unlocated (sources others))
        → SameFiles (map unlocated (map file_view s.pool.records))
        (map unlocated (map file_view t.pool.records)) }
{}

/// So what the records of both say is one view: which files there are, and what they declare under
/// which name and as which extension, with references as they were linked and settled options.
pub fn schemas_of_the_same_files_have_one_view()
    ensures { (batches others : List (List FileContent)) (s t : Schema)
        → IsMadeBy BatchLinked batches s → IsMadeBy BatchLinked others t
        → SameFiles (map unlocated (sources batches)) (map unlocated (sources others))
        → view_of (map file_view s.pool.records) ≡ view_of (map file_view t.pool.records) }
{}

/// So schemas that sources of the same tokens made hold the same records, but for lines, columns and
/// comments: the same options, in the same bytes, whichever came first.
pub fn sources_of_the_same_tokens_hold_the_same_options()
    ensures { (batches others : List Sources) (s t : Schema) → IsMadeBy SourcesLinked batches s
        → IsMadeBy SourcesLinked others t → AreSameSources batches others
        → SameFiles (map unlocated (map file_view s.pool.records)) (map unlocated
        (map file_view t.pool.records)) }
{}

/// And what these records say is one view.
pub fn sources_of_the_same_tokens_have_one_view()
    ensures { (batches others : List Sources) (s t : Schema) → IsMadeBy SourcesLinked batches s
        → IsMadeBy SourcesLinked others t → AreSameSources batches others
        → view_of (map file_view s.pool.records)
        ≡ view_of (map file_view t.pool.records) }
{}
