//! The laws of linking, each the contract of a function that does nothing.
ghost use Rattle.std.specs.Prelude.{◌≡◌, ◌<◌, ◌^◌, ◌∷◌, ℕ, Some, length, List, [], IsPermutation, Contains};
ghost use Rattle.descriptor_records.specs.Content.{Text, FileContent};
ghost use Rattle.protobuf_model.specs.Coded.{IsRecoded, Mean};
ghost use Rattle.protobuf_model.specs.Older.{IsOlder};
ghost use Rattle.protobuf_model.specs.Typed.{HaveDefaults};
ghost use Rattle.protobuf_model.specs.Values.{Message};
ghost use Rattle.schema_view.specs.Declarations.{MessageFacts};
ghost use Rattle.schema_view.specs.Types.{message_at, types_of};
ghost use Rattle.schema_view.specs.Example.{file_p};
ghost use Rattle.schema_view.specs.Plain.{IsPlainFile};
ghost use Rattle.schema_view.specs.Lawful.{AddsLawful, Builds, SameFiles, sources};
ghost use Rattle.schema_view.specs.Views.{view_of, Grows};

/// Files are linked in one way.
pub fn files_link_in_one_way()
    ensures { (old new after last : List FileContent) → AddsLawful old new after
        → AddsLawful old new last → after ≡ last }
{}

/// The files of a batch may stand in any order, and the view is the same.
pub fn files_in_another_order()
    ensures { (old new other after : List FileContent) → IsPermutation new other
        → AddsLawful old new after
        → (last : List FileContent) × AddsLawful old other last × (view_of last ≡ view_of after) }
{}

/// What the view says it says after each further batch.
pub fn views_grow()
    ensures { (old new after : List FileContent) → AddsLawful old new after
        → Grows (view_of old) (view_of after) }
{}

/// The linked files of a schema, whatever its batches brought, are accepted as one batch by an
/// empty schema, and it is the same.
pub fn linked_files_stand_again()
    ensures accepted { (batches : List (List FileContent)) (after : List FileContent)
        → Builds batches after → AddsLawful [] after after }
    ensures same { (batches : List (List FileContent)) (after last : List FileContent)
        → Builds batches after → AddsLawful [] after last → last ≡ after }
{}

/// Files whose names have no dots may come in any batches: if both runs are accepted, the view is
/// the same.
pub fn batches_in_another_order()
    ensures { (batches others : List (List FileContent)) (after last : List FileContent)
        → ((f : FileContent) → Contains (sources batches) f → IsPlainFile f)
        → SameFiles (sources batches) (sources others)
        → Builds batches after → Builds others last → view_of after ≡ view_of last }
{}

/// There are lawful files: one with a message whose field names its type by its full name, which
/// linking leaves.
pub fn a_file_is_lawful()
    ensures { AddsLawful [] (file_p ∷ []) (file_p ∷ []) }
{}

/// Each message type of a schema is older than the same type after a further batch.
pub fn types_stay_as_files_come()
    ensures { (earlier : List (List FileContent)) (old new after : List FileContent)
        → Builds earlier old → AddsLawful old new after → (t : Text) (m : MessageFacts)
        → message_at (view_of old) t ≡ Some m
        → IsOlder (types_of (view_of old)) t (types_of (view_of after)) t }
{}

/// The defaults of the keys and values of a schema's maps are values of their kinds.
pub fn defaults_are_values()
    ensures { (batches : List (List FileContent)) (after : List FileContent)
        → Builds batches after → HaveDefaults (types_of (view_of after)) }
{}

/// What the schema before a batch writes again of accepted bytes means to the schema after it what
/// the bytes mean to it, records of unknown numbers included.
pub fn bytes_pass_through_the_schema_before()
    ensures { (earlier : List (List FileContent)) (old new after : List FileContent)
        → Builds earlier old → AddsLawful old new after → (t : Text) (m : MessageFacts)
        → message_at (view_of old) t ≡ Some m → (bytes out : List ℕ) (x : Message)
        → Mean (types_of (view_of after)) t bytes x
        → IsRecoded (types_of (view_of old)) t bytes out → length out < 2 ^ 64
        → Mean (types_of (view_of after)) t out x }
{}
