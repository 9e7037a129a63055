//! Laws of files that differ alone in options that linking does not read, and in locations, each
//! the contract of a function that does nothing.
ghost use Rattle.std.specs.Prelude.{◌≡◌, ℕ, List, [], Option, map};
ghost use Rattle.descriptor_records.specs.Content.{FileContent};
ghost use Rattle.texts_view.specs.ReadOptions.{read_file};
ghost use Rattle.protobuf_model.specs.Types.{Name};
ghost use Rattle.protobuf_model.specs.Values.{Message};
ghost use Rattle.schema_view.specs.Lawful.{AddsLawful, Builds};
ghost use Rattle.schema_view.specs.Types.{types_of};
ghost use Rattle.schema_view.specs.Views.{view_of};
ghost use Rattle.texts_view.specs.Named.{schema_in};

/// Files that are as the linked ones of batches, but for such options, are accepted as one batch by
/// an empty schema, and linking leaves them as they are.
pub fn linked_files_stand_with_other_options()
    ensures accepted { (batches : List (List FileContent)) (after files : List FileContent)
        → Builds batches after → map read_file files ≡ map read_file after
        → AddsLawful [] files files }
    ensures same { (batches : List (List FileContent)) (after files last : List FileContent)
        → Builds batches after → map read_file files ≡ map read_file after
        → AddsLawful [] files last → last ≡ files }
{}

/// Their types are the same.
pub fn other_options_change_no_types()
    ensures { (a b : List FileContent) → map read_file a ≡ map read_file b
        → types_of (view_of a) ≡ types_of (view_of b) }
{}

/// And so is what they say to texts.
pub fn other_options_change_no_names()
    ensures { (a b : List FileContent) (decoded : Name → List ℕ → Option Message)
        → map read_file a ≡ map read_file b
        → schema_in (view_of a) decoded ≡ schema_in (view_of b) decoded }
{}
