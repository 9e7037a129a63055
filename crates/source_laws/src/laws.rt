//! What holds of each source, as contracts of functions that do nothing.
ghost use Rattle.descriptor_records.specs.Content.{file_view};
ghost use Rattle.descriptor_records.specs.declared.file.FileDescriptorProto.{FileDescriptorProto};
ghost use Rattle.plain_records.specs.PlainRecords.{IsPlainFile};
ghost use Rattle.plain_records.specs.SaidOptions.{SaysOrWaits};
ghost use Rattle.plain_records.specs.SourceOptions.{AreOfSource};
ghost use Rattle.protox_file.specs.Sources.{Spells};
ghost use Rattle.protox_lex.specs.Class.{Text};
ghost use Rattle.protox_parse.specs.Answers.{IsAnswered};
ghost use Rattle.protox_tree.specs.FileTree.{File};
ghost use Rattle.reflect_faults.specs.Spans.{locations};
ghost use Rattle.schema_view.specs.Plain as names;
ghost use Rattle.source_laws.specs.Spanned.{HasSpan};
ghost use Rattle.source_laws.specs.TreeNames.{HasIdentifiers};
ghost use Rattle.source_records.specs.LoneLists.{GivesLoneLists};
ghost use Rattle.source_records.specs.SourceNames.{IsSourceFile};
ghost use Rattle.std.specs.List.{AllByRecursion};
ghost use Rattle.std.specs.Prelude.{Ok};

/// Each declaration of the tree that a text spells has an identifier for a name.
pub fn trees_of_sources_have_identifiers()
    ensures { (z : Text) (tree : File) → Spells z tree → HasIdentifiers tree }
{}

/// The record of a source has names as sources spell them.
pub fn records_of_sources_have_source_names()
    ensures { (name z : Text) (made : FileDescriptorProto) → IsAnswered name z (Ok made)
        → IsSourceFile (file_view made) }
{}

/// And no name of a declaration in it has a dot, as is asked of files that come in any order.
pub fn records_of_sources_have_plain_names()
    ensures { (name z : Text) (made : FileDescriptorProto)
        → IsAnswered name z (Ok made) → names.IsPlainFile (file_view made) }
{}

/// In the record of a source no list is a member of a oneof.
pub fn records_of_sources_have_lone_lists()
    ensures { (name z : Text) (made : FileDescriptorProto)
        → IsAnswered name z (Ok made) → GivesLoneLists (file_view made) }
{}

/// The record of a source is one that bytes can say, but for options that are left to settle.
pub fn records_of_sources_are_plain()
    ensures { (name z : Text) (made : FileDescriptorProto)
        → IsAnswered name z (Ok made) → IsPlainFile SaysOrWaits 99 (file_view made) }
{}

/// Its options are what the source wrote, and nothing else, and those of the types of maps'
/// entries.
pub fn records_of_sources_have_their_options()
    ensures { (name z : Text) (made : FileDescriptorProto)
        → IsAnswered name z (Ok made) → IsPlainFile AreOfSource 99 (file_view made) }
{}

/// Each location of a source has a span, whose lines and columns are below 2^31: so wherever a path
/// has a location, the place of the first of them is told.
pub fn locations_of_sources_have_spans()
    ensures { (name z : Text) (made : FileDescriptorProto) → IsAnswered name z (Ok made)
        → AllByRecursion HasSpan (locations made) }
{}
