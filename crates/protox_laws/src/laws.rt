//! Laws of what sources are answered with, each the contract of a function that does nothing.
//!
//! `IsAnswered name z result` is what `parse` promises of a text `z` under a name, and speaks of a
//! tree as it lies in memory. `file_view` is the tree without this memory, and `unplaced` of it the
//! tree without its places.
ghost use Rattle.descriptor_records.specs.Content as records;
ghost use Rattle.descriptor_records.specs.Content.{FileContent, LocationContent};
ghost use Rattle.descriptor_records.specs.declared.file.FileDescriptorProto.{FileDescriptorProto};
ghost use Rattle.protox_laws.specs.SameFaults.{IsSameFault, ReadSame, TellSame};
ghost use Rattle.protox_laws.specs.Sizes.{IsNoSize};
ghost use Rattle.protox_laws.specs.Unplaced.{unplaced};
ghost use Rattle.protox_lex.specs.Class.{Text};
ghost use Rattle.protox_lex.specs.Lines.{feeds_of};
ghost use Rattle.protox_locate.specs.Files.{AreLocations};
ghost use Rattle.protox_parse.specs.Answers.{IsAnswered};
ghost use Rattle.protox_parse.specs.Refusals.{IsRefusalOf, told, told_at};
ghost use Rattle.protox_parse.specs.declared.error.ParseError.TheVariants.{Refused};
ghost use Rattle.protox_parse.specs.declared.error.Refusal.{Refusal};
ghost use Rattle.protox_record.specs.FileRecords.{IsFile};
ghost use Rattle.protox_tree.specs.FileTree as tree;
ghost use Rattle.protox_tree.specs.FileView.{file_view};
ghost use Rattle.protox_tree.specs.declared.error.ParseErrorKind.{ParseErrorKind};
ghost use Rattle.protox_tree.specs.declared.file.File as trees;
ghost use Rattle.std.specs.List.{AllByRecursion, AllZip};
ghost use Rattle.std.specs.Prelude.{◌≡◌, Err, List, Ok};

/// Trees that differ only in memory and in where their words stand have the same records under a
/// name, and one.
pub fn trees_of_the_same_words_have_one_record()
    ensures same { (name : Text) (s t : trees.File) (made : FileContent)
        → unplaced (file_view s) ≡ unplaced (file_view t) → IsFile name s made
        → IsFile name t made }
    ensures one { (name : Text) (s t : trees.File) (a b : FileContent)
        → unplaced (file_view s) ≡ unplaced (file_view t) → IsFile name s a → IsFile name t b
        → a ≡ b }
{}

/// A tree has one list of locations in a text.
pub fn one_tree_has_one_list_of_locations()
    ensures { (z : Text) (file : tree.File) (a b : List LocationContent)
        → AreLocations z (feeds_of z) file a → AreLocations z (feeds_of z) file b → a ≡ b }
{}

/// A source has one record under a name.
pub fn one_source_has_one_record()
    ensures { (name z : Text) (a b : FileDescriptorProto) → IsAnswered name z (Ok a)
        → IsAnswered name z (Ok b) → records.file_view a ≡ records.file_view b }
{}

/// A source that has a record is not refused, under whichever name.
pub fn recorded_sources_are_not_refused()
    ensures { (name other z : Text) (made : FileDescriptorProto) (r : Refusal)
        → IsAnswered name z (Ok made) → IsAnswered other z (Err (Refused r)) → ⊥ }
{}

/// A source that is refused has the same faults each time, under whichever name.
pub fn one_source_has_the_same_faults()
    ensures { (name other z : Text) (r s : Refusal) → IsAnswered name z (Err (Refused r))
        → IsAnswered other z (Err (Refused s))
        → AllZip IsSameFault r.faults.items s.faults.items }
{}

/// Faults that are the same read the same.
pub fn same_faults_read_the_same()
    ensures { (a b : ParseErrorKind) → IsSameFault a b → ReadSame a b }
{}

/// A source that is refused is told the same each time under a name, and so is printed the same.
pub fn refusals_tell_the_same()
    ensures told { (name z : Text) (r s : Refusal) → IsAnswered name z (Err (Refused r))
        → IsRefusalOf name z (Refused r) → IsAnswered name z (Err (Refused s))
        → IsRefusalOf name z (Refused s) → TellSame r s }
    ensures printed { (r s : Refusal) → TellSame r s → (told (Refused r) ≡ told (Refused s))
        × (told_at (Refused r) ≡ told_at (Refused s)) }
{}

/// A source that is answered as `parse` answers those of less than 2^31 bytes is not told as too
/// large.
pub fn no_smaller_source_is_too_large()
    ensures { (name z : Text) (r : Refusal) → IsAnswered name z (Err (Refused r))
        → AllByRecursion IsNoSize r.faults.items }
{}
