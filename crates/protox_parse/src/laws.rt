//! Laws of what sources are answered with, each the contract of a function that does nothing.
//!
//! `Spells z tree` says that the tokens of the text `z` are read as this tree, and `IsAnswered name
//! z result` that this is what a source of this text is answered with under this name. So a source
//! has a record exactly where it spells a tree without faults, unless memory runs out.

ghost use Rattle.descriptor_records.specs.Content as records;
ghost use Rattle.descriptor_records.specs.declared.file.FileDescriptorProto.{FileDescriptorProto};
ghost use Rattle.protox_check.specs.Faults.{faults_of};
ghost use Rattle.protox_file.specs.OlderGrammar.{SpellsOlder};
ghost use Rattle.protox_file.specs.Sources.{Spells};
ghost use Rattle.protox_lex.specs.Class.{Text};
ghost use Rattle.protox_parse.specs.Answers.{HasFaults, IsAnswered, IsRecordOf};
ghost use Rattle.protox_parse.specs.declared.error.Refusal.{Refusal};
ghost use Rattle.protox_parse.specs.declared.error.ParseError.TheVariants.{Refused};
ghost use Rattle.protox_tree.specs.FileTree as tree;
ghost use Rattle.protox_tree.specs.FileView.{file_view};
ghost use Rattle.protox_tree.specs.declared.file.File as trees;
ghost use Rattle.std.specs.Prelude.{◌≡◌, [], Err, Ok};

/// A source that spells a tree is refused only with all faults of this tree, of which there are
/// some.
pub fn refused_for_all_faults()
    ensures { (name z : Text) (r : Refusal) (a : tree.File) → Spells z a
        → IsAnswered name z (Err (Refused r)) → HasFaults a r.faults.items }
{}

/// A source that spells a tree has a record only if this tree has no faults.
pub fn recorded_without_faults()
    ensures { (name z : Text) (made : FileDescriptorProto) (a : tree.File) → Spells z a
        → IsAnswered name z (Ok made) → faults_of a ≡ [] }
{}

/// What was clean while options stood only behind a last extension range with an end is not
/// refused, but for want of memory.
pub fn older_sources_stay_clean()
    ensures { (name z : Text) (a : tree.File) (r : Refusal) → SpellsOlder z a → faults_of a ≡ []
        → IsAnswered name z (Err (Refused r)) → ⊥ }
{}

/// And it has the record of the tree that it spelled then, with the same places and comments.
pub fn older_sources_have_the_same_record()
    ensures { (name z : Text) (a : tree.File) (made : FileDescriptorProto) → SpellsOlder z a
        → IsAnswered name z (Ok made)
        → (t : trees.File) × (file_view t ≡ a) × IsRecordOf name z t (records.file_view made) }
{}
