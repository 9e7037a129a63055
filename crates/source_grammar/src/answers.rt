//! What `parse` answers, in the words of the grammar.
ghost use Rattle.descriptor_records.specs.Content as records;
ghost use Rattle.descriptor_records.specs.declared.file.FileDescriptorProto.{FileDescriptorProto};
ghost use Rattle.protox_lex.specs.Class.{Text};
ghost use Rattle.protox_parse.specs.Answers.{IsAnswered};
ghost use Rattle.protox_parse.specs.declared.error.ParseError.TheVariants.{Refused};
ghost use Rattle.protox_parse.specs.declared.error.Refusal.{Refusal};
ghost use Rattle.source_grammar.specs.Answers.{AreFaultsIn, IsRecordIn};
ghost use Rattle.source_grammar.specs.SameTokens.{HaveSameTokens};
ghost use Rattle.std.specs.Prelude.{◌≡◌, ◌↔◌, Err, Ok};

/// A source is answered with a record exactly where its tokens are those of a tree without faults,
/// and the record is the tree's.
pub fn sources_of_trees_without_faults_have_records()
    ensures { (name z : Text) (made : FileDescriptorProto)
        → IsAnswered name z (Ok made) ↔ IsRecordIn name z (records.file_view made) }
{}

/// A source is refused exactly where its tokens are those of no tree, for the first that is not
/// expected, or of a tree with faults, for all of these.
pub fn sources_are_refused_for_their_faults()
    ensures { (name z : Text) (r : Refusal)
        → IsAnswered name z (Err (Refused r)) ↔ AreFaultsIn z r.faults.items }
{}

/// Sources with the same tokens, whatever stands between them, have the same record under a name,
/// but for lines, columns and comments.
pub fn sources_of_the_same_tokens_have_the_same_record()
    ensures { (name z w : Text) (a b : FileDescriptorProto) → HaveSameTokens z w
        → IsAnswered name z (Ok a) → IsAnswered name w (Ok b)
        → records.unlocated (records.file_view a) ≡ records.unlocated (records.file_view b) }
{}
