//! Laws of records, each the contract of a function that does nothing.

ghost use Rattle.std.specs.Prelude.{◌≡◌, ◌∷◌, List};
ghost use Rattle.descriptor_records.specs.Content.{FileContent};
ghost use Rattle.protox_lex.specs.Class.{Text};
ghost use Rattle.protox_message_records.specs.SyntheticOneofs.{IsFreed};
ghost use Rattle.protox_record.specs.FileRecords.{IsFile};
ghost use Rattle.protox_tree.specs.declared.file.File as tree;

/// A tree has one record under a name.
pub fn one_record()
    ensures { (name : Text) (file : tree.File) (a b : FileContent) → IsFile name file a
        → IsFile name file b → a ≡ b }
{}

/// Fields whose oneofs have one name have one name themselves, whichever names are taken.
pub fn oneofs_are_apart()
    ensures { (xs ys : List Text) (a b made : Text) → IsFreed xs (95 ∷ a) made
        → IsFreed ys (95 ∷ b) made → a ≡ b }
{}
