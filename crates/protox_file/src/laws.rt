//! Laws of what texts spell, each the contract of a function that does nothing.
//!
//! `Spells z tree` says that the tokens of the text `z` are read as this tree, `RefusedBy z fault`
//! that they are refused with this fault.

ghost use Rattle.protox_file.specs.FileGrammar.{file};
ghost use Rattle.protox_file.specs.OlderGrammar.{SpellsOlder};
ghost use Rattle.protox_file.specs.Sources.{IsDead, RefusedBy, Spells};
ghost use Rattle.protox_lex.specs.Class.{Text};
ghost use Rattle.protox_lex.specs.Token.{Token};
ghost use Rattle.protox_lex.specs.declared.error.LexError.{LexError};
ghost use Rattle.protox_lex.specs.declared.error.LexErrorKind.TheVariants as kinds;
ghost use Rattle.protox_lex.specs.declared.span.Span as spans;
ghost use Rattle.protox_tokens.specs.Refusal.{Expected, Fault, lexical, unexpected};
ghost use Rattle.protox_tokens.specs.Stream.{HasLexical, Stream};
ghost use Rattle.protox_tree.specs.FileTree as tree;
ghost use Rattle.std.specs.Prelude.{◌≡◌, ◌⊎◌, Err};

/// A text spells one tree at most.
pub fn one_tree()
    ensures { (z : Text) (a b : tree.File) → Spells z a → Spells z b → a ≡ b }
{}

/// A text is refused with one fault at most, its first.
pub fn one_fault()
    ensures { (z : Text) (f g : Fault) → RefusedBy z f → RefusedBy z g → f ≡ g }
{}

/// A text that spells a tree is not refused.
pub fn spelled_is_not_refused()
    ensures { (z : Text) (a : tree.File) (f : Fault) → Spells z a → RefusedBy z f → ⊥ }
{}

/// No file begins with the tokens of one that is refused, up to and including the token that is not
/// expected.
pub fn refused_tokens_begin_no_file()
    ensures { (ts : Stream) (x : Expected) (t : Token) (at : spans.Span) → file ts
        ≡ Err (unexpected x t at) → IsDead ts x t at }
{}

/// A fault of tokens for which a text is refused is one that the text has: it can be cut no further
/// there, or a comment or a number stands there that only text format has. Or it is an integer of
/// an option, of which a minus in front makes one below -2^63.
pub fn told_lexical_faults_are_there()
    ensures { (z : Text) (e : LexError) → RefusedBy z (lexical e)
        → HasLexical z e ⊎ (e.kind ≡ kinds.IntegerOutOfRange) }
{}

/// What spelled a tree while options stood only behind a last extension range with an end spells
/// the same tree.
pub fn older_sources_spell_the_same()
    ensures { (z : Text) (a : tree.File) → SpellsOlder z a → Spells z a }
{}
