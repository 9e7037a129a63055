//! Laws of a source's tokens, each the contract of a function that does nothing.
//!
//! `Lexes at z ts` says that the text `z`, which begins at the place `at`, is cut into `ts` by the
//! longest match: each piece is spelled as "Lexical elements" of the protobuf language
//! specification has it, no longer front of what is left is a piece, and a fault is true where it
//! stands.
ghost use Rattle.protox_lex.specs.Class.{Text};
ghost use Rattle.protox_lex.specs.Lex.{lexemes, unescaped};
ghost use Rattle.protox_lex.specs.Longest.{Lexes};
ghost use Rattle.protox_lex.specs.StringMeaning.{Means};
ghost use Rattle.protox_lex.specs.Token.{Lexeme};
ghost use Rattle.std.specs.Prelude.{◌≡◌, ℕ, List};

/// Each text is cut by the longest match, up to its first fault: `lexemes` finds the tokens.
pub fn tokens_are_longest()
    ensures { (z : Text) → Lexes 0 z (lexemes z) }
{}

/// A text is cut by the longest match in one way, and has one first fault at most.
pub fn one_reading()
    ensures { (at : ℕ) (z : Text) (ts us : List Lexeme) → Lexes at z ts → Lexes at z us → ts ≡ us }
{}

/// What [`unescape`](crate::unescape) gives is what the contents of a string mean: the byte or
/// character of each escape, and all else itself.
pub fn contents_mean_their_bytes()
    ensures { (y : Text) → Means y (unescaped y) }
{}

/// The contents of a string mean one row of bytes.
pub fn contents_have_one_meaning()
    ensures { (y s t : Text) → Means y s → Means y t → s ≡ t }
{}
