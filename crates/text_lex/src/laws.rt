//! Laws of a text's tokens, each the contract of a function that does nothing.
//!
//! `Lexes at z ts` says that the text `z`, which begins at the place `at`, is cut into `ts` by the
//! longest match: each piece is spelled as "Lexical elements" of the text format specification has
//! it, no longer front of what is left is a piece, and a fault is true where it stands.
ghost use Rattle.protox_lex.specs.Class.{Text};
ghost use Rattle.std.specs.Prelude.{◌≡◌, ℕ, ◌+◌, List, length};
ghost use Rattle.text_lex.specs.Lex.{lexemes};
ghost use Rattle.text_lex.specs.Longest.{Lexes};
ghost use Rattle.text_lex.specs.Order.{InOrder};
ghost use Rattle.text_lex.specs.Token.{Lexeme};

/// Each text is cut by the longest match, up to its first fault: `lexemes` finds the tokens.
pub fn tokens_are_longest()
    ensures { (z : Text) → Lexes 0 z (lexemes z) }
{}

/// A text is cut by the longest match in one way, and has one first fault at most.
pub fn one_reading()
    ensures { (at : ℕ) (z : Text) (ts us : List Lexeme) → Lexes at z ts → Lexes at z us → ts ≡ us }
{}

/// The tokens of a text stand in it one behind the other, and none is empty.
pub fn tokens_are_in_order()
    ensures { (at : ℕ) (z : Text) (ts : List Lexeme) → Lexes at z ts
        → InOrder at (at + length z) ts }
{}
