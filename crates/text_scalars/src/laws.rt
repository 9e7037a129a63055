//! Laws of what stands at the front of lexemes, each the contract of a function that does nothing.
//!
//! `Begin ts place ls stop rest` says that `ls` begins with the tokens `ts`, the last of which ends
//! at `stop`, and that `rest` stands behind them.
ghost use Rattle.protox_lex.specs.declared.span.Span.{Span};
ghost use Rattle.std.specs.Prelude.{◌≡◌, ◌↔◌, List, Ok, Some};
ghost use Rattle.text_lex.specs.Token.{Lexeme};
ghost use Rattle.text_model.specs.Tree.{FieldName};
ghost use Rattle.text_scalars.specs.Names.{name_at};
ghost use Rattle.text_scalars.specs.Scalars.{Found, scalar_at};
ghost use Rattle.text_scalars.specs.Spelled.{IsName, IsScalar};

/// A scalar value is found exactly where its tokens stand at the front, a string with all literals
/// that stand there, and no fault behind them.
pub fn scalars_are_found_by_their_tokens()
    ensures { (ls : List Lexeme) (f : Found) → (scalar_at ls ≡ Some f) ↔ IsScalar ls f }
{}

/// A name is found exactly where its tokens stand at the front.
pub fn names_are_found_by_their_tokens()
    ensures { (ls : List Lexeme) (n : FieldName) (span : Span) (rest : List Lexeme)
        → (name_at ls ≡ Ok ((n, span), rest)) ↔ IsName ls n span rest }
{}
