//! Laws of the tree that lexemes spell, each the contract of a function that does nothing.
ghost use Rattle.std.specs.List.{AllByRecursion};
ghost use Rattle.std.specs.Prelude.{◌≡◌, ◌≤◌, ◌↔◌, List, None, Some};
ghost use Rattle.protox_lex.specs.Class.{Text};
ghost use Rattle.text_lex.specs.Longest.{Lexes};
ghost use Rattle.text_lex.specs.Token.{Lexeme};
ghost use Rattle.text_model.specs.Texts.{AreTokens, IsText};
ghost use Rattle.text_model.specs.Tokens.{fields_tokens, open_braces};
ghost use Rattle.text_model.specs.Tree.{Fields};
ghost use Rattle.text_syntax.specs.Examples.{read, refused, tree_of};
ghost use Rattle.text_syntax.specs.Syntax.{text_at};

/// Lexemes are read as a tree exactly where they are its tokens, no more than 100 braces are open
/// in it at once, and no fault is among them.
pub fn texts_are_read_as_their_trees()
    ensures { (ls : List Lexeme) (fs : Fields) → (text_at ls ≡ Some fs)
        ↔ (AreTokens ls (fields_tokens fs) × (open_braces fs ≤ 100)) }
{}

/// So what the longest match cuts a text into is read as a tree exactly where the text spells it.
pub fn texts_are_those_that_are_read()
    ensures { (z : Text) (ls : List Lexeme) (fs : Fields) → Lexes 0 z ls
        → (text_at ls ≡ Some fs) ↔ IsText z fs }
{}

/// Worked texts are read as their trees, and others are not read.
pub fn worked_texts_are_read()
    ensures trees { AllByRecursion (λ e. tree_of e.0 ≡ Some e.1) read }
    ensures none { AllByRecursion (λ ts. tree_of ts ≡ None) refused }
{}
