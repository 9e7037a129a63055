//! Strings that are written as several literals.

ghost use Rattle.std.specs.Prelude.{◌≡◌, ◌<◌, IfOk, vec_len};

use protox_lex::{Span, String as Literal, across};
use std::alloc::{AllocError, Global};

/// String literals that stand one after the other and mean one string, at least one.
#[derive(Drop)]
pub struct Strings {
    literals: Vec<Literal>,
    ghost some: { 0 < vec_len literals },
}

impl Strings {
    ghost use Rattle.protox_tree.specs.Tree as tree;
    ghost use Rattle.protox_tree.specs.View.{strings_view, literals_view};

    /// The string that these literals mean together; at least one.
    pub fn from_literals(literals: Vec<Literal>) -> Strings
        requires { 0 < vec_len literals }
        ensures { strings_view result ≡ literals_view literals.items }
    {
        Strings { literals }
    }

    /// The literals, at least one.
    pub fn literals(&self) -> &[Literal]
        ensures { literals_view result.now ≡ strings_view self.now }
    {
        self.literals.as_slice()
    }

    /// From the first literal to the last.
    pub fn span(&self) -> Span
        ensures { result ≡ tree.words_span (strings_view self.now) }
    {
        across(
            self.literals[0].span,
            self.literals[self.literals.len() - 1].span,
        )
    }

    /// The bytes of all literals. Refused only for want of memory.
    pub fn joined(&self, alloc: Global) -> Result<Literal, AllocError>
        ensures text { IfOk result (λ s. s.value.items ≡ tree.joined (strings_view self.now)) }
        ensures span { IfOk result (λ s. s.span ≡ tree.words_span (strings_view self.now)) }
    {
        let mut value = Vec::new(alloc);
        'literals: for literal in self.literals.as_slice() {
            value.extend_from_slice(literal.value.as_slice())?;
        }
        Ok(Literal {
            value,
            span: self.span(),
        })
    }
}
