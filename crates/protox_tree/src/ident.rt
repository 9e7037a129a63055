//! Names.

ghost use Rattle.std.specs.Prelude.{◌≡◌, ◌<◌, [], ◌∷◌, Some, IfOk, string_bytes, vec_len};

use protox_lex::{Span, across};
use std::alloc::{AllocError, Global};
use std::fmt;

/// A name without dots.
#[derive(Drop)]
pub struct Ident {
    pub value: String,
    pub span: Span,
}

impl Ident {
    /// A name of this text, which stands there.
    pub fn new(value: String, span: Span) -> Ident
        ensures { result ≡ record { value = value; span = span } }
    {
        Ident { value, span }
    }
}

impl fmt::Display for Ident {
    ghost output = { λ i. Some (string_bytes i.value) };

    fn fmt<W: fmt::Write>(&self, f: &mut fmt::Formatter<W>) -> fmt::Result {
        f.write_str(self.value.as_str())
    }
}

/// Names with dots between them, at least one.
#[derive(Drop)]
pub struct FullIdent {
    parts: Vec<Ident>,
    ghost some: { 0 < vec_len parts },
}

impl FullIdent {
    ghost use Rattle.protox_tree.specs.Tree.{dotted, words_span};
    ghost use Rattle.protox_tree.specs.View.{full_view, ident_view, idents_view};

    /// Of one part. Refused only for want of memory.
    pub fn from_ident(alloc: Global, ident: Ident) -> Result<FullIdent, AllocError>
        ensures { IfOk result (λ name. full_view name ≡ ident_view ident ∷ []) }
    {
        let mut parts = Vec::with_capacity(alloc, 1)?;
        parts.push(ident)?;
        Ok(FullIdent { parts })
    }

    /// Of these parts, at least one.
    pub fn from_idents(parts: Vec<Ident>) -> FullIdent
        requires { 0 < vec_len parts }
        ensures { full_view result ≡ idents_view parts.items }
    {
        FullIdent { parts }
    }

    /// From the first part to the last.
    pub fn span(&self) -> Span
        ensures { result ≡ words_span (full_view self.now) }
    {
        across(self.parts[0].span, self.parts[self.parts.len() - 1].span)
    }

    /// The parts with dots between them. Refused only for want of memory.
    pub fn to_text(&self, alloc: Global) -> Result<String, AllocError>
        ensures { IfOk result (λ text. string_bytes text ≡ dotted (full_view self.now)) }
    {
        let mut text = String::new(alloc);
        if let Some((first, others)) = self.parts.as_slice().split_first() {
            text.push_str(first.value.as_str())?;
            'others: for part in others {
                text.push_str(".")?;
                text.push_str(part.value.as_str())?;
            }
        }
        Ok(text)
    }
}

impl fmt::Display for FullIdent {
    ghost use Rattle.protox_tree.specs.Tree.{dotted};
    ghost use Rattle.protox_tree.specs.View.{full_view};

    ghost output = { λ n. Some (dotted (full_view n)) };

    fn fmt<W: fmt::Write>(&self, f: &mut fmt::Formatter<W>) -> fmt::Result {
        if let Some((first, others)) = self.parts.as_slice().split_first() {
            f.write_str(first.value.as_str())?;
            'others: for part in others {
                write!(f, ".{part}")?;
            }
        }
        Ok(())
    }
}

/// The name of a type, which may begin with a dot.
#[derive(Drop)]
pub struct TypeName {
    pub leading_dot: Option<Span>,
    pub name: FullIdent,
}

impl TypeName {
    ghost use Rattle.protox_tree.specs.Places.{type_name_span};
    ghost use Rattle.protox_tree.specs.Tree.{type_text};
    ghost use Rattle.protox_tree.specs.View.{type_name_view};

    /// From the leading dot, if there is one, to the last part.
    pub fn span(&self) -> Span
        ensures { result ≡ type_name_span (type_name_view self.now) }
    {
        let name = self.name.span();
        match self.leading_dot {
            Some(dot) => across(dot, name),
            None => name,
        }
    }

    /// The name as it is written, without gaps. Refused only for want of memory.
    pub fn to_text(&self, alloc: Global) -> Result<String, AllocError>
        ensures { IfOk result (λ text. string_bytes text ≡ type_text (type_name_view self.now)) }
    {
        let name = self.name.to_text(alloc)?;
        match self.leading_dot {
            Some(_) => format!(in alloc; ".{name}"),
            None => Ok(name),
        }
    }
}

impl fmt::Display for TypeName {
    ghost use Rattle.protox_tree.specs.Tree.{type_text};
    ghost use Rattle.protox_tree.specs.View.{type_name_view};

    ghost output = { λ n. Some (type_text (type_name_view n)) };

    fn fmt<W: fmt::Write>(&self, f: &mut fmt::Formatter<W>) -> fmt::Result {
        if self.leading_dot.is_some() {
            f.write_str(".")?;
        }
        write!(f, "{}", self.name)
    }
}
