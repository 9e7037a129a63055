//! Options.

ghost use Rattle.std.specs.Prelude.{◌≡◌, ◌<◌, IfOk, string_bytes, vec_len};

use crate::ident::{Ident, TypeName};
use crate::text::Strings;
use protox_lex::{Float, Int, Span, across};
use std::alloc::{AllocError, Global};

/// A part of an option's name.
#[derive(Drop)]
pub enum OptionNamePart {
    Ident(Ident),
    /// The name of an extension, in parentheses, and the span with these.
    Extension(TypeName, Span),
}

impl OptionNamePart {
    ghost use Rattle.protox_tree.specs.Places.{part_span};
    ghost use Rattle.protox_tree.specs.Tree as tree;
    ghost use Rattle.protox_tree.specs.View.{name_part_view};

    /// With the parentheses, if there are any.
    pub fn span(&self) -> Span
        ensures { result ≡ part_span (name_part_view self.now) }
    {
        match self {
            OptionNamePart::Ident(ident) => ident.span,
            OptionNamePart::Extension(_, span) => *span,
        }
    }

    /// The part is this word, and no extension.
    fn is_plain(&self, name: &str) -> bool
        ensures { result ≡ tree.is_plain name.now (name_part_view self.now) }
    {
        match self {
            OptionNamePart::Ident(ident) => ident.value.as_str() == name,
            OptionNamePart::Extension(_, _) => false,
        }
    }
}

/// The text between the outer braces of a value: its tokens, with one space between each two.
#[derive(Drop)]
pub struct Aggregate {
    pub text: String,
    /// With the outer braces.
    pub span: Span,
}

/// The value of an option.
#[derive(Drop)]
pub enum OptionValue {
    Ident(Ident),
    /// The word `inf` or `nan` behind a minus. The span begins with the minus.
    NegativeWord(Ident),
    Int(Int),
    /// A number with a point or an exponent. The sign stands apart from the text; the span begins
    /// with it.
    Float { negative: bool, number: Float },
    String(Strings),
    Aggregate(Aggregate),
}

impl OptionValue {
    ghost use Rattle.protox_tree.specs.Places.{value_span};
    ghost use Rattle.protox_tree.specs.Tree.{bool_of};
    ghost use Rattle.protox_tree.specs.TreeTexts.{value_text};
    ghost use Rattle.protox_tree.specs.View.{value_view};

    /// Where the value stands, with its sign.
    pub fn span(&self) -> Span
        ensures { result ≡ value_span (value_view self.now) }
    {
        match self {
            OptionValue::Ident(ident) | OptionValue::NegativeWord(ident) => ident.span,
            OptionValue::Int(int) => int.span,
            OptionValue::Float { number, .. } => number.span,
            OptionValue::String(strings) => strings.span(),
            OptionValue::Aggregate(aggregate) => aggregate.span,
        }
    }

    /// The value's tokens, with one space between each two. Refused only for want of memory.
    pub fn to_token_string(&self, alloc: Global) -> Result<String, AllocError>
        ensures { IfOk result (λ text. string_bytes text ≡ value_text (value_view self.now)) }
    {
        format!(in alloc; "{self}")
    }

    /// What the identifiers `true` and `false` say.
    pub fn as_bool(&self) -> Option<bool>
        ensures { result ≡ bool_of (value_view self.now) }
    {
        match self {
            OptionValue::Ident(ident) => match ident.value.as_str() {
                "true" => Some(true),
                "false" => Some(false),
                _ => None,
            },
            _ => None,
        }
    }
}

/// An option's name and value.
#[derive(Drop)]
pub struct OptionBody {
    /// At least one part.
    pub name: Vec<OptionNamePart>,
    pub value: OptionValue,
    ghost named: { 0 < vec_len name },
}

impl OptionBody {
    ghost use Rattle.protox_tree.specs.Places as places;
    ghost use Rattle.protox_tree.specs.Tree as tree;
    ghost use Rattle.protox_tree.specs.View.{body_view};

    /// The name is this one plain part.
    pub fn has_name(&self, name: &str) -> bool
        ensures { result ≡ tree.has_name name.now (body_view self.now).name }
    {
        match self.name.as_slice() {
            [part] => part.is_plain(name),
            _ => false,
        }
    }

    /// From the first part of the name to the last.
    pub fn name_span(&self) -> Span
        ensures { result ≡ places.name_span (body_view self.now).name }
    {
        across(self.name[0].span(), self.name[self.name.len() - 1].span())
    }

    /// From the name to the value.
    pub fn span(&self) -> Span
        ensures { result ≡ places.body_span (body_view self.now) }
    {
        across(self.name_span(), self.value.span())
    }
}

/// The statement `option .. ;`.
#[derive(Drop)]
pub struct OptionStatement {
    pub body: OptionBody,
    pub span: Span,
}

/// Options in brackets.
#[derive(Drop)]
pub struct OptionList {
    pub options: Vec<OptionBody>,
    /// With the brackets.
    pub span: Span,
}
