//! Types, and the two syntaxes.

ghost use Rattle.std.specs.Prelude.{◌≡◌, Some, IfOk, option_map, string_bytes};
ghost use Rattle.protox_tree.specs.Places.{ty_span};
ghost use Rattle.protox_tree.specs.Scalar.{scalar_of, scalar_type, written_name};
ghost use Rattle.protox_tree.specs.View.{ty_view};

use crate::ident::TypeName;
use descriptor_records::FieldType;
use protox_lex::Span;
use std::alloc::{AllocError, Global};
use std::fmt;

/// The language of a file.
#[derive(Clone, Copy, PartialEq, Eq, Debug)]
pub enum Syntax {
    Proto2,
    Proto3,
}

impl fmt::Display for Syntax {
    ghost use Rattle.protox_tree.specs.TreeTexts.{syntax_text};

    ghost output = { λ s. Some (syntax_text s) };

    fn fmt<W: fmt::Write>(&self, f: &mut fmt::Formatter<W>) -> fmt::Result {
        f.write_str(match self {
            Syntax::Proto2 => "proto2",
            Syntax::Proto3 => "proto3",
        })
    }
}

/// The type of a field.
#[derive(Drop)]
pub enum Ty {
    /// One of the types that have a word of their own.
    Scalar(FieldType, Span),
    Named(TypeName),
}

impl Ty {
    /// The scalar type of a word, if it is the word of one.
    pub fn scalar(word: &str) -> Option<FieldType>
        ensures { result ≡ scalar_of word.now }
    {
        match word {
            "double" => Some(FieldType::Double),
            "float" => Some(FieldType::Float),
            "int32" => Some(FieldType::Int32),
            "int64" => Some(FieldType::Int64),
            "uint32" => Some(FieldType::Uint32),
            "uint64" => Some(FieldType::Uint64),
            "sint32" => Some(FieldType::Sint32),
            "sint64" => Some(FieldType::Sint64),
            "fixed32" => Some(FieldType::Fixed32),
            "fixed64" => Some(FieldType::Fixed64),
            "sfixed32" => Some(FieldType::Sfixed32),
            "sfixed64" => Some(FieldType::Sfixed64),
            "bool" => Some(FieldType::Bool),
            "string" => Some(FieldType::String),
            "bytes" => Some(FieldType::Bytes),
            _ => None,
        }
    }

    /// The type, where it has a word of its own.
    pub fn proto_ty(&self) -> Option<FieldType>
        ensures { result ≡ scalar_type (ty_view self.now) }
    {
        match self {
            Ty::Scalar(scalar, _) => Some(*scalar),
            Ty::Named(_) => None,
        }
    }

    /// The name as it is written, where the type is named. Refused only for want of memory.
    pub fn ty_name(&self, alloc: Global) -> Result<Option<String>, AllocError>
        ensures { IfOk result (λ name. option_map string_bytes name
            ≡ written_name (ty_view self.now)) }
    {
        match self {
            Ty::Scalar(_, _) => Ok(None),
            Ty::Named(name) => Ok(Some(name.to_text(alloc)?)),
        }
    }

    /// Where the word or the name stands.
    pub fn span(&self) -> Span
        ensures { result ≡ ty_span (ty_view self.now) }
    {
        match self {
            Ty::Scalar(_, span) => *span,
            Ty::Named(name) => name.span(),
        }
    }
}
