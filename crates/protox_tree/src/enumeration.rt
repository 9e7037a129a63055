//! Enums.

use crate::ident::Ident;
use crate::option::{OptionList, OptionStatement};
use crate::range::Reserved;
use protox_lex::{Int, Span};

/// The statement `enum .. { .. }`.
#[derive(Drop)]
pub struct Enum {
    pub name: Ident,
    /// From the opening brace to the closing one.
    pub braces: Span,
    pub items: Vec<EnumItem>,
    pub span: Span,
}

/// A statement in an enum's braces.
#[derive(Drop)]
pub enum EnumItem {
    Value(EnumValue),
    Option(OptionStatement),
    Reserved(Reserved),
    /// A semicolon alone.
    Empty(Span),
}

/// A value of an enum: its name, its number and its options.
#[derive(Drop)]
pub struct EnumValue {
    pub name: Ident,
    pub number: Int,
    pub options: Option<OptionList>,
    pub span: Span,
}
