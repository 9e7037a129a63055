//! Messages.

use crate::enumeration::Enum;
use crate::ident::{Ident, TypeName};
use crate::option::{OptionList, OptionStatement};
use crate::range::{Extensions, Reserved};
use crate::types::Ty;
use descriptor_records::Label;
use protox_lex::{Int, Span};

/// The statement `message .. { .. }`.
#[derive(Drop)]
#[cycle(message)]
pub struct Message {
    pub name: Ident,
    /// From the opening brace to the closing one.
    pub braces: Span,
    pub items: Vec<MessageItem>,
    pub span: Span,
}

/// A statement in the braces of a message or a group.
#[derive(Drop)]
#[cycle(message)]
pub enum MessageItem {
    Field(Field),
    Oneof(Oneof),
    Message(Message),
    Enum(Enum),
    Extend(Extend),
    Extensions(Extensions),
    Reserved(Reserved),
    Option(OptionStatement),
    /// A semicolon alone.
    Empty(Span),
}

/// A field, a group or a map.
#[derive(Drop)]
#[cycle(message)]
pub struct Field {
    pub label: Option<(Label, Span)>,
    pub kind: FieldKind,
    pub name: Ident,
    pub number: Int,
    pub options: Option<OptionList>,
    pub span: Span,
}

/// Which of the three a field is, and its type.
#[derive(Drop)]
#[cycle(message)]
pub enum FieldKind {
    Normal(Ty),
    Group(Group),
    Map(Map),
}

/// What makes a field a group: its word and its body.
#[derive(Drop)]
#[cycle(message)]
pub struct Group {
    pub word: Span,
    /// From the opening brace to the closing one.
    pub braces: Span,
    pub items: Vec<MessageItem>,
}

/// The type of a map.
#[derive(Drop)]
pub struct Map {
    pub key: Ty,
    pub value: Ty,
    /// From the word `map` to the closing bracket.
    pub span: Span,
}

/// The statement `oneof .. { .. }`.
#[derive(Drop)]
#[cycle(message)]
pub struct Oneof {
    pub name: Ident,
    /// From the opening brace to the closing one.
    pub braces: Span,
    pub items: Vec<OneofItem>,
    pub span: Span,
}

/// A statement in a oneof's braces.
#[derive(Drop)]
#[cycle(message)]
pub enum OneofItem {
    Field(Field),
    Option(OptionStatement),
    /// A semicolon alone.
    Empty(Span),
}

/// Fields that another type is extended by.
#[derive(Drop)]
#[cycle(message)]
pub struct Extend {
    pub extendee: TypeName,
    /// From the opening brace to the closing one.
    pub braces: Span,
    pub items: Vec<ExtendItem>,
    pub span: Span,
}

/// A statement in the braces behind `extend`.
#[derive(Drop)]
#[cycle(message)]
pub enum ExtendItem {
    Field(Field),
    /// A semicolon alone.
    Empty(Span),
}
