//! Files.

ghost use Rattle.std.specs.Prelude.{◌≡◌};

use crate::enumeration::Enum;
use crate::ident::FullIdent;
use crate::message::{Extend, Message};
use crate::option::OptionStatement;
use crate::service::Service;
use crate::text::Strings;
use crate::types::Syntax;
use protox_lex::Span;

/// A source as a tree.
#[derive(Drop)]
pub struct File {
    pub syntax: Option<SyntaxStatement>,
    pub items: Vec<FileItem>,
    /// From the first token to the last.
    pub span: Span,
}

impl File {
    ghost use Rattle.protox_tree.specs.FileTree as tree;
    ghost use Rattle.protox_tree.specs.FileView.{file_view};

    /// proto2, where no statement says otherwise.
    pub fn syntax(&self) -> Syntax
        ensures { result ≡ tree.syntax_of (file_view self.now).syntax }
    {
        match &self.syntax {
            Some(statement) => statement.syntax,
            None => Syntax::Proto2,
        }
    }
}

/// The statement `syntax = .. ;`.
#[derive(Drop)]
pub struct SyntaxStatement {
    pub syntax: Syntax,
    pub value: Strings,
    pub span: Span,
}

/// A statement of a file.
#[derive(Drop)]
pub enum FileItem {
    Import(Import),
    Package(Package),
    Option(OptionStatement),
    Message(Message),
    Enum(Enum),
    Service(Service),
    Extend(Extend),
    /// A semicolon alone.
    Empty(Span),
}

impl FileItem {
    ghost use Rattle.protox_tree.specs.FileTree as tree;
    ghost use Rattle.protox_tree.specs.FileView.{file_item_view};

    /// From the first token of the statement to the last.
    pub fn span(&self) -> Span
        ensures { result ≡ tree.item_span (file_item_view self.now) }
    {
        match self {
            FileItem::Import(import) => import.span,
            FileItem::Package(package) => package.span,
            FileItem::Option(option) => option.span,
            FileItem::Message(message) => message.span,
            FileItem::Enum(enumeration) => enumeration.span,
            FileItem::Service(service) => service.span,
            FileItem::Extend(extend) => extend.span,
            FileItem::Empty(span) => *span,
        }
    }
}

/// The statement `import .. ;`.
#[derive(Drop)]
pub struct Import {
    /// The word that stands behind `import`.
    pub kind: Option<(ImportKind, Span)>,
    pub value: Strings,
    pub span: Span,
}

/// A word that may stand behind `import`.
#[derive(Clone, Copy)]
pub enum ImportKind {
    Weak,
    Public,
}

/// The statement `package .. ;`.
#[derive(Drop)]
pub struct Package {
    pub name: FullIdent,
    pub span: Span,
}
