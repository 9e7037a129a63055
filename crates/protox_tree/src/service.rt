//! Services.

use crate::ident::{Ident, TypeName};
use crate::option::OptionStatement;
use protox_lex::Span;

/// The statement `service .. { .. }`.
#[derive(Drop)]
pub struct Service {
    pub name: Ident,
    /// From the opening brace to the closing one.
    pub braces: Span,
    pub items: Vec<ServiceItem>,
    pub span: Span,
}

/// A statement in a service's braces.
#[derive(Drop)]
pub enum ServiceItem {
    Method(Method),
    Option(OptionStatement),
    /// A semicolon alone.
    Empty(Span),
}

/// The statement `rpc ..`, with a semicolon or braces behind it.
#[derive(Drop)]
pub struct Method {
    pub name: Ident,
    pub input: MethodType,
    pub output: MethodType,
    /// What stands in braces, if there are any.
    pub body: Option<MethodBody>,
    pub span: Span,
}

/// What stands in the braces of a method.
#[derive(Drop)]
pub struct MethodBody {
    /// From the opening brace to the closing one.
    pub braces: Span,
    pub items: Vec<MethodItem>,
}

/// What a method takes or gives.
#[derive(Drop)]
pub struct MethodType {
    /// The word `stream`.
    pub stream: Option<Span>,
    pub name: TypeName,
}

/// A statement in a method's braces.
#[derive(Drop)]
pub enum MethodItem {
    Option(OptionStatement),
    /// A semicolon alone.
    Empty(Span),
}
