//! The statements of files.

ghost use Rattle.std.specs.Prelude.{◌≡◌, ◌<◌, ◌≤◌, Ok, OnOk, option_map};
ghost use Rattle.std.specs.Str.{bytes_eq};
ghost use Rattle.protox_file.specs.FileGrammar as spec;
ghost use Rattle.protox_file.specs.Languages.{IsLanguage};
ghost use Rattle.protox_tokens.specs.Left.{left};
ghost use Rattle.protox_tokens.specs.Reads.{Reads};
ghost use Rattle.protox_tokens.specs.Stream.{stream};
ghost use Rattle.protox_tree.specs.FileView.{syntax_view, import_view, package_view, file_item_view};
ghost use Rattle.protox_tree.specs.View.{strings_view};

use protox_declarations::{enumeration, service};
use protox_lex::{Sign, Span, Token, token};
use protox_messages::{extend, message};
use protox_options::{full_ident, option, strings};
use protox_tokens::{Fault, Stop, Tokens, across};
use protox_tree::{
    ExpectedToken, FileItem, Import, ImportKind, Package, Strings, Syntax, SyntaxStatement,
};
use std::alloc::Global;

/// The levels of messages and groups that a file may have.
const MAX_LEVELS: u8 = 31;

const EDITION: Token<'static> = Token::Ident("edition");

fn is_text(bytes: &[u8], text: &str) -> bool
    ensures { result ≡ bytes_eq bytes.now text.now }
{
    bytes == text.as_bytes()
}

/// The language of this name.
fn language(name: &[u8]) -> Option<Syntax>
    ensures { result ≡ spec.language name.now }
{
    if is_text(name, "proto2") {
        Some(Syntax::Proto2)
    } else if is_text(name, "proto3") {
        Some(Syntax::Proto3)
    } else {
        None
    }
}

/// The language that the literal behind `syntax` names.
fn known_language<'a>(alloc: Global, value: &Strings) -> Result<Syntax, Stop<'a>>
    ensures { IsLanguage (strings_view value.now) result }
{
    let name = value.joined(alloc)?;
    match language(name.value.as_slice()) {
        Some(syntax) => Ok(syntax),
        None => Err(Stop::Refused(Fault::UnknownSyntax { span: name.span })),
    }
}

/// What stands behind the word `syntax`.
fn syntax_behind<'a>(
    alloc: Global,
    tokens: &mut Tokens<'a>,
    first: Span,
) -> Result<SyntaxStatement, Stop<'a>>
    ensures reads { Reads syntax_view (spec.syntax_behind first (stream tokens.old))
        result tokens.new }
    ensures moves { OnOk result (left tokens.new < left tokens.old) }
{
    tokens.expect_sign(Sign::Equals)?;
    let value = strings(alloc, tokens)?;
    let syntax = known_language(alloc, &value)?;
    let last = tokens.expect_sign(Sign::Semicolon)?;
    Ok(SyntaxStatement {
        syntax,
        value,
        span: across(first, last),
    })
}

/// The statement `syntax`, if the file begins with it. A file that begins with `edition` has
/// another syntax.
pub fn syntax<'a>(
    alloc: Global,
    tokens: &mut Tokens<'a>,
) -> Result<Option<SyntaxStatement>, Stop<'a>>
    ensures reads { Reads (λ o. option_map syntax_view o) (spec.syntax (stream tokens.old))
        result tokens.new }
    ensures moves { OnOk result (left tokens.new ≤ left tokens.old) }
{
    if let Some(span) = tokens.eat(EDITION) {
        return Err(Stop::Refused(Fault::UnknownSyntax { span }));
    }
    let Some(first) = tokens.eat(token::SYNTAX) else {
        return Ok(None);
    };
    let statement = syntax_behind(alloc, tokens, first)?;
    Ok(Some(statement))
}

/// The word behind `import`, if there is one.
fn import_kind(tokens: &mut Tokens<'_>) -> Option<(ImportKind, Span)>
    ensures reads { spec.import_kind (stream tokens.old) ≡ Ok (result, stream tokens.new) }
    ensures moves { left tokens.new ≤ left tokens.old }
{
    if let Some(span) = tokens.eat(token::WEAK) {
        return Some((ImportKind::Weak, span));
    }
    if let Some(span) = tokens.eat(token::PUBLIC) {
        return Some((ImportKind::Public, span));
    }
    None
}

fn import<'a>(alloc: Global, tokens: &mut Tokens<'a>) -> Result<Import, Stop<'a>>
    ensures reads { Reads import_view (spec.an_import (stream tokens.old)) result tokens.new }
    ensures moves { OnOk result (left tokens.new < left tokens.old) }
{
    let first = tokens.expect(token::IMPORT)?;
    let kind = import_kind(tokens);
    let value = strings(alloc, tokens)?;
    let last = tokens.expect_sign(Sign::Semicolon)?;
    Ok(Import {
        kind,
        value,
        span: across(first, last),
    })
}

fn package<'a>(alloc: Global, tokens: &mut Tokens<'a>) -> Result<Package, Stop<'a>>
    ensures reads { Reads package_view (spec.a_package (stream tokens.old)) result tokens.new }
    ensures moves { OnOk result (left tokens.new < left tokens.old) }
{
    let first = tokens.expect(token::PACKAGE)?;
    let name = full_ident(alloc, tokens)?;
    let last = tokens.expect_sign(Sign::Semicolon)?;
    Ok(Package {
        name,
        span: across(first, last),
    })
}

/// One statement of a file.
pub fn item<'a>(alloc: Global, tokens: &mut Tokens<'a>) -> Result<FileItem, Stop<'a>>
    ensures reads { Reads file_item_view (spec.file_item (stream tokens.old)) result tokens.new }
    ensures moves { OnOk result (left tokens.new < left tokens.old) }
{
    if let Some(span) = tokens.eat_sign(Sign::Semicolon) {
        return Ok(FileItem::Empty(span));
    }
    if tokens.sees(token::IMPORT) {
        let import = import(alloc, tokens)?;
        return Ok(FileItem::Import(import));
    }
    if tokens.sees(token::PACKAGE) {
        let package = package(alloc, tokens)?;
        return Ok(FileItem::Package(package));
    }
    if tokens.sees(token::MESSAGE) {
        let message = message(alloc, tokens, MAX_LEVELS)?;
        return Ok(FileItem::Message(message));
    }
    if tokens.sees(token::ENUM) {
        let enumeration = enumeration(alloc, tokens)?;
        return Ok(FileItem::Enum(enumeration));
    }
    if tokens.sees(token::SERVICE) {
        let service = service(alloc, tokens)?;
        return Ok(FileItem::Service(service));
    }
    if tokens.sees(token::EXTEND) {
        let extend = extend(alloc, tokens, MAX_LEVELS)?;
        return Ok(FileItem::Extend(extend));
    }
    if tokens.sees(token::OPTION) {
        let option = option(alloc, tokens)?;
        return Ok(FileItem::Option(option));
    }
    Err(tokens.refuse(ExpectedToken::FileItem))
}
