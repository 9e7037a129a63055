//! What is wrong with a syntax tree as a whole.
#![tactic(auto)]

ghost use Rattle.std.specs.Prelude.{◌≡◌, ◌++◌, ◌∷◌, [], IfOk, OnOk, slice_get};
ghost use Rattle.std.specs.Str.{is_utf8};
ghost use Rattle.protox_check.specs.Faults as spec;
ghost use Rattle.protox_check.specs.Texts.{text_faults};
ghost use Rattle.protox_check.specs.Words.{told_if, is_proto3};
ghost use Rattle.protox_tree.specs.FileView.{file_view, file_item_view};
ghost use Rattle.protox_tree.specs.Tree.{joined};
ghost use Rattle.protox_tree.specs.View.{strings_view};

mod declaration;
mod default;
mod field;
mod field_option;
mod range;

use crate::declaration::{check_extend, check_message};
use crate::range::check_enum;
use protox_lex::Span;
use protox_tree::{File, FileItem, ParseErrorKind, Strings, Syntax};
use std::alloc::{AllocError, Global};

/// The faults of a tree, in the order in which they stand in the source. Refused only for want of
/// memory.
///
/// The rules are those of the "Language Specification" of the two syntaxes and of the "Language
/// Guide". What needs other files, as whether a type exists, is not checked here.
pub fn check_file(alloc: Global, file: &File) -> Result<Vec<ParseErrorKind>, AllocError>
    ensures { IfOk result (λ faults. faults.items ≡ spec.faults_of (file_view file.now)) }
{
    let syntax = file.syntax();
    let mut faults = Vec::new(alloc);
    let mut first_package = None;
    'each: for item in &file.items {
        check_item(alloc, syntax, first_package, item, &mut faults)?;
        first_package = first_package.or(package_at(item));
    }
    Ok(faults)
}

/// Where an item names the package.
fn package_at(item: &FileItem) -> Option<Span>
    ensures { result ≡ slice_get (spec.package_at (file_item_view item.now)) 0 }
{
    match item {
        FileItem::Package(package) => Some(package.span),
        _ => None,
    }
}

/// An item behind the first package that stands so.
fn check_item(
    alloc: Global,
    syntax: Syntax,
    first_package: Option<Span>,
    item: &FileItem,
    faults: &mut Vec<ParseErrorKind>,
) -> Result<(), AllocError>
    ensures { OnOk result (faults.new.items ≡ faults.old.items
        ++ spec.file_item_faults syntax first_package (file_item_view item.now)) }
{
    match item {
        FileItem::Import(import) => check_text(alloc, &import.value, faults),
        FileItem::Package(statement) => check_package(first_package, statement.span, faults),
        FileItem::Message(message) => check_message(alloc, syntax, message, faults),
        FileItem::Enum(enumeration) => check_enum(alloc, enumeration, faults),
        FileItem::Extend(extend) => check_extend(alloc, syntax, extend, faults),
        FileItem::Option(_) | FileItem::Service(_) | FileItem::Empty(_) => Ok(()),
    }
}

fn check_package(
    first: Option<Span>,
    second: Span,
    faults: &mut Vec<ParseErrorKind>,
) -> Result<(), AllocError>
    ensures { OnOk result (faults.new.items ≡ faults.old.items
        ++ spec.second_package first second) }
{
    match first {
        Some(first) => tell(faults, ParseErrorKind::DuplicatePackage { first, second }),
        None => Ok(()),
    }
}

/// A string that has to be text.
fn check_text(
    alloc: Global,
    strings: &Strings,
    faults: &mut Vec<ParseErrorKind>,
) -> Result<(), AllocError>
    ensures { OnOk result (faults.new.items ≡ faults.old.items
        ++ text_faults (strings_view strings.now)) }
{
    let is_text = is_text(alloc, strings)?;
    let span = strings.span();
    tell_if(!is_text, ParseErrorKind::InvalidUtf8String { span }, faults)
}

/// What the literals of a string mean together is UTF-8.
fn is_text(alloc: Global, strings: &Strings) -> Result<bool, AllocError>
    ensures { IfOk result (λ text. text ≡ is_utf8 (joined (strings_view strings.now))) }
{
    let joined = strings.joined(alloc)?;
    Ok(joined.into_utf8().is_ok())
}

fn is_proto3(syntax: Syntax) -> bool
    ensures { result ≡ is_proto3 syntax }
{
    matches!(syntax, Syntax::Proto3)
}

/// Lists one more fault, where there is reason to.
fn tell_if(
    reason: bool,
    fault: ParseErrorKind,
    faults: &mut Vec<ParseErrorKind>,
) -> Result<(), AllocError>
    ensures { OnOk result (faults.new.items ≡ faults.old.items ++ told_if reason fault) }
{
    if reason {
        faults.push(fault)?;
    }
    Ok(())
}

/// Lists one more fault.
fn tell(faults: &mut Vec<ParseErrorKind>, fault: ParseErrorKind) -> Result<(), AllocError>
    ensures { OnOk result (faults.new.items ≡ faults.old.items ++ fault ∷ []) }
{
    faults.push(fault)?;
    Ok(())
}
