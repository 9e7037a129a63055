//! Files.

ghost use Rattle.std.specs.Prelude.{◌≡◌, [], OnOk, option_map};
ghost use Rattle.protox_file.specs.FileGrammar as spec;
ghost use Rattle.protox_file.specs.Sources.{IsTree};
ghost use Rattle.protox_tokens.specs.Reads.{Reads};
ghost use Rattle.protox_tokens.specs.Stream.{stream};
ghost use Rattle.protox_tree.specs.FileTree as tree;
ghost use Rattle.protox_tree.specs.FileView.{syntax_view, file_items_view, file_view};

use crate::statements::{item, syntax};
use protox_lex::Span;
use protox_tokens::{Stop, Tokens, across};
use protox_tree::{File, FileItem, SyntaxStatement};
use std::alloc::Global;

/// From the first statement to the last; of a file without statements the start of the source.
#[tactic(auto, using(crate::proofs::Spans::statements_cover, crate::proofs::Spans::syntax_covers))]
fn file_span(syntax: &Option<SyntaxStatement>, items: &[FileItem]) -> Span
    ensures { result ≡ tree.file_span (option_map syntax_view syntax.now)
        (file_items_view items.now) }
{
    match (syntax, items.first(), items.last()) {
        (Some(syntax), _, Some(last)) => across(syntax.span, last.span()),
        (Some(syntax), _, None) => syntax.span,
        (None, Some(first), Some(last)) => across(first.span(), last.span()),
        (None, _, _) => Span { start: 0, end: 0 },
    }
}

/// What is left of a source as a tree.
fn file<'a>(alloc: Global, tokens: &mut Tokens<'a>) -> Result<File, Stop<'a>>
    ensures reads { Reads file_view (spec.file (stream tokens.old)) result tokens.new }
    ensures over { OnOk result (stream tokens.new ≡ []) }
{
    let syntax = syntax(alloc, tokens)?;
    let mut items = Vec::new(alloc);
    'items: while !tokens.is_over() {
        let item = item(alloc, tokens)?;
        items.push(item)?;
    }
    let span = file_span(&syntax, items.as_slice());
    Ok(File {
        syntax,
        items,
        span,
    })
}

/// The tree that a source spells. Refused with the first fault of its tokens, or for want of
/// memory.
pub fn tree(alloc: Global, source: &str) -> Result<File, Stop<'_>>
    ensures { IsTree source.now result }
{
    file(alloc, &mut Tokens::new(source))
}
