//! Ranges of numbers, and the statements that list them.

ghost use Rattle.std.specs.Prelude.{◌<◌, ◌≤◌, OnOk};
ghost use Rattle.protox_options.specs.RangeGrammar as spec;
ghost use Rattle.protox_tokens.specs.Left.{left};
ghost use Rattle.protox_tokens.specs.Reads.{Reads};
ghost use Rattle.protox_tokens.specs.Stream.{stream};
ghost use Rattle.protox_tree.specs.View.{names_view, reserved_items_view, reserved_view};

use crate::names::{int, is_string, strings};
use protox_lex::{Sign, token};
use protox_tokens::{Stop, Tokens, across, one};
use protox_tree::{RangeEnd, Reserved, ReservedItems, ReservedRange, Strings};
use std::alloc::Global;

fn end<'a>(tokens: &mut Tokens<'a>) -> Result<RangeEnd, Stop<'a>>
    ensures reads { Reads (λ e. e) (spec.range_end (stream tokens.old)) result tokens.new }
    ensures moves { OnOk result (left tokens.new ≤ left tokens.old) }
{
    let Some(_) = tokens.eat(token::TO) else {
        return Ok(RangeEnd::None);
    };
    if let Some(span) = tokens.eat(token::MAX) {
        return Ok(RangeEnd::Max(span));
    }
    let int = int(tokens)?;
    Ok(RangeEnd::Int(int))
}

fn range<'a>(tokens: &mut Tokens<'a>) -> Result<ReservedRange, Stop<'a>>
    ensures reads { Reads (λ r. r) (spec.range (stream tokens.old)) result tokens.new }
    ensures moves { OnOk result (left tokens.new < left tokens.old) }
{
    let start = int(tokens)?;
    let end = end(tokens)?;
    Ok(ReservedRange { start, end })
}

/// Ranges with commas between them, at least one.
pub fn ranges<'a>(alloc: Global, tokens: &mut Tokens<'a>) -> Result<Vec<ReservedRange>, Stop<'a>>
    ensures reads { Reads (λ v. v.items) (spec.ranges (stream tokens.old)) result tokens.new }
    ensures moves { OnOk result (left tokens.new < left tokens.old) }
{
    let first = range(tokens)?;
    let mut list = one(alloc, first)?;
    'rest: while tokens.passes(Sign::Comma) {
        let next = range(tokens)?;
        list.push(next)?;
    }
    Ok(list)
}

fn names<'a>(alloc: Global, tokens: &mut Tokens<'a>) -> Result<Vec<Strings>, Stop<'a>>
    ensures reads { Reads (λ v. names_view v.items) (spec.names (stream tokens.old))
        result tokens.new }
    ensures moves { OnOk result (left tokens.new < left tokens.old) }
{
    let first = strings(alloc, tokens)?;
    let mut list = one(alloc, first)?;
    'rest: while tokens.passes(Sign::Comma) {
        let next = strings(alloc, tokens)?;
        list.push(next)?;
    }
    Ok(list)
}

fn reserved_items<'a>(alloc: Global, tokens: &mut Tokens<'a>) -> Result<ReservedItems, Stop<'a>>
    ensures reads { Reads reserved_items_view (spec.reserved_items (stream tokens.old))
        result tokens.new }
    ensures moves { OnOk result (left tokens.new < left tokens.old) }
{
    if is_string(tokens) {
        let names = names(alloc, tokens)?;
        return Ok(ReservedItems::Names(names));
    }
    let ranges = ranges(alloc, tokens)?;
    Ok(ReservedItems::Ranges(ranges))
}

/// The statement `reserved .. ;`.
pub fn reserved<'a>(alloc: Global, tokens: &mut Tokens<'a>) -> Result<Reserved, Stop<'a>>
    ensures reads { Reads reserved_view (spec.reserved (stream tokens.old)) result tokens.new }
    ensures moves { OnOk result (left tokens.new < left tokens.old) }
{
    let first = tokens.expect(token::RESERVED)?;
    let items = reserved_items(alloc, tokens)?;
    let last = tokens.expect_sign(Sign::Semicolon)?;
    Ok(Reserved {
        items,
        span: across(first, last),
    })
}
