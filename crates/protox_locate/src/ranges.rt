//! Statements that list ranges of numbers, or names.

ghost use Rattle.std.specs.Prelude.{◌≡◌, OnOk, option_map};
ghost use Rattle.std.specs.List.{fold};
ghost use Rattle.protox_locate.specs.Declarations as spec;
ghost use Rattle.protox_locate.specs.Messages.{extensions_events, after_range, extension_events};
ghost use Rattle.protox_locate.specs.Collected.{meets, state};
ghost use Rattle.protox_tree.specs.NestView.{extensions_view};
ghost use Rattle.protox_tree.specs.View.{names_view, option_list_view, reserved_view, strings_view};

use crate::locator::Locator;
use crate::options::option_list;
use crate::slot::Count;
use descriptor_records::tag;
use protox_tree::{Extensions, OptionList, Reserved, ReservedItems, ReservedRange, Strings};
use std::alloc::AllocError;

fn range(locator: &mut Locator<'_>, path: &[i32], range: &ReservedRange) -> Result<(), AllocError>
    ensures { OnOk result (state locator.new
        ≡ meets (state locator.old) (spec.range_events path.now range.now)) }
{
    locator.add(path, &[], range.span())?;
    locator.add(path, &[tag::reserved_range::START], range.start_span())?;
    locator.add(path, &[tag::reserved_range::END], range.end_span())?;
    Ok(())
}

/// The locations of an `extensions` statement. The options in its brackets are those of each range.
pub fn extensions(
    locator: &mut Locator<'_>,
    path: &[i32],
    count: &mut Count,
    statement: &Extensions,
) -> Result<(), AllocError>
    ensures located { OnOk result (state locator.new
        ≡ meets (state locator.old) (extensions_events path.now count.old
        (extensions_view statement.now))) }
    ensures counted { OnOk result (count.new
        ≡ fold after_range count.old statement.now.ranges.items) }
{
    locator.statement(path, &[tag::message::EXTENSION_RANGE], statement.span)?;
    'entries: for one in &statement.ranges {
        extension_range(locator, path, count, &statement.options, one)?;
    }
    Ok(())
}

fn extension_range(
    locator: &mut Locator<'_>,
    path: &[i32],
    count: &mut Count,
    options: &Option<OptionList>,
    one: &ReservedRange,
) -> Result<(), AllocError>
    ensures located { OnOk result (state locator.new
        ≡ meets (state locator.old) (extension_events path.now
        (option_map option_list_view options.now) count.old one.now)) }
    ensures counted { OnOk result (count.new ≡ after_range count.old one.now) }
{
    let at = locator.entry(path, tag::message::EXTENSION_RANGE, count.next())?;
    range(locator, at.as_slice(), one)?;
    option_list(
        locator,
        at.as_slice(),
        tag::extension_range::OPTIONS,
        options,
    )?;
    Ok(())
}

/// Where a record lists what is reserved in it, and how much it has listed.
#[derive(Clone, Copy)]
pub struct ReservedLists {
    ranges_tag: i32,
    names_tag: i32,
    ranges: Count,
    names: Count,
}

impl ReservedLists {
    /// The lists of the fields of these numbers, without entries so far.
    pub fn new(ranges_tag: i32, names_tag: i32) -> ReservedLists
        ensures { result ≡ spec.no_lists ranges_tag names_tag }
    {
        ReservedLists {
            ranges_tag,
            names_tag,
            ranges: Count::new(),
            names: Count::new(),
        }
    }
}

fn reserved_ranges(
    locator: &mut Locator<'_>,
    path: &[i32],
    tag: i32,
    count: &mut Count,
    ranges: &[ReservedRange],
) -> Result<(), AllocError>
    ensures located { OnOk result (state locator.new
        ≡ meets (state locator.old) (spec.each (spec.entry_events path.now tag) spec.after_entry
        count.old ranges.now)) }
    ensures counted { OnOk result (count.new ≡ fold spec.after_entry count.old ranges.now) }
{
    'entries: for one in ranges {
        reserved_range(locator, path, tag, count, *one)?;
    }
    Ok(())
}

fn reserved_range(
    locator: &mut Locator<'_>,
    path: &[i32],
    tag: i32,
    count: &mut Count,
    one: ReservedRange,
) -> Result<(), AllocError>
    ensures located { OnOk result (state locator.new
        ≡ meets (state locator.old) (spec.entry_events path.now tag count.old one)) }
    ensures counted { OnOk result (count.new ≡ spec.after_entry count.old one) }
{
    let at = locator.entry(path, tag, count.next())?;
    range(locator, at.as_slice(), &one)?;
    Ok(())
}

fn reserved_names(
    locator: &mut Locator<'_>,
    path: &[i32],
    tag: i32,
    count: &mut Count,
    names: &[Strings],
) -> Result<(), AllocError>
    ensures located { OnOk result (state locator.new
        ≡ meets (state locator.old) (spec.each (spec.name_events path.now tag) spec.after_name
        count.old (names_view names.now))) }
    ensures counted { OnOk result (count.new
        ≡ fold spec.after_name count.old (names_view names.now)) }
{
    'names: for name in names {
        reserved_name(locator, path, tag, count, name)?;
    }
    Ok(())
}

fn reserved_name(
    locator: &mut Locator<'_>,
    path: &[i32],
    tag: i32,
    count: &mut Count,
    name: &Strings,
) -> Result<(), AllocError>
    ensures located { OnOk result (state locator.new
        ≡ meets (state locator.old) (spec.name_events path.now tag count.old
        (strings_view name.now))) }
    ensures counted { OnOk result (count.new ≡ spec.after_name count.old (strings_view name.now)) }
{
    let tail = [tag, count.next()];
    locator.add(path, &tail, name.span())?;
    Ok(())
}

/// The locations of a `reserved` statement.
pub fn reserved(
    locator: &mut Locator<'_>,
    path: &[i32],
    lists: &mut ReservedLists,
    statement: &Reserved,
) -> Result<(), AllocError>
    ensures located { OnOk result (state locator.new
        ≡ meets (state locator.old) (spec.reserved_events path.now lists.old
        (reserved_view statement.now))) }
    ensures counted { OnOk result (lists.new
        ≡ spec.after_reserved lists.old (reserved_view statement.now)) }
{
    match &statement.items {
        ReservedItems::Ranges(ranges) => {
            let tag = lists.ranges_tag;
            locator.statement(path, &[tag], statement.span)?;
            reserved_ranges(locator, path, tag, &mut lists.ranges, ranges.as_slice())?;
            Ok(())
        }
        ReservedItems::Names(names) => {
            let tag = lists.names_tag;
            locator.statement(path, &[tag], statement.span)?;
            reserved_names(locator, path, tag, &mut lists.names, names.as_slice())?;
            Ok(())
        }
    }
}
