ghost use Rattle.std.specs.Prelude.{◌≡◌, OnOk};
ghost use Rattle.protox_locate.specs.Declarations as spec;
ghost use Rattle.protox_locate.specs.Collected.{meets, state};
ghost use Rattle.protox_tree.specs.View.{enum_item_view, enum_value_view, enum_view};

use crate::locator::Locator;
use crate::options::{option_list, option_statement};
use crate::ranges::{ReservedLists, reserved};
use crate::slot::Count;
use descriptor_records::tag;
use protox_tree::{Enum, EnumItem, EnumValue};
use std::alloc::AllocError;

/// How many entries the lists of an enum's record have so far.
#[derive(Clone, Copy)]
struct EnumCounts {
    values: Count,
    options: Count,
    lists: ReservedLists,
}

impl EnumCounts {
    fn new() -> EnumCounts
        ensures { result ≡ spec.no_values }
    {
        let (ranges, names) = (
            tag::enumeration::RESERVED_RANGE,
            tag::enumeration::RESERVED_NAME,
        );
        EnumCounts {
            values: Count::new(),
            options: Count::new(),
            lists: ReservedLists::new(ranges, names),
        }
    }
}

/// The locations of an enum whose record stands at a path.
pub fn enumeration(
    locator: &mut Locator<'_>,
    path: &[i32],
    statement: &Enum,
) -> Result<(), AllocError>
    ensures { OnOk result (state locator.new
        ≡ meets (state locator.old) (spec.enum_events path.now (enum_view statement.now))) }
{
    locator.enter(path, &[], statement.span, statement.braces)?;
    locator.add(path, &[tag::enumeration::NAME], statement.name.span)?;
    let mut counts = EnumCounts::new();
    'items: for item in &statement.items {
        enum_item(locator, path, &mut counts, item)?;
    }
    locator.leave(statement.braces)?;
    Ok(())
}

fn enum_item(
    locator: &mut Locator<'_>,
    path: &[i32],
    counts: &mut EnumCounts,
    item: &EnumItem,
) -> Result<(), AllocError>
    ensures located { OnOk result (state locator.new
        ≡ meets (state locator.old) (spec.enum_item_events path.now counts.old
        (enum_item_view item.now))) }
    ensures counted { OnOk result (counts.new
        ≡ spec.after_enum_item counts.old (enum_item_view item.now)) }
{
    match item {
        EnumItem::Value(one) => {
            let at = locator.entry(path, tag::enumeration::VALUE, counts.values.next())?;
            value(locator, at.as_slice(), one)
        }
        EnumItem::Option(option) => {
            let options = tag::enumeration::OPTIONS;
            option_statement(locator, path, options, &mut counts.options, option)
        }
        EnumItem::Reserved(statement) => reserved(locator, path, &mut counts.lists, statement),
        EnumItem::Empty(span) => locator.pass(*span),
    }
}

fn value(locator: &mut Locator<'_>, path: &[i32], value: &EnumValue) -> Result<(), AllocError>
    ensures { OnOk result (state locator.new
        ≡ meets (state locator.old) (spec.value_events path.now (enum_value_view value.now))) }
{
    locator.statement(path, &[], value.span)?;
    locator.add(path, &[tag::enum_value::NAME], value.name.span)?;
    locator.add(path, &[tag::enum_value::NUMBER], value.number.span)?;
    option_list(locator, path, tag::enum_value::OPTIONS, &value.options)?;
    Ok(())
}
