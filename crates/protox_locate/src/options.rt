//! Options, in statements and in brackets.

ghost use Rattle.std.specs.Prelude.{◌≡◌, OnOk, option_map};
ghost use Rattle.protox_locate.specs.Declarations as spec;
ghost use Rattle.protox_locate.specs.Collected.{meets, state};
ghost use Rattle.protox_tree.specs.View.{body_view, option_list_view, option_view};

use crate::locator::Locator;
use crate::slot::Count;
use descriptor_records::tag;
use protox_lex::{Span, across};
use protox_tree::{OptionBody, OptionList, OptionStatement};
use std::alloc::AllocError;

/// The location of an option statement of the record at a path, whose options are its field of this
/// number.
pub fn option_statement(
    locator: &mut Locator<'_>,
    path: &[i32],
    options: i32,
    count: &mut Count,
    option: &OptionStatement,
) -> Result<(), AllocError>
    ensures located { OnOk result (state locator.new
        ≡ meets (state locator.old) (spec.option_events path.now options count.old
        (option_view option.now))) }
    ensures counted { OnOk result (count.new ≡ spec.more count.old) }
{
    let tail = [options, tag::UNINTERPRETED_OPTION, count.next()];
    locator.statement(path, &tail, option.span)?;
    locator.add(path, &[options], option.span)?;
    Ok(())
}

/// From the first name in brackets to the last value.
fn inner_span(list: &OptionList) -> Span
    ensures { result ≡ spec.inner_span (option_list_view list.now) }
{
    match (list.options.first(), list.options.last()) {
        (Some(first), Some(last)) => across(first.span(), last.span()),
        _ => list.span,
    }
}

/// The locations of options in brackets.
pub fn option_list(
    locator: &mut Locator<'_>,
    path: &[i32],
    options: i32,
    list: &Option<OptionList>,
) -> Result<(), AllocError>
    ensures { OnOk result (state locator.new
        ≡ meets (state locator.old) (spec.list_events path.now options
        (option_map option_list_view list.now))) }
{
    let Some(list) = list else {
        return Ok(());
    };
    locator.add(path, &[options], inner_span(list))?;
    let mut count = Count::new();
    'bodies: for option in &list.options {
        option_body(locator, path, options, &mut count, option)?;
    }
    Ok(())
}

fn option_body(
    locator: &mut Locator<'_>,
    path: &[i32],
    options: i32,
    count: &mut Count,
    option: &OptionBody,
) -> Result<(), AllocError>
    ensures located { OnOk result (state locator.new
        ≡ meets (state locator.old) (spec.body_events path.now options count.old
        (body_view option.now))) }
    ensures counted { OnOk result (count.new ≡ spec.after_body count.old (body_view option.now)) }
{
    let tail = [options, tag::UNINTERPRETED_OPTION, count.next()];
    locator.add(path, &tail, option.span())?;
    Ok(())
}

/// The locations of a field's options in brackets, of which two are fields of the field's record.
pub fn field_options(
    locator: &mut Locator<'_>,
    path: &[i32],
    list: &Option<OptionList>,
) -> Result<(), AllocError>
    ensures { OnOk result (state locator.new
        ≡ meets (state locator.old) (spec.field_list_events path.now
        (option_map option_list_view list.now))) }
{
    let Some(list) = list else {
        return Ok(());
    };
    locator.add(path, &[tag::field::OPTIONS], inner_span(list))?;
    let mut count = Count::new();
    'bodies: for option in &list.options {
        field_option(locator, path, &mut count, option)?;
    }
    Ok(())
}

fn field_option(
    locator: &mut Locator<'_>,
    path: &[i32],
    count: &mut Count,
    option: &OptionBody,
) -> Result<(), AllocError>
    ensures located { OnOk result (state locator.new
        ≡ meets (state locator.old) (spec.field_option_events path.now count.old
        (body_view option.now))) }
    ensures counted { OnOk result (count.new
        ≡ spec.after_field_option count.old (body_view option.now)) }
{
    if option.has_name("default") {
        locator.add(path, &[tag::field::DEFAULT_VALUE], option.value.span())
    } else if option.has_name("json_name") {
        locator.add(path, &[tag::field::JSON_NAME], option.value.span())
    } else {
        option_body(locator, path, tag::field::OPTIONS, count, option)?;
        Ok(())
    }
}
