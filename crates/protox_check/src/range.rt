//! The checks of ranges, and of enums.

ghost use Rattle.std.specs.Prelude.{◌≡◌, ◌++◌, OnOk, if◌then◌else◌, None, Some, not};
ghost use Rattle.std.specs.List.{flat_map};
ghost use Rattle.protox_check.specs.Ranges as spec;
ghost use Rattle.protox_check.specs.Texts.{text_faults};
ghost use Rattle.protox_check.specs.Words.{told_if};
ghost use Rattle.protox_check.specs.declared.range.Numbers.TheVariants as numbers;
ghost use Rattle.protox_lex.specs.Signed.{signed};
ghost use Rattle.protox_tree.specs.NestView.{extensions_view};
ghost use Rattle.protox_tree.specs.View.{enum_item_view, enum_view, names_view, reserved_items_view, reserved_view};
ghost use Rattle.protox_tree.specs.declared.error.ParseErrorKind.TheVariants as kinds;

use crate::{check_text, is_proto3, tell_if};
use descriptor_records::MAX_FIELD_NUMBER;
use protox_lex::Int;
use protox_tree::{
    Enum, EnumItem, Extensions, ParseErrorKind, RangeEnd, Reserved, ReservedItems, ReservedRange,
    Strings, Syntax,
};
use std::alloc::{AllocError, Global};

/// The numbers that a bound may be.
#[derive(Clone, Copy)]
enum Numbers {
    Fields,
    EnumValues,
}

/// A bound, if it is one of the numbers.
fn bound(numbers: Numbers, int: Int) -> Option<i32>
    ensures { result ≡ (if spec.is_bound numbers int then Some (signed int) else None) }
{
    let bound = int.as_i32()?;
    match numbers {
        Numbers::Fields if bound < 1 || bound > MAX_FIELD_NUMBER => None,
        _ => Some(bound),
    }
}

fn check_bound(
    numbers: Numbers,
    int: Int,
    faults: &mut Vec<ParseErrorKind>,
) -> Result<(), AllocError>
    ensures { OnOk result (faults.new.items ≡ faults.old.items ++ spec.bound_faults numbers int) }
{
    let is_bound = bound(numbers, int).is_some();
    tell_if(
        !is_bound,
        ParseErrorKind::InvalidRange { span: int.span },
        faults,
    )
}

fn check_range(
    numbers: Numbers,
    range: ReservedRange,
    faults: &mut Vec<ParseErrorKind>,
) -> Result<(), AllocError>
    ensures { OnOk result (faults.new.items ≡ faults.old.items ++ spec.range_faults numbers range) }
{
    let RangeEnd::Int(end) = range.end else {
        return check_bound(numbers, range.start, faults);
    };
    match (bound(numbers, range.start), bound(numbers, end)) {
        (Some(first), Some(last)) => {
            let span = range.span();
            tell_if(first > last, ParseErrorKind::InvalidRange { span }, faults)
        }
        _ => {
            check_bound(numbers, range.start, faults)?;
            check_bound(numbers, end, faults)
        }
    }
}

fn check_ranges(
    numbers: Numbers,
    ranges: &Vec<ReservedRange>,
    faults: &mut Vec<ParseErrorKind>,
) -> Result<(), AllocError>
    ensures { OnOk result (faults.new.items ≡ faults.old.items
        ++ spec.ranges_faults numbers ranges.now.items) }
{
    'each: for range in ranges {
        check_range(numbers, *range, faults)?;
    }
    Ok(())
}

/// Lists what is wrong with an `extensions` statement.
pub fn check_extensions(
    syntax: Syntax,
    extensions: &Extensions,
    faults: &mut Vec<ParseErrorKind>,
) -> Result<(), AllocError>
    ensures { OnOk result (faults.new.items ≡ faults.old.items
        ++ spec.extensions_faults syntax (extensions_view extensions.now)) }
{
    let span = extensions.span;
    tell_if(
        is_proto3(syntax),
        ParseErrorKind::ExtensionRangeInProto3 { span },
        faults,
    )?;
    check_ranges(Numbers::Fields, &extensions.ranges, faults)
}

fn check_items(
    alloc: Global,
    numbers: Numbers,
    items: &ReservedItems,
    faults: &mut Vec<ParseErrorKind>,
) -> Result<(), AllocError>
    ensures { OnOk result (faults.new.items ≡ faults.old.items
        ++ spec.reserved_faults numbers (reserved_items_view items.now)) }
{
    match items {
        ReservedItems::Ranges(ranges) => check_ranges(numbers, ranges, faults),
        ReservedItems::Names(names) => check_names(alloc, names, faults),
    }
}

fn check_names(
    alloc: Global,
    names: &Vec<Strings>,
    faults: &mut Vec<ParseErrorKind>,
) -> Result<(), AllocError>
    ensures { OnOk result (faults.new.items ≡ faults.old.items
        ++ flat_map text_faults (names_view names.now.items)) }
{
    'each: for name in names {
        check_text(alloc, name, faults)?;
    }
    Ok(())
}

/// The `reserved` statement of a message.
pub fn check_reserved(
    alloc: Global,
    reserved: &Reserved,
    faults: &mut Vec<ParseErrorKind>,
) -> Result<(), AllocError>
    ensures { OnOk result (faults.new.items ≡ faults.old.items
        ++ spec.reserved_faults numbers.Fields (reserved_view reserved.now).items) }
{
    check_items(alloc, Numbers::Fields, &reserved.items, faults)
}

/// Lists what is wrong with the numbers of an enum's values, and with what it reserves.
pub fn check_enum(
    alloc: Global,
    enumeration: &Enum,
    faults: &mut Vec<ParseErrorKind>,
) -> Result<(), AllocError>
    ensures { OnOk result (faults.new.items ≡ faults.old.items
        ++ spec.enum_faults (enum_view enumeration.now)) }
{
    'each: for item in &enumeration.items {
        check_enum_item(alloc, item, faults)?;
    }
    Ok(())
}

fn check_enum_item(
    alloc: Global,
    item: &EnumItem,
    faults: &mut Vec<ParseErrorKind>,
) -> Result<(), AllocError>
    ensures { OnOk result (faults.new.items ≡ faults.old.items
        ++ spec.enum_item_faults (enum_item_view item.now)) }
{
    match item {
        EnumItem::Value(value) => check_enum_number(value.number, faults),
        EnumItem::Reserved(reserved) => {
            check_items(alloc, Numbers::EnumValues, &reserved.items, faults)
        }
        EnumItem::Option(_) | EnumItem::Empty(_) => Ok(()),
    }
}

fn check_enum_number(number: Int, faults: &mut Vec<ParseErrorKind>) -> Result<(), AllocError>
    ensures { OnOk result (faults.new.items ≡ faults.old.items
        ++ told_if (not (spec.is_i32 (signed number))) (kinds.InvalidEnumNumber number.span)) }
{
    let is_number = bound(Numbers::EnumValues, number).is_some();
    let span = number.span;
    tell_if(
        !is_number,
        ParseErrorKind::InvalidEnumNumber { span },
        faults,
    )
}
