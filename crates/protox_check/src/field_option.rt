//! The checks of the options `default` and `json_name` of a field.

ghost use Rattle.std.specs.Prelude.{◌≡◌, ◌++◌, [], OnOk, option_map, slice_get};
ghost use Rattle.protox_check.specs.FieldOptions as spec;
ghost use Rattle.protox_check.specs.Words.{each_behind};
ghost use Rattle.protox_tree.specs.NestView.{kind_view};
ghost use Rattle.protox_tree.specs.View.{bodies_view, body_view, option_list_view, value_view};

use crate::default::suits;
use crate::{check_text, is_proto3, tell, tell_if};
use descriptor_records::FieldType;
use protox_lex::Span;
use protox_tree::{Field, FieldKind, OptionBody, OptionValue, ParseErrorKind, Syntax};
use std::alloc::{AllocError, Global};

/// The first `default` and the first `json_name` that were met.
#[derive(Clone, Copy)]
struct Met {
    default: Option<Span>,
    json_name: Option<Span>,
}

/// The options `default` and `json_name` of a field.
pub fn check_field_options(
    alloc: Global,
    syntax: Syntax,
    field: &Field,
    faults: &mut Vec<ParseErrorKind>,
) -> Result<(), AllocError>
    ensures { OnOk result (faults.new.items ≡ faults.old.items
        ++ spec.options_faults syntax field.now.label (kind_view field.now.kind)
        (option_map option_list_view field.now.options)) }
{
    match &field.options {
        Some(list) => check_options(alloc, syntax, field, &list.options, faults),
        None => Ok(()),
    }
}

fn check_options(
    alloc: Global,
    syntax: Syntax,
    field: &Field,
    options: &Vec<OptionBody>,
    faults: &mut Vec<ParseErrorKind>,
) -> Result<(), AllocError>
    ensures { OnOk result (faults.new.items ≡ faults.old.items
        ++ each_behind (spec.option_faults syntax field.now.label (kind_view field.now.kind)) []
        (bodies_view options.now.items)) }
{
    let mut met = Met {
        default: None,
        json_name: None,
    };
    'each: for option in options {
        check_option(alloc, syntax, field, option, met, faults)?;
        met = Met {
            default: met.default.or(named("default", option)),
            json_name: met.json_name.or(named("json_name", option)),
        };
    }
    Ok(())
}

/// Where an option stands, if it has this name.
fn named(name: &str, option: &OptionBody) -> Option<Span>
    ensures { result ≡ slice_get (spec.named name.now (body_view option.now)) 0 }
{
    if option.has_name(name) {
        Some(option.span())
    } else {
        None
    }
}

fn check_option(
    alloc: Global,
    syntax: Syntax,
    field: &Field,
    option: &OptionBody,
    met: Met,
    faults: &mut Vec<ParseErrorKind>,
) -> Result<(), AllocError>
    ensures { OnOk result (faults.new.items ≡ faults.old.items
        ++ spec.option_faults_after syntax field.now.label (kind_view field.now.kind) met.default
        met.json_name (body_view option.now)) }
{
    if option.has_name("default") {
        check_default(alloc, syntax, field, option, met.default, faults)
    } else if option.has_name("json_name") {
        check_json_name(alloc, option, met.json_name, faults)
    } else {
        Ok(())
    }
}

fn check_default(
    alloc: Global,
    syntax: Syntax,
    field: &Field,
    option: &OptionBody,
    first: Option<Span>,
    faults: &mut Vec<ParseErrorKind>,
) -> Result<(), AllocError>
    ensures { OnOk result (faults.new.items ≡ faults.old.items
        ++ spec.default_faults syntax field.now.label (kind_view field.now.kind) first
        (body_view option.now)) }
{
    let span = option.span();
    let suits = suits(field, &option.value);
    tell_if(
        is_proto3(syntax),
        ParseErrorKind::DefaultInProto3 { span },
        faults,
    )?;
    tell_if(!suits, ParseErrorKind::InvalidDefault { span }, faults)?;
    check_first(first, span, faults)?;
    check_default_text(alloc, suits, &field.kind, &option.value, faults)
}

fn check_default_text(
    alloc: Global,
    suits: bool,
    kind: &FieldKind,
    value: &OptionValue,
    faults: &mut Vec<ParseErrorKind>,
) -> Result<(), AllocError>
    ensures { OnOk result (faults.new.items ≡ faults.old.items
        ++ spec.default_text_faults suits (kind_view kind.now) (value_view value.now)) }
{
    if suits && is_string(kind) {
        check_value_text(alloc, value, faults)
    } else {
        Ok(())
    }
}

fn check_value_text(
    alloc: Global,
    value: &OptionValue,
    faults: &mut Vec<ParseErrorKind>,
) -> Result<(), AllocError>
    ensures { OnOk result (faults.new.items ≡ faults.old.items
        ++ spec.value_text_faults (value_view value.now)) }
{
    match value {
        OptionValue::String(strings) => check_text(alloc, strings, faults),
        _ => Ok(()),
    }
}

fn check_json_name(
    alloc: Global,
    option: &OptionBody,
    first: Option<Span>,
    faults: &mut Vec<ParseErrorKind>,
) -> Result<(), AllocError>
    ensures { OnOk result (faults.new.items ≡ faults.old.items
        ++ spec.json_name_faults first (body_view option.now)) }
{
    check_first(first, option.span(), faults)?;
    check_json_value(alloc, &option.value, faults)
}

fn check_json_value(
    alloc: Global,
    value: &OptionValue,
    faults: &mut Vec<ParseErrorKind>,
) -> Result<(), AllocError>
    ensures { OnOk result (faults.new.items ≡ faults.old.items
        ++ spec.json_value_faults (value_view value.now)) }
{
    match value {
        OptionValue::String(strings) => check_text(alloc, strings, faults),
        _ => {
            let span = value.span();
            tell(faults, ParseErrorKind::InvalidJsonName { span })
        }
    }
}

fn check_first(
    first: Option<Span>,
    second: Span,
    faults: &mut Vec<ParseErrorKind>,
) -> Result<(), AllocError>
    ensures { OnOk result (faults.new.items ≡ faults.old.items ++ spec.second_after first second) }
{
    match first {
        Some(first) => tell(
            faults,
            ParseErrorKind::DuplicateFieldOption { first, second },
        ),
        None => Ok(()),
    }
}

fn is_string(kind: &FieldKind) -> bool
    ensures { result ≡ spec.is_string_kind (kind_view kind.now) }
{
    match kind {
        FieldKind::Normal(ty) => matches!(ty.proto_ty(), Some(FieldType::String)),
        FieldKind::Group(_) | FieldKind::Map(_) => false,
    }
}
