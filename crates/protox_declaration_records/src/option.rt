//! The records of options.

ghost use Rattle.std.specs.Prelude.{◌≡◌, IfOk, OnOk, map, option_map};
ghost use Rattle.descriptor_records.specs.Content.{name_view, option_view, options_view};
ghost use Rattle.protox_declaration_records.specs.OptionRecords as spec;

use crate::number::i64_of;
use crate::texts::signed_text;
use descriptor_records::{DoubleValue, NamePart, Options, UninterpretedOption};
use protox_tree::{OptionBody, OptionList, OptionNamePart, OptionValue};
use std::alloc::{AllocError, Global};

/// The options of a declaration, where any are written.
pub fn declared(alloc: Global, written: Vec<UninterpretedOption>) -> Option<Options>
    ensures { option_map options_view result ≡ spec.options_of (map option_view written.items) }
{
    if written.is_empty() {
        return None;
    }
    Some(Options {
        encoded: Vec::new(alloc),
        packed: None,
        allow_alias: None,
        map_entry: None,
        uninterpreted_option: written,
    })
}

/// The options in brackets, where there are any.
pub fn list_options(alloc: Global, list: &Option<OptionList>) -> Result<Option<Options>, AllocError>
    ensures { IfOk result (λ given. option_map options_view given ≡ spec.list_options_of list.now) }
{
    Ok(declared(alloc, records_of(alloc, listed(list))?))
}

/// The options in brackets; none, where there are no brackets.
pub fn listed(list: &Option<OptionList>) -> &[OptionBody]
    ensures { result.now ≡ spec.listed list.now }
{
    match list {
        Some(list) => list.options.as_slice(),
        None => &[],
    }
}

fn records_of(alloc: Global, bodies: &[OptionBody]) -> Result<Vec<UninterpretedOption>, AllocError>
    ensures { IfOk result (λ records. map option_view records.items
        ≡ map spec.option_of bodies.now) }
{
    let mut records = Vec::new(alloc);
    'each: for body in bodies {
        records.push(option_record(alloc, body)?)?;
    }
    Ok(records)
}

/// The record of an option.
pub fn option_record(alloc: Global, body: &OptionBody) -> Result<UninterpretedOption, AllocError>
    ensures { IfOk result (λ option. option_view option ≡ spec.option_of body.now) }
{
    let name = name_parts(alloc, &body.name)?;
    let mut option = UninterpretedOption {
        name,
        identifier_value: None,
        positive_int_value: None,
        negative_int_value: None,
        double_value: None,
        string_value: None,
        aggregate_value: None,
    };
    set_value(alloc, &body.value, &mut option)?;
    Ok(option)
}

fn name_parts(alloc: Global, parts: &Vec<OptionNamePart>) -> Result<Vec<NamePart>, AllocError>
    ensures { IfOk result (λ records. map name_view records.items
        ≡ map spec.name_part_of parts.now.items) }
{
    let mut records = Vec::new(alloc);
    'each: for part in parts {
        records.push(name_part(alloc, part)?)?;
    }
    Ok(records)
}

fn name_part(alloc: Global, part: &OptionNamePart) -> Result<NamePart, AllocError>
    ensures { IfOk result (λ made. name_view made ≡ spec.name_part_of part.now) }
{
    match part {
        OptionNamePart::Ident(ident) => Ok(NamePart {
            name_part: ident.value.clone()?,
            is_extension: false,
        }),
        OptionNamePart::Extension(name, _) => Ok(NamePart {
            name_part: name.to_text(alloc)?,
            is_extension: true,
        }),
    }
}

fn set_value(
    alloc: Global,
    value: &OptionValue,
    option: &mut UninterpretedOption,
) -> Result<(), AllocError>
    ensures { OnOk result (option_view option.new
        ≡ spec.with_value value.now (option_view option.old)) }
{
    match value {
        OptionValue::Ident(ident) => option.identifier_value = Some(ident.value.clone()?),
        OptionValue::Int(int) if int.negative => option.negative_int_value = i64_of(*int),
        OptionValue::Int(int) => option.positive_int_value = Some(int.value),
        OptionValue::NegativeWord(word) => {
            let text = signed_text(alloc, true, word.value.as_str())?;
            option.double_value = Some(DoubleValue::Text(text));
        }
        OptionValue::Float { negative, number } => {
            let text = signed_text(alloc, *negative, number.text.as_str())?;
            option.double_value = Some(DoubleValue::Text(text));
        }
        OptionValue::String(strings) => option.string_value = Some(strings.joined(alloc)?.value),
        OptionValue::Aggregate(aggregate) => {
            option.aggregate_value = Some(aggregate.text.clone()?);
        }
    }
    Ok(())
}
