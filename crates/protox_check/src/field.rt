//! The checks of a field before its options.

ghost use Rattle.std.specs.Prelude.{◌≡◌, ◌++◌, OnOk, None, Some};
ghost use Rattle.protox_check.specs.Fields as spec;
ghost use Rattle.protox_tree.specs.NestView.{kind_view};
ghost use Rattle.protox_tree.specs.Scalar.{scalar_type};
ghost use Rattle.protox_tree.specs.View.{ident_view, ty_view};

use crate::{is_proto3, tell, tell_if};
use descriptor_records::{FieldType, Label, MAX_FIELD_NUMBER};
use protox_lex::{Int, Span};
use protox_tree::{Field, FieldKind, Ident, ParseErrorKind, Syntax, Ty};
use std::alloc::AllocError;

/// What a field stands in directly.
#[derive(Clone, Copy)]
pub enum Holder {
    Message,
    Oneof,
    Extend,
}

impl Holder {
    fn is_oneof(self) -> bool
        ensures { result ≡ spec.is_oneof self }
    {
        matches!(self, Holder::Oneof)
    }

    fn is_extend(self) -> bool
        ensures { result ≡ spec.is_extend self }
    {
        matches!(self, Holder::Extend)
    }
}

/// What stands before a field's options.
pub fn check_field_head(
    syntax: Syntax,
    holder: Holder,
    field: &Field,
    faults: &mut Vec<ParseErrorKind>,
) -> Result<(), AllocError>
    ensures { OnOk result (faults.new.items ≡ faults.old.items
        ++ spec.head_faults syntax holder (spec.head_view field.now)) }
{
    check_presence(syntax, holder, field, faults)?;
    check_group(syntax, field, faults)?;
    check_label(holder, field, faults)?;
    check_holder(holder, field, faults)?;
    check_required(holder, field.label, faults)?;
    check_name(&field.kind, &field.name, faults)?;
    check_number(field.number, faults)
}

fn check_presence(
    syntax: Syntax,
    holder: Holder,
    field: &Field,
    faults: &mut Vec<ParseErrorKind>,
) -> Result<(), AllocError>
    ensures { OnOk result (faults.new.items ≡ faults.old.items
        ++ spec.presence_faults syntax holder (kind_view field.now.kind) field.now.span
        field.now.label) }
{
    match field.label {
        Some((label, span)) => {
            let is_required = is_proto3(syntax) && is_required(label);
            tell_if(
                is_required,
                ParseErrorKind::RequiredInProto3 { span },
                faults,
            )
        }
        None => {
            let is_missing = !is_proto3(syntax) && !holder.is_oneof() && !is_map(&field.kind);
            let span = field.span;
            tell_if(is_missing, ParseErrorKind::MissingLabel { span }, faults)
        }
    }
}

fn check_group(
    syntax: Syntax,
    field: &Field,
    faults: &mut Vec<ParseErrorKind>,
) -> Result<(), AllocError>
    ensures { OnOk result (faults.new.items ≡ faults.old.items
        ++ spec.group_faults syntax (kind_view field.now.kind) field.now.span) }
{
    let is_group = is_proto3(syntax) && is_group(&field.kind);
    let span = field.span;
    tell_if(is_group, ParseErrorKind::GroupInProto3 { span }, faults)
}

fn check_label(
    holder: Holder,
    field: &Field,
    faults: &mut Vec<ParseErrorKind>,
) -> Result<(), AllocError>
    ensures { OnOk result (faults.new.items ≡ faults.old.items
        ++ spec.label_faults holder (kind_view field.now.kind) field.now.label) }
{
    let Some((_, span)) = field.label else {
        return Ok(());
    };
    tell_if(
        holder.is_oneof(),
        ParseErrorKind::OneofFieldWithLabel { span },
        faults,
    )?;
    tell_if(
        is_map(&field.kind),
        ParseErrorKind::MapFieldWithLabel { span },
        faults,
    )
}

/// Maps stand in messages alone.
fn check_holder(
    holder: Holder,
    field: &Field,
    faults: &mut Vec<ParseErrorKind>,
) -> Result<(), AllocError>
    ensures { OnOk result (faults.new.items ≡ faults.old.items
        ++ spec.holder_faults holder (kind_view field.now.kind) field.now.span) }
{
    let span = field.span;
    let is_map = is_map(&field.kind);
    tell_if(
        holder.is_oneof() && is_map,
        ParseErrorKind::MapFieldInOneof { span },
        faults,
    )?;
    tell_if(
        holder.is_extend() && is_map,
        ParseErrorKind::MapFieldInExtend { span },
        faults,
    )
}

fn check_required(
    holder: Holder,
    label: Option<(Label, Span)>,
    faults: &mut Vec<ParseErrorKind>,
) -> Result<(), AllocError>
    ensures { OnOk result (faults.new.items ≡ faults.old.items
        ++ spec.required_faults holder label) }
{
    let Some((label, span)) = label else {
        return Ok(());
    };
    let is_required = holder.is_extend() && is_required(label);
    tell_if(
        is_required,
        ParseErrorKind::RequiredExtension { span },
        faults,
    )
}

/// The name of a group and the key of a map.
fn check_name(
    kind: &FieldKind,
    name: &Ident,
    faults: &mut Vec<ParseErrorKind>,
) -> Result<(), AllocError>
    ensures { OnOk result (faults.new.items ≡ faults.old.items
        ++ spec.name_faults (kind_view kind.now) (ident_view name.now)) }
{
    match kind {
        FieldKind::Normal(_) => Ok(()),
        FieldKind::Group(_) => {
            let begins_upper = begins_upper(name.value.as_str());
            let span = name.span;
            tell_if(
                !begins_upper,
                ParseErrorKind::InvalidGroupName { span },
                faults,
            )
        }
        FieldKind::Map(map) => {
            let is_key = is_key_type(&map.key);
            let span = map.key.span();
            tell_if(!is_key, ParseErrorKind::InvalidMapKeyType { span }, faults)
        }
    }
}

/// The number of a field is one of those that fields may have.
fn check_number(number: Int, faults: &mut Vec<ParseErrorKind>) -> Result<(), AllocError>
    ensures { OnOk result (faults.new.items ≡ faults.old.items ++ spec.number_faults number) }
{
    let span = number.span;
    match number.as_i32() {
        Some(19000..=19999) => tell(faults, ParseErrorKind::ReservedMessageNumber { span }),
        Some(1..=MAX_FIELD_NUMBER) => Ok(()),
        _ => tell(faults, ParseErrorKind::InvalidMessageNumber { span }),
    }
}

fn is_map(kind: &FieldKind) -> bool
    ensures { result ≡ spec.is_map (kind_view kind.now) }
{
    matches!(kind, FieldKind::Map(_))
}

fn is_group(kind: &FieldKind) -> bool
    ensures { result ≡ spec.is_group (kind_view kind.now) }
{
    matches!(kind, FieldKind::Group(_))
}

fn is_required(label: Label) -> bool
    ensures { result ≡ spec.is_required label }
{
    matches!(label, Label::Required)
}

fn begins_upper(name: &str) -> bool
    ensures { result ≡ spec.begins_upper name.now }
{
    match name.as_bytes() {
        [first, ..] => first.is_ascii_uppercase(),
        [] => false,
    }
}

fn is_key_type(ty: &Ty) -> bool
    ensures { result ≡ spec.is_key_type (scalar_type (ty_view ty.now)) }
{
    match ty.proto_ty() {
        None | Some(FieldType::Double | FieldType::Float | FieldType::Bytes) => false,
        Some(_) => true,
    }
}
