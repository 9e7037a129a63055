//! Which defaults a field may have.

ghost use Rattle.std.specs.Prelude.{◌≡◌};
ghost use Rattle.protox_check.specs.FieldOptions as spec;
ghost use Rattle.protox_tree.specs.NestView.{kind_view};
ghost use Rattle.protox_tree.specs.Scalar.{scalar_type};
ghost use Rattle.protox_tree.specs.View.{ty_view, value_view};

use descriptor_records::{FieldType, Label};
use protox_lex::Span;
use protox_tree::{Field, FieldKind, OptionValue, Ty};

/// The form of a default suits the field.
pub fn suits(field: &Field, value: &OptionValue) -> bool
    ensures { result ≡ spec.suits field.now.label (kind_view field.now.kind)
        (value_view value.now) }
{
    !is_repeated(field.label) && suits_kind(&field.kind, value)
}

fn is_repeated(label: Option<(Label, Span)>) -> bool
    ensures { result ≡ spec.is_repeated label }
{
    matches!(label, Some((Label::Repeated, _)))
}

fn suits_kind(kind: &FieldKind, value: &OptionValue) -> bool
    ensures { result ≡ spec.suits_kind (kind_view kind.now) (value_view value.now) }
{
    match kind {
        FieldKind::Normal(ty) => suits_type(ty, value),
        FieldKind::Group(_) | FieldKind::Map(_) => false,
    }
}

fn suits_type(ty: &Ty, value: &OptionValue) -> bool
    ensures { result ≡ spec.suits_type (scalar_type (ty_view ty.now)) (value_view value.now) }
{
    match ty.proto_ty() {
        None => matches!(value, OptionValue::Ident(_)),
        Some(FieldType::String | FieldType::Bytes) => matches!(value, OptionValue::String(_)),
        Some(FieldType::Bool) => value.as_bool().is_some(),
        Some(FieldType::Double | FieldType::Float) => is_number(value),
        Some(_) => matches!(value, OptionValue::Int(_)),
    }
}

fn is_number(value: &OptionValue) -> bool
    ensures { result ≡ spec.is_number (value_view value.now) }
{
    match value {
        OptionValue::Int(_) | OptionValue::Float { .. } | OptionValue::NegativeWord(_) => true,
        OptionValue::Ident(ident) => matches!(ident.value.as_str(), "inf" | "nan"),
        OptionValue::String(_) | OptionValue::Aggregate(_) => false,
    }
}
