//! The parts of a field.

ghost use Rattle.std.specs.Prelude.{◌≡◌, ◌∷◌, [], OnOk};
ghost use Rattle.protox_locate.specs.Collected.{meets, state};
ghost use Rattle.protox_locate.specs.Located.{part, statement};
ghost use Rattle.protox_locate.specs.Messages as spec;
ghost use Rattle.protox_tree.specs.NestView.{field_view, kind_view};
ghost use Rattle.protox_tree.specs.View.{ty_view};

use crate::locator::Locator;
use crate::options::field_options;
use descriptor_records::tag;
use protox_lex::Span;
use protox_tree::{Field, FieldKind, Ty};
use std::alloc::AllocError;

/// The locations of a field's statement that ends with a semicolon, and of its parts.
pub fn field_statement(
    locator: &mut Locator<'_>,
    path: &[i32],
    extendee: Option<Span>,
    field: &Field,
) -> Result<(), AllocError>
    ensures { OnOk result (state locator.new
        ≡ meets (state locator.old) (statement path.now [] field.now.span field.now.span.end
        ∷ spec.field_parts_events path.now extendee (field_view field.now))) }
{
    locator.statement(path, &[], field.span)?;
    field_parts(locator, path, extendee, field)?;
    Ok(())
}

/// The locations of a group as a field, and of what stands in front of its body. Its comments are
/// those of its type.
pub fn group_field(
    locator: &mut Locator<'_>,
    path: &[i32],
    extendee: Option<Span>,
    field: &Field,
) -> Result<(), AllocError>
    ensures { OnOk result (state locator.new
        ≡ meets (state locator.old) (part path.now [] field.now.span
        ∷ spec.field_parts_events path.now extendee (field_view field.now))) }
{
    locator.add(path, &[], field.span)?;
    field_parts(locator, path, extendee, field)?;
    Ok(())
}

/// The locations of what stands in a field's statement, but for a group's body.
///
/// What is no option comes by ascending path, in which order all locations stand in the end.
fn field_parts(
    locator: &mut Locator<'_>,
    path: &[i32],
    extendee: Option<Span>,
    field: &Field,
) -> Result<(), AllocError>
    ensures { OnOk result (state locator.new
        ≡ meets (state locator.old) (spec.field_parts_events path.now extendee
        (field_view field.now))) }
{
    locator.add(path, &[tag::field::NAME], field.name.span)?;
    locator.add_some(path, &[tag::field::EXTENDEE], extendee)?;
    locator.add(path, &[tag::field::NUMBER], field.number.span)?;
    locator.add_some(path, &[tag::field::LABEL], label_span(field))?;
    field_type(locator, path, field.name.span, &field.kind)?;
    field_options(locator, path, &field.options)?;
    Ok(())
}

fn label_span(field: &Field) -> Option<Span>
    ensures { result ≡ spec.label_span field.now.label }
{
    Some(field.label?.1)
}

/// A group's name is that of its type too.
fn field_type(
    locator: &mut Locator<'_>,
    path: &[i32],
    name: Span,
    kind: &FieldKind,
) -> Result<(), AllocError>
    ensures { OnOk result (state locator.new
        ≡ meets (state locator.old) (spec.type_events path.now name (kind_view kind.now))) }
{
    match kind {
        FieldKind::Normal(ty) => {
            written_type(locator, path, ty)?;
            Ok(())
        }
        FieldKind::Map(map) => {
            locator.add(path, &[tag::field::TYPE_NAME], map.span)?;
            Ok(())
        }
        FieldKind::Group(group) => {
            locator.add(path, &[tag::field::TYPE], group.word)?;
            locator.add(path, &[tag::field::TYPE_NAME], name)?;
            Ok(())
        }
    }
}

/// A type has its number where it is written as a word, and else its name.
fn written_type(locator: &mut Locator<'_>, path: &[i32], ty: &Ty) -> Result<(), AllocError>
    ensures { OnOk result (state locator.new
        ≡ meets (state locator.old) (spec.ty_events path.now (ty_view ty.now))) }
{
    match ty {
        Ty::Scalar(_, span) => {
            locator.add(path, &[tag::field::TYPE], *span)?;
            Ok(())
        }
        Ty::Named(name) => {
            locator.add(path, &[tag::field::TYPE_NAME], name.span())?;
            Ok(())
        }
    }
}
