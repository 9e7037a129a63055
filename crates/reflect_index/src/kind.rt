//! What a field holds, by what its type name means or else by its type.

ghost use Rattle.std.specs.Prelude.{◌≡◌, Some, IfOk};
ghost use Rattle.reflect_scope.specs.declared.definition.DefinitionKind.TheVariants as kind;
ghost use Rattle.reflect_references.specs.Meanings.{meaning, behind};
ghost use Rattle.reflect_tables.specs.Views.{kind_of as kind_view};
ghost use Rattle.reflect_index.specs.Entries.{IsMeant, IsTyped, HasKind};

use descriptor_records::{FieldDescriptorProto, FieldType};
use reflect_fields::scalar_kind;
use reflect_references::References;
use reflect_scope::{DefinitionKind, MessageIndex};
use reflect_tables::StoredKind;
use reflect_walk::VisitError;

/// The message that is meant.
pub fn message_meant(meant: Option<DefinitionKind>) -> Result<MessageIndex, VisitError>
    ensures { IfOk result (λ i. meant ≡ Some (kind.Message i)) }
{
    match meant {
        Some(DefinitionKind::Message(index)) => Ok(index),
        _ => Err(VisitError::TooMany),
    }
}

/// The kind of the message or the enum that is meant.
fn kind_meant(meant: Option<DefinitionKind>) -> Result<StoredKind, VisitError>
    ensures { IfOk result (λ k. IsMeant meant (kind_view k)) }
{
    match meant {
        Some(DefinitionKind::Message(index)) => Ok(StoredKind::Message(index)),
        Some(DefinitionKind::Enum(index)) => Ok(StoredKind::Enum(index)),
        _ => Err(VisitError::TooMany),
    }
}

/// The kind of the scalar type of a number.
fn kind_typed(number: Option<i32>) -> Result<StoredKind, VisitError>
    ensures { IfOk result (λ k. IsTyped number (kind_view k)) }
{
    let Some(number) = number else {
        return Err(VisitError::TooMany);
    };
    let Some(field_type) = FieldType::from_number(number) else {
        return Err(VisitError::TooMany);
    };
    match scalar_kind(field_type) {
        Some(kind) => Ok(kind),
        None => Err(VisitError::TooMany),
    }
}

/// What a field holds, by what the next reference means where the field has a type name, or else by
/// its type.
pub fn kind_of(
    references: &mut References<'_>,
    field: &FieldDescriptorProto,
) -> Result<StoredKind, VisitError>
    ensures kind { IfOk result (λ k. HasKind field.now
        (meaning field.now.type_name references.old.rest.now) (kind_view k)) }
    ensures rest { references.new.rest.now ≡ behind field.now.type_name references.old.rest.now }
{
    let meant = references.meaning_of(&field.type_name);
    match &field.type_name {
        Some(_) => kind_meant(meant),
        None => kind_typed(field.field_type),
    }
}
