//! Which fields have the entry of a map as their type.

ghost use Rattle.std.specs.Prelude.{◌≡◌, ℕ, None, OnOk};
ghost use Rattle.std.specs.BTreeMap.{get};
ghost use Rattle.std.specs.Ordering.{nat_cmp};
ghost use Rattle.reflect_references.specs.Meanings.{meaning, behind};
ghost use Rattle.reflect_rules.specs.Uses.{user, use_of as use_made, use_behind};

use crate::types::Types;
use descriptor_records::{
    DescriptorProto, EnumDescriptorProto, EnumValueDescriptorProto, FieldDescriptorProto,
    FieldType, FileDescriptorProto, Label, MethodDescriptorProto, OneofDescriptorProto,
    ServiceDescriptorProto,
};
use reflect_references::References;
use reflect_scope::{
    DefinitionKind, EnumIndex, EnumValueIndex, ExtensionIndex, FieldIndex, FileIndex, MessageIndex,
    MethodIndex, OneofIndex, ServiceIndex,
};
use reflect_walk::{VisitError, Visitor};
use std::alloc::{AllocError, Global};
use std::collections::BTreeMap;

/// How the type of a map's entries is used.
#[derive(Clone, Copy, PartialEq, Debug)]
pub enum EntryUse {
    /// It is the type of one repeated field of message type.
    OneMap,
    /// It is the type of other fields, or of several.
    Other,
}

/// Finds how the types of maps' entries are used by the fields and extensions that it visits.
#[derive(Drop)]
pub struct UseVisitor<'a, T: Types> {
    uses: BTreeMap<MessageIndex, EntryUse>,
    references: References<'a>,
    types: &'a T,
}

/// The use of an entry's type that a field makes alone.
fn use_of(field: &FieldDescriptorProto) -> EntryUse
    ensures { result ≡ use_made field.now }
{
    let is_group = field.field_type == Some(FieldType::Group.number());
    if field.label == Some(Label::Repeated.number()) && !is_group {
        EntryUse::OneMap
    } else {
        EntryUse::Other
    }
}

impl<'a, T: Types> UseVisitor<'a, T> {
    /// No field was visited yet. Takes no memory.
    pub fn new(alloc: Global, references: References<'a>, types: &'a T) -> UseVisitor<'a, T>
        ensures uses { (i : ℕ) → get nat_cmp result.uses i ≡ None }
        ensures references { result.references.rest.now ≡ references.entry.rest.now }
        ensures types { result.types.now ≡ types.now }
    {
        UseVisitor {
            uses: BTreeMap::new(alloc),
            references,
            types,
        }
    }

    /// The uses, by the index of the entry's type.
    pub fn into_uses(self) -> BTreeMap<MessageIndex, EntryUse>
        ensures { result ≡ self.entry.uses }
    {
        let UseVisitor {
            uses,
            references: _,
            types: _,
        } = self;
        uses
    }

    /// Notes the use that a field makes of its type, if that is the type of a map's entries.
    fn note(&mut self, field: &FieldDescriptorProto) -> Result<(), AllocError>
        ensures uses { OnOk result ((i : ℕ) → get nat_cmp self.new.uses i
            ≡ use_behind (get nat_cmp self.old.uses i)
            (user (T.says self.old.types.now) i
            (meaning field.now.type_name self.old.references.rest.now) field.now)) }
        ensures rest { OnOk result (self.new.references.rest.now
            ≡ behind field.now.type_name self.old.references.rest.now) }
        ensures types { OnOk result (self.new.types.now ≡ self.old.types.now) }
    {
        let Some(DefinitionKind::Message(index)) = self.references.meaning_of(&field.type_name)
        else {
            return Ok(());
        };
        if self.types.is_map_entry(index) {
            let used = if self.uses.contains_key(&index) {
                EntryUse::Other
            } else {
                use_of(field)
            };
            self.uses.insert(index, used)?;
        }
        Ok(())
    }
}

impl<'a, T: Types> Visitor for UseVisitor<'a, T> {
    ghost use Rattle.reflect_rules.specs.UseSteps.{Notes};

    ghost steps = { Notes T.says };

    ghost kept = { λ _ _ _. Unit {0} };

    ghost kept_same = { λ _ _. tt };

    ghost kept_on = { λ _ _ _ _ _ _. tt };

    fn visit_file(
        &mut self,
        _alloc: Global,
        _path: &[i32],
        _file: FileIndex,
        _descriptor: &FileDescriptorProto,
    ) -> Result<(), VisitError> {
        Ok(())
    }

    fn visit_message(
        &mut self,
        _alloc: Global,
        _path: &[i32],
        _full_name: &str,
        _file: FileIndex,
        _parent: Option<MessageIndex>,
        _index: MessageIndex,
        _message: &DescriptorProto,
    ) -> Result<(), VisitError> {
        Ok(())
    }

    fn visit_field(
        &mut self,
        _alloc: Global,
        _path: &[i32],
        _full_name: &str,
        _file: FileIndex,
        _message: MessageIndex,
        _index: FieldIndex,
        field: &FieldDescriptorProto,
    ) -> Result<(), VisitError> {
        self.note(field)?;
        Ok(())
    }

    fn visit_oneof(
        &mut self,
        _alloc: Global,
        _path: &[i32],
        _full_name: &str,
        _file: FileIndex,
        _message: MessageIndex,
        _index: OneofIndex,
        _oneof: &OneofDescriptorProto,
    ) -> Result<(), VisitError> {
        Ok(())
    }

    fn visit_enum(
        &mut self,
        _alloc: Global,
        _path: &[i32],
        _full_name: &str,
        _file: FileIndex,
        _parent: Option<MessageIndex>,
        _index: EnumIndex,
        _enumeration: &EnumDescriptorProto,
    ) -> Result<(), VisitError> {
        Ok(())
    }

    fn visit_enum_value(
        &mut self,
        _alloc: Global,
        _path: &[i32],
        _full_name: &str,
        _file: FileIndex,
        _enumeration: EnumIndex,
        _index: EnumValueIndex,
        _value: &EnumValueDescriptorProto,
    ) -> Result<(), VisitError> {
        Ok(())
    }

    fn visit_service(
        &mut self,
        _alloc: Global,
        _path: &[i32],
        _full_name: &str,
        _file: FileIndex,
        _index: ServiceIndex,
        _service: &ServiceDescriptorProto,
    ) -> Result<(), VisitError> {
        Ok(())
    }

    fn visit_method(
        &mut self,
        _alloc: Global,
        _path: &[i32],
        _full_name: &str,
        _file: FileIndex,
        _service: ServiceIndex,
        _index: MethodIndex,
        method: &MethodDescriptorProto,
    ) -> Result<(), VisitError> {
        self.references.meaning_of(&method.input_type);
        self.references.meaning_of(&method.output_type);
        Ok(())
    }

    fn visit_extension(
        &mut self,
        _alloc: Global,
        _path: &[i32],
        _full_name: &str,
        _file: FileIndex,
        _parent: Option<MessageIndex>,
        _index: ExtensionIndex,
        extension: &FieldDescriptorProto,
    ) -> Result<(), VisitError> {
        self.references.meaning_of(&extension.extendee);
        self.note(extension)?;
        Ok(())
    }
}
