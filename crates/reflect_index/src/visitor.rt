//! From the records of a batch to what the pool keeps of them.

ghost use Rattle.std.specs.Prelude.{◌≡◌, ◌-◌, [], Some, map, OnOk, IfOk};
ghost use Rattle.reflect_tables.specs.Views.{method_of, value_of};
ghost use Rattle.reflect_index.specs.Children.{draft_children};
ghost use Rattle.reflect_index.specs.Finished.{AreFinished};
ghost use Rattle.reflect_index.specs.OfDeclarations.{draft_ranges, draft_values, stored_value, add_value};
ghost use Rattle.reflect_index.specs.DraftNames.{draft_name, enum_draft_name, stored_service_name};
ghost use Rattle.reflect_index.specs.Grown.{draft_fields, draft_oneofs, draft_head, enum_draft_head, service_head, draft_value_types, stored_methods, oneof_name, declared_field, GrowsAt};

use crate::batch::Batch;
use crate::children::{declare, no_children, push_service};
use crate::drafts::{Drafts, EnumDraft, MessageDraft, local_place};
use crate::kind::{kind_of, message_meant};
use descriptor_records::{
    DescriptorProto, EnumDescriptorProto, EnumValueDescriptorProto, FieldDescriptorProto,
    FileDescriptorProto, MethodDescriptorProto, OneofDescriptorProto, ServiceDescriptorProto,
};
use reflect_fields::{extension_entry, field_entry, text_copy};
use reflect_names::Reference;
use reflect_references::References;
use reflect_scope::{
    EnumIndex, EnumValueIndex, ExtensionIndex, FieldIndex, FileIndex, MessageIndex, MethodIndex,
    OneofIndex, ServiceIndex,
};
use reflect_tables::{
    Child, Declared, NumberRanges, StoredExtension, StoredField, StoredMethod, StoredOneof,
    StoredService, StoredValue, Syntax, syntax_of,
};
use reflect_walk::{Offsets, VisitError, Visitor, says_map_entry};
use std::alloc::Global;

/// Makes the entries of the declarations that it visits.
#[derive(Drop)]
pub struct IndexVisitor<'a> {
    drafts: Drafts,
    /// The index of the first file.
    first: u32,
    /// How much there was before.
    before: Offsets,
    /// What the references mean that were not met yet.
    references: References<'a>,
    syntax: Syntax,
}

impl<'a> IndexVisitor<'a> {
    ghost use Rattle.reflect_tables.specs.declared.kind.Syntax.TheVariants.{Proto2};

    /// A visitor of files, the first of which has this index, whose references mean this, in the
    /// order in which a walk meets them. Takes no memory.
    pub fn new(
        alloc: Global,
        before: Offsets,
        first: u32,
        references: &'a [Reference],
    ) -> IndexVisitor<'a>
        ensures files { result.drafts.files.items ≡ [] }
        ensures messages { result.drafts.messages.items ≡ [] }
        ensures enums { result.drafts.enums.items ≡ [] }
        ensures extensions { result.drafts.extensions.items ≡ [] }
        ensures services { result.drafts.services.items ≡ [] }
        ensures first { result.first ≡ first }
        ensures before { result.before ≡ before }
        ensures rest { result.references.rest.now ≡ references.now }
        ensures syntax { result.syntax ≡ Proto2 }
    {
        IndexVisitor {
            drafts: Drafts::new(alloc),
            first,
            before,
            references: References::new(references),
            syntax: Syntax::Proto2,
        }
    }

    /// The entries that were made, with all that is known of a type once all of it was visited.
    pub fn into_batch(self, alloc: Global) -> Result<Batch, VisitError>
        ensures { IfOk result (AreFinished self.entry.drafts) }
    {
        let IndexVisitor {
            drafts,
            first: _,
            before: _,
            references: _,
            syntax: _,
        } = self;
        drafts.finished(alloc)
    }
}

/// Adds a field to a message, where the first of the list has this index in the pool.
fn push_field(
    messages: &mut Vec<MessageDraft>,
    first: u32,
    message: MessageIndex,
    field: StoredField,
) -> Result<(), VisitError>
    ensures names { OnOk result (map draft_name messages.new.items
        ≡ map draft_name messages.old.items) }
    ensures ranges { OnOk result (map draft_ranges messages.new.items
        ≡ map draft_ranges messages.old.items) }
    ensures heads { OnOk result (map draft_head messages.new.items
        ≡ map draft_head messages.old.items) }
    ensures oneofs { OnOk result (map draft_oneofs messages.new.items
        ≡ map draft_oneofs messages.old.items) }
    ensures children { OnOk result
        (map draft_children messages.new.items ≡ map draft_children messages.old.items) }
    ensures fields { OnOk result (GrowsAt first (Some message) (declared_field field)
        (map draft_fields messages.old.items) (map draft_fields messages.new.items)) }
{
    let place = local_place(message, first)?;
    if place < messages.len() {
        messages[place].fields.push(field)?;
        Ok(())
    } else {
        Err(VisitError::TooMany)
    }
}

/// Adds a oneof to a message, where the first of the list has this index in the pool.
fn push_oneof(
    messages: &mut Vec<MessageDraft>,
    first: u32,
    message: MessageIndex,
    oneof: StoredOneof,
) -> Result<(), VisitError>
    ensures names { OnOk result (map draft_name messages.new.items
        ≡ map draft_name messages.old.items) }
    ensures ranges { OnOk result (map draft_ranges messages.new.items
        ≡ map draft_ranges messages.old.items) }
    ensures heads { OnOk result (map draft_head messages.new.items
        ≡ map draft_head messages.old.items) }
    ensures fields { OnOk result (map draft_fields messages.new.items
        ≡ map draft_fields messages.old.items) }
    ensures children { OnOk result
        (map draft_children messages.new.items ≡ map draft_children messages.old.items) }
    ensures oneofs { OnOk result (GrowsAt first (Some message) (oneof_name oneof)
        (map draft_oneofs messages.old.items) (map draft_oneofs messages.new.items)) }
{
    let place = local_place(message, first)?;
    if place < messages.len() {
        messages[place].oneofs.push(oneof)?;
        Ok(())
    } else {
        Err(VisitError::TooMany)
    }
}

/// Adds a value to an enum, where the first of the list has this index in the pool.
fn push_value(
    enums: &mut Vec<EnumDraft>,
    first: u32,
    enumeration: EnumIndex,
    value: StoredValue,
) -> Result<(), VisitError>
    ensures names { OnOk result (map enum_draft_name enums.new.items
        ≡ map enum_draft_name enums.old.items) }
    ensures heads { OnOk result (map enum_draft_head enums.new.items
        ≡ map enum_draft_head enums.old.items) }
    ensures values { OnOk result (map draft_values enums.new.items
        ≡ add_value (map draft_values enums.old.items) (enumeration - first) (stored_value value)) }
    ensures types { OnOk result (GrowsAt first (Some enumeration) (value_of value)
        (map draft_value_types enums.old.items) (map draft_value_types enums.new.items)) }
{
    let place = local_place(enumeration, first)?;
    if place < enums.len() {
        enums[place].values.push(value)?;
        Ok(())
    } else {
        Err(VisitError::TooMany)
    }
}

/// Adds a method to a service, where the first of the list has this index in the pool.
fn push_method(
    services: &mut Vec<StoredService>,
    first: u32,
    service: ServiceIndex,
    method: StoredMethod,
) -> Result<(), VisitError>
    ensures names { OnOk result (map stored_service_name services.new.items
        ≡ map stored_service_name services.old.items) }
    ensures heads { OnOk result (map service_head services.new.items
        ≡ map service_head services.old.items) }
    ensures methods { OnOk result (GrowsAt first (Some service) (method_of method)
        (map stored_methods services.old.items) (map stored_methods services.new.items)) }
{
    let place = local_place(service, first)?;
    if place < services.len() {
        services[place].methods.push(method)?;
        Ok(())
    } else {
        Err(VisitError::TooMany)
    }
}

impl<'a> Visitor for IndexVisitor<'a> {
    ghost use Rattle.reflect_index.specs.IndexSteps.{Lists};

    ghost steps = { Lists };

    ghost kept = { λ _ _ _. Unit {0} };

    ghost kept_same = { λ _ _. tt };

    ghost kept_on = { λ _ _ _ _ _ _. tt };

    fn visit_file(
        &mut self,
        alloc: Global,
        _path: &[i32],
        _file: FileIndex,
        descriptor: &FileDescriptorProto,
    ) -> Result<(), VisitError> {
        self.syntax = syntax_of(descriptor);
        self.drafts.files.push(Declared {
            children: no_children(alloc),
            services: Vec::new(alloc),
        })?;
        Ok(())
    }

    fn visit_message(
        &mut self,
        alloc: Global,
        path: &[i32],
        full_name: &str,
        file: FileIndex,
        parent: Option<MessageIndex>,
        index: MessageIndex,
        message: &DescriptorProto,
    ) -> Result<(), VisitError> {
        declare(
            &mut self.drafts.files,
            &mut self.drafts.messages,
            self.first,
            self.before.messages,
            file,
            parent,
            Child::Message(index),
        )?;
        self.drafts.messages.push(MessageDraft {
            file,
            parent,
            path: Vec::from_slice(alloc, path)?,
            name: text_copy(alloc, &message.name)?,
            full_name: String::from_str(alloc, full_name)?,
            is_entry: says_map_entry(message),
            fields: Vec::new(alloc),
            oneofs: Vec::new(alloc),
            children: no_children(alloc),
            reserved_numbers: NumberRanges::reserved(alloc, message.reserved_range.as_slice())?,
            extension_numbers: NumberRanges::extensions(alloc, message.extension_range.as_slice())?,
        })?;
        Ok(())
    }

    fn visit_field(
        &mut self,
        alloc: Global,
        path: &[i32],
        full_name: &str,
        _file: FileIndex,
        message: MessageIndex,
        _index: FieldIndex,
        field: &FieldDescriptorProto,
    ) -> Result<(), VisitError> {
        let kind = kind_of(&mut self.references, field)?;
        let entry = field_entry(alloc, self.syntax, path, full_name, kind, field)?;
        push_field(
            &mut self.drafts.messages,
            self.before.messages,
            message,
            entry,
        )?;
        Ok(())
    }

    fn visit_oneof(
        &mut self,
        alloc: Global,
        path: &[i32],
        full_name: &str,
        _file: FileIndex,
        message: MessageIndex,
        _index: OneofIndex,
        oneof: &OneofDescriptorProto,
    ) -> Result<(), VisitError> {
        let entry = StoredOneof {
            path: Vec::from_slice(alloc, path)?,
            name: text_copy(alloc, &oneof.name)?,
            full_name: String::from_str(alloc, full_name)?,
            fields: Vec::new(alloc),
            is_synthetic: false,
        };
        push_oneof(
            &mut self.drafts.messages,
            self.before.messages,
            message,
            entry,
        )?;
        Ok(())
    }

    fn visit_enum(
        &mut self,
        alloc: Global,
        path: &[i32],
        full_name: &str,
        file: FileIndex,
        parent: Option<MessageIndex>,
        index: EnumIndex,
        enumeration: &EnumDescriptorProto,
    ) -> Result<(), VisitError> {
        declare(
            &mut self.drafts.files,
            &mut self.drafts.messages,
            self.first,
            self.before.messages,
            file,
            parent,
            Child::Enum(index),
        )?;
        self.drafts.enums.push(EnumDraft {
            file,
            parent,
            path: Vec::from_slice(alloc, path)?,
            name: text_copy(alloc, &enumeration.name)?,
            full_name: String::from_str(alloc, full_name)?,
            values: Vec::new(alloc),
        })?;
        Ok(())
    }

    fn visit_enum_value(
        &mut self,
        alloc: Global,
        path: &[i32],
        full_name: &str,
        _file: FileIndex,
        enumeration: EnumIndex,
        _index: EnumValueIndex,
        value: &EnumValueDescriptorProto,
    ) -> Result<(), VisitError> {
        let entry = StoredValue {
            path: Vec::from_slice(alloc, path)?,
            name: text_copy(alloc, &value.name)?,
            full_name: String::from_str(alloc, full_name)?,
            number: value.number.unwrap_or(0),
        };
        push_value(
            &mut self.drafts.enums,
            self.before.enums,
            enumeration,
            entry,
        )
    }

    fn visit_service(
        &mut self,
        alloc: Global,
        path: &[i32],
        full_name: &str,
        file: FileIndex,
        index: ServiceIndex,
        service: &ServiceDescriptorProto,
    ) -> Result<(), VisitError> {
        push_service(&mut self.drafts.files, self.first, file, index)?;
        self.drafts.services.push(StoredService {
            file,
            path: Vec::from_slice(alloc, path)?,
            name: text_copy(alloc, &service.name)?,
            full_name: String::from_str(alloc, full_name)?,
            methods: Vec::new(alloc),
        })?;
        Ok(())
    }

    fn visit_method(
        &mut self,
        alloc: Global,
        path: &[i32],
        full_name: &str,
        _file: FileIndex,
        service: ServiceIndex,
        _index: MethodIndex,
        method: &MethodDescriptorProto,
    ) -> Result<(), VisitError> {
        let input = message_meant(self.references.meaning_of(&method.input_type))?;
        let output = message_meant(self.references.meaning_of(&method.output_type))?;
        let entry = StoredMethod {
            path: Vec::from_slice(alloc, path)?,
            name: text_copy(alloc, &method.name)?,
            full_name: String::from_str(alloc, full_name)?,
            input,
            output,
            is_client_streaming: method.client_streaming.unwrap_or(false),
            is_server_streaming: method.server_streaming.unwrap_or(false),
        };
        push_method(
            &mut self.drafts.services,
            self.before.services,
            service,
            entry,
        )?;
        Ok(())
    }

    fn visit_extension(
        &mut self,
        alloc: Global,
        path: &[i32],
        full_name: &str,
        file: FileIndex,
        parent: Option<MessageIndex>,
        index: ExtensionIndex,
        extension: &FieldDescriptorProto,
    ) -> Result<(), VisitError> {
        declare(
            &mut self.drafts.files,
            &mut self.drafts.messages,
            self.first,
            self.before.messages,
            file,
            parent,
            Child::Extension(index),
        )?;
        let extendee = message_meant(self.references.meaning_of(&extension.extendee))?;
        let kind = kind_of(&mut self.references, extension)?;
        self.drafts.extensions.push(StoredExtension {
            file,
            parent,
            extendee,
            field: extension_entry(alloc, self.syntax, path, full_name, kind, extension)?,
            json_name: format!(in alloc; "[{full_name}]")?,
        })?;
        Ok(())
    }
}
