ghost use Rattle.std.specs.Prelude.{◌≡◌, OnOk, IfOk, length};
ghost use Rattle.std.specs.BTreeMap.{get_by_text};

use crate::imports::check_imports;
use crate::names::{check_syntax, declare_named, declare_package};
use crate::required::{
    require, require_of_enum, require_of_field, require_of_message, require_of_method,
};
use descriptor_records::{
    DescriptorProto, EnumDescriptorProto, EnumValueDescriptorProto, FieldDescriptorProto,
    FileDescriptorProto, MethodDescriptorProto, OneofDescriptorProto, ServiceDescriptorProto, tag,
    text_of,
};
use name_table::NameTable;
use reflect_faults::Faults;
use reflect_scope::{
    Definition, DefinitionKind, EnumIndex, EnumValueIndex, ExtensionIndex, FieldIndex, FileIndex,
    MessageIndex, MethodIndex, OneofIndex, ServiceIndex,
};
use reflect_walk::{Offsets, VisitError, Visitor, visit_all};
use std::alloc::Global;
use std::collections::BTreeMap;

/// Adds the full names of the files that it visits, and lists what is wrong with them or
/// lacking.
///
/// Its faults are DuplicateName (a package name may repeat as a package), MissingRequiredField,
/// UnknownSyntax, and those of imports: FileNotFound and InvalidImportIndex. The first declaration
/// of a name stays. A file's package declares each part of its name up to a dot too.
#[derive(Drop)]
pub struct NameVisitor<'a> {
    names: NameTable<Definition>,
    faults: Faults<'a>,
    file_names: &'a BTreeMap<String, FileIndex>,
}

impl<'a> NameVisitor<'a> {
    ghost use Rattle.reflect_declarations.specs.Batches.{batch_declarations, past_files};
    ghost use Rattle.reflect_scope.specs.Known.{known_of};
    ghost use Rattle.reflect_faults.specs.Faults.{Adds, place_at};
    ghost use Rattle.reflect_known.specs.KnownNames.{known_behind};
    ghost use Rattle.reflect_names.specs.NamePass.{faults_along};
    ghost use Rattle.reflect_names.specs.NameSteps.{KeepsFrom};

    /// Adds to `names` and `faults`. `file_names` has the indexes of all files, old and new, by
    /// their names.
    pub fn new(
        names: NameTable<Definition>,
        faults: Faults<'a>,
        file_names: &'a BTreeMap<String, FileIndex>,
    ) -> NameVisitor<'a>
        ensures names { known_of result.names ≡ known_of names }
        ensures faults { result.faults ≡ faults.entry }
        ensures file_names { result.file_names.now ≡ file_names.now }
    {
        NameVisitor {
            names,
            faults,
            file_names,
        }
    }

    /// Adds what the files declare, the first of which has the index `first`; `before` are the
    /// counts of what stands before them, and the answer those behind them.
    pub fn declare_files(
        &mut self,
        alloc: Global,
        before: Offsets,
        first: FileIndex,
        files: &[FileDescriptorProto],
    ) -> Result<Offsets, VisitError>
        ensures known { OnOk result (known_of self.new.names
            ≡ known_behind (known_of self.old.names) (batch_declarations before first files.now)) }
        ensures faults { OnOk result (Adds self.old.faults self.new.faults
            (faults_along (place_at self.old.faults) (λ n. get_by_text self.old.file_names.now n)
            (known_of self.old.names) (batch_declarations before first files.now))) }
        ensures keeps { KeepsFrom first (length files.now) (known_of self.old.names)
            (known_of self.new.names) }
        ensures file_names { self.new.file_names.now ≡ self.old.file_names.now }
        ensures counts { IfOk result (λ o. o ≡ past_files before files.now) }
    {
        let behind = visit_all(alloc, before, first, files, self)?;
        Ok(behind)
    }

    /// The names, with those that were declared since, and the faults.
    pub fn into_parts(self) -> (NameTable<Definition>, Faults<'a>)
        ensures names { known_of result.0 ≡ known_of self.entry.names }
        ensures faults { result.1 ≡ self.entry.faults }
    {
        let NameVisitor {
            names,
            faults,
            file_names: _,
        } = self;
        (names, faults)
    }
}

impl<'a> Visitor for NameVisitor<'a> {
    ghost use Rattle.reflect_names.specs.NameSteps.{AddsName, KeepsNames, KeepsNames-same, KeepsNames-on};

    ghost steps = { AddsName };

    ghost kept = { KeepsNames };

    ghost kept_same = { KeepsNames-same };

    ghost kept_on = { KeepsNames-on };

    fn visit_file(
        &mut self,
        alloc: Global,
        _path: &[i32],
        file: FileIndex,
        descriptor: &FileDescriptorProto,
    ) -> Result<(), VisitError> {
        check_imports(alloc, self.file_names, file, descriptor, &mut self.faults)?;
        check_syntax(alloc, &mut self.faults, file, &descriptor.syntax)?;
        let package = text_of(&descriptor.package);
        declare_package(alloc, &mut self.names, &mut self.faults, file, package)?;
        Ok(())
    }

    fn visit_message(
        &mut self,
        alloc: Global,
        path: &[i32],
        full_name: &str,
        file: FileIndex,
        _parent: Option<MessageIndex>,
        index: MessageIndex,
        message: &DescriptorProto,
    ) -> Result<(), VisitError> {
        let kind = DefinitionKind::Message(index);
        let definition = Definition { file, kind };
        declare_named(
            alloc,
            &mut self.names,
            &mut self.faults,
            path,
            full_name,
            &message.name,
            definition,
        )?;
        require_of_message(alloc, &mut self.faults, file, path, message)?;
        Ok(())
    }

    fn visit_field(
        &mut self,
        alloc: Global,
        path: &[i32],
        full_name: &str,
        file: FileIndex,
        _message: MessageIndex,
        _index: FieldIndex,
        field: &FieldDescriptorProto,
    ) -> Result<(), VisitError> {
        let kind = DefinitionKind::Field;
        let definition = Definition { file, kind };
        declare_named(
            alloc,
            &mut self.names,
            &mut self.faults,
            path,
            full_name,
            &field.name,
            definition,
        )?;
        require_of_field(alloc, &mut self.faults, file, path, field)?;
        Ok(())
    }

    fn visit_oneof(
        &mut self,
        alloc: Global,
        path: &[i32],
        full_name: &str,
        file: FileIndex,
        _message: MessageIndex,
        _index: OneofIndex,
        oneof: &OneofDescriptorProto,
    ) -> Result<(), VisitError> {
        let kind = DefinitionKind::Oneof;
        let definition = Definition { file, kind };
        declare_named(
            alloc,
            &mut self.names,
            &mut self.faults,
            path,
            full_name,
            &oneof.name,
            definition,
        )?;
        Ok(())
    }

    fn visit_enum(
        &mut self,
        alloc: Global,
        path: &[i32],
        full_name: &str,
        file: FileIndex,
        _parent: Option<MessageIndex>,
        index: EnumIndex,
        enumeration: &EnumDescriptorProto,
    ) -> Result<(), VisitError> {
        let kind = DefinitionKind::Enum(index);
        let definition = Definition { file, kind };
        declare_named(
            alloc,
            &mut self.names,
            &mut self.faults,
            path,
            full_name,
            &enumeration.name,
            definition,
        )?;
        require_of_enum(
            alloc,
            &mut self.faults,
            file,
            path,
            &enumeration.reserved_range,
        )?;
        Ok(())
    }

    fn visit_enum_value(
        &mut self,
        alloc: Global,
        path: &[i32],
        full_name: &str,
        file: FileIndex,
        _enumeration: EnumIndex,
        _index: EnumValueIndex,
        value: &EnumValueDescriptorProto,
    ) -> Result<(), VisitError> {
        let kind = DefinitionKind::EnumValue;
        let definition = Definition { file, kind };
        declare_named(
            alloc,
            &mut self.names,
            &mut self.faults,
            path,
            full_name,
            &value.name,
            definition,
        )?;
        let number = value.number.is_some();
        let faults = &mut self.faults;
        require(
            alloc,
            faults,
            file,
            path,
            tag::enum_value::NUMBER,
            "number",
            number,
        )?;
        Ok(())
    }

    fn visit_service(
        &mut self,
        alloc: Global,
        path: &[i32],
        full_name: &str,
        file: FileIndex,
        index: ServiceIndex,
        service: &ServiceDescriptorProto,
    ) -> Result<(), VisitError> {
        let kind = DefinitionKind::Service(index);
        let definition = Definition { file, kind };
        declare_named(
            alloc,
            &mut self.names,
            &mut self.faults,
            path,
            full_name,
            &service.name,
            definition,
        )?;
        Ok(())
    }

    fn visit_method(
        &mut self,
        alloc: Global,
        path: &[i32],
        full_name: &str,
        file: FileIndex,
        _service: ServiceIndex,
        _index: MethodIndex,
        method: &MethodDescriptorProto,
    ) -> Result<(), VisitError> {
        let kind = DefinitionKind::Method;
        let definition = Definition { file, kind };
        declare_named(
            alloc,
            &mut self.names,
            &mut self.faults,
            path,
            full_name,
            &method.name,
            definition,
        )?;
        require_of_method(alloc, &mut self.faults, file, path, method)?;
        Ok(())
    }

    fn visit_extension(
        &mut self,
        alloc: Global,
        path: &[i32],
        full_name: &str,
        file: FileIndex,
        _parent: Option<MessageIndex>,
        index: ExtensionIndex,
        extension: &FieldDescriptorProto,
    ) -> Result<(), VisitError> {
        let kind = DefinitionKind::Extension(index);
        let definition = Definition { file, kind };
        declare_named(
            alloc,
            &mut self.names,
            &mut self.faults,
            path,
            full_name,
            &extension.name,
            definition,
        )?;
        require_of_field(alloc, &mut self.faults, file, path, extension)?;
        let extendee = extension.extendee.is_some();
        let faults = &mut self.faults;
        require(
            alloc,
            faults,
            file,
            path,
            tag::field::EXTENDEE,
            "extendee",
            extendee,
        )?;
        Ok(())
    }
}
