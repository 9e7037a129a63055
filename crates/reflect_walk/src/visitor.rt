ghost use Rattle.std.specs.Prelude.{ℕ, OnOk};
ghost use Rattle.reflect_declarations.specs.Tree.{parts_of};
ghost use Rattle.reflect_declarations.specs.Declarations.{Declaration, file_declaration, message_declaration, field_declaration, oneof_declaration, enum_declaration, enum_value_declaration, service_declaration, method_declaration, extension_declaration};

use crate::visit_error::VisitError;
use descriptor_records::{
    DescriptorProto, EnumDescriptorProto, EnumValueDescriptorProto, FieldDescriptorProto,
    FileDescriptorProto, MethodDescriptorProto, OneofDescriptorProto, ServiceDescriptorProto,
};
use reflect_scope::{
    EnumIndex, EnumValueIndex, ExtensionIndex, FieldIndex, FileIndex, MessageIndex, MethodIndex,
    OneofIndex, ServiceIndex,
};
use std::alloc::Global;

/// What is done at each declaration of a file.
///
/// Each call is given the declaration's path, its full name (none of a file), the index of its
/// file, the index of what it is declared in, its own index, and its record. Messages, enums,
/// extensions and services are counted over all files; fields and oneofs in their message, values
/// in their enum, methods in their service. A call fails only for want of memory or where an index
/// does not fit, which ends the walk.
pub trait Visitor {
    /// Which states a declaration may lead to.
    ghost steps: { Self → Declaration → Self → Type 0 };

    /// What each call for a declaration of the file of an index keeps, whether it is refused or
    /// not.
    ghost kept: { ℕ → Self → Self → Type 0 };

    fn visit_file(
        &mut self,
        alloc: Global,
        path: &[i32],
        file: FileIndex,
        descriptor: &FileDescriptorProto,
    ) -> Result<(), VisitError>
        ensures step { OnOk result (steps self.old
            (file_declaration path.now file descriptor.now) self.new) }
        ensures keeps { kept file self.old self.new };

    fn visit_message(
        &mut self,
        alloc: Global,
        path: &[i32],
        full_name: &str,
        file: FileIndex,
        parent: Option<MessageIndex>,
        index: MessageIndex,
        message: &DescriptorProto,
    ) -> Result<(), VisitError>
        ensures step { OnOk result (steps self.old
            (message_declaration path.now full_name.now file parent index (parts_of message.now))
            self.new) }
        ensures keeps { kept file self.old self.new };

    fn visit_field(
        &mut self,
        alloc: Global,
        path: &[i32],
        full_name: &str,
        file: FileIndex,
        message: MessageIndex,
        index: FieldIndex,
        field: &FieldDescriptorProto,
    ) -> Result<(), VisitError>
        ensures step { OnOk result (steps self.old
            (field_declaration path.now full_name.now file message index field.now) self.new) }
        ensures keeps { kept file self.old self.new };

    fn visit_oneof(
        &mut self,
        alloc: Global,
        path: &[i32],
        full_name: &str,
        file: FileIndex,
        message: MessageIndex,
        index: OneofIndex,
        oneof: &OneofDescriptorProto,
    ) -> Result<(), VisitError>
        ensures step { OnOk result (steps self.old
            (oneof_declaration path.now full_name.now file message index oneof.now) self.new) }
        ensures keeps { kept file self.old self.new };

    fn visit_enum(
        &mut self,
        alloc: Global,
        path: &[i32],
        full_name: &str,
        file: FileIndex,
        parent: Option<MessageIndex>,
        index: EnumIndex,
        enumeration: &EnumDescriptorProto,
    ) -> Result<(), VisitError>
        ensures step { OnOk result (steps self.old
            (enum_declaration path.now full_name.now file parent index enumeration.now) self.new) }
        ensures keeps { kept file self.old self.new };

    /// The full name of a value stands beside that of its enum.
    fn visit_enum_value(
        &mut self,
        alloc: Global,
        path: &[i32],
        full_name: &str,
        file: FileIndex,
        enumeration: EnumIndex,
        index: EnumValueIndex,
        value: &EnumValueDescriptorProto,
    ) -> Result<(), VisitError>
        ensures step { OnOk result (steps self.old
            (enum_value_declaration path.now full_name.now file enumeration index value.now)
            self.new) }
        ensures keeps { kept file self.old self.new };

    fn visit_service(
        &mut self,
        alloc: Global,
        path: &[i32],
        full_name: &str,
        file: FileIndex,
        index: ServiceIndex,
        service: &ServiceDescriptorProto,
    ) -> Result<(), VisitError>
        ensures step { OnOk result (steps self.old
            (service_declaration path.now full_name.now file index service.now) self.new) }
        ensures keeps { kept file self.old self.new };

    fn visit_method(
        &mut self,
        alloc: Global,
        path: &[i32],
        full_name: &str,
        file: FileIndex,
        service: ServiceIndex,
        index: MethodIndex,
        method: &MethodDescriptorProto,
    ) -> Result<(), VisitError>
        ensures step { OnOk result (steps self.old
            (method_declaration path.now full_name.now file service index method.now) self.new) }
        ensures keeps { kept file self.old self.new };

    /// `parent` is the message in which the extension is declared, whatever it extends.
    fn visit_extension(
        &mut self,
        alloc: Global,
        path: &[i32],
        full_name: &str,
        file: FileIndex,
        parent: Option<MessageIndex>,
        index: ExtensionIndex,
        extension: &FieldDescriptorProto,
    ) -> Result<(), VisitError>
        ensures step { OnOk result (steps self.old
            (extension_declaration path.now full_name.now file parent index extension.now)
            self.new) }
        ensures keeps { kept file self.old self.new };

    ghost kept_same: { (file : ℕ) (s : Self) → kept file s s };

    ghost kept_on: { (file : ℕ) (s t u : Self) → kept file s t → kept file t u → kept file s u };
}
