ghost use Rattle.std.specs.Prelude.{◌≡◌, false};

use crate::default_rules::{check_default, has_right_default};
use crate::entry_rules::{check_entry, check_older_entry};
use crate::enums::check_enum;
use crate::extension_number::check_extension_number;
use crate::numbers::{
    check_distinct, check_not_extension, check_number, check_oneof, check_reserved,
};
use crate::types::{Types, find_in};
use crate::uses::EntryUse;
use descriptor_records::{
    DescriptorProto, EnumDescriptorProto, EnumValueDescriptorProto, FieldDescriptorProto,
    FileDescriptorProto, MethodDescriptorProto, OneofDescriptorProto, ServiceDescriptorProto,
};
use reflect_faults::Faults;
use reflect_references::References;
use reflect_scope::{
    EnumIndex, EnumValueIndex, ExtensionIndex, FieldIndex, FileIndex, MessageIndex, MethodIndex,
    OneofIndex, ServiceIndex,
};
use reflect_tables::{Syntax, syntax_of};
use reflect_walk::{VisitError, Visitor};
use std::alloc::Global;
use std::collections::BTreeMap;

/// Lists what is wrong with the numbers, the defaults, the oneof indexes and the map entries of the
/// files that it visits.
#[derive(Drop)]
pub struct RuleVisitor<'a, T: Types> {
    faults: Faults<'a>,
    references: References<'a>,
    types: &'a T,
    /// How the types of maps' entries are used.
    uses: &'a BTreeMap<MessageIndex, EntryUse>,
    /// The index of the first message type of the files.
    first_message: MessageIndex,
    is_proto3: bool,
    /// How many oneofs the message has that was visited last.
    oneofs: usize,
}

impl<'a, T: Types> RuleVisitor<'a, T> {
    /// Adds to `faults`. The references are all those of the files; message types from
    /// `first_message` on are theirs.
    pub fn new(
        faults: Faults<'a>,
        references: References<'a>,
        types: &'a T,
        uses: &'a BTreeMap<MessageIndex, EntryUse>,
        first_message: MessageIndex,
    ) -> RuleVisitor<'a, T>
        ensures faults { result.faults ≡ faults.entry }
        ensures references { result.references.rest.now ≡ references.entry.rest.now }
        ensures types { result.types.now ≡ types.now }
        ensures uses { result.uses.now ≡ uses.now }
        ensures first { result.first_message ≡ first_message }
        ensures is_proto3 { result.is_proto3 ≡ false }
        ensures oneofs { result.oneofs ≡ 0 }
    {
        RuleVisitor {
            faults,
            references,
            types,
            uses,
            first_message,
            is_proto3: false,
            oneofs: 0,
        }
    }

    /// The faults that were met.
    pub fn into_faults(self) -> Faults<'a>
        ensures { result ≡ self.entry.faults }
    {
        let RuleVisitor {
            faults,
            references: _,
            types: _,
            uses: _,
            first_message: _,
            is_proto3: _,
            oneofs: _,
        } = self;
        faults
    }
}

impl<'a, T: Types> Visitor for RuleVisitor<'a, T> {
    ghost use Rattle.reflect_rules.specs.RuleSteps.{Checks};

    ghost steps = { Checks T.says T.values };

    ghost kept = { λ _ _ _. Unit {0} };

    ghost kept_same = { λ _ _. tt };

    ghost kept_on = { λ _ _ _ _ _ _. tt };

    fn visit_file(
        &mut self,
        _alloc: Global,
        _path: &[i32],
        _file: FileIndex,
        descriptor: &FileDescriptorProto,
    ) -> Result<(), VisitError> {
        self.is_proto3 = syntax_of(descriptor) == Syntax::Proto3;
        Ok(())
    }

    fn visit_message(
        &mut self,
        alloc: Global,
        path: &[i32],
        full_name: &str,
        file: FileIndex,
        _parent: Option<MessageIndex>,
        index: MessageIndex,
        message: &DescriptorProto,
    ) -> Result<(), VisitError> {
        self.oneofs = message.oneof_decl.len();
        let used = self.uses.get(&index).copied();
        check_entry(
            alloc,
            &mut self.faults,
            file,
            path,
            full_name,
            message,
            used,
        )?;
        check_distinct(alloc, &mut self.faults, file, path, message)?;
        Ok(())
    }

    fn visit_field(
        &mut self,
        alloc: Global,
        path: &[i32],
        _full_name: &str,
        file: FileIndex,
        message: MessageIndex,
        _index: FieldIndex,
        field: &FieldDescriptorProto,
    ) -> Result<(), VisitError> {
        let meaning = self.references.meaning_of(&field.type_name);
        let number = field.number.unwrap_or(0);
        check_number(alloc, &mut self.faults, file, path, number)?;
        let reserved = find_in(self.types.reserved_numbers(message), number);
        check_reserved(alloc, &mut self.faults, file, path, number, reserved)?;
        let kept = find_in(self.types.extension_numbers(message), number);
        check_not_extension(alloc, &mut self.faults, file, path, number, kept)?;
        check_oneof(alloc, &mut self.faults, file, path, field, self.oneofs)?;
        let (types, first) = (self.types, self.first_message);
        check_older_entry(alloc, &mut self.faults, file, path, types, first, meaning)?;
        let suits = has_right_default(self.types, field, meaning);
        check_default(alloc, &mut self.faults, file, path, field, suits)?;
        Ok(())
    }

    fn visit_oneof(
        &mut self,
        _alloc: Global,
        _path: &[i32],
        _full_name: &str,
        _file: FileIndex,
        _message: MessageIndex,
        _index: OneofIndex,
        _oneof: &OneofDescriptorProto,
    ) -> Result<(), VisitError> {
        Ok(())
    }

    fn visit_enum(
        &mut self,
        alloc: Global,
        path: &[i32],
        _full_name: &str,
        file: FileIndex,
        _parent: Option<MessageIndex>,
        _index: EnumIndex,
        enumeration: &EnumDescriptorProto,
    ) -> Result<(), VisitError> {
        check_enum(
            alloc,
            &mut self.faults,
            file,
            path,
            enumeration,
            self.is_proto3,
        )?;
        Ok(())
    }

    fn visit_enum_value(
        &mut self,
        _alloc: Global,
        _path: &[i32],
        _full_name: &str,
        _file: FileIndex,
        _enumeration: EnumIndex,
        _index: EnumValueIndex,
        _value: &EnumValueDescriptorProto,
    ) -> Result<(), VisitError> {
        Ok(())
    }

    fn visit_service(
        &mut self,
        _alloc: Global,
        _path: &[i32],
        _full_name: &str,
        _file: FileIndex,
        _index: ServiceIndex,
        _service: &ServiceDescriptorProto,
    ) -> Result<(), VisitError> {
        Ok(())
    }

    fn visit_method(
        &mut self,
        _alloc: Global,
        _path: &[i32],
        _full_name: &str,
        _file: FileIndex,
        _service: ServiceIndex,
        _index: MethodIndex,
        method: &MethodDescriptorProto,
    ) -> Result<(), VisitError> {
        self.references.meaning_of(&method.input_type);
        self.references.meaning_of(&method.output_type);
        Ok(())
    }

    fn visit_extension(
        &mut self,
        alloc: Global,
        path: &[i32],
        _full_name: &str,
        file: FileIndex,
        _parent: Option<MessageIndex>,
        _index: ExtensionIndex,
        extension: &FieldDescriptorProto,
    ) -> Result<(), VisitError> {
        let extendee = self.references.meaning_of(&extension.extendee);
        let meaning = self.references.meaning_of(&extension.type_name);
        let number = extension.number.unwrap_or(0);
        check_number(alloc, &mut self.faults, file, path, number)?;
        check_extension_number(
            alloc,
            &mut self.faults,
            file,
            path,
            self.types,
            number,
            extendee,
        )?;
        let (types, first) = (self.types, self.first_message);
        check_older_entry(alloc, &mut self.faults, file, path, types, first, meaning)?;
        let suits = has_right_default(self.types, extension, meaning);
        check_default(alloc, &mut self.faults, file, path, extension, suits)?;
        Ok(())
    }
}
