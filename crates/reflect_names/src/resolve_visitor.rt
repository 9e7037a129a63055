ghost use Rattle.std.specs.Prelude.{◌≡◌, ◌∷◌, ◌++◌, [], IfOk, OnOk, Err, None, string_bytes};
ghost use Rattle.reflect_names.specs.References.{is_in as is_number_in, is_type_of as is_type_number_of, suits as is_suited};

use descriptor_records::{
    DescriptorProto, EnumDescriptorProto, EnumValueDescriptorProto, FieldDescriptorProto,
    FieldType, FileDescriptorProto, Label, MethodDescriptorProto, OneofDescriptorProto,
    ServiceDescriptorProto, tag,
};
use name_table::NameTable;
use reflect_faults::{DescriptorErrorKind, Faults};
use reflect_scope::{
    Definition, DefinitionKind, EnumIndex, EnumValueIndex, ExtensionIndex, FieldIndex, FileIndex,
    Links, MessageIndex, MethodIndex, OneofIndex, ResolveNameError, ResolveNameFilter, SeenFiles,
    ServiceIndex, resolve_name,
};
use reflect_walk::{Offsets, VisitError, Visitor, visit_all};
use std::alloc::{AllocError, Global};

/// What a reference means.
#[derive(Drop)]
pub struct Reference {
    /// The full name behind a leading dot, as linked records write it.
    pub name: String,
    pub definition: Definition,
}

/// Finds what the references of the files that it visits mean, and lists those that mean nothing.
///
/// References are those of fields (the type), extensions (the extended message, then the type) and
/// methods (input, then output). Its faults are NameNotFound, NameShadowed and InvalidType; the
/// last also where a label or a type has no such number, and where a type name means a kind that
/// does not suit the type.
#[derive(Drop)]
pub struct ResolveVisitor<'a> {
    references: Vec<Reference>,
    faults: Faults<'a>,
    names: &'a NameTable<Definition>,
    links: &'a [Links],
    seen: SeenFiles,
}

/// Whether a label has the number.
fn is_label(number: i32) -> bool
    ensures { result ≡ is_number_in number 3 }
{
    Label::from_number(number).is_some()
}

/// Whether a type has the number.
fn is_type(number: i32) -> bool
    ensures { result ≡ is_number_in number 18 }
{
    FieldType::from_number(number).is_some()
}

/// Whether a type of this number may have a name that means this kind.
fn is_type_of(field_type: i32, kind: DefinitionKind) -> bool
    ensures { result ≡ is_type_number_of field_type kind }
{
    match kind {
        DefinitionKind::Message(_) => {
            field_type == FieldType::Group.number() || field_type == FieldType::Message.number()
        }
        DefinitionKind::Enum(_) => field_type == FieldType::Enum.number(),
        _ => false,
    }
}

/// Whether a type, if there is one, may have a name that means this kind. A number of no type is a
/// fault of its own.
fn suits(field_type: Option<i32>, kind: DefinitionKind) -> bool
    ensures { result ≡ is_suited field_type kind }
{
    match field_type {
        Some(field_type) => !is_type(field_type) || is_type_of(field_type, kind),
        None => true,
    }
}

fn dotted(alloc: Global, full_name: &str) -> Result<String, AllocError>
    ensures { IfOk result (λ name. string_bytes name ≡ 46 ∷ full_name.now) }
{
    let mut name = String::from_str(alloc, ".")?;
    name.push_str(full_name)?;
    Ok(name)
}

impl<'a> ResolveVisitor<'a> {
    ghost use Rattle.reflect_scope.specs.Means.{Meaning, Answers};
    ghost use Rattle.reflect_faults.specs.Faults.{place_at, invalid_type};
    ghost use Rattle.reflect_names.specs.References.{meaning_of, targets, unmet, kind_meant, name_targets, reference_faults, mismatch, label_faults, type_faults, type_name_faults, field_reference_faults};
    ghost use Rattle.reflect_names.specs.ReferenceSteps.{Finds, IsSame, ResolvesFiles, Stays, view_of};
    ghost use Rattle.reflect_declarations.specs.Batches.{past_files};

    /// Adds to `faults`. `names` has what all full names stand for, and `links` what all files
    /// import, by their indexes.
    pub fn new(
        alloc: Global,
        faults: Faults<'a>,
        names: &'a NameTable<Definition>,
        links: &'a [Links],
    ) -> ResolveVisitor<'a>
        ensures references { result.references.items ≡ [] }
        ensures faults { result.faults ≡ faults.entry }
        ensures names { result.names.now ≡ names.now }
        ensures links { result.links.now ≡ links.now }
    {
        ResolveVisitor {
            references: Vec::new(alloc),
            faults,
            names,
            links,
            seen: SeenFiles::new(alloc),
        }
    }

    /// Resolves the references of the files, the first of which has the index `first`; `before` are
    /// the counts of what stands before them, and the answer those behind them.
    pub fn resolve_files(
        &mut self,
        alloc: Global,
        before: Offsets,
        first: FileIndex,
        files: &[FileDescriptorProto],
    ) -> Result<Offsets, VisitError>
        ensures resolves { OnOk result (ResolvesFiles self.old before first files.now self.new) }
        ensures keeps { Stays first self.old self.new }
        ensures counts { IfOk result (λ o. o ≡ past_files before files.now) }
    {
        let behind = visit_all(alloc, before, first, files, self)?;
        Ok(behind)
    }

    /// What the references mean that were met, in the order of the visits, but for those that are
    /// faults; and the faults.
    pub fn into_parts(self) -> (Vec<Reference>, Faults<'a>)
        ensures references { result.0.items ≡ self.entry.references.items }
        ensures faults { result.1 ≡ self.entry.faults }
    {
        let ResolveVisitor {
            references,
            faults,
            names: _,
            links: _,
            seen: _,
        } = self;
        (references, faults)
    }

    fn invalid_type(
        &mut self,
        alloc: Global,
        file: FileIndex,
        path: &[i32],
        tag: i32,
        name: &str,
        expected: &'static str,
    ) -> Result<(), AllocError>
        ensures finds { OnOk result (Finds self.old self.new []
            (invalid_type name.now expected.now
            (place_at self.old.faults file (path.now ++ (tag ∷ []))) ∷ [])) }
        ensures same { IsSame self.old self.new }
    {
        let found = self.faults.label_at(alloc, file, path, tag)?;
        let name = String::from_str(alloc, name)?;
        self.faults.push(DescriptorErrorKind::InvalidType {
            name,
            expected,
            found,
        })?;
        Ok(())
    }

    /// Lists a name that means nothing; want of memory is passed on.
    fn unresolved(
        &mut self,
        alloc: Global,
        file: FileIndex,
        path: &[i32],
        tag: i32,
        name: &str,
        filter: ResolveNameFilter,
        error: ResolveNameError,
    ) -> Result<(), AllocError>
        ensures finds { OnOk result ((m : Meaning) → Answers (Err error) m
            → Finds self.old self.new (targets m)
            (unmet filter m name.now (place_at self.old.faults file (path.now ++ (tag ∷ []))))) }
        ensures none { OnOk result ((m : Meaning) → Answers (Err error) m → kind_meant m ≡ None) }
        ensures same { IsSame self.old self.new }
    {
        if let ResolveNameError::InvalidType = error {
            return self.invalid_type(alloc, file, path, tag, name, filter.text());
        }
        let found = self.faults.label_at(alloc, file, path, tag)?;
        let name = String::from_str(alloc, name)?;
        match error {
            ResolveNameError::NotFound => {
                self.faults
                    .push(DescriptorErrorKind::NameNotFound { name, found })?;
                Ok(())
            }
            ResolveNameError::Shadowed { shadowed_name } => {
                self.faults.push(DescriptorErrorKind::NameShadowed {
                    name,
                    shadowed_name,
                    found,
                })?;
                Ok(())
            }
            ResolveNameError::InvalidType | ResolveNameError::Memory => Err(AllocError),
        }
    }

    /// Resolves the name that stands at `path`'s field of the number `tag`, in the declaration of
    /// the full name `scope`. The answer is the kind of what it means, if anything.
    fn resolve(
        &mut self,
        alloc: Global,
        file: FileIndex,
        path: &[i32],
        tag: i32,
        scope: &str,
        name: &str,
        filter: ResolveNameFilter,
    ) -> Result<Option<DefinitionKind>, AllocError>
        ensures finds { OnOk result (let m =
            meaning_of (view_of self.old) filter scope.now name.now in Finds self.old self.new
            (targets m) (unmet filter m name.now (place_at self.old.faults file
            (path.now ++ (tag ∷ []))))) }
        ensures kind { IfOk result (λ k. k
            ≡ kind_meant (meaning_of (view_of self.old) filter scope.now name.now)) }
        ensures same { IsSame self.old self.new }
    {
        match resolve_name(alloc, &self.seen, self.names, scope, name, filter) {
            Ok(resolved) => {
                let definition = resolved.definition;
                let name = dotted(alloc, resolved.full_name.as_str())?;
                self.references.push(Reference { name, definition })?;
                Ok(Some(definition.kind))
            }
            Err(error) => {
                self.unresolved(alloc, file, path, tag, name, filter, error)?;
                Ok(None)
            }
        }
    }

    fn check_label(
        &mut self,
        alloc: Global,
        file: FileIndex,
        path: &[i32],
        label: Option<i32>,
    ) -> Result<(), AllocError>
        ensures finds { OnOk result (Finds self.old self.new []
            (label_faults (place_at self.old.faults file) path.now label)) }
        ensures same { IsSame self.old self.new }
    {
        let Some(label) = label else {
            return Ok(());
        };
        if is_label(label) {
            return Ok(());
        }
        let name = format!(in alloc; "{label}")?;
        self.invalid_type(
            alloc,
            file,
            path,
            tag::field::LABEL,
            name.as_str(),
            "a field label",
        )?;
        Ok(())
    }

    fn check_type(
        &mut self,
        alloc: Global,
        file: FileIndex,
        path: &[i32],
        field_type: Option<i32>,
    ) -> Result<(), AllocError>
        ensures finds { OnOk result (Finds self.old self.new []
            (type_faults (place_at self.old.faults file) path.now field_type)) }
        ensures same { IsSame self.old self.new }
    {
        let Some(field_type) = field_type else {
            return Ok(());
        };
        if is_type(field_type) {
            return Ok(());
        }
        let name = format!(in alloc; "{field_type}")?;
        self.invalid_type(
            alloc,
            file,
            path,
            tag::field::TYPE,
            name.as_str(),
            "a field type",
        )?;
        Ok(())
    }

    /// The kind that a type's name means has to suit its type.
    fn check_kind(
        &mut self,
        alloc: Global,
        file: FileIndex,
        path: &[i32],
        name: &str,
        field_type: Option<i32>,
        kind: Option<DefinitionKind>,
    ) -> Result<(), AllocError>
        ensures finds { OnOk result (Finds self.old self.new []
            (mismatch (place_at self.old.faults file) path.now name.now field_type kind)) }
        ensures same { IsSame self.old self.new }
    {
        let Some(kind) = kind else {
            return Ok(());
        };
        if suits(field_type, kind) {
            return Ok(());
        }
        self.invalid_type(
            alloc,
            file,
            path,
            tag::field::TYPE_NAME,
            name,
            "of the field's type",
        )?;
        Ok(())
    }

    fn resolve_type_name(
        &mut self,
        alloc: Global,
        file: FileIndex,
        path: &[i32],
        full_name: &str,
        field: &FieldDescriptorProto,
    ) -> Result<(), AllocError>
        ensures finds { OnOk result (Finds self.old self.new
            (name_targets (view_of self.old) ResolveNameFilter.FieldType full_name.now
            field.now.type_name) (type_name_faults (place_at self.old.faults file)
            (view_of self.old) path.now full_name.now field.now)) }
        ensures same { IsSame self.old self.new }
    {
        let Some(name) = &field.type_name else {
            return Ok(());
        };
        let name = name.as_str();
        let tag = tag::field::TYPE_NAME;
        let filter = ResolveNameFilter::FieldType;
        let kind = self.resolve(alloc, file, path, tag, full_name, name, filter)?;
        self.check_kind(alloc, file, path, name, field.field_type, kind)?;
        Ok(())
    }

    fn resolve_field(
        &mut self,
        alloc: Global,
        file: FileIndex,
        path: &[i32],
        full_name: &str,
        field: &FieldDescriptorProto,
    ) -> Result<(), AllocError>
        ensures finds { OnOk result (Finds self.old self.new
            (name_targets (view_of self.old) ResolveNameFilter.FieldType full_name.now
            field.now.type_name) (field_reference_faults (place_at self.old.faults file)
            (view_of self.old) path.now full_name.now field.now)) }
        ensures same { IsSame self.old self.new }
    {
        self.check_label(alloc, file, path, field.label)?;
        self.check_type(alloc, file, path, field.field_type)?;
        self.resolve_type_name(alloc, file, path, full_name, field)?;
        Ok(())
    }

    /// Resolves the name of a message, if there is one.
    fn resolve_message(
        &mut self,
        alloc: Global,
        file: FileIndex,
        path: &[i32],
        tag: i32,
        full_name: &str,
        name: &Option<String>,
    ) -> Result<(), AllocError>
        ensures finds { OnOk result (Finds self.old self.new
            (name_targets (view_of self.old) ResolveNameFilter.Message full_name.now name.now)
            (reference_faults (place_at self.old.faults file) (view_of self.old)
            ResolveNameFilter.Message path.now full_name.now tag name.now)) }
        ensures same { IsSame self.old self.new }
    {
        let Some(name) = name else {
            return Ok(());
        };
        let filter = ResolveNameFilter::Message;
        self.resolve(alloc, file, path, tag, full_name, name.as_str(), filter)?;
        Ok(())
    }
}

impl<'a> Visitor for ResolveVisitor<'a> {
    ghost use Rattle.reflect_names.specs.ReferenceSteps.{Refers, Stays, Stays-same, Stays-on};

    ghost steps = { Refers };

    ghost kept = { Stays };

    ghost kept_same = { Stays-same };

    ghost kept_on = { Stays-on };

    fn visit_file(
        &mut self,
        _alloc: Global,
        _path: &[i32],
        file: FileIndex,
        _descriptor: &FileDescriptorProto,
    ) -> Result<(), VisitError> {
        self.seen.look_from(self.links, file)?;
        Ok(())
    }

    fn visit_message(
        &mut self,
        _alloc: Global,
        _path: &[i32],
        _full_name: &str,
        _file: FileIndex,
        _parent: Option<MessageIndex>,
        _index: MessageIndex,
        _message: &DescriptorProto,
    ) -> Result<(), VisitError> {
        Ok(())
    }

    fn visit_field(
        &mut self,
        alloc: Global,
        path: &[i32],
        full_name: &str,
        file: FileIndex,
        _message: MessageIndex,
        _index: FieldIndex,
        field: &FieldDescriptorProto,
    ) -> Result<(), VisitError> {
        self.resolve_field(alloc, file, path, full_name, field)?;
        Ok(())
    }

    fn visit_oneof(
        &mut self,
        _alloc: Global,
        _path: &[i32],
        _full_name: &str,
        _file: FileIndex,
        _message: MessageIndex,
        _index: OneofIndex,
        _oneof: &OneofDescriptorProto,
    ) -> Result<(), VisitError> {
        Ok(())
    }

    fn visit_enum(
        &mut self,
        _alloc: Global,
        _path: &[i32],
        _full_name: &str,
        _file: FileIndex,
        _parent: Option<MessageIndex>,
        _index: EnumIndex,
        _enumeration: &EnumDescriptorProto,
    ) -> Result<(), VisitError> {
        Ok(())
    }

    fn visit_enum_value(
        &mut self,
        _alloc: Global,
        _path: &[i32],
        _full_name: &str,
        _file: FileIndex,
        _enumeration: EnumIndex,
        _index: EnumValueIndex,
        _value: &EnumValueDescriptorProto,
    ) -> Result<(), VisitError> {
        Ok(())
    }

    fn visit_service(
        &mut self,
        _alloc: Global,
        _path: &[i32],
        _full_name: &str,
        _file: FileIndex,
        _index: ServiceIndex,
        _service: &ServiceDescriptorProto,
    ) -> Result<(), VisitError> {
        Ok(())
    }

    fn visit_method(
        &mut self,
        alloc: Global,
        path: &[i32],
        full_name: &str,
        file: FileIndex,
        _service: ServiceIndex,
        _index: MethodIndex,
        method: &MethodDescriptorProto,
    ) -> Result<(), VisitError> {
        let input = tag::method::INPUT_TYPE;
        self.resolve_message(alloc, file, path, input, full_name, &method.input_type)?;
        let output = tag::method::OUTPUT_TYPE;
        self.resolve_message(alloc, file, path, output, full_name, &method.output_type)?;
        Ok(())
    }

    fn visit_extension(
        &mut self,
        alloc: Global,
        path: &[i32],
        full_name: &str,
        file: FileIndex,
        _parent: Option<MessageIndex>,
        _index: ExtensionIndex,
        extension: &FieldDescriptorProto,
    ) -> Result<(), VisitError> {
        let extendee = tag::field::EXTENDEE;
        self.resolve_message(alloc, file, path, extendee, full_name, &extension.extendee)?;
        self.resolve_field(alloc, file, path, full_name, extension)?;
        Ok(())
    }
}
