ghost use Rattle.std.specs.Prelude.{◌≡◌, ◌++◌, ◌∷◌, [], ℤ, pos, IfOk, List, None, OnOk, Vec};
ghost use Rattle.std.specs.declared.alloc.Global.{Global};
ghost use Rattle.option_parts.specs.Moves.{EditsLocations, targets_of};
ghost use Rattle.reflect_declarations.specs.Declarations.{Runs, each, entry};
ghost use Rattle.reflect_declarations.specs.Tree.{text_of};
ghost use Rattle.reflect_growth.specs.declared.settle.Edit.{Edit};
ghost use Rattle.reflect_growth.specs.declared.settle.Edit.TheVariants as edits;
ghost use Rattle.reflect_faults.specs.Spans.{locations};
ghost use Rattle.reflect_options.specs.Entities.{range_at};
ghost use Rattle.reflect_options.specs.Settled.{lists_of};
ghost use Rattle.reflect_options.specs.Settling.{fault_path, moves_from, options_path, written_path};
ghost use Rattle.reflect_options.specs.Visiting.{HasFault, IsClean, IsSame, MovesMore, MovesNothing, Passes, Visits, entity_of};

use crate::settled_options::{OptionFault, SettledOptions, settled_options};
use descriptor_records::{
    DescriptorProto, EnumDescriptorProto, EnumValueDescriptorProto, ExtensionRange,
    FieldDescriptorProto, FileDescriptorProto, MethodDescriptorProto, OneofDescriptorProto,
    Options, ServiceDescriptorProto, join_path, tag,
};
use option_parts::{OptionErrorKind, OptionScope, move_locations};
use option_setter::NameScope;
use reflect_build::Edit;
use reflect_link::DescriptorPool;
use reflect_scope::{
    EnumIndex, EnumValueIndex, ExtensionIndex, FieldIndex, FileIndex, MessageIndex, MethodIndex,
    OneofIndex, SeenFiles, ServiceIndex,
};
use reflect_walk::{VisitError, Visitor};
use std::alloc::{AllocError, Global};
use std::collections::BTreeMap;
use std::mem;

/// What may have options: a declaration of a file, or an extension range.
#[derive(Clone, Copy)]
pub struct Entity<'a> {
    scope: OptionScope,
    /// The index of its file.
    file: FileIndex,
    /// Where it stands in that file's record.
    path: &'a [i32],
    /// The number of its options there.
    number: i32,
    /// From where names are looked up: its full name, or the package of a file.
    name: &'a str,
    options: Option<&'a Options>,
}

/// Reads the options of the declarations that it visits by the types of a pool, and collects what
/// settles them. The first fault that it meets ends its work.
#[derive(Drop)]
pub struct OptionsVisitor<'p> {
    pool: &'p DescriptorPool,
    /// The files that the visited one sees.
    seen: SeenFiles,
    edits: Vec<Edit>,
    /// Where the options of the visited file were set, by their paths among the uninterpreted ones.
    moved: BTreeMap<Vec<i32>, Vec<i32>>,
    /// The first fault, with its path.
    fault: Option<(OptionErrorKind, Vec<i32>)>,
}

impl<'p> OptionsVisitor<'p> {
    /// A visitor of files of a pool. Takes no memory.
    pub fn new(alloc: Global, pool: &'p DescriptorPool) -> OptionsVisitor<'p>
        ensures pool { result.pool.now ≡ pool.now }
        ensures blank { result.edits.items ≡ [] }
        ensures clean { IsClean result }
    {
        OptionsVisitor {
            pool,
            seen: SeenFiles::new(alloc),
            edits: Vec::new(alloc),
            moved: BTreeMap::new(alloc),
            fault: None,
        }
    }

    /// The first fault that was met and its path in the visited file, if there is one.
    pub fn take_fault(&mut self) -> Option<(OptionErrorKind, Vec<i32>)>
        ensures fault { result ≡ self.old.fault }
        ensures rest { self.new ≡ record self.old { fault = None } }
    {
        self.fault.take()
    }

    /// Moves the locations of the options of the file that was visited last.
    pub fn move_locations(
        &mut self,
        alloc: Global,
        file: FileIndex,
        proto: &FileDescriptorProto,
    ) -> Result<(), AllocError>
        ensures same { OnOk result (IsSame self.old self.new) }
        ensures fault { OnOk result (self.new.fault ≡ self.old.fault) }
        ensures none { OnOk result (MovesNothing self.new.moved) }
        ensures moved { OnOk result ((es : List Edit) × EditsLocations (targets_of self.old.moved)
            file 0 (locations proto.now) es
            × (self.new.edits.items ≡ self.old.edits.items ++ es)) }
    {
        let moved = mem::replace(&mut self.moved, BTreeMap::new(alloc));
        move_locations(alloc, file, proto, &moved, &mut self.edits)
    }

    /// What settles the options that were visited.
    pub fn into_edits(self) -> Vec<Edit>
        ensures { result ≡ self.entry.edits }
    {
        let OptionsVisitor {
            pool: _,
            seen: _,
            edits,
            moved: _,
            fault: _,
        } = self;
        edits
    }

    /// Where names are looked up that stand in the options of what has this name.
    fn names_from<'a>(&'a self, name: &'a str) -> NameScope<'a, 'p>
        ensures pool { result.pool.now ≡ self.now.pool.now }
        ensures seen { result.seen.now ≡ self.now.seen }
        ensures name { result.name.now ≡ name.now }
    {
        NameScope {
            pool: self.pool,
            seen: &self.seen,
            name,
        }
    }

    /// Reads the options of an entity. Behind a fault nothing is done.
    fn settle(&mut self, alloc: Global, entity: Entity<'_>) -> Result<(), AllocError>
        ensures { OnOk result (Passes self.old (entity_of entity.entry) self.new) }
    {
        let Some(options) = entity.options else {
            return Ok(());
        };
        if self.fault.is_some() {
            return Ok(());
        }
        let names = self.names_from(entity.name);
        match settled_options(alloc, entity.scope, names, options) {
            Ok(Some(settled)) => self.keep(alloc, entity, settled),
            Ok(None) => Ok(()),
            Err(fault) => self.refuse(alloc, entity, fault),
        }
    }

    /// Reads the options of the extension range at a place of the message at `path`.
    fn settle_range(
        &mut self,
        alloc: Global,
        path: &[i32],
        name: &str,
        file: FileIndex,
        place: usize,
        range: &ExtensionRange,
    ) -> Result<(), AllocError>
        ensures { OnOk result (Runs Passes self.old
            (range_at file path.now name.now place range.now) self.new) }
    {
        let path = range_path(alloc, path, place)?;
        let entity = Entity {
            scope: OptionScope::ExtensionRange,
            file,
            path: path.as_slice(),
            number: tag::extension_range::OPTIONS,
            name,
            options: range.options.as_ref(),
        };
        self.settle(alloc, entity)
    }

    /// Reads the options of the extension ranges of the message at `path`.
    fn settle_ranges(
        &mut self,
        alloc: Global,
        path: &[i32],
        name: &str,
        file: FileIndex,
        ranges: &[ExtensionRange],
    ) -> Result<(), AllocError>
        ensures { OnOk result (Runs Passes self.old
            (each (range_at file path.now name.now) 0 ranges.now) self.new) }
    {
        'turns: for (place, range) in ranges.iter().enumerate() {
            self.settle_range(alloc, path, name, file, place, range)?;
        }
        Ok(())
    }

    /// Keeps the options of an entity.
    fn keep(
        &mut self,
        alloc: Global,
        entity: Entity<'_>,
        settled: SettledOptions,
    ) -> Result<(), AllocError>
        ensures same { OnOk result (IsSame self.old self.new) }
        ensures fault { OnOk result (self.new.fault ≡ self.old.fault) }
        ensures edit { OnOk result ((at : Vec ℤ Global) × (at.items ≡ entity.entry.path.now)
            × (self.new.edits.items ≡ self.old.edits.items
            ++ edits.Options entity.entry.file at settled.options ∷ [])) }
        ensures moves { OnOk result (MovesMore self.old.moved (moves_from
            (options_path (entity_of entity.entry)) 0 (lists_of settled.targets))
            self.new.moved) }
    {
        let SettledOptions { options, targets } = settled;
        let at_options = join_path(alloc, entity.path, &[entity.number])?;
        move_to(alloc, &mut self.moved, at_options.as_slice(), &targets)?;
        let path = Vec::from_slice(alloc, entity.path)?;
        self.edits.push(Edit::Options {
            file: entity.file,
            path,
            options,
        })?;
        Ok(())
    }

    /// Notes a fault in the options of an entity.
    fn refuse(
        &mut self,
        alloc: Global,
        entity: Entity<'_>,
        fault: OptionFault,
    ) -> Result<(), AllocError>
        ensures same { OnOk result (IsSame self.old self.new) }
        ensures noted { OnOk result (HasFault self.new.fault fault.kind
            (fault_path (entity_of entity.entry) fault.option)) }
    {
        let path = fault_path(alloc, entity, fault.option)?;
        let OptionFault { kind, option: _ } = fault;
        self.fault = Some((kind, path));
        Ok(())
    }
}

/// The path of a fault in the options of an entity: that of the one at fault which a source wrote,
/// if it is such a one, else that of them all.
fn fault_path(
    alloc: Global,
    entity: Entity<'_>,
    option: Option<usize>,
) -> Result<Vec<i32>, AllocError>
    ensures { IfOk result (λ path. path.items ≡ fault_path (entity_of entity.entry) option) }
{
    let options = join_path(alloc, entity.path, &[entity.number])?;
    match option {
        Some(place) => written_path(alloc, options.as_slice(), place),
        None => Ok(options),
    }
}

/// The path of one of the options that a source wrote, as far as 32 bits count its place.
fn written_path(alloc: Global, options: &[i32], place: usize) -> Result<Vec<i32>, AllocError>
    ensures { IfOk result (λ path. path.items ≡ written_path options.now place) }
{
    let place = i32::try_from(place).unwrap_or(i32::MAX);
    join_path(alloc, options, &[tag::UNINTERPRETED_OPTION, place])
}

/// The path of the extension range at a place of the message at a path. More of them than an `i32`
/// counts are want of memory.
fn range_path(alloc: Global, message: &[i32], place: usize) -> Result<Vec<i32>, AllocError>
    ensures { IfOk result (λ path. path.items ≡ entry message.now (pos 5) place) }
{
    let place = i32::try_from(place).map_err(|_| AllocError)?;
    join_path(alloc, message, &[tag::message::EXTENSION_RANGE, place])
}

/// Notes where the options that a source wrote were set. A refusal may leave some of them noted.
fn move_to(
    alloc: Global,
    moved: &mut BTreeMap<Vec<i32>, Vec<i32>>,
    options: &[i32],
    targets: &Vec<Vec<i32>>,
) -> Result<(), AllocError>
    ensures { OnOk result (MovesMore moved.old (moves_from options.now 0 (lists_of targets.now))
        moved.new) }
{
    'targets: for (place, target) in targets.iter().enumerate() {
        let at = written_path(alloc, options, place)?;
        let target = join_path(alloc, options, target.as_slice())?;
        moved.insert(at, target)?;
    }
    Ok(())
}

/// The name of a file's package, empty where it has none.
fn package_of(file: &FileDescriptorProto) -> &str
    ensures { result.now ≡ text_of file.now.package }
{
    match &file.package {
        Some(package) => package.as_str(),
        None => "",
    }
}

impl<'p> Visitor for OptionsVisitor<'p> {
    ghost steps = { Visits };

    ghost kept = { λ _ _ _. Unit {0} };

    ghost kept_same = { λ _ _. tt };

    ghost kept_on = { λ _ _ _ _ _ _. tt };

    fn visit_file(
        &mut self,
        alloc: Global,
        path: &[i32],
        file: FileIndex,
        descriptor: &FileDescriptorProto,
    ) -> Result<(), VisitError> {
        self.seen.look_from(self.pool.links(), file)?;
        let entity = Entity {
            scope: OptionScope::File,
            file,
            path,
            number: tag::file::OPTIONS,
            name: package_of(descriptor),
            options: descriptor.options.as_ref(),
        };
        Ok(self.settle(alloc, entity)?)
    }

    fn visit_message(
        &mut self,
        alloc: Global,
        path: &[i32],
        full_name: &str,
        file: FileIndex,
        _parent: Option<MessageIndex>,
        _index: MessageIndex,
        message: &DescriptorProto,
    ) -> Result<(), VisitError> {
        let entity = Entity {
            scope: OptionScope::Message,
            file,
            path,
            number: tag::message::OPTIONS,
            name: full_name,
            options: message.options.as_ref(),
        };
        self.settle(alloc, entity)?;
        let ranges = message.extension_range.as_slice();
        Ok(self.settle_ranges(alloc, path, full_name, file, ranges)?)
    }

    fn visit_field(
        &mut self,
        alloc: Global,
        path: &[i32],
        full_name: &str,
        file: FileIndex,
        _message: MessageIndex,
        _index: FieldIndex,
        field: &FieldDescriptorProto,
    ) -> Result<(), VisitError> {
        let entity = Entity {
            scope: OptionScope::Field,
            file,
            path,
            number: tag::field::OPTIONS,
            name: full_name,
            options: field.options.as_ref(),
        };
        Ok(self.settle(alloc, entity)?)
    }

    fn visit_oneof(
        &mut self,
        alloc: Global,
        path: &[i32],
        full_name: &str,
        file: FileIndex,
        _message: MessageIndex,
        _index: OneofIndex,
        oneof: &OneofDescriptorProto,
    ) -> Result<(), VisitError> {
        let entity = Entity {
            scope: OptionScope::Oneof,
            file,
            path,
            number: tag::oneof::OPTIONS,
            name: full_name,
            options: oneof.options.as_ref(),
        };
        Ok(self.settle(alloc, entity)?)
    }

    fn visit_enum(
        &mut self,
        alloc: Global,
        path: &[i32],
        full_name: &str,
        file: FileIndex,
        _parent: Option<MessageIndex>,
        _index: EnumIndex,
        enumeration: &EnumDescriptorProto,
    ) -> Result<(), VisitError> {
        let entity = Entity {
            scope: OptionScope::Enum,
            file,
            path,
            number: tag::enumeration::OPTIONS,
            name: full_name,
            options: enumeration.options.as_ref(),
        };
        Ok(self.settle(alloc, entity)?)
    }

    fn visit_enum_value(
        &mut self,
        alloc: Global,
        path: &[i32],
        full_name: &str,
        file: FileIndex,
        _enumeration: EnumIndex,
        _index: EnumValueIndex,
        value: &EnumValueDescriptorProto,
    ) -> Result<(), VisitError> {
        let entity = Entity {
            scope: OptionScope::EnumValue,
            file,
            path,
            number: tag::enum_value::OPTIONS,
            name: full_name,
            options: value.options.as_ref(),
        };
        Ok(self.settle(alloc, entity)?)
    }

    fn visit_service(
        &mut self,
        alloc: Global,
        path: &[i32],
        full_name: &str,
        file: FileIndex,
        _index: ServiceIndex,
        service: &ServiceDescriptorProto,
    ) -> Result<(), VisitError> {
        let entity = Entity {
            scope: OptionScope::Service,
            file,
            path,
            number: tag::service::OPTIONS,
            name: full_name,
            options: service.options.as_ref(),
        };
        Ok(self.settle(alloc, entity)?)
    }

    fn visit_method(
        &mut self,
        alloc: Global,
        path: &[i32],
        full_name: &str,
        file: FileIndex,
        _service: ServiceIndex,
        _index: MethodIndex,
        method: &MethodDescriptorProto,
    ) -> Result<(), VisitError> {
        let entity = Entity {
            scope: OptionScope::Method,
            file,
            path,
            number: tag::method::OPTIONS,
            name: full_name,
            options: method.options.as_ref(),
        };
        Ok(self.settle(alloc, entity)?)
    }

    fn visit_extension(
        &mut self,
        alloc: Global,
        path: &[i32],
        full_name: &str,
        file: FileIndex,
        _parent: Option<MessageIndex>,
        _index: ExtensionIndex,
        extension: &FieldDescriptorProto,
    ) -> Result<(), VisitError> {
        let entity = Entity {
            scope: OptionScope::Field,
            file,
            path,
            number: tag::field::OPTIONS,
            name: full_name,
            options: extension.options.as_ref(),
        };
        Ok(self.settle(alloc, entity)?)
    }
}
