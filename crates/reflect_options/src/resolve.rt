ghost use Rattle.std.specs.Prelude.{◌≡◌, ◌++◌, List, Some, OnErr, OnOk, IfOk, IfErr, IfSome, map};
ghost use Rattle.reflect_growth.specs.declared.settle.Edit.{Edit};
ghost use Rattle.reflect_growth.specs.Settled.{bare_of};
ghost use Rattle.reflect_tables.specs.Types.{PoolType, IsSettled};
ghost use Rattle.reflect_faults.specs.Faults.{Place, place_of};
ghost use Rattle.reflect_faults.specs.Spans.{span_among};
ghost use Rattle.option_parts.specs.OptionTypes.{CanRead};
ghost use Rattle.option_parts.specs.Places.{option_place, IsPlaceIn, StandsFrom};
ghost use Rattle.option_parts.specs.declared.option_scope.OptionScope.{OptionScope};
ghost use Rattle.option_setter.specs.OptionNames.{UnlessMemory};
ghost use Rattle.reflect_options.specs.Settling.{RefusesFile, RefusesFrom, SettlesFile, SettlesFrom, SettlesPool};
ghost use Rattle.reflect_options.specs.Visiting.{IsClean};

use crate::options_visitor::OptionsVisitor;
use descriptor_records::{FileDescriptorProto, Location};
use option_parts::{OptionError, OptionErrorKind, check_option_types};
use reflect_build::{BuildFiles, Edit};
use reflect_faults::{Label, SourceSpan};
use reflect_link::{DescriptorPool, FileDescriptor};
use reflect_scope::FileIndex;
use reflect_walk::{Offsets, VisitError, visit};
use std::alloc::{AllocError, Global};

/// Options, read by the types of the pool that they stand in.
pub trait ResolveOptions {
    /// What the pool holds.
    ghost holds: { Self → PoolType };

    /// Settles the options of the files from index `first` on: each record's stored bytes and what
    /// a source wrote become the bytes of the pool's type for them, what linking reads of them
    /// follows the bytes, and the locations of options move to where these were set (protobuf.dev,
    /// "Custom Options").
    ///
    /// The error is the first fault that was met: a type of options that options cannot be read by,
    /// without a place, or, with its place, options that are refused; or want of memory. After a
    /// refusal the pool is as it was; else nothing changes but the options in records and the paths
    /// of their locations.
    fn resolve_options(&mut self, alloc: Global, first: FileIndex) -> Result<(), OptionError>
        ensures options { OnOk result (SettlesPool (holds self.old) first (holds self.new)) }
        ensures unchanged { OnErr result (holds self.new ≡ holds self.old) }
        ensures refused { IfErr result (λ e. UnlessMemory
            (RefusesFrom (holds self.old) first (option_place e)) e.kind) }
        ensures place { IfErr result (λ e. IfSome (option_place e)
            (StandsFrom (holds self.old).records first)) }
        ensures settled { IsSettled (holds self.old) (holds self.new) }
        ensures bare { map bare_of (holds self.new).records
            ≡ map bare_of (holds self.old).records };
}

impl ResolveOptions for DescriptorPool {
    ghost holds = { λ p. p };

    fn resolve_options(&mut self, alloc: Global, first: FileIndex) -> Result<(), OptionError> {
        let edits = collect_edits(alloc, self, first)?;
        self.settle(edits);
        Ok(())
    }
}

/// The place of a path in a file, with its span where the file's record has one.
fn label_of(alloc: Global, file: &FileDescriptorProto, path: Vec<i32>) -> Result<Label, AllocError>
    ensures place { IfOk result (λ l. IsPlaceIn file.now (place_of l)) }
    ensures path { IfOk result (λ l. (place_of l).path ≡ path.items) }
{
    let name = match &file.name {
        Some(name) => name.as_str(),
        None => "",
    };
    let span = match &file.source_code_info {
        Some(info) => span_of_path(info.location.as_slice(), path.as_slice()),
        None => None,
    };
    Label::new(alloc, name, path, span)
}

/// The span of a path: that of the first location of the path that has one.
fn span_of_path(locations: &[Location], path: &[i32]) -> Option<SourceSpan>
    ensures { result ≡ span_among locations.now path.now }
{
    let mut rest = locations;
    'locations: while let Some((location, others)) = rest.split_first() {
        if location.path.as_slice() == path {
            if let Some(span) = SourceSpan::from_location(location.span.as_slice()) {
                return Some(span);
            }
        }
        rest = others;
    }
    None
}

/// The edits of one file, put behind the others.
fn collect_file<'p>(
    alloc: Global,
    index: FileIndex,
    file: &FileDescriptorProto,
    visitor: &mut OptionsVisitor<'p>,
) -> Result<(), OptionError>
    requires { IsClean visitor.old }
    ensures pool { OnOk result (visitor.new.pool.now ≡ visitor.old.pool.now) }
    ensures clean { OnOk result (IsClean visitor.new) }
    ensures settled { OnOk result ((es : List Edit) × SettlesFile visitor.old.pool.now index
        file.now es × (visitor.new.edits.items ≡ visitor.old.edits.items ++ es)) }
    ensures place { IfErr result (λ e. IfSome (option_place e) (IsPlaceIn file.now)) }
    ensures refused { IfErr result (λ e. UnlessMemory (λ kind. (p : Place)
        × (option_place e ≡ Some p)
        × RefusesFile visitor.old.pool.now index file.now p.path kind) e.kind) }
{
    let none = Offsets {
        messages: 0,
        enums: 0,
        extensions: 0,
        services: 0,
    };
    match visit(alloc, none, index, file, visitor) {
        Ok(_) => {}
        Err(VisitError::TooMany | VisitError::Memory) => {
            return Err(OptionError::new(OptionErrorKind::Memory, None));
        }
    }
    match visitor.take_fault() {
        Some((kind, path)) => {
            let place = label_of(alloc, file, path)?;
            Err(OptionError::new(kind, Some(place)))
        }
        None => Ok(visitor.move_locations(alloc, index, file)?),
    }
}

/// The edits that settle the options of the files from index `first` on.
fn collect_edits(
    alloc: Global,
    pool: &DescriptorPool,
    first: FileIndex,
) -> Result<Vec<Edit>, OptionError>
    ensures readable { OnOk result ((scope : OptionScope) → CanRead pool.now scope) }
    ensures settled { IfOk result (λ es. SettlesFrom pool.now first es.items) }
    ensures place { IfErr result (λ e. IfSome (option_place e)
        (StandsFrom pool.now.records first)) }
    ensures refused { IfErr result (λ e. UnlessMemory
        (RefusesFrom pool.now first (option_place e)) e.kind) }
{
    if let Some(kind) = check_option_types(alloc, pool)? {
        return Err(OptionError::new(kind, None));
    }
    let mut visitor = OptionsVisitor::new(alloc, pool);
    'files: for index in first..pool.mark() {
        let file = FileDescriptor::new(pool, index);
        collect_file(alloc, index, file.file_descriptor_proto(), &mut visitor)?;
    }
    Ok(visitor.into_edits())
}
