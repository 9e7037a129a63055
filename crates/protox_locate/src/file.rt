ghost use Rattle.std.specs.Prelude.{◌≡◌, [], IfOk, OnOk, option_map};
ghost use Rattle.descriptor_records.specs.Content.{source_info_view};
ghost use Rattle.protox_lex.specs.Resolver.{feeds};
ghost use Rattle.protox_locate.specs.Files as spec;
ghost use Rattle.protox_locate.specs.Collected.{meets, state};
ghost use Rattle.protox_locate.specs.Messages.{after_extend, extend_events};
ghost use Rattle.protox_tree.specs.NestView.{extend_view};
ghost use Rattle.protox_tree.specs.FileView.{file_item_view, file_view, import_view, syntax_view};

use crate::enums::enumeration;
use crate::locator::Locator;
use crate::messages::{extend, message};
use crate::options::option_statement;
use crate::services::service;
use crate::slot::{Count, FieldCounts, FieldTags};
use descriptor_records::{SourceCodeInfo, tag};
use protox_lex::{LineResolver, Span};
use protox_tree::{Extend, File, FileItem, Import, ImportKind, SyntaxStatement};
use std::alloc::{AllocError, Global};

/// How many entries the lists of a file's record have so far.
#[derive(Clone, Copy)]
struct FileCounts {
    dependencies: Count,
    public_dependencies: Count,
    weak_dependencies: Count,
    message_types: Count,
    enum_types: Count,
    services: Count,
    extensions: Count,
    options: Count,
}

impl FileCounts {
    fn new() -> FileCounts
        ensures { result ≡ spec.no_counts }
    {
        FileCounts {
            dependencies: Count::new(),
            public_dependencies: Count::new(),
            weak_dependencies: Count::new(),
            message_types: Count::new(),
            enum_types: Count::new(),
            services: Count::new(),
            extensions: Count::new(),
            options: Count::new(),
        }
    }
}

/// Where the parts of a file stand in its source, whose lines are these, with the comments of its
/// statements; by path, those of one path in source order. Refused only for want of memory.
///
/// A statement stands at the path of what it declares; a comment belongs to the statement behind
/// it, or to the one in front where it begins on that one's last line, or on the next line and is
/// parted from what follows. A group's comments are at its type.
pub fn source_info(
    alloc: Global,
    source: &str,
    lines: &LineResolver,
    file: &File,
) -> Result<SourceCodeInfo, AllocError>
    ensures { IfOk result (λ info. spec.AreLocations source.now (feeds lines.now)
        (file_view file.now) (source_info_view info)) }
{
    let mut locator = Locator::new(alloc, source, lines);
    statements(&mut locator, file)?;
    let location = locator.finish()?;
    Ok(SourceCodeInfo { location })
}

fn statements(locator: &mut Locator<'_>, file: &File) -> Result<(), AllocError>
    ensures { OnOk result (state locator.new
        ≡ meets (state locator.old) (spec.file_events (file_view file.now))) }
{
    locator.add(&[], &[], file.span)?;
    syntax(locator, &file.syntax)?;
    let mut counts = FileCounts::new();
    'items: for item in &file.items {
        file_item(locator, &mut counts, item)?;
    }
    Ok(())
}

fn syntax(locator: &mut Locator<'_>, statement: &Option<SyntaxStatement>) -> Result<(), AllocError>
    ensures { OnOk result (state locator.new
        ≡ meets (state locator.old) (spec.syntax_events (option_map syntax_view statement.now))) }
{
    match statement {
        Some(syntax) => locator.statement(&[], &[tag::file::SYNTAX], syntax.span),
        None => Ok(()),
    }
}

fn file_item(
    locator: &mut Locator<'_>,
    counts: &mut FileCounts,
    item: &FileItem,
) -> Result<(), AllocError>
    ensures located { OnOk result (state locator.new
        ≡ meets (state locator.old) (spec.item_events counts.old (file_item_view item.now))) }
    ensures counted { OnOk result (counts.new
        ≡ spec.after_item counts.old (file_item_view item.now)) }
{
    match item {
        FileItem::Import(statement) => import(locator, counts, statement),
        FileItem::Package(package) => locator.statement(&[], &[tag::file::PACKAGE], package.span),
        FileItem::Option(option) => {
            let options = tag::file::OPTIONS;
            option_statement(locator, &[], options, &mut counts.options, option)
        }
        FileItem::Message(statement) => {
            let path = [tag::file::MESSAGE_TYPE, counts.message_types.next()];
            message(locator, &path, statement)
        }
        FileItem::Enum(statement) => {
            let path = [tag::file::ENUM_TYPE, counts.enum_types.next()];
            enumeration(locator, &path, statement)
        }
        FileItem::Service(statement) => {
            let path = [tag::file::SERVICE, counts.services.next()];
            service(locator, &path, statement)
        }
        FileItem::Extend(statement) => file_extend(locator, counts, statement),
        FileItem::Empty(span) => locator.pass(*span),
    }
}

fn file_extend(
    locator: &mut Locator<'_>,
    counts: &mut FileCounts,
    statement: &Extend,
) -> Result<(), AllocError>
    ensures located { OnOk result (state locator.new
        ≡ meets (state locator.old) (extend_events [] spec.extension_tags
        (spec.own_extensions counts.old) (extend_view statement.now))) }
    ensures counted { OnOk result (counts.new
        ≡ spec.with_extensions counts.old
        (after_extend (spec.own_extensions counts.old) (extend_view statement.now))) }
{
    let tags = FieldTags {
        field: tag::file::EXTENSION,
        nested_type: tag::file::MESSAGE_TYPE,
    };
    let mut added = FieldCounts {
        fields: counts.extensions,
        types: counts.message_types,
    };
    extend(locator, &[], tags, &mut added, statement)?;
    counts.extensions = added.fields;
    counts.message_types = added.types;
    Ok(())
}

fn import(
    locator: &mut Locator<'_>,
    counts: &mut FileCounts,
    statement: &Import,
) -> Result<(), AllocError>
    ensures located { OnOk result (state locator.new
        ≡ meets (state locator.old) (spec.import_events counts.old (import_view statement.now))) }
    ensures counted { OnOk result (counts.new
        ≡ spec.after_import counts.old (import_view statement.now)) }
{
    let tail = [tag::file::DEPENDENCY, counts.dependencies.next()];
    locator.statement(&[], &tail, statement.span)?;
    import_kind(locator, counts, statement.kind)?;
    Ok(())
}

fn import_kind(
    locator: &mut Locator<'_>,
    counts: &mut FileCounts,
    kind: Option<(ImportKind, Span)>,
) -> Result<(), AllocError>
    ensures located { OnOk result (state locator.new
        ≡ meets (state locator.old) (spec.kind_events counts.old kind)) }
    ensures counted { OnOk result (counts.new ≡ spec.after_kind counts.old kind) }
{
    match kind {
        Some((ImportKind::Public, word)) => {
            let place = counts.public_dependencies.next();
            locator.add(&[], &[tag::file::PUBLIC_DEPENDENCY, place], word)?;
            Ok(())
        }
        Some((ImportKind::Weak, word)) => {
            let place = counts.weak_dependencies.next();
            locator.add(&[], &[tag::file::WEAK_DEPENDENCY, place], word)?;
            Ok(())
        }
        None => Ok(()),
    }
}
