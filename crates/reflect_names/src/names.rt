ghost use Rattle.std.specs.Prelude.{◌≡◌, ◌<◌, OnOk, [], is_some};
ghost use Rattle.reflect_scope.specs.Means.{scopes};
ghost use Rattle.reflect_scope.specs.Known.{known_of, declared, may_repeat as repeats};
ghost use Rattle.reflect_faults.specs.Faults.{Adds, place_at};
ghost use Rattle.reflect_known.specs.KnownNames.{named, packages};
ghost use Rattle.reflect_names.specs.Names.{taken, name_faults, package_faults, syntax_faults};
ghost use Rattle.reflect_names.specs.NameSteps.{KeepsKnown};

use crate::required::require;
use descriptor_records::tag;
use name_table::NameTable;
use reflect_faults::{DescriptorErrorKind, Faults};
use reflect_scope::{Definition, DefinitionKind, FileIndex, outer_of};
use std::alloc::{AllocError, Global};

fn may_repeat(first: DefinitionKind, next: DefinitionKind) -> bool
    ensures { result ≡ repeats first next }
{
    matches!(first, DefinitionKind::Package) && matches!(next, DefinitionKind::Package)
}

/// Declares a name; `tag` is the number of the field at `path` that has it. The first declaration
/// of a name stays.
fn declare(
    alloc: Global,
    names: &mut NameTable<Definition>,
    faults: &mut Faults<'_>,
    path: &[i32],
    tag: i32,
    full_name: &str,
    definition: Definition,
) -> Result<(), AllocError>
    ensures known { OnOk result (known_of names.new
        ≡ declared (known_of names.old) full_name.now definition) }
    ensures faults { OnOk result (Adds faults.old faults.new
        (taken (place_at faults.old definition.file) (known_of names.old) path.now tag full_name.now
        definition)) }
    ensures keeps { KeepsKnown definition.file (known_of names.old) (known_of names.new) }
{
    match names.insert_first(alloc, full_name, definition)? {
        None => Ok(()),
        Some(first) => {
            if may_repeat(first.kind, definition.kind) {
                return Ok(());
            }
            let found = faults.label_at(alloc, definition.file, path, tag)?;
            let name = String::from_str(alloc, full_name)?;
            faults.push(DescriptorErrorKind::DuplicateName { name, found })
        }
    }
}

/// Declares what has a name, or lists that it has none.
pub fn declare_named(
    alloc: Global,
    names: &mut NameTable<Definition>,
    faults: &mut Faults<'_>,
    path: &[i32],
    full_name: &str,
    name: &Option<String>,
    definition: Definition,
) -> Result<(), AllocError>
    ensures known { OnOk result (known_of names.new
        ≡ named (known_of names.old) full_name.now (is_some name.now) definition) }
    ensures faults { OnOk result (Adds faults.old faults.new
        (name_faults (place_at faults.old definition.file) (known_of names.old) path.now
        full_name.now (is_some name.now) definition)) }
    ensures keeps { KeepsKnown definition.file (known_of names.old) (known_of names.new) }
{
    if name.is_some() {
        declare(
            alloc,
            names,
            faults,
            path,
            tag::field::NAME,
            full_name,
            definition,
        )
    } else {
        require(
            alloc,
            faults,
            definition.file,
            path,
            tag::field::NAME,
            "name",
            false,
        )
    }
}

/// Declares a package, and each part of its name up to a dot.
pub fn declare_package(
    alloc: Global,
    names: &mut NameTable<Definition>,
    faults: &mut Faults<'_>,
    file: FileIndex,
    full_name: &str,
) -> Result<(), AllocError>
    ensures known { OnOk result (known_of names.new
        ≡ packages (known_of names.old) file (scopes full_name.now)) }
    ensures faults { OnOk result (Adds faults.old faults.new
        (package_faults (place_at faults.old file) (known_of names.old) file
        (scopes full_name.now))) }
    ensures keeps { KeepsKnown file (known_of names.old) (known_of names.new) }
{
    let definition = Definition {
        file,
        kind: DefinitionKind::Package,
    };
    let mut scope = full_name;
    'scopes: while !scope.is_empty() {
        declare(
            alloc,
            names,
            faults,
            &[],
            tag::file::PACKAGE,
            scope,
            definition,
        )?;
        scope = outer_of(scope);
    }
    Ok(())
}

/// Lists a syntax that is neither `proto2` nor `proto3`.
pub fn check_syntax(
    alloc: Global,
    faults: &mut Faults<'_>,
    file: FileIndex,
    syntax: &Option<String>,
) -> Result<(), AllocError>
    ensures { OnOk result (Adds faults.old faults.new
        (syntax_faults (place_at faults.old file) syntax.now)) }
{
    let Some(syntax) = syntax else {
        return Ok(());
    };
    if syntax.as_str() == "proto2" || syntax.as_str() == "proto3" {
        return Ok(());
    }
    let found = faults.label(alloc, file, &[tag::file::SYNTAX])?;
    let syntax = String::from_str(alloc, syntax.as_str())?;
    faults.push(DescriptorErrorKind::UnknownSyntax { syntax, found })
}
