ghost use Rattle.std.specs.Prelude.{◌≡◌, ◌<◌, IfOk, OnOk, string_bytes, false};
ghost use Rattle.reflect_scope.specs.Known.{known_of};
ghost use Rattle.reflect_scope.specs.Seen.{tells};
ghost use Rattle.reflect_scope.specs.Says.{NameMeans, AnswersMeaning};
ghost use Rattle.reflect_scope.specs.Means.{join, outer, is_wanted as takes, is_seen as sees, standing, is_holder as holds, Answers, resolve, undotted, dotted, settled, rooted, scopes, marks, missing};

use crate::definition::{Definition, DefinitionKind, ResolveNameFilter};
use crate::seen::SeenFiles;
use name_table::NameTable;
use std::alloc::{AllocError, Global};

/// What a name means: a full name, without a leading dot, and what is defined there.
#[derive(Drop)]
pub struct Resolved {
    pub full_name: String,
    pub definition: Definition,
}

/// Why a name means nothing.
#[derive(Debug, Drop)]
pub enum ResolveNameError {
    /// Nothing of that name is seen.
    NotFound,
    /// The first part of the name means something in whose scope the whole is not defined; the full
    /// name that was looked for.
    Shadowed { shadowed_name: String },
    /// What the name means is of another kind than wanted.
    InvalidType,
    /// Want of memory.
    Memory,
}

impl From<AllocError> for ResolveNameError {
    ghost use Rattle.reflect_scope.specs.declared.resolve.ResolveNameError.{ResolveNameError};

    ghost from_gives = { λ _ e. e ≡ ResolveNameError.Memory };

    fn from(_: AllocError) -> Self {
        ResolveNameError::Memory
    }
}

/// How a definition suits a reference.
#[derive(Clone, Copy)]
enum Standing {
    Absent,
    Unseen,
    Wrong,
    Wanted(Definition),
}

/// Writes the full name of `name` in `scope` over `full_name`, whose memory is used again.
pub fn write_joined(full_name: &mut String, scope: &str, name: &str) -> Result<(), AllocError>
    ensures { OnOk result (string_bytes full_name.new ≡ join scope.now name.now) }
{
    full_name.clear();
    full_name.reserve(scope.len().saturating_add(1).saturating_add(name.len()))?;
    full_name.push_str(scope)?;
    if !scope.is_empty() {
        full_name.push_str(".")?;
    }
    full_name.push_str(name)?;
    Ok(())
}

/// The full name of `name` in `scope`: the name itself in the empty scope.
pub fn joined(alloc: Global, scope: &str, name: &str) -> Result<String, AllocError>
    ensures { IfOk result (λ full. string_bytes full ≡ join scope.now name.now) }
{
    let mut full_name = String::new(alloc);
    write_joined(&mut full_name, scope, name)?;
    Ok(full_name)
}

fn is_wanted(filter: ResolveNameFilter, kind: DefinitionKind) -> bool
    ensures { result ≡ takes filter kind }
{
    match filter {
        ResolveNameFilter::Message => matches!(kind, DefinitionKind::Message(_)),
        ResolveNameFilter::FieldType => {
            matches!(kind, DefinitionKind::Message(_) | DefinitionKind::Enum(_))
        }
        ResolveNameFilter::Extension => matches!(kind, DefinitionKind::Extension(_)),
    }
}

fn is_seen(dependencies: &SeenFiles, definition: Definition) -> bool
    ensures { result ≡ sees (tells dependencies.now) definition }
{
    match definition.kind {
        DefinitionKind::Package => true,
        _ => dependencies.contains(definition.file),
    }
}

fn standing_of(
    dependencies: &SeenFiles,
    filter: ResolveNameFilter,
    found: Option<Definition>,
) -> Standing
    ensures { result ≡ standing (tells dependencies.now) filter found }
{
    let Some(definition) = found else {
        return Standing::Absent;
    };
    if !is_seen(dependencies, definition) {
        Standing::Unseen
    } else if is_wanted(filter, definition.kind) {
        Standing::Wanted(definition)
    } else {
        Standing::Wrong
    }
}

/// Whether names may stand in the scope of what was found.
fn is_holder(found: Option<Definition>) -> bool
    ensures { result ≡ holds found }
{
    match found {
        Some(definition) => matches!(
            definition.kind,
            DefinitionKind::Package
                | DefinitionKind::Message(_)
                | DefinitionKind::Service(_)
                | DefinitionKind::Enum(_)
        ),
        None => false,
    }
}

/// The scope around `scope`: what stands before its last dot, or the empty scope.
pub fn outer_of(scope: &str) -> &str
    ensures { result.now ≡ outer scope.now }
{
    match scope.rfind('.') {
        Some(at) => &scope[..at],
        None => "",
    }
}

fn is_passed(standing: Standing, passed: bool) -> bool
    ensures { result ≡ marks standing passed }
{
    match standing {
        Standing::Wrong => true,
        _ => passed,
    }
}

fn unresolved(passed: bool) -> ResolveNameError
    ensures { Answers (Err result) (missing passed) }
{
    if passed {
        ResolveNameError::InvalidType
    } else {
        ResolveNameError::NotFound
    }
}

fn in_scopes(
    alloc: Global,
    dependencies: &SeenFiles,
    names: &NameTable<Definition>,
    scope: &str,
    name: &str,
    filter: ResolveNameFilter,
) -> Result<Resolved, ResolveNameError>
    ensures { Answers result (undotted
        (λ p. standing (tells dependencies.now) filter (known_of names.now (join p name.now)))
        name.now (scopes scope.now) false) }
{
    let mut full_name = String::new(alloc);
    let mut scope = scope;
    let mut passed = false;
    'scopes: loop {
        write_joined(&mut full_name, scope, name)?;
        let found = names.get(full_name.as_str());
        let here = standing_of(dependencies, filter, found);
        if let Standing::Wanted(definition) = here {
            return Ok(Resolved {
                full_name,
                definition,
            });
        }
        passed = is_passed(here, passed);
        if scope.is_empty() {
            return Err(unresolved(passed));
        }
        scope = outer_of(scope);
    }
}

fn settle(standing: Standing, full_name: String) -> Result<Resolved, ResolveNameError>
    ensures { Answers result (settled standing (string_bytes full_name)) }
{
    match standing {
        Standing::Wanted(definition) => Ok(Resolved {
            full_name,
            definition,
        }),
        Standing::Wrong => Err(ResolveNameError::InvalidType),
        Standing::Unseen => Err(ResolveNameError::NotFound),
        Standing::Absent => Err(ResolveNameError::Shadowed {
            shadowed_name: full_name,
        }),
    }
}

fn by_first_part(
    alloc: Global,
    dependencies: &SeenFiles,
    names: &NameTable<Definition>,
    scope: &str,
    first: &str,
    name: &str,
    filter: ResolveNameFilter,
) -> Result<Resolved, ResolveNameError>
    ensures { Answers result (dotted (λ p. holds (known_of names.now (join p first.now)))
        (λ p. standing (tells dependencies.now) filter (known_of names.now (join p name.now)))
        name.now (scopes scope.now)) }
{
    let mut full_name = String::new(alloc);
    let mut scope = scope;
    'scopes: loop {
        write_joined(&mut full_name, scope, first)?;
        if is_holder(names.get(full_name.as_str())) {
            write_joined(&mut full_name, scope, name)?;
            let found = names.get(full_name.as_str());
            return settle(standing_of(dependencies, filter, found), full_name);
        }
        if scope.is_empty() {
            return Err(ResolveNameError::NotFound);
        }
        scope = outer_of(scope);
    }
}

fn by_full_name(
    alloc: Global,
    dependencies: &SeenFiles,
    names: &NameTable<Definition>,
    full_name: &str,
    filter: ResolveNameFilter,
) -> Result<Resolved, ResolveNameError>
    ensures { Answers result (rooted
        (standing (tells dependencies.now) filter (known_of names.now full_name.now))
        full_name.now) }
{
    match standing_of(dependencies, filter, names.get(full_name)) {
        Standing::Wanted(definition) => Ok(Resolved {
            full_name: String::from_str(alloc, full_name)?,
            definition,
        }),
        Standing::Wrong => Err(ResolveNameError::InvalidType),
        Standing::Unseen | Standing::Absent => Err(ResolveNameError::NotFound),
    }
}

/// What `name` means where it stands in `scope`, the full name of the declaration that holds it.
///
/// `dependencies` are the files that are seen there. See "Packages and Name Resolution" in the
/// public Language Guide.
/// - Behind a leading dot stands a full name.
/// - A name without a dot means the innermost definition of a wanted kind that is seen; others are
///   passed over.
/// - Any other name is settled at the innermost scope where its first part is a package, message,
///   service or enum, seen or not: it is `Shadowed` where the whole is not defined there, and
///   `NotFound` where it is defined but not seen.
///
/// Where nothing of a wanted kind is found, it is `InvalidType` where a definition of another kind
/// is seen under the name, picked or passed over; else `NotFound`. Packages are seen everywhere.
pub fn resolve_name(
    alloc: Global,
    dependencies: &SeenFiles,
    names: &NameTable<Definition>,
    scope: &str,
    name: &str,
    filter: ResolveNameFilter,
) -> Result<Resolved, ResolveNameError>
    // `resolve` goes from scope to scope; `NameMeans` says the same of all scopes at once.
    ensures answers { Answers result
        (resolve (known_of names.now) (tells dependencies.now) filter
        scope.now name.now) }
    ensures means { AnswersMeaning (NameMeans (known_of names.now) (tells dependencies.now) filter
        scope.now name.now) result }
{
    if let Some(full_name) = name.strip_prefix('.') {
        return by_full_name(alloc, dependencies, names, full_name, filter);
    }
    match name.split_once('.') {
        Some((first, _)) => {
            by_first_part(alloc, dependencies, names, scope, first, name, filter)
        }
        None => in_scopes(alloc, dependencies, names, scope, name, filter),
    }
}
