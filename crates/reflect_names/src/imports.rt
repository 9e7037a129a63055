ghost use Rattle.std.specs.Prelude.{◌≡◌, ◌<◌, ◌≤◌, ◌+◌, ◌^◌, ◌⊎◌, OnOk, IfOk, IfErr, length, pos, [], ◌∷◌, ◌++◌};
ghost use Rattle.std.specs.List.{cons_option, filter_map};
ghost use Rattle.std.specs.BTreeMap.{get_by_text};
ghost use Rattle.reflect_declarations.specs.Declarations.{each};
ghost use Rattle.reflect_faults.specs.Faults.{Adds, place_at, duplicate_file};
ghost use Rattle.reflect_scope.specs.FileIndexes.{indexes_of, KeepsIndexes};
ghost use Rattle.reflect_names.specs.FileNames.{file_faults, with_file, with_files, files_faults};
ghost use Rattle.reflect_names.specs.ImportedFiles.{file_of, import_at as import_file, links_to};
ghost use Rattle.reflect_scope.specs.FileIndexes.{link_view};
ghost use Rattle.reflect_names.specs.Names.{import_fault, public_fault, import_faults};
ghost use Rattle.reflect_scope.specs.FileIndexes.{is_index as is_index_of};
ghost use Rattle.reflect_walk.specs.declared.visit_error.VisitError.TheVariants.{TooMany, Memory};

use descriptor_records::{FileDescriptorProto, tag};
use reflect_faults::{DescriptorErrorKind, Faults};
use reflect_scope::{FileIndex, Links};
use reflect_walk::{VisitError, entry_path};
use std::alloc::{AllocError, Global};
use std::collections::BTreeMap;

/// Lists that a file has the name of an earlier one.
fn list_file(
    alloc: Global,
    index: FileIndex,
    name: &str,
    faults: &mut Faults<'_>,
) -> Result<(), AllocError>
    ensures { OnOk result (Adds faults.old faults.new
        (duplicate_file name.now (place_at faults.old index (pos 1 ∷ [])) ∷ [])) }
{
    let found = faults.label_at(alloc, index, &[], tag::file::NAME)?;
    let name = String::from_str(alloc, name)?;
    faults.push(DescriptorErrorKind::DuplicateFileName { name, found })
}

/// Puts a file's name into the map, or lists that it has none or that of an earlier file.
fn name_file(
    alloc: Global,
    file_names: &mut BTreeMap<String, FileIndex>,
    index: FileIndex,
    file: &FileDescriptorProto,
    faults: &mut Faults<'_>,
) -> Result<(), AllocError>
    ensures names { OnOk result (indexes_of file_names.new
        ≡ with_file (indexes_of file_names.old) index file.now.name) }
    ensures faults { OnOk result (Adds faults.old faults.new
        (file_faults (place_at faults.old index) (indexes_of file_names.old) file.now.name)) }
    ensures keeps { KeepsIndexes index (indexes_of file_names.old) (indexes_of file_names.new) }
{
    let Some(name) = &file.name else {
        let found = faults.label_at(alloc, index, &[], tag::file::NAME)?;
        return faults.push(DescriptorErrorKind::MissingRequiredField {
            field: "name",
            found,
        });
    };
    if file_names.contains_key(name.as_str()) {
        list_file(alloc, index, name.as_str(), faults)?;
        return Ok(());
    }
    let name = String::from_str(alloc, name.as_str())?;
    file_names.insert(name, index)?;
    Ok(())
}

/// Puts the names of new files, the first of which has the index `first`, into the map from names
/// of files to their indexes.
///
/// A file without a name is a fault (MissingRequiredField), and so is one whose name the map has
/// (DuplicateFileName); the map keeps the earlier file. The answer is `TooMany`, or for want of
/// memory `Memory`, where a file's index is past `i32::MAX`, and `TooMany` nowhere else. After an
/// `Err` the map may have some of the names.
pub fn name_files(
    alloc: Global,
    file_names: &mut BTreeMap<String, FileIndex>,
    first: FileIndex,
    files: &[FileDescriptorProto],
    faults: &mut Faults<'_>,
) -> Result<(), VisitError>
    ensures names { OnOk result (indexes_of file_names.new
        ≡ with_files (indexes_of file_names.old) first files.now) }
    ensures faults { OnOk result (Adds faults.old faults.new
        (files_faults (place_at faults.old) (indexes_of file_names.old) first files.now)) }
    ensures keeps { KeepsIndexes first (indexes_of file_names.old) (indexes_of file_names.new) }
    ensures few { OnOk result (0 < length files.now → first + length files.now ≤ 2 ^ 31) }
    ensures many { IfErr result (λ e. ((e ≡ TooMany) × (2 ^ 31 < first + length files.now))
        ⊎ (e ≡ Memory)) }
{
    let mut index = first;
    'turns: for file in files {
        if index > 0x7fff_ffff {
            return Err(VisitError::TooMany);
        }
        name_file(alloc, file_names, index, file, faults)?;
        index += 1;
    }
    Ok(())
}

fn require_import(
    alloc: Global,
    file_names: &BTreeMap<String, FileIndex>,
    index: FileIndex,
    at: usize,
    name: &String,
    faults: &mut Faults<'_>,
) -> Result<(), VisitError>
    ensures { OnOk result (Adds faults.old faults.new
        (import_fault (place_at faults.old index) (λ n. get_by_text file_names.now n)
        at name.now)) }
{
    if file_names.contains_key(name.as_str()) {
        return Ok(());
    }
    let path = entry_path(alloc, &[], tag::file::DEPENDENCY, at)?;
    let found = faults.label(alloc, index, path.as_slice())?;
    let name = String::from_str(alloc, name.as_str())?;
    faults.push(DescriptorErrorKind::FileNotFound { name, found })?;
    Ok(())
}

/// Whether the number is a place in a list of so many.
pub fn is_index(number: i32, count: usize) -> bool
    ensures { result ≡ is_index_of number count }
{
    match usize::try_from(number) {
        Ok(place) => place < count,
        Err(_) => false,
    }
}

fn require_index(
    alloc: Global,
    count: usize,
    index: FileIndex,
    at: usize,
    import: i32,
    faults: &mut Faults<'_>,
) -> Result<(), VisitError>
    ensures { OnOk result (Adds faults.old faults.new
        (public_fault (place_at faults.old index) count at import)) }
{
    if is_index(import, count) {
        return Ok(());
    }
    let path = entry_path(alloc, &[], tag::file::PUBLIC_DEPENDENCY, at)?;
    let found = faults.label(alloc, index, path.as_slice())?;
    faults.push(DescriptorErrorKind::InvalidImportIndex {
        index: import,
        found,
    })?;
    Ok(())
}

fn require_imports(
    alloc: Global,
    file_names: &BTreeMap<String, FileIndex>,
    index: FileIndex,
    names: &Vec<String>,
    faults: &mut Faults<'_>,
) -> Result<(), VisitError>
    ensures { OnOk result (Adds faults.old faults.new
        (each (import_fault (place_at faults.old index) (λ n. get_by_text file_names.now n)) 0
        names.now.items)) }
{
    'turns: for (at, name) in names.iter().enumerate() {
        require_import(alloc, file_names, index, at, name, faults)?;
    }
    Ok(())
}

fn require_indexes(
    alloc: Global,
    count: usize,
    index: FileIndex,
    imports: &Vec<i32>,
    faults: &mut Faults<'_>,
) -> Result<(), VisitError>
    ensures { OnOk result (Adds faults.old faults.new
        (each (public_fault (place_at faults.old index) count) 0 imports.now.items)) }
{
    'turns: for (at, import) in imports.iter().enumerate() {
        require_index(alloc, count, index, at, *import, faults)?;
    }
    Ok(())
}

/// Lists each import that no file has the name of (FileNotFound), and each public import's index
/// that is out of range (InvalidImportIndex).
pub fn check_imports(
    alloc: Global,
    file_names: &BTreeMap<String, FileIndex>,
    index: FileIndex,
    file: &FileDescriptorProto,
    faults: &mut Faults<'_>,
) -> Result<(), VisitError>
    ensures { OnOk result (Adds faults.old faults.new
        (import_faults (place_at faults.old index) (λ n. get_by_text file_names.now n) file.now)) }
{
    require_imports(alloc, file_names, index, &file.dependency, faults)?;
    let count = file.dependency.len();
    require_indexes(alloc, count, index, &file.public_dependency, faults)?;
    Ok(())
}

/// The file that the import at an index names, if there is such an import and such a file.
fn import_at(
    file_names: &BTreeMap<String, FileIndex>,
    names: &Vec<String>,
    import: i32,
) -> Option<FileIndex>
    ensures { result ≡ import_file (indexes_of file_names.now) names.now.items import }
{
    let name = names.get(usize::try_from(import).ok()?)?;
    file_names.get(name.as_str()).copied()
}

/// Adds what was found, if anything.
fn push_found(files: &mut Vec<FileIndex>, found: Option<FileIndex>) -> Result<(), AllocError>
    ensures { OnOk result (files.new.items ≡ files.old.items ++ cons_option found []) }
{
    if let Some(file) = found {
        files.push(file)?;
    }
    Ok(())
}

fn imports_of(
    alloc: Global,
    file_names: &BTreeMap<String, FileIndex>,
    names: &Vec<String>,
) -> Result<Vec<FileIndex>, AllocError>
    ensures { IfOk result (λ files. files.items
        ≡ filter_map (file_of (indexes_of file_names.now)) names.now.items) }
{
    let mut files = Vec::new(alloc);
    'turns: for name in names.iter() {
        push_found(&mut files, file_names.get(name.as_str()).copied())?;
    }
    Ok(files)
}

fn publics_of(
    alloc: Global,
    file_names: &BTreeMap<String, FileIndex>,
    names: &Vec<String>,
    imports: &Vec<i32>,
) -> Result<Vec<FileIndex>, AllocError>
    ensures { IfOk result (λ files. files.items
        ≡ filter_map (import_file (indexes_of file_names.now) names.now.items) imports.now.items) }
{
    let mut files = Vec::new(alloc);
    'turns: for import in imports.iter() {
        push_found(&mut files, import_at(file_names, names, *import))?;
    }
    Ok(files)
}

/// What a file imports, by the indexes that the map has for the names; imports that it does not
/// have are left out.
pub fn links_of(
    alloc: Global,
    file_names: &BTreeMap<String, FileIndex>,
    file: &FileDescriptorProto,
) -> Result<Links, AllocError>
    ensures { IfOk result (λ links. link_view links
        ≡ links_to (indexes_of file_names.now) file.now) }
{
    let imports = imports_of(alloc, file_names, &file.dependency)?;
    let public = publics_of(alloc, file_names, &file.dependency, &file.public_dependency)?;
    Ok(Links { imports, public })
}
