//! The records of imports.

ghost use Rattle.std.specs.Prelude.{◌≡◌, ◌++◌, IfOk, OnOk};
ghost use Rattle.std.specs.List.{flat_map};
ghost use Rattle.descriptor_records.specs.Content.{texts_view};
ghost use Rattle.protox_record.specs.FileRecords as files;

use protox_declaration_records::text;
use protox_field_records::index;
use protox_tree::{FileItem, Import, ImportKind};
use std::alloc::{AllocError, Global};

/// The names of the imported files.
pub fn dependencies(alloc: Global, items: &Vec<FileItem>) -> Result<Vec<String>, AllocError>
    ensures { IfOk result (λ names. texts_view names
        ≡ files.names_of (flat_map files.import_at items.now.items)) }
{
    let mut names = Vec::new(alloc);
    'each: for item in items {
        let FileItem::Import(import) = item else {
            continue;
        };
        names.push(text(alloc, &import.value)?)?;
    }
    Ok(names)
}

/// The places of the imports of a kind among all of them.
pub fn places(
    alloc: Global,
    kind: ImportKind,
    items: &Vec<FileItem>,
) -> Result<Vec<i32>, AllocError>
    ensures { IfOk result (λ places. places.items
        ≡ files.places_from kind 0 (flat_map files.import_at items.now.items)) }
{
    let mut places = Vec::new(alloc);
    let mut place = 0;
    'each: for item in items {
        let FileItem::Import(import) = item else {
            continue;
        };
        add_place(kind, import, place, &mut places)?;
        place += 1;
    }
    Ok(places)
}

/// Adds the place of an import that is of this kind.
fn add_place(
    kind: ImportKind,
    import: &Import,
    place: usize,
    places: &mut Vec<i32>,
) -> Result<(), AllocError>
    ensures { OnOk result (places.new.items ≡ places.old.items
        ++ files.place_at kind place import.now) }
{
    if !is_of_kind(kind, import) {
        return Ok(());
    }
    places.push(index(place))?;
    Ok(())
}

/// The word behind `import` is that of this kind.
fn is_of_kind(kind: ImportKind, import: &Import) -> bool
    ensures { result ≡ files.is_kind kind import.now.kind }
{
    let Some((written, _)) = import.kind else {
        return false;
    };
    match (kind, written) {
        (ImportKind::Public, ImportKind::Public) | (ImportKind::Weak, ImportKind::Weak) => true,
        (ImportKind::Public, ImportKind::Weak) | (ImportKind::Weak, ImportKind::Public) => false,
    }
}
