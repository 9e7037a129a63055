//! Takes the names and numbers of files out of a pool's maps.

ghost use Rattle.std.specs.Prelude.{◌≡◌, ℕ, List, length, nat_lt, string_cmp, take};
ghost use Rattle.std.specs.List.{filter};
ghost use Rattle.std.specs.BTreeMap.{IsOrdered};
ghost use Rattle.reflect_scope.specs.Known.{known_of, kept_first};
ghost use Rattle.reflect_tables.specs.ExtensionNumbers.{key_cmp};

use name_table::{NameTable, ValueTest};
use reflect_pool::PoolParts;
use reflect_scope::{Definition, ExtensionIndex, FileIndex, MessageIndex};
use std::collections::BTreeMap;

/// Keeps what the first so many files define.
#[derive(Drop)]
struct FilesBelow {
    mark: u32,
}

impl ValueTest<Definition> for FilesBelow {
    ghost keeps = { λ test definition. nat_lt definition.file test.mark };

    fn keeps(&self, definition: &Definition) -> bool {
        definition.file < self.mark
    }
}

/// Leaves only the names of the first so many files.
fn forget_names(names: &mut NameTable<Definition>, mark: u32)
    ensures { (t : List ℕ) → known_of names.new t ≡ kept_first mark (known_of names.old t) }
{
    names.retain(&FilesBelow { mark });
}

/// Leaves only the names of the first so many files, as names of files.
fn forget_files(file_names: &mut BTreeMap<String, FileIndex>, mark: u32)
    ensures entries { file_names.new.entries
        ≡ filter (λ e. nat_lt e.1 mark) file_names.old.entries }
    ensures was_ordered { IsOrdered string_cmp file_names.old }
{
    file_names.retain(|_, file| *file < mark);
}

/// Leaves only the messages and numbers of the first so many extensions.
fn forget_numbers(numbers: &mut BTreeMap<(MessageIndex, u32), ExtensionIndex>, count: usize)
    ensures entries { numbers.new.entries ≡ filter (λ e. nat_lt e.1 count) numbers.old.entries }
    ensures was_ordered { IsOrdered key_cmp numbers.old }
{
    numbers.retain(|_, place| (*place as usize) < count);
}

/// Leaves beside the tables only what is of the first so many files: their names and links, and the
/// numbers of the extensions that the tables have.
pub fn forget(parts: &mut PoolParts, mark: u32)
    ensures tables { parts.new.tables ≡ parts.old.tables }
    ensures names { (t : List ℕ) → known_of parts.new.names t
        ≡ kept_first mark (known_of parts.old.names t) }
    ensures files { parts.new.file_names.entries
        ≡ filter (λ e. nat_lt e.1 mark) parts.old.file_names.entries }
    ensures files_were_ordered { IsOrdered string_cmp parts.old.file_names }
    ensures numbers { parts.new.extension_numbers.entries
        ≡ filter (λ e. nat_lt e.1 (length parts.old.tables.extensions.items))
        parts.old.extension_numbers.entries }
    ensures numbers_were_ordered { IsOrdered key_cmp parts.old.extension_numbers }
    ensures links { parts.new.links.items ≡ take mark parts.old.links.items }
{
    forget_names(&mut parts.names, mark);
    forget_files(&mut parts.file_names, mark);
    let extensions = parts.tables.extensions.len();
    forget_numbers(&mut parts.extension_numbers, extensions);
    parts.links.truncate(mark as usize);
}
