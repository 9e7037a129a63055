ghost use Rattle.std.specs.Prelude.{◌≡◌, ℕ, ◌+◌, ◌<◌, ◌≤◌, ◌↔◌, [], length, OnOk, IsTrue, true, false, slice_index_or, slice_set};
ghost use Rattle.std.specs.List.{Contains};
ghost use Rattle.reflect_scope.specs.Sees.{Sees, imports_at, publics_at};
ghost use Rattle.reflect_scope.specs.Marks.{IsMarked, Extends, AreListed, AllClear};

use crate::index::FileIndex;
use std::alloc::{AllocError, Global};

/// What a file imports, and what of that publicly, as indexes of files.
#[derive(Drop)]
pub struct Links {
    pub imports: Vec<FileIndex>,
    pub public: Vec<FileIndex>,
}

/// Which files are seen from one file: itself, its imports, and what any chain of public imports
/// reaches from those.
///
/// See "Importing Definitions" in the public Language Guide. One value serves many files in turn,
/// and each look costs as much as the files that it reaches and their imports.
#[derive(Drop)]
pub struct SeenFiles {
    marks: Vec<bool>,
    order: Vec<FileIndex>,
    ghost listed: { AreListed marks.items order.items },
}

/// Marks a file and puts it behind the others, unless it has a mark or there is no such file.
fn mark(
    marks: &mut Vec<bool>,
    order: &mut Vec<FileIndex>,
    file: FileIndex,
) -> Result<(), AllocError>
    ensures marked { OnOk result (IsMarked marks.old.items order.old.items
        → IsMarked marks.new.items order.new.items) }
    ensures same { length marks.new.items ≡ length marks.old.items }
    ensures grown { OnOk result (Extends (λ g. g ≡ file) order.old.items order.new.items) }
    ensures there { OnOk result (IsMarked marks.old.items order.old.items → file
        < length marks.old.items → Contains order.new.items file) }
    ensures listed { AreListed marks.old.items order.old.items
        → AreListed marks.new.items order.new.items }
{
    let index = file as usize;
    if index < marks.len() && !marks[index] {
        order.push(file)?;
        marks[index] = true;
    }
    Ok(())
}

/// Marks all of the files.
fn mark_all(
    marks: &mut Vec<bool>,
    order: &mut Vec<FileIndex>,
    files: &[FileIndex],
) -> Result<(), AllocError>
    ensures marked { OnOk result (IsMarked marks.old.items order.old.items
        → IsMarked marks.new.items order.new.items) }
    ensures same { length marks.new.items ≡ length marks.old.items }
    ensures grown { OnOk result (Extends (Contains files.now) order.old.items
        order.new.items) }
    ensures there { OnOk result (IsMarked marks.old.items order.old.items → (g : ℕ)
        → Contains files.now g → g < length marks.old.items → Contains order.new.items g) }
    ensures listed { AreListed marks.old.items order.old.items
        → AreListed marks.new.items order.new.items }
{
    'turns: for file in files {
        mark(marks, order, *file)?;
    }
    Ok(())
}

/// The files that a file imports, none where there is no such file.
fn imports(files: &[Links], file: FileIndex) -> &[FileIndex]
    ensures { result.now ≡ imports_at files.now file }
{
    match files.get(file as usize) {
        Some(links) => links.imports.as_slice(),
        None => &[],
    }
}

/// The files that a file imports publicly, none where there is no such file.
fn publics(files: &[Links], file: FileIndex) -> &[FileIndex]
    ensures { result.now ≡ publics_at files.now file }
{
    match files.get(file as usize) {
        Some(links) => links.public.as_slice(),
        None => &[],
    }
}

fn unmark(marks: &mut Vec<bool>, file: FileIndex)
    ensures { marks.new.items ≡ slice_set marks.old.items file false }
{
    let index = file as usize;
    if index < marks.len() {
        marks[index] = false;
    }
}

/// Takes the marks of the listed files away.
fn clear_marks(marks: &mut Vec<bool>, order: &Vec<FileIndex>)
    ensures clear { AreListed marks.old.items order.now.items → AllClear marks.new.items }
    ensures same { length marks.new.items ≡ length marks.old.items }
{
    'turns: for file in order {
        unmark(marks, *file);
    }
}

/// Leaves the marks of exactly `count` files; those that are new have none.
fn fit(marks: &mut Vec<bool>, count: usize) -> Result<(), AllocError>
    ensures room { OnOk result (length marks.new.items ≡ count) }
    ensures clear { AllClear marks.old.items → AllClear marks.new.items }
{
    marks.resize(count, false)?;
    Ok(())
}

/// Marks the files that are reached from `file`, and lists them.
fn reach(
    marks: &mut Vec<bool>,
    order: &mut Vec<FileIndex>,
    files: &[Links],
    file: FileIndex,
) -> Result<(), AllocError>
    requires clear { AllClear marks.old.items }
    requires none { order.old.items ≡ [] }
    requires room { length files.now ≡ length marks.old.items }
    ensures sees { OnOk result ((g : ℕ) → g < length files.now
        → (slice_index_or marks.new.items g false ≡ true ↔ Sees files.now file g)) }
    ensures same { OnOk result (length marks.new.items ≡ length files.now) }
    ensures listed { AreListed marks.new.items order.new.items }
{
    mark_all(marks, order, imports(files, file))?;
    let mut next = 0;
    'reach: while next < order.len() {
        let current = order[next];
        mark_all(marks, order, publics(files, current))?;
        next += 1;
    }
    mark(marks, order, file)?;
    Ok(())
}

fn look(
    marks: &mut Vec<bool>,
    order: &mut Vec<FileIndex>,
    files: &[Links],
    file: FileIndex,
) -> Result<(), AllocError>
    requires listed { AreListed marks.old.items order.old.items }
    ensures sees { OnOk result ((g : ℕ) → g < length files.now
        → (slice_index_or marks.new.items g false ≡ true ↔ Sees files.now file g)) }
    ensures others { OnOk result ((g : ℕ) → length files.now ≤ g
        → slice_index_or marks.new.items g false ≡ false) }
    ensures listed { AreListed marks.new.items order.new.items }
{
    clear_marks(marks, order);
    order.clear();
    fit(marks, files.len())?;
    reach(marks, order, files, file)?;
    Ok(())
}

impl SeenFiles {
    ghost use Rattle.reflect_scope.specs.Seen.{tells};

    /// Nothing is seen before the first look.
    pub fn new(alloc: Global) -> SeenFiles
        ensures { (g : ℕ) → tells result g ≡ false }
    {
        SeenFiles {
            marks: Vec::new(alloc),
            order: Vec::new(alloc),
        }
    }

    /// Looks from `file`, and forgets what was seen before. `files` has the links of all files by
    /// their indexes; indexes of no file are passed over, so that none of them is seen. After an
    /// `Err` it is not said which files are seen.
    pub fn look_from(&mut self, files: &[Links], file: FileIndex) -> Result<(), AllocError>
        ensures files { OnOk result ((g : ℕ) → g < length files.now
            → (IsTrue (tells self.new g) ↔ Sees files.now file g)) }
        ensures others { OnOk result ((g : ℕ) → length files.now ≤ g → tells self.new g ≡ false) }
    {
        look(&mut self.marks, &mut self.order, files, file)
    }

    /// Whether the file is seen.
    pub fn contains(&self, file: FileIndex) -> bool
        ensures { result ≡ tells self.now file }
    {
        self.marks.get(file as usize).copied().unwrap_or(false)
    }
}
