//! Where declarations stand: their paths, their names and their numbers.

ghost use Rattle.std.specs.Prelude.{◌≡◌, ◌+◌, ◌<◌, ◌≤◌, ◌^◌, ◌⊎◌, [], OnOk, IfOk, IfErr, string_bytes};
ghost use Rattle.reflect_declarations.specs.Declarations.{entry};
ghost use Rattle.reflect_declarations.specs.Tree.{text_of as content_of};
ghost use Rattle.reflect_scope.specs.Means.{join};
ghost use Rattle.reflect_walk.specs.declared.visit_error.VisitError.TheVariants.{TooMany, Memory};

use crate::visit_error::VisitError;
use descriptor_records::{join_path, text_of};
use reflect_scope::{joined, write_joined};
use std::alloc::Global;

/// The index of a list's entry, which has to fit a path; `TooMany` where it does not.
pub fn list_index(index: usize) -> Result<u32, VisitError>
    ensures same { IfOk result (λ i. i ≡ index) }
    ensures fits { IfOk result (λ i. i < 2 ^ 31) }
    ensures many { IfErr result (λ e. (e ≡ TooMany) × (2 ^ 31 ≤ index)) }
{
    if index <= 0x7fff_ffff {
        Ok(index as u32)
    } else {
        Err(VisitError::TooMany)
    }
}

/// The index of the next declaration of a kind; `TooMany` where it fits no path.
pub fn next_index(count: &mut u32) -> Result<u32, VisitError>
    ensures index { IfOk result (λ i. i ≡ count.old) }
    ensures fits { IfOk result (λ i. i < 2 ^ 31) }
    ensures more { OnOk result (count.new ≡ count.old + 1) }
    ensures many { IfErr result (λ e. (e ≡ TooMany) × (2 ^ 31 ≤ count.old)) }
{
    let index = list_index(*count as usize)?;
    *count = index + 1;
    Ok(index)
}

/// The path of a list's entry: the record at `path`, its field of the number `tag`, and there the
/// place `at`. `TooMany` is a place past `i32::MAX`.
pub fn entry_path(alloc: Global, path: &[i32], tag: i32, at: usize) -> Result<Vec<i32>, VisitError>
    ensures path { IfOk result (λ place. place.items ≡ entry path.now tag at) }
    ensures err { IfErr result (λ e. ((e ≡ TooMany) × (2 ^ 31 ≤ at)) ⊎ (e ≡ Memory)) }
{
    let index = list_index(at)?;
    Ok(join_path(alloc, path, &[tag, index as i32])?)
}

/// The full name of what has a name in a scope.
pub fn name_in(alloc: Global, scope: &str, name: &Option<String>) -> Result<String, VisitError>
    ensures name { IfOk result (λ full. string_bytes full ≡ join scope.now (content_of name.now)) }
    ensures err { IfErr result (λ e. e ≡ Memory) }
{
    Ok(joined(alloc, scope, text_of(name))?)
}

/// Where the path and the full name of one declaration after the other are written, in memory that
/// is used again.
#[derive(Drop)]
pub struct Place {
    pub path: Vec<i32>,
    pub full_name: String,
}

impl Place {
    /// The place of a file, which has no path and no name. Takes no memory.
    pub fn new(alloc: Global) -> Place
        ensures path { result.path.items ≡ [] }
        ensures name { string_bytes result.full_name ≡ [] }
    {
        Place {
            path: Vec::new(alloc),
            full_name: String::new(alloc),
        }
    }

    /// Writes those of an entry of a list, which has a name in a scope.
    pub fn lead(
        &mut self,
        path: &[i32],
        tag: i32,
        index: u32,
        scope: &str,
        name: &Option<String>,
    ) -> Result<(), VisitError>
        requires { index < 2 ^ 31 }
        ensures path { OnOk result (self.new.path.items ≡ entry path.now tag index) }
        ensures name { OnOk result (string_bytes self.new.full_name
            ≡ join scope.now (content_of name.now)) }
        ensures err { IfErr result (λ e. e ≡ Memory) }
    {
        self.path.clear();
        self.path.extend_from_slice(path)?;
        self.path.push(tag)?;
        self.path.push(index as i32)?;
        Ok(write_joined(&mut self.full_name, scope, text_of(name))?)
    }
}
