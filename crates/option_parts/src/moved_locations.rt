//! Where the locations of options move.

ghost use Rattle.std.specs.Prelude.{◌≡◌, ◌++◌, ◌≤◌, ◌<◌, List, IfOk, None, OnOk, drop, length, option_map, take};
ghost use Rattle.option_parts.specs.Moves.{EditsLocations, MovesTo, targets_of};
ghost use Rattle.reflect_growth.specs.declared.settle.Edit.{Edit};
ghost use Rattle.reflect_faults.specs.Spans.{locations};

use descriptor_records::{FileDescriptorProto, join_path, tag};
use reflect_build::Edit;
use reflect_scope::FileIndex;
use std::alloc::{AllocError, Global};
use std::collections::BTreeMap;

/// The path with its front, which is that of an option up to so many numbers, replaced by where the
/// option was set.
fn moved_front(
    alloc: Global,
    path: &[i32],
    len: usize,
    moved: &BTreeMap<Vec<i32>, Vec<i32>>,
) -> Result<Option<Vec<i32>>, AllocError>
    ensures moved { len ≤ length path.now → IfOk result (λ p. option_map (λ v. v.items) p
        ≡ option_map (λ target. target ++ drop len path.now)
        (targets_of moved.now (take len path.now))) }
    ensures short { length path.now < len → IfOk result (λ p. p ≡ None) }
{
    let (Some(front), Some(rest)) = (path.get(..len), path.get(len..)) else {
        return Ok(None);
    };
    match moved.get(front) {
        Some(target) => Ok(Some(join_path(alloc, target.as_slice(), rest)?)),
        None => Ok(None),
    }
}

/// The path with the part that names an option replaced by where that option was set.
fn moved_path(
    alloc: Global,
    path: &[i32],
    moved: &BTreeMap<Vec<i32>, Vec<i32>>,
) -> Result<Option<Vec<i32>>, AllocError>
    ensures { IfOk result (λ p. MovesTo (targets_of moved.now) path.now
        (option_map (λ v. v.items) p)) }
{
    'numbers: for (at, number) in path.iter().enumerate() {
        if *number == tag::UNINTERPRETED_OPTION {
            let found = moved_front(alloc, path, at.saturating_add(2), moved)?;
            if found.is_some() {
                return Ok(found);
            }
        }
    }
    Ok(None)
}

/// Adds the edits of a file's locations: those of options move to where these were set.
pub fn move_locations(
    alloc: Global,
    file: FileIndex,
    proto: &FileDescriptorProto,
    moved: &BTreeMap<Vec<i32>, Vec<i32>>,
    edits: &mut Vec<Edit>,
) -> Result<(), AllocError>
    ensures { OnOk result ((es : List Edit) × EditsLocations (targets_of moved.now) file 0
        (locations proto.now) es × (edits.new.items ≡ edits.old.items ++ es)) }
{
    let Some(info) = &proto.source_code_info else {
        return Ok(());
    };
    let mut place = 0u32;
    'locations: for location in &info.location {
        if let Some(path) = moved_path(alloc, location.path.as_slice(), moved)? {
            edits.push(Edit::Location { file, place, path })?;
        }
        place = place.saturating_add(1);
    }
    Ok(())
}
