//! Sorts places, by which the items of a list are looked up, and makes lists of fields and values
//! with them.

ghost use Rattle.std.specs.Prelude.{◌≡◌, ◌<◌, ℕ, IsTrue, IfOk, All, map};
ghost use Rattle.reflect_tables.specs.Index.{IsAscending, IsListed, IsIndex};

use reflect_tables::{
    By, FieldList, Keyed, StoredField, StoredValue, ValueList, compare, key_of, search,
};
use reflect_walk::VisitError;
use std::alloc::Global;
use std::cmp::Ordering;

/// All places are those of items.
fn are_places(places: &[u32], count: usize) -> bool
    ensures { IsTrue result → All (λ p. p < count) places.now }
{
    places.iter().all(|place| (*place as usize) < count)
}

/// Each place has a lower key than the next.
fn are_ascending<T: Keyed>(items: &[T], by: By, places: &[u32]) -> bool
    ensures { IsTrue result → IsAscending (map (T.key_of by) items.now) places.now }
{
    for at in 1..places.len() {
        let before = key_of(items, by, places[at - 1]);
        if compare(before, key_of(items, by, places[at])) != Ordering::Less {
            return false;
        }
    }
    true
}

/// The key of the item at a place is found there or before it.
fn is_listed<T: Keyed>(items: &[T], by: By, places: &[u32], place: u32) -> bool
    ensures { IsTrue result → IsListed (map (T.key_of by) items.now) places.now place }
{
    match search(items, by, places, key_of(items, by, place)) {
        Ok(at) => places[at] <= place,
        Err(_) => false,
    }
}

/// So is that of each of the first items.
fn are_listed<T: Keyed>(items: &[T], by: By, places: &[u32], count: u32) -> bool
    ensures { IsTrue result → (place : ℕ) → place < count
        → IsListed (map (T.key_of by) items.now) places.now place }
{
    for place in 0..count {
        if !is_listed(items, by, places, place) {
            return false;
        }
    }
    true
}

/// The places below a count, by ascending key, and of equal keys the first alone.
fn sorted<T: Keyed>(
    alloc: Global,
    items: &[T],
    by: By,
    count: u32,
) -> Result<Vec<u32>, VisitError> {
    let mut places = Vec::with_capacity(alloc, count as usize)?;
    for place in 0..count {
        places.push(place)?;
    }
    places.sort_by(|a, b| compare(key_of(items, by, *a), key_of(items, by, *b)))?;
    places.dedup_by(|b, a| {
        compare(key_of(items, by, *a), key_of(items, by, *b)) == Ordering::Equal
    });
    Ok(places)
}

/// A count as a number of the program.
fn count_of(count: usize) -> Result<u32, VisitError>
    ensures { IfOk result (λ n. n ≡ count) }
{
    match u32::try_from(count) {
        Ok(count) => Ok(count),
        Err(_) => Err(VisitError::TooMany),
    }
}

/// The places of the first item of each key, by ascending key. Refused for want of memory, and
/// where a place has no number.
fn index<T: Keyed>(alloc: Global, items: &[T], by: By) -> Result<Vec<u32>, VisitError>
    ensures { IfOk result (λ places. IsIndex (map (T.key_of by) items.now) places.items) }
{
    let count = count_of(items.len())?;
    let places = sorted(alloc, items, by, count)?;
    let list = places.as_slice();
    if are_places(list, items.len())
        && are_ascending(items, by, list)
        && are_listed(items, by, list, count)
    {
        Ok(places)
    } else {
        Err(VisitError::TooMany)
    }
}

/// The list of these fields. Refused for want of memory, and where a place has no number.
pub fn field_list(alloc: Global, list: Vec<StoredField>) -> Result<FieldList, VisitError>
    ensures { IfOk result (λ l. l.list.items ≡ list.items) }
{
    let by_number = index(alloc, list.as_slice(), By::Number)?;
    let by_name = index(alloc, list.as_slice(), By::Name)?;
    let by_json_name = index(alloc, list.as_slice(), By::JsonName)?;
    Ok(FieldList {
        list,
        by_number,
        by_name,
        by_json_name,
    })
}

/// The list of these values. Refused for want of memory, and where a place has no number.
pub fn value_list(alloc: Global, list: Vec<StoredValue>) -> Result<ValueList, VisitError>
    ensures { IfOk result (λ l. l.list.items ≡ list.items) }
{
    let by_number = index(alloc, list.as_slice(), By::Number)?;
    let by_name = index(alloc, list.as_slice(), By::Name)?;
    Ok(ValueList {
        list,
        by_number,
        by_name,
    })
}
