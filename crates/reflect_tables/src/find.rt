//! Finds items by sorted places.

ghost use Rattle.std.specs.Prelude.{◌≡◌, ◌≢◌, IfOk, IfErr, All, HoldsAt, length, map};
ghost use Rattle.std.specs.List.Sorted.{IsSearchInRange};
ghost use Rattle.reflect_tables.specs.Finding.{IsFirst};
ghost use Rattle.reflect_tables.specs.Index.{key_view, key_at, IsAscending, IsIndex};

use crate::keys::{By, Key, Keyed, compare};

/// The key of the item at a place.
pub fn key_of<T: Keyed>(items: &[T], by: By, place: u32) -> Key<'_>
    ensures { key_view result ≡ key_at (map (T.key_of by) items.now) place }
{
    match items.get(place as usize) {
        Some(item) => item.key(by),
        None => Key::of_number(0),
    }
}

/// Where the place of an item with this key stands among the places.
pub fn search<T: Keyed>(items: &[T], by: By, places: &[u32], key: Key<'_>) -> Result<usize, usize>
    ensures in_range { IsSearchInRange result (length places.now) }
    ensures found { IfOk result (HoldsAt
        (λ p. key_at (map (T.key_of by) items.now) p ≡ key_view key.entry) places.now) }
    ensures missing { IsAscending (map (T.key_of by) items.now) places.now
        → IfErr result (λ at. All (λ p. key_at (map (T.key_of by) items.now) p ≢ key_view key.entry)
        places.now) }
{
    places.binary_search_by(|place| compare(key_of(items, by, *place), key))
}

/// The place of the first item with this key. Takes no memory, and a number of steps that grows
/// with the logarithm of the items' count.
pub fn first<T: Keyed>(items: &[T], by: By, places: &[u32], key: Key<'_>) -> Option<u32>
    ensures { IsIndex (map (T.key_of by) items.now) places.now
        → IsFirst (λ k. k ≡ key_view key.entry) (map (T.key_of by) items.now) result }
{
    match search(items, by, places, key) {
        Ok(at) => Some(places[at]),
        Err(_) => None,
    }
}
