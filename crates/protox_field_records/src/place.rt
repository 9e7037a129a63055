//! Places in lists, as records tell them.

ghost use Rattle.std.specs.Prelude.{◌≡◌};
ghost use Rattle.protox_field_records.specs.Places.{place_of};

/// The place of an element in a list. A source that an `i32` counts has no longer lists.
pub fn index(place: usize) -> i32
    ensures { result ≡ place_of place }
{
    i32::try_from(place).unwrap_or(i32::MAX)
}
