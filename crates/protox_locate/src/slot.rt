ghost use Rattle.std.specs.Prelude.{◌≡◌};
ghost use Rattle.protox_locate.specs.Declarations as spec;

/// How many entries the lists of a record have so far.
#[derive(Clone, Copy)]
pub struct Count {
    entries: i32,
}

impl Count {
    /// None yet.
    pub fn new() -> Count
        ensures { result ≡ spec.none }
    {
        Count { entries: 0 }
    }

    /// The place of one more entry.
    pub fn next(&mut self) -> i32
        ensures place { result ≡ self.old.entries }
        ensures counted { self.new ≡ spec.more self.old }
    {
        let place = self.entries;
        self.entries = place.saturating_add(1);
        place
    }
}

/// Where a field stands in the record that holds it, and where the type that it declares would.
#[derive(Clone, Copy)]
pub struct FieldTags {
    pub field: i32,
    pub nested_type: i32,
}

/// How many fields, or extensions, a record has so far, and how many types.
#[derive(Clone, Copy)]
pub struct FieldCounts {
    pub fields: Count,
    pub types: Count,
}
