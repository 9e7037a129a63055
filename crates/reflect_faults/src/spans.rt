//! Where the paths of a file stand in its source.

ghost use Rattle.std.specs.Prelude.{◌≡◌, IfOk};
ghost use Rattle.std.specs.BTreeMap.{get};
ghost use Rattle.std.proofs.Props.{props};
ghost use Rattle.reflect_faults.specs.Spans.{AreSpans, span_among};

use crate::label::SourceSpan;
use descriptor_records::Location;
use std::alloc::{AllocError, Global};
use std::collections::BTreeMap;

/// The spans of a file's locations, by their paths.
#[derive(Drop)]
pub struct FileSpans<'a> {
    locations: &'a [Location],
    by_path: BTreeMap<Vec<i32>, SourceSpan>,
    ghost told: { AreSpans by_path locations.now } by { Prim.hlevel props },
}

impl<'a> FileSpans<'a> {
    /// The spans of these locations. Of a path the first location that has a span counts.
    pub fn new(alloc: Global, locations: &'a [Location]) -> Result<FileSpans<'a>, AllocError>
        ensures { IfOk result (λ s. s.locations.now ≡ locations.now) }
    {
        let mut by_path = BTreeMap::new(alloc);
        'locations: for location in locations {
            if let Some(span) = SourceSpan::from_location(location.span.as_slice()) {
                if !by_path.contains_key(&location.path) {
                    by_path.insert(Vec::from_slice(alloc, location.path.as_slice())?, span)?;
                }
            }
        }
        Ok(FileSpans { locations, by_path })
    }

    /// Where a path stands, if that is told.
    pub fn get(&self, path: &Vec<i32>) -> Option<SourceSpan>
        ensures { result ≡ span_among self.now.locations.now path.now.items }
    {
        self.by_path.get(path).copied()
    }
}
