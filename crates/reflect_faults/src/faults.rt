ghost use Rattle.std.specs.Prelude.{◌≡◌, ◌++◌, ◌∷◌, [], ◌↔◌, IsTrue, IfOk, OnOk, IfSome, map, Option, Some, None};
ghost use Rattle.std.proofs.Props.{props};
ghost use Rattle.reflect_declarations.specs.Declarations.{entry};
ghost use Rattle.reflect_faults.specs.Spans.{locations, locations_at, span_among};

use crate::error::DescriptorErrorKind;
use crate::label::{Label, SourceSpan};
use crate::spans::FileSpans;
use descriptor_records::{FileDescriptorProto, Location, join_path, text_of};
use reflect_scope::FileIndex;
use reflect_walk::{VisitError, entry_path};
use std::alloc::{AllocError, Global};

/// The faults of one pass over new files, in the order in which they were met.
#[derive(Drop)]
pub struct Faults<'a> {
    files: &'a [FileDescriptorProto],
    first: FileIndex,
    found: Vec<DescriptorErrorKind>,
    /// The spans of the file that was asked for last.
    spans: Option<(FileIndex, FileSpans<'a>)>,
    ghost told: { IfSome spans (λ s. s.1.locations.now
        ≡ locations_at files.now first s.0) } by { Prim.hlevel props },
}

/// The locations of a file, none where it tells none.
fn locations_of(file: &FileDescriptorProto) -> &[Location]
    ensures { result.now ≡ locations file.now }
{
    match &file.source_code_info {
        Some(info) => info.location.as_slice(),
        None => &[],
    }
}

impl<'a> Faults<'a> {
    ghost use Rattle.reflect_faults.specs.Faults.{place_of, place_at, file_name, fault_view, list_of, Adds};

    /// No faults yet of `files`, the first of which has the index `first`.
    pub fn new(alloc: Global, files: &'a [FileDescriptorProto], first: FileIndex) -> Faults<'a>
        ensures none { list_of result ≡ [] }
        ensures files { result.files.now ≡ files.now }
        ensures first { result.first ≡ first }
    {
        Faults {
            files,
            first,
            found: Vec::new(alloc),
            spans: None,
        }
    }

    /// The locations of the file at an index, none where there is none.
    fn locations(&self, index: FileIndex) -> &'a [Location]
        ensures { result.now ≡ locations_at self.now.files.now self.now.first index }
    {
        if index < self.first {
            return &[];
        }
        match self.files.get((index - self.first) as usize) {
            Some(file) => locations_of(file),
            None => &[],
        }
    }

    /// The name of the file at an index, empty where there is none.
    fn name_of(&self, index: FileIndex) -> &'a str
        ensures { result.now ≡ file_name self.now index }
    {
        if index < self.first {
            return "";
        }
        match self.files.get((index - self.first) as usize) {
            Some(file) => text_of(&file.name),
            None => "",
        }
    }

    /// Where the file's path stands in its source, if that is known.
    fn span(
        &mut self,
        alloc: Global,
        file: FileIndex,
        path: &Vec<i32>,
    ) -> Result<Option<SourceSpan>, AllocError>
        ensures span { IfOk result (λ s. s
            ≡ span_among (locations_at self.old.files.now self.old.first file) path.now.items) }
        ensures found { self.new.found.items ≡ self.old.found.items }
        ensures files { self.new.files.now ≡ self.old.files.now }
        ensures first { self.new.first ≡ self.old.first }
    {
        if let Some((known, spans)) = &self.spans {
            if *known == file {
                return Ok(spans.get(path));
            }
        }
        let spans = FileSpans::new(alloc, self.locations(file))?;
        let span = spans.get(path);
        self.spans = Some((file, spans));
        Ok(span)
    }

    /// The place at `path` of the file at index `file`. The list of faults stays as it is.
    pub fn label(
        &mut self,
        alloc: Global,
        file: FileIndex,
        path: &[i32],
    ) -> Result<Label, AllocError>
        ensures place { IfOk result (λ l. place_of l ≡ place_at self.old file path.now) }
        ensures same { Adds self.old self.new [] }
    {
        let path = Vec::from_slice(alloc, path)?;
        let span = self.span(alloc, file, &path)?;
        Label::new(alloc, self.name_of(file), path, span)
    }

    /// The place of the record at `path`'s field of the number `tag`.
    pub fn label_at(
        &mut self,
        alloc: Global,
        file: FileIndex,
        path: &[i32],
        tag: i32,
    ) -> Result<Label, AllocError>
        ensures place { IfOk result (λ l. place_of l
            ≡ place_at self.old file (path.now ++ (tag ∷ []))) }
        ensures same { Adds self.old self.new [] }
    {
        let path = join_path(alloc, path, &[tag])?;
        self.label(alloc, file, path.as_slice())
    }

    /// The place of the field of the number `field` of the entry at a place of the list that is the
    /// field of the number `tag` of the record at `path`. `TooMany` is an entry past `i32::MAX`.
    pub fn entry_label(
        &mut self,
        alloc: Global,
        file: FileIndex,
        path: &[i32],
        tag: i32,
        place: usize,
        field: i32,
    ) -> Result<Label, VisitError>
        ensures place { IfOk result (λ l. place_of l
            ≡ place_at self.old file (entry path.now tag place ++ (field ∷ []))) }
        ensures same { Adds self.old self.new [] }
    {
        let at = entry_path(alloc, path, tag, place)?;
        Ok(self.label_at(alloc, file, at.as_slice(), field)?)
    }

    /// Adds a fault behind the others.
    pub fn push(&mut self, fault: DescriptorErrorKind) -> Result<(), AllocError>
        ensures { OnOk result (Adds self.old self.new (fault_view fault ∷ [])) }
    {
        self.found.push(fault)?;
        Ok(())
    }

    /// Whether no fault was met.
    pub fn is_empty(&self) -> bool
        ensures { IsTrue result ↔ (list_of self.now ≡ []) }
    {
        self.found.is_empty()
    }

    /// The faults, in the order in which they were met.
    pub fn into_list(self) -> Vec<DescriptorErrorKind>
        ensures { map fault_view result.items ≡ list_of self.entry }
    {
        let Faults {
            files: _,
            first: _,
            found,
            spans: _,
        } = self;
        found
    }
}
