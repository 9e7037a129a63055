ghost use Rattle.std.specs.Prelude.{◌≡◌, ◌∷◌, [], map, option_map, IfSome, IfNone, Some};
ghost use Rattle.std.specs.Fmt.{WritesOnOk};
ghost use Rattle.std.specs.Option.{option_and_then};
ghost use Rattle.reflect_faults.specs.FaultPlaces.{label_of, located_of, moved};
ghost use Rattle.reflect_faults.specs.FaultTexts.{said};
ghost use Rattle.reflect_passes.specs.Texts.{begins, place_text, told_at};

use reflect_faults::{DescriptorErrorKind, Label};
use reflect_walk::VisitError;
use std::alloc::{AllocError, Global};
use std::error::Error;
use std::iter::{Chain, Once, once};
use std::ops::Range;
use std::{fmt, slice};

/// Why files were not linked: all faults of the first faulty pass, or want of memory or of numbers
/// alone.
#[derive(PartialEq, Drop)]
pub struct DescriptorError {
    first: DescriptorErrorKind,
    others: Vec<DescriptorErrorKind>,
}

impl DescriptorError {
    ghost use Rattle.reflect_faults.specs.Faults.{fault_view};
    ghost use Rattle.reflect_passes.specs.Errors.{
      faults_of,
      first_place,
      first_span,
      is_memory,
      is_too_many,
      kinds_of,
      Lends,
      sourced,
    };

    /// The error of one fault. Takes no memory.
    pub fn new(alloc: Global, first: DescriptorErrorKind) -> DescriptorError
        ensures faults { faults_of result ≡ fault_view first ∷ [] }
        ensures first { result.first ≡ first }
    {
        DescriptorError {
            first,
            others: Vec::new(alloc),
        }
    }

    /// The error of a list of faults, if there is one. Takes no memory.
    pub fn from_list(mut faults: Vec<DescriptorErrorKind>) -> Option<DescriptorError>
        ensures none { IfNone result (faults.items ≡ []) }
        ensures some { IfSome result (λ e. faults_of e ≡ map fault_view faults.items) }
    {
        if faults.is_empty() {
            return None;
        }
        let first = faults.remove(0);
        Some(DescriptorError {
            first,
            others: faults,
        })
    }

    /// The faults, the first of them first.
    pub fn errors(&self) -> Chain<Once<&DescriptorErrorKind>, slice::Iter<'_, DescriptorErrorKind>>
        ensures { Lends result (kinds_of self.now) }
    {
        once(&self.first).chain(self.others.iter())
    }

    /// Memory ran out.
    pub fn is_memory(&self) -> bool
        ensures { result ≡ is_memory self.now.first }
    {
        matches!(self.first, DescriptorErrorKind::Memory)
    }

    /// There are more declarations than indexes tell.
    pub fn is_too_many(&self) -> bool
        ensures { result ≡ is_too_many self.now.first }
    {
        matches!(self.first, DescriptorErrorKind::TooMany)
    }

    /// The name of the file that the first fault is in.
    pub fn file(&self) -> Option<&str>
        ensures { option_map (λ f. f.now) result ≡ option_map (λ p. p.file) (first_place self.now) }
    {
        Some(self.first.label()?.file())
    }

    /// The line of the first fault, counted from 0, where the file's record says where things
    /// stand.
    pub fn line(&self) -> Option<usize>
        ensures { result ≡ option_map (λ s. s.start_line) (first_span self.now) }
    {
        self.first.label()?.line()
    }

    /// The column of the first fault, counted from 0 in bytes, where the file's record says where
    /// things stand.
    pub fn column(&self) -> Option<usize>
        ensures { result ≡ option_map (λ s. s.start_column) (first_span self.now) }
    {
        self.first.label()?.column()
    }

    /// The line and the column of the first fault, both counted from 1, where they are known.
    pub fn position(&self) -> Option<(usize, usize)>
        ensures { result ≡ option_and_then begins (first_span self.now) }
    {
        let (line, column) = (self.line()?, self.column()?);
        Some((line.checked_add(1)?, column.checked_add(1)?))
    }

    /// Which part of the file's record the first fault is at, as in a record's locations.
    pub fn path(&self) -> Option<&[i32]>
        ensures { option_map (λ p. p.now) result ≡ option_map (λ p. p.path) (first_place self.now) }
    {
        Some(self.first.label()?.path())
    }

    /// The bytes of its file's source that the first fault is at, once
    /// [`with_source_code`](DescriptorError::with_source_code) has found them.
    pub fn span(&self) -> Option<Range<usize>>
        ensures { result ≡ option_and_then (λ l. l.bytes) (label_of self.now.first) }
    {
        self.first.label()?.span()
    }

    /// Finds the bytes of faults in `source`, the text of the file that the first fault is in: of
    /// this one and all others in this file. A fault has none afterwards if its place is not known,
    /// or no place of the text. Takes no memory; each fault is looked for from the front of the
    /// text, so that the time is that of as many walks through it.
    pub fn with_source_code(mut self, source: &str) -> DescriptorError
        ensures { kinds_of result ≡ sourced source.now self }
    {
        // One loan, through which one field is changed while another is read.
        let error = &mut self;
        if let Some(label) = error.first.label() {
            locate_others(&mut error.others, label.file(), source);
        }
        error.first.locate(source);
        self
    }
}

/// Finds the bytes of those faults that are in a file, whose text is `source`.
fn locate_others(faults: &mut Vec<DescriptorErrorKind>, file: &str, source: &str)
    ensures { faults.new.items ≡ map (moved (located_of file.now source.now)) faults.old.items }
{
    for fault in faults.iter_mut() {
        fault.resolve_span(file, source);
    }
}

impl fmt::Display for DescriptorError {
    ghost output = { λ e. Some (said e.first) };

    fn fmt<W: fmt::Write>(&self, f: &mut fmt::Formatter<W>) -> fmt::Result {
        let first = &self.first;
        write!(f, "{first}")
    }
}

/// The file, the line and the column from 1 where the first fault has a place, and its text.
impl fmt::Debug for DescriptorError {
    ghost debug_output = { λ e. Some (told_at e) };

    fn fmt<W: fmt::Write>(&self, f: &mut fmt::Formatter<W>) -> fmt::Result {
        write_place(f, self.file(), self.position())?;
        write!(f, "{self}")
    }
}

/// Writes a file, and the line and the column in it, in front of words: nothing where there is no
/// file.
pub fn write_place<W: fmt::Write>(
    f: &mut fmt::Formatter<W>,
    file: Option<&str>,
    position: Option<(usize, usize)>,
) -> fmt::Result
    ensures { WritesOnOk W.write_str_gives f.old result
        (place_text (option_map (λ t. t.now) file.entry) position) f.new }
{
    let Some(file) = file else {
        return Ok(());
    };
    write!(f, "{file}:")?;
    if let Some((line, column)) = position {
        write!(f, "{line}:{column}:")?;
    }
    f.write_str(" ")
}

impl Error for DescriptorError {}
