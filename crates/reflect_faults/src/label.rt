ghost use Rattle.reflect_faults.specs.SourceBytes.{bytes_at, first_of_line, len_of_line, offset_at};
ghost use Rattle.std.specs.Prelude.{◌≡◌, ◌+◌, ◌≤◌, IfOk, IfSome, None, drop, length, option_map};

use std::alloc::{AllocError, Global};
use std::ops::Range;

/// Where something stands in a source: lines and columns count from 0, columns in bytes.
#[derive(Clone, Copy, PartialEq, Eq, Debug)]
pub struct SourceSpan {
    pub start_line: usize,
    pub start_column: usize,
    pub end_line: usize,
    pub end_column: usize,
}

impl SourceSpan {
    ghost use Rattle.reflect_faults.specs.Spans.{between, span_of};

    /// Reads the `span` of a location: line, column, end column; or line, column, end line, end
    /// column. None where it is neither, or has a negative number.
    pub fn from_location(span: &[i32]) -> Option<SourceSpan>
        ensures { result ≡ span_of span.now }
    {
        match span {
            [line, column, end_column] => SourceSpan::from_numbers(
                *line,
                *column,
                *line,
                *end_column,
            ),
            [line, column, end_line, end_column] => {
                SourceSpan::from_numbers(*line, *column, *end_line, *end_column)
            }
            _ => None,
        }
    }

    fn from_numbers(line: i32, column: i32, end_line: i32, end_column: i32) -> Option<SourceSpan>
        ensures { result ≡ between line column end_line end_column }
    {
        Some(SourceSpan {
            start_line: usize::try_from(line).ok()?,
            start_column: usize::try_from(column).ok()?,
            end_line: usize::try_from(end_line).ok()?,
            end_column: usize::try_from(end_column).ok()?,
        })
    }
}

/// A place in a file: the path of a record, or of a field in it.
#[derive(PartialEq, Debug, Drop)]
pub struct Label {
    file: String,
    path: Vec<i32>,
    span: Option<SourceSpan>,
    bytes: Option<Range<usize>>,
}

impl Label {
    ghost use Rattle.reflect_faults.specs.FaultPlaces.{located, located_of, locating};
    ghost use Rattle.reflect_faults.specs.Faults.{place_of};

    /// The place at `path` in the file named `file`, which stands at `span` of its source, where
    /// that is known. Its bytes are not, as long as no one looks for them in the source.
    pub fn new(
        alloc: Global,
        file: &str,
        path: Vec<i32>,
        span: Option<SourceSpan>,
    ) -> Result<Label, AllocError>
        ensures place { IfOk result (λ l. place_of l
            ≡ record { file = file.now; path = path.items; span = span; bytes = None }) }
    {
        Ok(Label {
            file: String::from_str(alloc, file)?,
            path,
            span,
            bytes: None,
        })
    }

    /// The name of the file.
    pub fn file(&self) -> &str
        ensures { result.now ≡ (place_of self.now).file }
    {
        self.file.as_str()
    }

    /// The path, by the field numbers of `descriptor.proto`.
    pub fn path(&self) -> &[i32]
        ensures { result.now ≡ (place_of self.now).path }
    {
        self.path.as_slice()
    }

    /// The line, from 0, where the place is known.
    pub fn line(&self) -> Option<usize>
        ensures { result ≡ option_map (λ s. s.start_line) (place_of self.now).span }
    {
        Some(self.span?.start_line)
    }

    /// The column in bytes, from 0, where the place is known.
    pub fn column(&self) -> Option<usize>
        ensures { result ≡ option_map (λ s. s.start_column) (place_of self.now).span }
    {
        Some(self.span?.start_column)
    }

    /// The bytes of the source at which the place was found by the last call of `resolve_span` for
    /// its file.
    pub fn span(&self) -> Option<Range<usize>>
        ensures { result ≡ (place_of self.now).bytes }
    {
        match &self.bytes {
            Some(bytes) => Some(bytes.start..bytes.end),
            None => None,
        }
    }

    /// Finds the place's bytes in `source`, if `file` is its file; else it stays as it is. They are
    /// None afterwards where the place is not known, or the source has no such line or column.
    pub fn resolve_span(&mut self, file: &str, source: &str)
        ensures { self.new ≡ located_of file.now source.now self.old }
    {
        if self.file.as_str() == file {
            self.locate(source);
        }
    }

    /// The same where `source` is known to be the text of the place's file.
    fn locate(&mut self, source: &str)
        ensures { self.new ≡ located source.now self.old }
    {
        self.bytes = match self.span {
            Some(span) => bytes_of(span, source),
            None => None,
        };
    }

    /// Finds the place's bytes in a source, of a file if one is named.
    pub(crate) fn locate_of(&mut self, file: Option<&str>, source: &str)
        ensures { self.new ≡ locating (option_map (λ f. f.now) file.entry) source.now self.old }
    {
        match file {
            Some(file) => self.resolve_span(file, source),
            None => self.locate(source),
        }
    }
}

fn bytes_of(span: SourceSpan, source: &str) -> Option<Range<usize>>
    ensures { result ≡ bytes_at source.now span }
{
    let start = offset_of(source, span.start_line, span.start_column)?;
    let end = offset_of(source, span.end_line, span.end_column)?;
    if start <= end { Some(start..end) } else { None }
}

/// The offset of a line's column in a source. A line has one column more than it has bytes, behind
/// the last of them.
fn offset_of(source: &str, line: usize, column: usize) -> Option<usize>
    ensures { result ≡ offset_at source.now line column }
{
    let start = line_start(source, line)?;
    if column <= line_len(source, start) {
        Some(start + column)
    } else {
        None
    }
}

/// How many bytes the line has that begins at an offset, without its line end.
fn line_len(source: &str, start: usize) -> usize
    requires { start ≤ length source.now }
    ensures within { start + result ≤ length source.now }
    ensures len { result ≡ len_of_line (drop start source.now) }
{
    let rest = &source.as_bytes()[start..];
    'bytes: for (index, byte) in rest.iter().enumerate() {
        if *byte == b'\n' {
            return index;
        }
    }
    rest.len()
}

/// The offset of a line's first byte in a source.
fn line_start(source: &str, line: usize) -> Option<usize>
    ensures start { result ≡ first_of_line source.now line }
    ensures within { IfSome result (λ n. n ≤ length source.now) }
{
    if line == 0 {
        return Some(0);
    }
    let mut left = line;
    'bytes: for (index, byte) in source.as_bytes().iter().enumerate() {
        if *byte == b'\n' {
            if left <= 1 {
                return Some(index + 1);
            }
            left -= 1;
        }
    }
    None
}
