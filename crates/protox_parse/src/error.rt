//! Why a source is refused.

ghost use Rattle.std.specs.Prelude.{◌≡◌, ◌<◌, IfOk, option_map, string_bytes, vec_len};

use protox_lex::{LineResolver, Span};
use protox_tree::ParseErrorKind;
use std::alloc::{AllocError, AllocFailed, Global};
use std::error::Error;

/// Why a source has no record.
#[derive(Drop)]
pub enum ParseError {
    /// Memory ran out.
    Memory,
    /// The source is at fault.
    Refused(Refusal),
}

/// The faults of a source, at least one, in the order in which they stand in it.
#[derive(Drop)]
pub struct Refusal {
    file: String,
    faults: Vec<ParseErrorKind>,
    /// Line and column of the first fault, where it has a place.
    position: Option<(i32, i32)>,
    ghost some: { 0 < vec_len faults },
}

impl Refusal {
    ghost use Rattle.protox_parse.specs.Refusals.{first_span, resolved};
    ghost use Rattle.protox_parse.specs.declared.error.ParseError.TheVariants.{Refused};

    /// The refusal of a file of this name, whose lines are these. Refused only for want of memory.
    pub(crate) fn new(
        alloc: Global,
        name: &str,
        lines: Option<&LineResolver>,
        faults: Vec<ParseErrorKind>,
    ) -> Result<Refusal, AllocError>
        requires { 0 < vec_len faults }
        ensures file { IfOk result (λ r. string_bytes r.file ≡ name.now) }
        ensures faults { IfOk result (λ r. r.faults ≡ faults) }
        ensures position { IfOk result
            (λ r. r.position ≡ resolved lines.entry (first_span (Refused r))) }
    {
        let file = String::from_str(alloc, name)?;
        let position = Refusal::place(lines, faults[0].span());
        Ok(Refusal {
            file,
            faults,
            position,
        })
    }

    /// The line and column at which a span begins, where the lines are known and an `i32` counts
    /// the bytes before it.
    fn place(lines: Option<&LineResolver>, span: Option<Span>) -> Option<(i32, i32)>
        ensures { result ≡ resolved lines.entry span }
    {
        let start = span?.start;
        if start <= i32::MAX as usize {
            Some(lines?.resolve(start))
        } else {
            None
        }
    }
}

impl ParseError {
    ghost use Rattle.protox_parse.specs.Refusals.{file_of, faults_of, position_of, first_fault, first_span};

    /// The name of the file; empty where memory ran out.
    pub fn file(&self) -> &str
        ensures { result.now ≡ file_of self.now }
    {
        match self {
            ParseError::Memory => "",
            ParseError::Refused(refusal) => refusal.file.as_str(),
        }
    }

    /// The first fault, where the source is at fault.
    pub fn kind(&self) -> Option<&ParseErrorKind>
        ensures { option_map (λ f. f.now) result ≡ first_fault self.now }
    {
        match self {
            ParseError::Memory => None,
            ParseError::Refused(refusal) => Some(&refusal.faults[0]),
        }
    }

    /// The bytes of the first fault. A source that is too large or ends too early has none.
    pub fn span(&self) -> Option<Span>
        ensures { result ≡ first_span self.now }
    {
        self.kind()?.span()
    }

    /// The line and column of the first fault, both from 0 and the column in bytes, where it has a
    /// place.
    pub fn position(&self) -> Option<(i32, i32)>
        ensures { result ≡ position_of self.now }
    {
        match self {
            ParseError::Memory => None,
            ParseError::Refused(refusal) => refusal.position,
        }
    }

    /// All faults, in the order in which they stand in the source; none where memory ran out.
    ///
    /// A source that cannot be read as a tree has one fault, the first. Of a tree all faults are
    /// listed.
    pub fn faults(&self) -> &[ParseErrorKind]
        ensures { result.now ≡ faults_of self.now }
    {
        match self {
            ParseError::Memory => &[],
            ParseError::Refused(refusal) => refusal.faults.as_slice(),
        }
    }
}

impl Error for ParseError {}

impl From<AllocError> for ParseError {
    ghost use Rattle.protox_parse.specs.declared.error.ParseError.TheVariants.{Memory};

    ghost from_gives = { λ _ e. e ≡ Memory };

    fn from(_e: AllocError) -> ParseError {
        ParseError::Memory
    }
}

impl<T: Drop> From<AllocFailed<T>> for ParseError {
    ghost use Rattle.protox_parse.specs.declared.error.ParseError.TheVariants.{Memory};

    ghost from_gives = { λ _ e. e ≡ Memory };

    fn from(_e: AllocFailed<T>) -> ParseError {
        ParseError::Memory
    }
}
