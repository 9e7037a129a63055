//! Why the tokens of a source are not read on.

ghost use Rattle.std.specs.Prelude.{◌≡◌, IfOk};
ghost use Rattle.protox_tokens.specs.Refusal.{fault_view};
ghost use Rattle.protox_tokens.specs.Told.{IsToldAs};

use protox_lex::{LexError, Span, Token};
use protox_tree::{ExpectedToken, ParseErrorKind};
use std::alloc::{AllocError, AllocFailed, Global};

/// The first fault of a source that cannot be read as a tree.
#[derive(Clone, Copy)]
pub enum Fault<'a> {
    /// A token that cannot follow those before it.
    Unexpected {
        expected: ExpectedToken,
        found: Token<'a>,
        span: Span,
    },
    /// The source ends where a token has to follow.
    Eof {
        expected: ExpectedToken,
    },
    /// What stands there is no token, or one that text format alone has, or, as the value of an
    /// option, an integer below -2^63.
    Lexical(LexError),
    /// A syntax other than proto2 and proto3.
    UnknownSyntax {
        span: Span,
    },
    /// A brace that opens more levels than there may be.
    TooDeep {
        span: Span,
    },
}

impl Fault<'_> {
    /// The fault as users see it. Refused only for want of memory.
    pub fn to_kind(&self, alloc: Global) -> Result<ParseErrorKind, AllocError>
        ensures { IfOk result (λ kind. IsToldAs (fault_view self.now) kind) }
    {
        Ok(match *self {
            Fault::Unexpected {
                expected,
                found,
                span,
            } => ParseErrorKind::UnexpectedToken {
                expected,
                found: format!(in alloc; "{found}")?,
                span,
            },
            Fault::Eof { expected } => ParseErrorKind::UnexpectedEof { expected },
            Fault::Lexical(error) => ParseErrorKind::from(error),
            Fault::UnknownSyntax { span } => ParseErrorKind::UnknownSyntax { span },
            Fault::TooDeep { span } => ParseErrorKind::NestingTooDeep { span },
        })
    }
}

/// Why a rule of the grammar gives no tree.
#[derive(Clone, Copy)]
pub enum Stop<'a> {
    /// Want of memory.
    Memory,
    /// The source is at fault.
    Refused(Fault<'a>),
}

impl From<AllocError> for Stop<'_> {
    ghost use Rattle.protox_tokens.specs.declared.fault.Stop.TheVariants.{Memory};

    ghost from_gives = { λ _ e. e ≡ Memory };

    fn from(_e: AllocError) -> Self {
        Stop::Memory
    }
}

impl<T: Drop> From<AllocFailed<T>> for Stop<'_> {
    ghost use Rattle.protox_tokens.specs.declared.fault.Stop.TheVariants.{Memory};

    ghost from_gives = { λ _ e. e ≡ Memory };

    fn from(_e: AllocFailed<T>) -> Self {
        Stop::Memory
    }
}
