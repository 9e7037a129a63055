//! A source, one token ahead.

ghost use Rattle.std.specs.Prelude.{◌≡◌, ◌<◌, Ok, None, true, false, option_map, OnOk, OnSome, IfNone};
ghost use Rattle.std.specs.Str.{bytes_eq};
ghost use Rattle.protox_lex.specs.Shown as lexed;
ghost use Rattle.protox_lex.specs.Shown.{token_of};
ghost use Rattle.protox_lex.specs.Token.{sign};
ghost use Rattle.protox_tree.specs.View.{ident_view, literal_view};
ghost use Rattle.protox_tokens.specs.Left.{left};
ghost use Rattle.protox_tokens.specs.Parser as parser;
ghost use Rattle.protox_tokens.specs.Reads.{IsFault, Reads, lexeme_view};
ghost use Rattle.protox_tokens.specs.Refusal.{expected_view, refusal};
ghost use Rattle.protox_tokens.specs.Stream as spec;
ghost use Rattle.protox_tokens.specs.Stream.{IsRead, stream, gather, from_ahead, source, text};

use crate::fault::{Fault, Stop};
use protox_lex::{
    LexError, LexErrorKind, Lexeme, Lexer, Sign, Span, String as Literal, Token, unescape,
};
use protox_tree::{ExpectedToken, Ident};
use std::alloc::Global;

/// What is left of a source.
///
/// In an option's braces text format stands, where comments may begin with `#` and numbers end with
/// `f`. Which of the two stands next is for the caller to say: the calls whose name ends with
/// `in_text` take the next token as text format has it, all others refuse what text format alone
/// has. A call that refuses the next token does not take it.
#[derive(Clone, Copy)]
pub struct Tokens<'a> {
    lexer: Lexer<'a>,
    /// The first comment with `#` before the next token.
    hash: Option<Span>,
    ahead: Result<Option<Lexeme<'a>>, LexError>,
}

fn same_bytes(a: &[u8], b: &[u8]) -> bool
    ensures { result ≡ bytes_eq a.now b.now }
{
    a == b
}

/// The same word, or the same sign.
fn is_same(found: Token<'_>, wanted: Token<'_>) -> bool
    ensures { result ≡ parser.same (token_of found.entry) (token_of wanted.entry) }
{
    match (found, wanted) {
        (Token::Ident(a), Token::Ident(b)) => same_bytes(a.as_bytes(), b.as_bytes()),
        (Token::Sign(a), Token::Sign(b)) => a == b,
        _ => false,
    }
}

/// Where a comment with `#` stands, if the lexer gave one.
fn comment(next: Result<Option<Lexeme<'_>>, LexError>) -> Option<Span>
    ensures { result ≡ spec.comment_of next.entry }
{
    match next {
        Ok(
            Some(
                Lexeme {
                    span,
                    token: Token::HashComment,
                },
            ),
        ) => Some(span),
        _ => None,
    }
}

/// What the lexer gives next behind comments with `#`, and where the first of these stands.
fn gathered<'a>(lexer: &mut Lexer<'a>) -> (Option<Span>, Result<Option<Lexeme<'a>>, LexError>)
    ensures { from_ahead result.0 result.1 (gather None (lexed.stream lexer.new))
        ≡ gather None (lexed.stream lexer.old) }
{
    let mut hash = None;
    let mut next = lexer.next();
    'comments: while let Some(span) = comment(next) {
        hash = hash.or(Some(span));
        next = lexer.next();
    }
    (hash, next)
}

impl<'a> Tokens<'a> {
    /// All tokens of a source, up to its first fault.
    pub fn new(source: &'a str) -> Tokens<'a>
        ensures { IsRead source.now (stream result) }
    {
        let mut lexer = Lexer::new(source);
        let (hash, ahead) = gathered(&mut lexer);
        Tokens { lexer, hash, ahead }
    }

    /// The next token.
    pub fn peek(&self) -> Option<Lexeme<'a>>
        ensures seen { option_map lexeme_view result ≡ spec.peek source (stream self.now) }
        ensures some { OnSome result (0 < left self.now) }
    {
        if self.hash.is_some() {
            return None;
        }
        match self.ahead {
            Ok(Some(lexeme)) if lexeme.text_format_fault().is_none() => Some(lexeme),
            _ => None,
        }
    }

    /// The next token, in an option's braces.
    pub fn peek_in_text(&self) -> Option<Lexeme<'a>>
        ensures seen { option_map lexeme_view result ≡ spec.peek text (stream self.now) }
        ensures some { OnSome result (0 < left self.now) }
    {
        match self.ahead {
            Ok(next) => next,
            Err(_) => None,
        }
    }

    /// Why the next token is refused where another one is expected.
    pub fn refuse(&self, expected: ExpectedToken) -> Stop<'a>
        ensures { IsFault (refusal source (expected_view expected) (stream self.now)) result }
    {
        if let Some(span) = self.hash {
            let kind = LexErrorKind::HashCommentOutsideTextFormat;
            return Stop::Refused(Fault::Lexical(LexError { kind, span }));
        }
        match self.ahead {
            Ok(Some(lexeme)) => match lexeme.text_format_fault() {
                Some(error) => Stop::Refused(Fault::Lexical(error)),
                None => self.refuse_in_text(expected),
            },
            _ => self.refuse_in_text(expected),
        }
    }

    /// The same, in an option's braces.
    pub fn refuse_in_text(&self, expected: ExpectedToken) -> Stop<'a>
        ensures { IsFault (refusal text (expected_view expected) (stream self.now)) result }
    {
        Stop::Refused(match self.ahead {
            Ok(None) => Fault::Eof { expected },
            Ok(Some(lexeme)) => Fault::Unexpected {
                expected,
                found: lexeme.token,
                span: lexeme.span,
            },
            Err(error) => Fault::Lexical(error),
        })
    }

    /// Passes over the next token, and what stands before it.
    #[tactic(auto, using(crate::proofs::Left::tail_is_less))]
    pub fn advance(&mut self)
        ensures passes { stream self.new ≡ spec.tail (stream self.old) }
        ensures moves { 0 < left self.old → left self.new < left self.old }
    {
        if let Ok(Some(_)) = self.ahead {
            let (hash, ahead) = gathered(&mut self.lexer);
            self.hash = hash;
            self.ahead = ahead;
        } else {
            self.hash = None;
            self.ahead = Ok(None);
        }
    }

    /// Nothing is left.
    pub fn is_over(&self) -> bool
        ensures { result ≡ spec.is_over (stream self.now) }
    {
        self.hash.is_none() && matches!(self.ahead, Ok(None))
    }

    /// Where the next token stands; where there is none that may stand here, the start of the
    /// source.
    pub fn next_span(&self) -> Span
        ensures { result ≡ spec.span_of (spec.peek source (stream self.now)) }
    {
        match self.peek() {
            Some(lexeme) => lexeme.span,
            None => Span { start: 0, end: 0 },
        }
    }

    /// Where the next token stands, if it is this one.
    fn saw(&self, wanted: Token<'_>) -> Option<Span>
        ensures seen { result ≡ parser.saw source (token_of wanted.entry) (stream self.now) }
        ensures some { OnSome result (0 < left self.now) }
    {
        match self.peek() {
            Some(lexeme) if is_same(lexeme.token, wanted) => Some(lexeme.span),
            _ => None,
        }
    }

    /// Where the next token stands, if it is this sign, in an option's braces.
    fn saw_in_text(&self, wanted: Sign) -> Option<Span>
        ensures seen { result ≡ parser.saw text (sign wanted) (stream self.now) }
        ensures some { OnSome result (0 < left self.now) }
    {
        match self.peek_in_text() {
            Some(lexeme) if is_same(lexeme.token, Token::Sign(wanted)) => Some(lexeme.span),
            _ => None,
        }
    }

    /// The next token is this one.
    pub fn sees(&self, wanted: Token<'_>) -> bool
        ensures { result ≡ parser.sees (token_of wanted.entry) (stream self.now) }
    {
        self.saw(wanted).is_some()
    }

    /// The next token is this sign.
    pub fn sees_sign(&self, wanted: Sign) -> bool
        ensures { result ≡ parser.sees (sign wanted) (stream self.now) }
    {
        self.sees(Token::Sign(wanted))
    }

    /// The next token is this sign, in an option's braces.
    pub fn sees_in_text(&self, wanted: Sign) -> bool
        ensures { result ≡ parser.sees_in text (sign wanted) (stream self.now) }
    {
        self.saw_in_text(wanted).is_some()
    }

    /// Takes the next token if it is this one, and says where it stands.
    #[tactic(auto, unfolding(crate::specs::Parser::eat_in))]
    pub fn eat(&mut self, wanted: Token<'_>) -> Option<Span>
        ensures reads { parser.eat (token_of wanted.entry) (stream self.old)
            ≡ Ok (result, stream self.new) }
        ensures some { OnSome result (left self.new < left self.old) }
        ensures none { IfNone result (left self.new ≡ left self.old) }
    {
        let found = self.saw(wanted);
        if found.is_some() {
            self.advance();
        }
        found
    }

    /// Takes the next token if it is this sign, and says where it stands.
    pub fn eat_sign(&mut self, wanted: Sign) -> Option<Span>
        ensures reads { parser.eat (sign wanted) (stream self.old) ≡ Ok (result, stream self.new) }
        ensures some { OnSome result (left self.new < left self.old) }
        ensures none { IfNone result (left self.new ≡ left self.old) }
    {
        self.eat(Token::Sign(wanted))
    }

    /// Takes the next token if it is this sign, and says whether it was.
    pub fn passes(&mut self, wanted: Sign) -> bool
        ensures reads { parser.pass (sign wanted) (stream self.old) ≡ Ok (result, stream self.new) }
        ensures taken { result ≡ true → left self.new < left self.old }
        ensures not { result ≡ false → left self.new ≡ left self.old }
    {
        self.eat_sign(wanted).is_some()
    }

    /// The same, in an option's braces.
    #[tactic(auto, unfolding(crate::specs::Parser::eat_in))]
    pub fn passes_in_text(&mut self, wanted: Sign) -> bool
        ensures reads { parser.pass_in text (sign wanted) (stream self.old)
            ≡ Ok (result, stream self.new) }
        ensures taken { result ≡ true → left self.new < left self.old }
        ensures not { result ≡ false → left self.new ≡ left self.old }
    {
        let found = self.saw_in_text(wanted);
        if found.is_some() {
            self.advance();
        }
        found.is_some()
    }

    /// Takes this token, and says where it stands; refused where another comes next.
    #[tactic(auto, unfolding(crate::specs::Parser::expect_in))]
    pub fn expect(&mut self, wanted: Token<'static>) -> Result<Span, Stop<'a>>
        ensures reads { Reads (λ x. x) (parser.expect (token_of wanted.entry) (stream self.old))
            result self.new }
        ensures moves { OnOk result (left self.new < left self.old) }
    {
        match self.saw(wanted) {
            Some(span) => {
                self.advance();
                Ok(span)
            }
            None => Err(self.refuse(ExpectedToken::Token(wanted))),
        }
    }

    /// Takes this sign, and says where it stands; refused where another token comes next.
    pub fn expect_sign(&mut self, wanted: Sign) -> Result<Span, Stop<'a>>
        ensures reads { Reads (λ x. x) (parser.expect (sign wanted) (stream self.old))
            result self.new }
        ensures moves { OnOk result (left self.new < left self.old) }
    {
        self.expect(Token::Sign(wanted))
    }

    /// The same, in an option's braces.
    #[tactic(auto, unfolding(crate::specs::Parser::expect_in))]
    pub fn expect_in_text(&mut self, wanted: Sign) -> Result<Span, Stop<'a>>
        ensures reads { Reads (λ x. x) (parser.expect_in text (sign wanted) (stream self.old))
            result self.new }
        ensures moves { OnOk result (left self.new < left self.old) }
    {
        match self.saw_in_text(wanted) {
            Some(span) => {
                self.advance();
                Ok(span)
            }
            None => Err(self.refuse_in_text(ExpectedToken::Token(Token::Sign(wanted)))),
        }
    }

    /// A word.
    #[tactic(auto, unfolding(crate::specs::Parser::word))]
    pub fn ident(&mut self, alloc: Global) -> Result<Ident, Stop<'a>>
        ensures reads { Reads ident_view (parser.word (stream self.old)) result self.new }
        ensures moves { OnOk result (left self.new < left self.old) }
    {
        if let Some(
            Lexeme {
                span,
                token: Token::Ident(text),
            },
        ) = self.peek()
        {
            self.advance();
            Ok(Ident::new(String::from_str(alloc, text)?, span))
        } else {
            Err(self.refuse(ExpectedToken::Ident))
        }
    }

    /// An integer without a sign, and where it stands.
    #[tactic(auto, unfolding(crate::specs::Parser::digits))]
    pub fn digits(&mut self) -> Result<(u64, Span), Stop<'a>>
        ensures reads { Reads (λ x. (x.0, x.1)) (parser.digits (stream self.old)) result self.new }
        ensures moves { OnOk result (left self.new < left self.old) }
    {
        if let Some(
            Lexeme {
                span,
                token: Token::Int(value),
            },
        ) = self.peek()
        {
            self.advance();
            Ok((value, span))
        } else {
            Err(self.refuse(ExpectedToken::Int))
        }
    }

    /// One string literal.
    #[tactic(auto, unfolding(crate::specs::Parser::literal))]
    pub fn literal(&mut self, alloc: Global) -> Result<Literal, Stop<'a>>
        ensures reads { Reads literal_view (parser.literal (stream self.old)) result self.new }
        ensures moves { OnOk result (left self.new < left self.old) }
    {
        if let Some(
            Lexeme {
                span,
                token: Token::String(raw),
            },
        ) = self.peek()
        {
            self.advance();
            let value = unescape(alloc, raw)?;
            Ok(Literal { value, span })
        } else {
            Err(self.refuse(ExpectedToken::String))
        }
    }
}
