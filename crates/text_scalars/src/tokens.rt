//! A text, one token ahead.

ghost use Rattle.std.specs.Prelude.{◌≡◌, ◌∷◌, ◌<◌, ◌≤◌, option_map, IfErr, IfNone, IfSome, OnOk, true};
ghost use Rattle.text_lex.specs.Longest.{Lexes};
ghost use Rattle.text_lex.specs.Shown.{token_of};
ghost use Rattle.text_scalars.specs.Braces.{opening_brace};
ghost use Rattle.text_scalars.specs.Front.{behind, begins_name, fault_at, first, is_over, is_sign, literal_in, next, rest_of, sees, sign_bytes, word_in};
ghost use Rattle.text_scalars.specs.Left.{left};
ghost use Rattle.text_scalars.specs.Refusals.{IsFaultAt, IsLexical, IsUnexpected, is_of_text};
ghost use Rattle.text_scalars.specs.Remaining.{lexeme_of, remaining};

use std::alloc::Global;
use text_error::ParseErrorKind;
use text_lex::{LexError, Lexeme, Lexer, Span, Token};

/// What ends a message that a brace opens.
#[derive(Clone, Copy)]
pub enum Brace {
    Curly,
    Angle,
}

impl Brace {
    ghost use Rattle.text_scalars.specs.Braces.{closing, closing_words};

    /// The sign that it is.
    pub fn sign(self) -> u8
        ensures { result ≡ closing self }
    {
        match self {
            Brace::Curly => b'}',
            Brace::Angle => b'>',
        }
    }

    /// What may stand in such a message.
    pub fn expected(self) -> &'static str
        ensures { result.now ≡ closing_words self }
    {
        match self {
            Brace::Curly => "'}' or a field name",
            Brace::Angle => "'>' or a field name",
        }
    }
}

/// The token is this sign.
fn is_this_sign(token: Token<'_>, sign: u8) -> bool
    ensures { result ≡ is_sign sign (token_of token.entry) }
{
    match token {
        Token::Dot => sign == b'.',
        Token::Minus => sign == b'-',
        Token::LeftBrace => sign == b'{',
        Token::RightBrace => sign == b'}',
        Token::LeftBracket => sign == b'[',
        Token::RightBracket => sign == b']',
        Token::LeftAngleBracket => sign == b'<',
        Token::RightAngleBracket => sign == b'>',
        Token::Comma => sign == b',',
        Token::Colon => sign == b':',
        Token::Semicolon => sign == b';',
        Token::ForwardSlash => sign == b'/',
        Token::Ident(_) | Token::IntLiteral(_) | Token::FloatLiteral(_) | Token::StringLiteral(_) =>
            false,
    }
}

/// A text, and the first of its tokens that is not taken.
///
/// In contracts `remaining` is the list of the lexemes that are not taken: tokens with their
/// places, and at the first fault that fault and no more.
#[derive(Drop)]
pub struct Tokens<'a> {
    pub alloc: Global,
    lexer: Lexer<'a>,
    ahead: Result<Option<Lexeme<'a>>, LexError>,
}

impl<'a> Tokens<'a> {
    /// The tokens of a text. Takes no memory.
    pub fn new(alloc: Global, text: &'a str) -> Tokens<'a>
        ensures { Lexes 0 text.now (remaining result) }
    {
        let mut lexer = Lexer::new(text);
        let ahead = lexer.next();
        Tokens {
            alloc,
            lexer,
            ahead,
        }
    }

    /// All tokens are taken, and no fault is left.
    pub fn is_empty(&self) -> bool
        ensures { result ≡ is_over (remaining self.now) }
    {
        match self.ahead {
            Ok(None) => true,
            Ok(Some(_)) | Err(_) => false,
        }
    }

    /// Takes the next token, if there is one.
    pub fn advance(&mut self)
        ensures { remaining self.new ≡ behind (remaining self.old) }
    {
        if let Ok(Some(_)) = self.ahead {
            self.ahead = self.lexer.next();
        }
    }

    /// The next token, which is not taken.
    pub fn peek(&self) -> Option<Lexeme<'a>>
        ensures some { IfSome result
            (λ l. remaining self.now ≡ lexeme_of l ∷ behind (remaining self.now)) }
        ensures none { IfNone result (first (remaining self.now) ≡ None) }
    {
        match self.ahead {
            Ok(lexeme) => lexeme,
            Err(_) => None,
        }
    }

    /// The next token is this sign.
    pub fn is_at(&self, sign: u8) -> bool
        ensures { result ≡ sees sign (remaining self.now) }
    {
        match self.peek() {
            Some(lexeme) => is_this_sign(lexeme.token, sign),
            None => false,
        }
    }

    /// Takes the next token if it is this sign.
    pub fn eat(&mut self, sign: u8) -> Option<Span>
        ensures found { result ≡ sign_bytes sign (remaining self.old) }
        ensures behind { remaining self.new ≡ rest_of result (remaining self.old) }
        ensures taken { IfSome result (λ _. left self.new < left self.old) }
        ensures more { left self.new ≤ left self.old }
    {
        let lexeme = self.peek()?;
        if !is_this_sign(lexeme.token, sign) {
            return None;
        }
        self.advance();
        Some(lexeme.span)
    }

    /// Takes an opening brace, and says what closes it.
    pub fn open_brace(&mut self) -> Option<(Span, Brace)>
        ensures found { result ≡ opening_brace (remaining self.old) }
        ensures behind { remaining self.new ≡ rest_of result (remaining self.old) }
        ensures taken { IfSome result (λ _. left self.new < left self.old) }
        ensures more { left self.new ≤ left self.old }
    {
        if let Some(open) = self.eat(b'{') {
            return Some((open, Brace::Curly));
        }
        let open = self.eat(b'<')?;
        Some((open, Brace::Angle))
    }

    /// A field's name begins here.
    pub fn is_at_name(&self) -> bool
        ensures { result ≡ begins_name (remaining self.now) }
    {
        match self.peek() {
            Some(lexeme) => matches!(lexeme.token, Token::Ident(_) | Token::LeftBracket),
            None => false,
        }
    }

    /// Takes the next token if it is a word.
    pub fn ident(&mut self) -> Option<(&'a str, Span)>
        ensures found { option_map (λ p. (p.0.now, p.1)) result
            ≡ next word_in (remaining self.old) }
        ensures behind { remaining self.new ≡ rest_of result (remaining self.old) }
        ensures taken { IfSome result (λ _. left self.new < left self.old) }
        ensures more { left self.new ≤ left self.old }
    {
        let lexeme = self.peek()?;
        let Token::Ident(name) = lexeme.token else {
            return None;
        };
        self.advance();
        Some((name, lexeme.span))
    }

    /// Takes the next token if it is a string, and gives what stands between its quotes.
    pub fn string(&mut self) -> Option<(&'a [u8], Span)>
        ensures found { option_map (λ p. (p.0.now, p.1)) result
            ≡ next literal_in (remaining self.old) }
        ensures behind { remaining self.new ≡ rest_of result (remaining self.old) }
        ensures taken { IfSome result (λ _. left self.new < left self.old) }
        ensures more { left self.new ≤ left self.old }
    {
        let lexeme = self.peek()?;
        let Token::StringLiteral(raw) = lexeme.token else {
            return None;
        };
        self.advance();
        Some((raw, lexeme.span))
    }

    /// Refused where no token can be read next.
    pub fn no_fault(&self) -> Result<(), ParseErrorKind>
        ensures none { OnOk result (fault_at (remaining self.now) ≡ None) }
        ensures fault { IfErr result (IsFaultAt (remaining self.now)) }
        ensures refused { IfErr result (λ kind. is_of_text kind ≡ true) }
    {
        match self.ahead {
            Ok(_) => Ok(()),
            Err(error) => Err(lexical_fault(error)),
        }
    }

    /// Why the next token is refused, where this is expected.
    pub fn refuse(&self, expected: &'static str) -> ParseErrorKind
        ensures told { IsUnexpected expected.now (remaining self.now) result }
        ensures refused { is_of_text result ≡ true }
    {
        match self.ahead {
            Ok(None) => ParseErrorKind::UnexpectedEof { expected },
            Ok(Some(lexeme)) => {
                let token = lexeme.token;
                match format!(in self.alloc; "{token}") {
                    Ok(found) => ParseErrorKind::UnexpectedToken {
                        expected,
                        found,
                        span: lexeme.span,
                    },
                    Err(_) => ParseErrorKind::Memory,
                }
            }
            Err(error) => lexical_fault(error),
        }
    }
}

/// The fault of the text that this one is.
fn lexical_fault(error: LexError) -> ParseErrorKind
    ensures told { IsLexical error result }
    ensures refused { is_of_text result ≡ true }
{
    match error {
        LexError::InvalidToken(span) => ParseErrorKind::InvalidToken { span },
        LexError::InvalidStringCharacters(span) => ParseErrorKind::InvalidStringCharacters { span },
        LexError::InvalidStringEscape(span) => ParseErrorKind::InvalidStringEscape { span },
        LexError::UnterminatedString => ParseErrorKind::UnexpectedEof {
            expected: "string terminator",
        },
        LexError::NoSpaceBetweenIntAndIdent(span) => {
            ParseErrorKind::NoSpaceBetweenIntAndIdent { span }
        }
    }
}
