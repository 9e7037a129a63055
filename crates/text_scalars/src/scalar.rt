//! Values that are no messages.

ghost use Rattle.std.specs.Prelude.{◌≡◌, ◌<◌, IfErr, IfOk, None, OnErr, Some, codes, string_bytes, false, true};
ghost use Rattle.protobuf_model.specs.Types as kinds;
ghost use Rattle.protobuf_model.specs.Values.{blob, int32, int64, text, truth, uint32, uint64};
ghost use Rattle.text_scalars.specs.Left.{left};
ghost use Rattle.text_scalars.specs.Number.{nameless, scalar_of, signed_32_bounds, signed_64_bounds, unsigned_32_bounds, unsigned_64_bounds};
ghost use Rattle.text_scalars.specs.Refusals.{IsUnexpected, is_of_text};
ghost use Rattle.text_scalars.specs.Remaining.{remaining};
ghost use Rattle.text_scalars.specs.Scalars.{ReadsValue, RefusesInteger, RefusesStrings, RefusesText, is_integer, operand, scalar_at, truth_words, value_at};

use crate::number::{
    Literal, SIGNED_32, SIGNED_64, UNSIGNED_32, UNSIGNED_64, magnitude_of, out_of_range,
};
use crate::tokens::Tokens;
use protox_lex::{across, unescape};
use text_error::ParseErrorKind;
use text_lex::{Span, Token};

impl<'a> Tokens<'a> {
    /// An integer with its sign.
    fn integer(&mut self) -> Result<Literal<'a>, ParseErrorKind>
        ensures read { IfOk result (λ l. scalar_at (remaining self.old)
            ≡ Some (record { value = scalar_of l; span = l.span; rest = remaining self.new })) }
        ensures none { IfErr result (λ kind. is_integer (scalar_at (remaining self.old)) ≡ false) }
        ensures told { IfErr result
            (IsUnexpected (codes "an integer") (operand (remaining self.old))) }
        ensures taken { IfOk result (λ _. left self.new < left self.old) }
        ensures refused { IfErr result (λ kind. is_of_text kind ≡ true) }
    {
        let minus = self.eat(b'-');
        let Some(lexeme) = self.peek() else {
            return Err(self.refuse("an integer"));
        };
        let Token::IntLiteral(int) = lexeme.token else {
            return Err(self.refuse("an integer"));
        };
        self.advance();
        let span = match minus {
            Some(minus) => across(minus, lexeme.span),
            None => lexeme.span,
        };
        Ok(Literal {
            is_negative: minus.is_some(),
            int,
            span,
        })
    }

    /// An integer of 32 bits, which may have a sign. `IntegerValueOutOfRange` for another one.
    pub fn signed_32(&mut self) -> Result<(i32, Span), ParseErrorKind>
        ensures read { ReadsValue int32 (value_at nameless kinds.int32 (remaining self.old))
            result (remaining self.new) }
        ensures told { IfErr result (RefusesInteger signed_32_bounds (remaining self.old)) }
        ensures none { OnErr result
            (value_at nameless kinds.int32 (remaining self.old) ≡ None) }
        ensures taken { IfOk result (λ _. left self.new < left self.old) }
        ensures refused { IfErr result (λ kind. is_of_text kind ≡ true) }
    {
        let literal = self.integer()?;
        match literal.signed_32() {
            Some(value) => Ok((value, literal.span)),
            None => Err(out_of_range(self.alloc, SIGNED_32, literal)?),
        }
    }

    /// An integer of 64 bits, which may have a sign. `IntegerValueOutOfRange` for another one.
    pub fn signed_64(&mut self) -> Result<(i64, Span), ParseErrorKind>
        ensures read { ReadsValue int64 (value_at nameless kinds.int64 (remaining self.old))
            result (remaining self.new) }
        ensures told { IfErr result (RefusesInteger signed_64_bounds (remaining self.old)) }
        ensures none { OnErr result
            (value_at nameless kinds.int64 (remaining self.old) ≡ None) }
        ensures taken { IfOk result (λ _. left self.new < left self.old) }
        ensures refused { IfErr result (λ kind. is_of_text kind ≡ true) }
    {
        let literal = self.integer()?;
        match literal.signed_64() {
            Some(value) => Ok((value, literal.span)),
            None => Err(out_of_range(self.alloc, SIGNED_64, literal)?),
        }
    }

    /// An integer of 32 bits without a sign. `IntegerValueOutOfRange` for another one.
    pub fn unsigned_32(&mut self) -> Result<(u32, Span), ParseErrorKind>
        ensures read { ReadsValue uint32 (value_at nameless kinds.uint32 (remaining self.old))
            result (remaining self.new) }
        ensures told { IfErr result (RefusesInteger unsigned_32_bounds (remaining self.old)) }
        ensures none { OnErr result
            (value_at nameless kinds.uint32 (remaining self.old) ≡ None) }
        ensures taken { IfOk result (λ _. left self.new < left self.old) }
        ensures refused { IfErr result (λ kind. is_of_text kind ≡ true) }
    {
        let literal = self.integer()?;
        match literal.unsigned_32() {
            Some(value) => Ok((value, literal.span)),
            None => Err(out_of_range(self.alloc, UNSIGNED_32, literal)?),
        }
    }

    /// An integer of 64 bits without a sign. `IntegerValueOutOfRange` for another one.
    pub fn unsigned_64(&mut self) -> Result<(u64, Span), ParseErrorKind>
        ensures read { ReadsValue uint64 (value_at nameless kinds.uint64 (remaining self.old))
            result (remaining self.new) }
        ensures told { IfErr result (RefusesInteger unsigned_64_bounds (remaining self.old)) }
        ensures none { OnErr result
            (value_at nameless kinds.uint64 (remaining self.old) ≡ None) }
        ensures taken { IfOk result (λ _. left self.new < left self.old) }
        ensures refused { IfErr result (λ kind. is_of_text kind ≡ true) }
    {
        let literal = self.integer()?;
        match literal.unsigned_64() {
            Some(value) => Ok((value, literal.span)),
            None => Err(out_of_range(self.alloc, UNSIGNED_64, literal)?),
        }
    }

    /// A truth value: a word for it, or 0 or 1.
    pub fn truth(&mut self) -> Result<(bool, Span), ParseErrorKind>
        ensures read { ReadsValue truth (value_at nameless kinds.bool (remaining self.old))
            result (remaining self.new) }
        ensures told { IfErr result
            (IsUnexpected (truth_words (remaining self.old)) (remaining self.old)) }
        ensures none { OnErr result (value_at nameless kinds.bool (remaining self.old) ≡ None) }
        ensures taken { IfOk result (λ _. left self.new < left self.old) }
        ensures refused { IfErr result (λ kind. is_of_text kind ≡ true) }
    {
        let Some(lexeme) = self.peek() else {
            return Err(self.refuse("'true' or 'false'"));
        };
        let value = match lexeme.token {
            Token::Ident("true" | "True" | "t") => true,
            Token::Ident("false" | "False" | "f") => false,
            Token::IntLiteral(int) => match magnitude_of(int) {
                Some(0) => false,
                Some(1) => true,
                _ => return Err(self.refuse("0 or 1")),
            },
            _ => return Err(self.refuse("'true' or 'false'")),
        };
        self.advance();
        Ok((value, lexeme.span))
    }

    /// The bytes of adjacent string literals. The token behind them is then known to be one.
    pub fn bytes(&mut self) -> Result<(Vec<u8>, Span), ParseErrorKind>
        ensures read { ReadsValue (λ v. blob v.items)
            (value_at nameless kinds.bytes (remaining self.old)) result (remaining self.new) }
        ensures told { IfErr result (RefusesStrings (remaining self.old)) }
        ensures taken { IfOk result (λ _. left self.new < left self.old) }
        ensures refused { IfErr result (λ kind. is_of_text kind ≡ true) }
    {
        let Some((raw, first)) = self.string() else {
            return Err(self.refuse("a string"));
        };
        let mut bytes = unescape(self.alloc, raw)?;
        let mut last = first;
        'literals: while let Some((raw, span)) = self.string() {
            bytes.append(&mut unescape(self.alloc, raw)?)?;
            last = span;
        }
        self.no_fault()?;
        Ok((bytes, across(first, last)))
    }

    /// The text of adjacent string literals.
    pub fn text(&mut self) -> Result<(String, Span), ParseErrorKind>
        ensures read { ReadsValue (λ s. text (string_bytes s))
            (value_at nameless kinds.string (remaining self.old)) result (remaining self.new) }
        ensures told { IfErr result (RefusesText (remaining self.old)) }
        ensures taken { IfOk result (λ _. left self.new < left self.old) }
        ensures refused { IfErr result (λ kind. is_of_text kind ≡ true) }
    {
        let (bytes, span) = self.bytes()?;
        match String::from_utf8(bytes) {
            Ok(text) => Ok((text, span)),
            Err(_) => Err(ParseErrorKind::InvalidUtf8String { span }),
        }
    }
}
