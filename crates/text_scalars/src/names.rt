//! How a text names fields.

ghost use Rattle.std.specs.Prelude.{◌≡◌, ◌<◌, ◌≤◌, IfErr, IfOk, IfSome, IsErr, IsOk, OnErr, string_bytes, true};
ghost use Rattle.text_scalars.specs.Front.{next, word_in};
ghost use Rattle.text_model.specs.Value.{written};
ghost use Rattle.text_scalars.specs.Left.{left};
ghost use Rattle.text_scalars.specs.Names.{bracketed_at, full_name_at, name_at, separator_at, text_and_bytes, view_and_bytes};
ghost use Rattle.text_scalars.specs.Reading.{ReadsLexemes, and_then, seen_as};
ghost use Rattle.text_scalars.specs.Refusals.{is_of_text};
ghost use Rattle.text_scalars.specs.Remaining.{remaining};

use crate::tokens::Tokens;
use protox_lex::across;
use text_error::ParseErrorKind;
use text_lex::Span;

/// What stands before a value.
#[derive(Drop)]
pub enum Name<'a> {
    Field(&'a str),
    /// `[full.name]`, without its brackets.
    Extension(String),
    /// `[domain/full.Name]`, the expansion of a `google.protobuf.Any`.
    Any(AnyName),
}

/// The name of a type in an expansion.
#[derive(Drop)]
pub struct AnyName {
    pub domain: String,
    pub message: String,
}

impl<'a> Tokens<'a> {
    /// A name, and where it stands with its brackets.
    pub fn name(&mut self) -> Result<(Name<'a>, Span), ParseErrorKind>
        ensures read { ReadsLexemes view_and_bytes
            (seen_as text_and_bytes (name_at (remaining self.old))) result (remaining self.new) }
        ensures plain { IfSome (next word_in (remaining self.old)) (λ _. IsOk result) }
        ensures taken { IfOk result (λ _. left self.new < left self.old) }
        ensures refused { IfErr result (λ kind. is_of_text kind ≡ true) }
    {
        if let Some((name, span)) = self.ident() {
            return Ok((Name::Field(name), span));
        }
        let Some(opened) = self.eat(b'[') else {
            return Err(self.refuse("a field name"));
        };
        self.bracketed(opened)
    }

    /// What stands behind an opening bracket: the name of an extension, or that of a type behind
    /// a domain.
    fn bracketed(&mut self, opened: Span) -> Result<(Name<'a>, Span), ParseErrorKind>
        ensures read { ReadsLexemes view_and_bytes (seen_as text_and_bytes
            (and_then (full_name_at (remaining self.old)) (bracketed_at opened)))
            result (remaining self.new) }
        ensures taken { IfOk result (λ _. left self.new < left self.old) }
        ensures refused { IfErr result (λ kind. is_of_text kind ≡ true) }
    {
        let first = self.full_name()?;
        if let Some(close) = self.eat(b']') {
            return Ok((Name::Extension(first), across(opened, close)));
        }
        if self.eat(b'/').is_none() {
            return Err(self.refuse("'.', ']' or '/'"));
        }
        let message = self.full_name()?;
        let Some(close) = self.eat(b']') else {
            return Err(self.refuse("'.' or ']'"));
        };
        let name = AnyName {
            domain: first,
            message,
        };
        Ok((Name::Any(name), across(opened, close)))
    }

    /// Words with dots between them.
    fn full_name(&mut self) -> Result<String, ParseErrorKind>
        ensures read { ReadsLexemes string_bytes
            (seen_as written (full_name_at (remaining self.old))) result (remaining self.new) }
        ensures taken { IfOk result (λ _. left self.new < left self.old) }
        ensures refused { IfErr result (λ kind. is_of_text kind ≡ true) }
    {
        let Some((first, _)) = self.ident() else {
            return Err(self.refuse("an identifier"));
        };
        let mut name = String::from_str(self.alloc, first)?;
        'words: while self.eat(b'.').is_some() {
            let Some((word, _)) = self.ident() else {
                return Err(self.refuse("an identifier"));
            };
            name.push_str(".")?;
            name.push_str(word)?;
        }
        Ok(name)
    }

    /// A colon, which a brace may stand without.
    pub fn separator(&mut self) -> Result<(), ParseErrorKind>
        ensures read { ReadsLexemes (λ x. x) (separator_at (remaining self.old))
            result (remaining self.new) }
        ensures none { OnErr result (IsErr (separator_at (remaining self.old))) }
        ensures more { left self.new ≤ left self.old }
        ensures refused { IfErr result (λ kind. is_of_text kind ≡ true) }
    {
        let is_brace = self.is_at(b'{') || self.is_at(b'<');
        if is_brace || self.eat(b':').is_some() {
            return Ok(());
        }
        Err(self.refuse("':' or a message value"))
    }
}
