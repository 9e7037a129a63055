//! From text to a message.

ghost use Rattle.reflect_any.specs.Any.{IsAny};
ghost use Rattle.reflect_format.specs.Begun.{Begins, BeginsAny, BeginsTarget};
ghost use Rattle.reflect_format.specs.Filled.{AreGiven, AreValues, Assigns, Expands, Fills, FillsBody, FillsField, HasRival, PutsIntoAny, IsAlone, IsGiven, IsValue, Makes, url_of};
ghost use Rattle.reflect_format.specs.Reads.{IsCause, ReadsTree, Refutes, StaysUnless, Stops, There};
ghost use Rattle.reflect_format.specs.Refusals.{RefusesSecond};
ghost use Rattle.reflect_format.specs.Steps.{is_set};
ghost use Rattle.reflect_format.specs.Takes.{BelongsTo};
ghost use Rattle.reflect_format.specs.Told.{AssignmentFault, BodyFault, ClosesAt, ExpansionFault, FieldFault, GivenFault, ListFault, MessageBytes, MessageFault, NamedFault, SecondFault, TextFault, Told, ValueBytes, ValueFault};
ghost use Rattle.reflect_format.specs.Truth.{TrueFor, TrueOf};
ghost use Rattle.reflect_format.specs.Unfit.{AreUnfitGiven, AreUnfitValues, CannotMake, IsUnfitBody, IsUnfitField, IsUnfitGiven, IsUnfitValue, Rejects, RejectsExpansion, Unfit};
ghost use Rattle.std.specs.Prelude.{◌≡◌, ◌<◌, ◌⊎◌, [], Bool, IfErr, IfOk, OnOk, Some, false, string_bytes, true};
ghost use Rattle.text_error.specs.Places.{place_of};
ghost use Rattle.text_error.specs.declared.error.ParseErrorKind.TheVariants as kinds;
ghost use Rattle.text_lex.specs.Longest.{Lexes};
ghost use Rattle.text_model.specs.Tree.{FieldName, Fields};
ghost use Rattle.text_scalars.specs.Braces as signs;
ghost use Rattle.text_scalars.specs.Front.{sign_bytes};
ghost use Rattle.text_scalars.specs.Left.{left};
ghost use Rattle.text_scalars.specs.Names.{name_view, text_of};
ghost use Rattle.text_scalars.specs.Remaining.{remaining};
ghost use Rattle.text_syntax.specs.Syntax.{at_end, at_sign, field_at, fields_at, given_at, list_at, message_at, text_at, value_at};

use crate::fault::{already_set, oneof_already_set, unknown_message};
use crate::scalar::scalar_value;
use crate::target::Target;
use protox_lex::{MAX_BRACES, across};
use reflect_any::any_fields;
use reflect_encode::EncodeMessage;
use reflect_message::{DynamicMessage, Value};
use reflect_pool::{Kind, MessageDescriptor};
use reflect_wire::WireError;
use std::alloc::Global;
use text_error::{ParseError, ParseErrorKind};
use text_lex::Span;
use text_scalars::{AnyName, Brace, Name, Tokens};

/// Reads a text into a message.
#[derive(Drop)]
pub struct Parser<'a> {
    tokens: Tokens<'a>,
}

impl<'a> Parser<'a> {
    /// A parser at the start of a text. Takes no memory.
    pub fn new(alloc: Global, text: &'a str) -> Parser<'a>
        ensures { Lexes 0 text.now (remaining result.tokens) }
    {
        Parser {
            tokens: Tokens::new(alloc, text),
        }
    }

    /// Reads the whole text into a message.
    ///
    /// The first fault ends it; the message then has the fields at the top that were read before
    /// the fault, and for want of memory perhaps a part of the map or the `google.protobuf.Any`
    /// that was to be set. Where it ends well, no token is left.
    pub fn parse_message(&mut self, message: &mut DynamicMessage<'_>) -> Result<(), ParseError>
        ensures type_stays { message.new.descriptor ≡ message.old.descriptor }
        ensures filled { OnOk result
            ((fs : Fields) × (text_at (remaining self.old.tokens) ≡ Some fs)
            × Fills fs message.old message.new) }
        ensures spent { OnOk result (remaining self.new.tokens ≡ []) }
        ensures refused { IfErr result (λ e. TrueOf message.old.descriptor.pool.now e.kind) }
        ensures cause { IfErr result (λ e. IsCause
            ((fs : Fields) → text_at (remaining self.old.tokens) ≡ Some fs → Unfit fs message.old)
            e.kind) }
        ensures stops { IfErr result
            (λ e. Stops (remaining self.old.tokens) e.kind message.old message.new) }
        ensures told { IfErr result
            (λ e. Told (TextFault message.old (remaining self.old.tokens)) e.kind) }
    {
        match fields_to_end(&mut self.tokens, message) {
            Ok(()) => Ok(()),
            Err(kind) => Err(ParseError::new(kind)),
        }
    }
}

fn fields_to_end(
    tokens: &mut Tokens<'_>,
    message: &mut DynamicMessage<'_>,
) -> Result<(), ParseErrorKind>
    ensures type_stays { message.new.descriptor ≡ message.old.descriptor }
    ensures filled { OnOk result
        (ReadsTree (fields_at at_end (message_at 100) (remaining tokens.old))
        (λ fs. Fills fs message.old message.new) (remaining tokens.new)) }
    ensures spent { OnOk result (remaining tokens.new ≡ []) }
    ensures refused { IfErr result (TrueOf message.old.descriptor.pool.now) }
    ensures cause { IfErr result
        (Refutes (fields_at at_end (message_at 100) (remaining tokens.old))
        (λ fs. Unfit fs message.old)) }
    ensures stops { IfErr result
        (λ kind. Stops (remaining tokens.old) kind message.old message.new) }
    ensures told { IfErr result (Told (TextFault message.old (remaining tokens.old))) }
{
    'fields: while !tokens.is_empty() {
        field(tokens, message, MAX_BRACES)?;
    }
    Ok(())
}

/// A field with its value, and the sign that may stand behind it.
#[cycle(field)]
fn field(
    tokens: &mut Tokens<'_>,
    message: &mut DynamicMessage<'_>,
    braces: u32,
) -> Result<(), ParseErrorKind>
    ensures taken { OnOk result (left tokens.new < left tokens.old) }
    ensures type_stays { message.new.descriptor ≡ message.old.descriptor }
    ensures filled { OnOk result (ReadsTree (field_at (message_at braces) (remaining tokens.old))
        (λ f. FillsField f.name f.given message.old message.new) (remaining tokens.new)) }
    ensures refused { IfErr result (TrueOf message.old.descriptor.pool.now) }
    ensures cause { IfErr result (Refutes (field_at (message_at braces) (remaining tokens.old))
        (λ f. IsUnfitField f.name f.given message.old)) }
    ensures stays { IfErr result (λ kind. StaysUnless
        (There (field_at (message_at braces) (remaining tokens.old))
        (λ f. Begins f.name f.given message.old message.new)) kind message.old message.new) }
    ensures told { IfErr result (Told (FieldFault braces (MessageFault braces) message.old
        (remaining tokens.old))) }
{
    let (name, span) = tokens.name()?;
    tokens.separator()?;
    named_value(tokens, message, name, span, braces)?;
    if tokens.eat(b',').is_none() {
        tokens.eat(b';');
    }
    Ok(())
}

/// What stands behind a name, which the message then holds.
#[cycle(field)]
fn named_value(
    tokens: &mut Tokens<'_>,
    message: &mut DynamicMessage<'_>,
    name: Name<'_>,
    span: Span,
    braces: u32,
) -> Result<(), ParseErrorKind>
    ensures taken { OnOk result (left tokens.new < left tokens.old) }
    ensures type_stays { message.new.descriptor ≡ message.old.descriptor }
    ensures filled { (n : FieldName) (colon : Bool) → text_of n ≡ name_view name.entry
        → OnOk result (ReadsTree (given_at (message_at braces) colon (remaining tokens.old))
        (λ given. FillsField n given message.old message.new) (remaining tokens.new)) }
    ensures refused { IfErr result (TrueOf message.old.descriptor.pool.now) }
    ensures cause { (n : FieldName) (colon : Bool) → text_of n ≡ name_view name.entry
        → IfErr result (Refutes (given_at (message_at braces) colon (remaining tokens.old))
        (λ given. IsUnfitField n given message.old)) }
    ensures stays { (n : FieldName) (colon : Bool) → text_of n ≡ name_view name.entry
        → IfErr result (λ kind. StaysUnless
        (There (given_at (message_at braces) colon (remaining tokens.old))
        (λ given. Begins n given message.old message.new)) kind message.old message.new) }
    ensures told { (n : FieldName) → text_of n ≡ name_view name.entry → IfErr result
        (Told (NamedFault braces (MessageFault braces) n span message.old (remaining tokens.old))) }
{
    let descriptor = message.descriptor();
    match name {
        Name::Field(name) => {
            let target = Target::field(tokens.alloc, descriptor, name, span)?;
            assignment(tokens, message, target, braces)
        }
        Name::Extension(name) => {
            let target = Target::extension(tokens.alloc, descriptor, name, span)?;
            assignment(tokens, message, target, braces)
        }
        Name::Any(name) => expansion(tokens, message, name, span, braces),
    }
}

/// What is given to a field or an extension, which the message then holds.
#[cycle(field)]
fn assignment<'p>(
    tokens: &mut Tokens<'_>,
    message: &mut DynamicMessage<'p>,
    target: Target<'p>,
    braces: u32,
) -> Result<(), ParseErrorKind>
    requires { BelongsTo message.old.descriptor target }
    ensures taken { OnOk result (left tokens.new < left tokens.old) }
    ensures type_stays { message.new.descriptor ≡ message.old.descriptor }
    ensures filled { (colon : Bool)
        → OnOk result (ReadsTree (given_at (message_at braces) colon (remaining tokens.old))
        (λ given. Assigns target.entry (IsGiven given) (AreGiven given) message.old message.new)
        (remaining tokens.new)) }
    ensures refused { IfErr result (TrueOf message.old.descriptor.pool.now) }
    ensures cause { (colon : Bool)
        → IfErr result (Refutes (given_at (message_at braces) colon (remaining tokens.old))
        (λ given. Rejects target.entry (IsUnfitGiven given) (AreUnfitGiven given) message.old)) }
    ensures stays { (colon : Bool) → IfErr result (λ kind. StaysUnless
        (There (given_at (message_at braces) colon (remaining tokens.old))
        (λ given. BeginsTarget target.entry (AreGiven given) message.old message.new))
        kind message.old message.new) }
    ensures told { IfErr result (Told (AssignmentFault braces (MessageFault braces) target.entry
        message.old (remaining tokens.old))) }
{
    if target.holds_many() {
        let values = values(tokens, target.kind(), braces)?;
        return Ok(target.add(message, values)?);
    }
    let (value, span) = value(tokens, target.kind(), braces)?;
    refuse_second(tokens.alloc, message, target, span)?;
    Ok(target.set(message, value)?)
}

/// Refused where the message holds a value of the target already, or of another field of its oneof.
fn refuse_second<'p>(
    alloc: Global,
    message: &DynamicMessage<'p>,
    target: Target<'p>,
    span: Span,
) -> Result<(), ParseErrorKind>
    requires { BelongsTo message.now.descriptor target }
    ensures refused { IfErr result (RefusesSecond message.now target.entry) }
    ensures cause { IfErr result (IsCause
        ((is_set message.now target.entry ≡ true) ⊎ HasRival target.entry message.now)) }
    ensures none { OnOk result (is_set message.now target.entry ≡ false) }
    ensures alone { OnOk result (IsAlone target.entry message.now) }
    ensures told { IfErr result (Told
        (λ kind. SecondFault message.now target.entry kind × (place_of kind ≡ Some span))) }
{
    if target.is_set(message) {
        return Err(already_set(alloc, target.text_name(), span)?);
    }
    match target.rival(message) {
        Some(oneof) => Err(oneof_already_set(alloc, oneof, span)?),
        None => Ok(()),
    }
}

/// What is given to a list or a map: a list in brackets, or one value.
#[cycle(field)]
fn values<'p>(
    tokens: &mut Tokens<'_>,
    kind: Kind<'p>,
    braces: u32,
) -> Result<Vec<Value<'p>>, ParseErrorKind>
    ensures taken { IfOk result (λ _. left tokens.new < left tokens.old) }
    ensures read { (colon : Bool)
        → IfOk result (λ vs. ReadsTree (given_at (message_at braces) colon (remaining tokens.old))
        (λ given. AreGiven given kind.entry vs.items) (remaining tokens.new)) }
    ensures refused { IfErr result (TrueFor kind.entry) }
    ensures cause { (colon : Bool)
        → IfErr result (Refutes (given_at (message_at braces) colon (remaining tokens.old))
        (λ given. AreUnfitGiven given kind.entry)) }
    ensures told { IfErr result (Told (GivenFault braces (MessageFault braces) kind.entry
        (remaining tokens.old) (sign_bytes 91 (remaining tokens.old)))) }
{
    if tokens.eat(b'[').is_some() {
        return list(tokens, kind, braces);
    }
    let (value, _) = value(tokens, kind, braces)?;
    let mut values = Vec::new(tokens.alloc);
    values.push(value)?;
    Ok(values)
}

/// The values of a list, behind the bracket that opens it.
#[cycle(field)]
fn list<'p>(
    tokens: &mut Tokens<'_>,
    kind: Kind<'p>,
    braces: u32,
) -> Result<Vec<Value<'p>>, ParseErrorKind>
    ensures taken { IfOk result (λ _. left tokens.new < left tokens.old) }
    ensures read { IfOk result (λ vs. ReadsTree (list_at (message_at braces) (remaining tokens.old))
        (λ given. AreValues given kind.entry vs.items) (remaining tokens.new)) }
    ensures refused { IfErr result (TrueFor kind.entry) }
    ensures cause { IfErr result (Refutes (list_at (message_at braces) (remaining tokens.old))
        (λ given. AreUnfitValues given kind.entry)) }
    ensures told { IfErr result (Told (ListFault braces (MessageFault braces) kind.entry
        (remaining tokens.old))) }
{
    let mut values = Vec::new(tokens.alloc);
    if tokens.eat(b']').is_some() {
        return Ok(values);
    }
    'values: loop {
        let (value, _) = value(tokens, kind, braces)?;
        values.push(value)?;
        if tokens.eat(b']').is_some() {
            return Ok(values);
        }
        if tokens.eat(b',').is_none() {
            return Err(tokens.refuse("',' or ']'"));
        }
    }
}

/// The message of an expansion, which a `google.protobuf.Any` then holds.
#[cycle(field)]
fn expansion(
    tokens: &mut Tokens<'_>,
    message: &mut DynamicMessage<'_>,
    name: AnyName,
    span: Span,
    braces: u32,
) -> Result<(), ParseErrorKind>
    ensures taken { OnOk result (left tokens.new < left tokens.old) }
    ensures type_stays { message.new.descriptor ≡ message.old.descriptor }
    ensures filled { (colon : Bool)
        → OnOk result (ReadsTree (given_at (message_at braces) colon (remaining tokens.old))
        (λ given. Expands (string_bytes name.domain) (string_bytes name.message)
        (FillsBody given) message.old message.new) (remaining tokens.new)) }
    ensures refused { IfErr result (TrueOf message.old.descriptor.pool.now) }
    ensures cause { (colon : Bool)
        → IfErr result (Refutes (given_at (message_at braces) colon (remaining tokens.old))
        (λ given. RejectsExpansion (string_bytes name.message) (IsUnfitBody given) message.old)) }
    ensures stays { (colon : Bool) → IfErr result (λ kind. StaysUnless
        (There (given_at (message_at braces) colon (remaining tokens.old))
        (λ given. BeginsAny (url_of (string_bytes name.domain) (string_bytes name.message))
        message.old message.new)) kind message.old message.new) }
    ensures told { IfErr result (Told (ExpansionFault braces (MessageFault braces)
        (string_bytes name.message) span message.old (remaining tokens.old))) }
{
    let descriptor = message.descriptor();
    let known = descriptor
        .parent_pool()
        .get_message_by_name(name.message.as_str());
    let Some(kind) = known else {
        return Err(unknown_message(name.message, span));
    };
    let (body, _) = message_value(tokens, kind, braces)?;
    hold(tokens.alloc, message, &name, &body, span)
}

/// Puts a message into a `google.protobuf.Any`.
fn hold(
    alloc: Global,
    message: &mut DynamicMessage<'_>,
    name: &AnyName,
    body: &DynamicMessage<'_>,
    span: Span,
) -> Result<(), ParseErrorKind>
    ensures type_stays { message.new.descriptor ≡ message.old.descriptor }
    ensures held { OnOk result
        (PutsIntoAny (url_of (string_bytes name.now.domain) (string_bytes name.now.message))
        body.now message.old message.new) }
    ensures refused { IfErr result (TrueOf message.old.descriptor.pool.now) }
    ensures cause { IfErr result (IsCause (IsAny message.old.descriptor → ⊥)) }
    ensures stays { IfErr result (λ kind. StaysUnless
        (BeginsAny (url_of (string_bytes name.now.domain) (string_bytes name.now.message))
        message.old message.new) kind message.old message.new) }
    ensures told { IfErr result (Told (λ kind. (IsAny message.old.descriptor → ⊥)
        × (kind ≡ kinds.InvalidTypeForAny span))) }
{
    let Some(fields) = any_fields(message.descriptor()) else {
        return Err(ParseErrorKind::InvalidTypeForAny { span });
    };
    let bytes = match body.encode_to_vec() {
        Ok(bytes) => bytes,
        Err(WireError::Memory) => return Err(ParseErrorKind::Memory),
        Err(_) => return Err(ParseErrorKind::TooLong { span }),
    };
    let (domain, kind) = (name.domain.as_str(), name.message.as_str());
    let type_url = format!(in alloc; "{domain}/{kind}")?;
    message.set_field(&fields.type_url, Value::String(type_url))?;
    message.set_field(&fields.value, Value::Bytes(bytes))?;
    Ok(())
}

/// A value of a kind, and where it stands.
#[cycle(field)]
fn value<'p>(
    tokens: &mut Tokens<'_>,
    kind: Kind<'p>,
    braces: u32,
) -> Result<(Value<'p>, Span), ParseErrorKind>
    ensures taken { IfOk result (λ _. left tokens.new < left tokens.old) }
    ensures read { IfOk result (λ p. ReadsTree (value_at (message_at braces) (remaining tokens.old))
        (λ v. IsValue v kind.entry p.0) (remaining tokens.new)) }
    ensures refused { IfErr result (TrueFor kind.entry) }
    ensures cause { IfErr result (Refutes (value_at (message_at braces) (remaining tokens.old))
        (λ v. IsUnfitValue v kind.entry)) }
    ensures told { IfErr result (Told (ValueFault (MessageFault braces) kind.entry
        (remaining tokens.old))) }
    ensures bytes { IfOk result (λ p. ValueBytes braces kind.entry (remaining tokens.old) p.1) }
{
    match kind {
        Kind::Message(descriptor) => {
            let (message, span) = message_value(tokens, descriptor, braces)?;
            Ok((Value::Message(message), span))
        }
        _ => scalar_value(tokens, kind),
    }
}

/// A message in braces, with at most so many braces open at once.
#[cycle(field)]
fn message_value<'p>(
    tokens: &mut Tokens<'_>,
    descriptor: MessageDescriptor<'p>,
    braces: u32,
) -> Result<(DynamicMessage<'p>, Span), ParseErrorKind>
    ensures taken { IfOk result (λ _. left tokens.new < left tokens.old) }
    ensures made { IfOk result (λ p. ReadsTree (message_at braces (remaining tokens.old))
        (λ m. Makes descriptor.entry (Fills m.1) p.0) (remaining tokens.new)) }
    ensures refused { IfErr result (TrueOf descriptor.entry.pool.now) }
    ensures cause { IfErr result (Refutes (message_at braces (remaining tokens.old))
        (λ m. CannotMake descriptor.entry (Unfit m.1))) }
    ensures told { IfErr result
        (Told (MessageFault braces descriptor.entry (remaining tokens.old))) }
    ensures bytes { IfOk result (λ p. MessageBytes braces (remaining tokens.old) p.1) }
{
    let Some((open, closing)) = tokens.open_brace() else {
        return Err(tokens.refuse("'{' or '<'"));
    };
    if braces == 0 {
        return Err(ParseErrorKind::NestingTooDeep { span: open });
    }
    let mut message = DynamicMessage::new(tokens.alloc, descriptor);
    let close = fields_to_brace(tokens, &mut message, closing, braces - 1)?;
    Ok((message, across(open, close)))
}

/// Fields up to the closing brace, and where that stands.
#[cycle(field)]
fn fields_to_brace(
    tokens: &mut Tokens<'_>,
    message: &mut DynamicMessage<'_>,
    closing: Brace,
    braces: u32,
) -> Result<Span, ParseErrorKind>
    ensures taken { IfOk result (λ _. left tokens.new < left tokens.old) }
    ensures type_stays { message.new.descriptor ≡ message.old.descriptor }
    ensures filled { IfOk result (λ _. ReadsTree
        (fields_at (at_sign (signs.closing closing)) (message_at braces) (remaining tokens.old))
        (λ fs. Fills fs message.old message.new) (remaining tokens.new)) }
    ensures refused { IfErr result (TrueOf message.old.descriptor.pool.now) }
    ensures cause { IfErr result (Refutes
        (fields_at (at_sign (signs.closing closing)) (message_at braces) (remaining tokens.old))
        (λ fs. Unfit fs message.old)) }
    ensures told { IfErr result (Told (BodyFault braces (MessageFault braces) closing message.old
        (remaining tokens.old))) }
    ensures closed { IfOk result (ClosesAt braces closing (remaining tokens.old)) }
{
    'fields: loop {
        if let Some(close) = tokens.eat(closing.sign()) {
            return Ok(close);
        }
        if !tokens.is_at_name() {
            return Err(tokens.refuse(closing.expected()));
        }
        field(tokens, message, braces)?;
    }
}
