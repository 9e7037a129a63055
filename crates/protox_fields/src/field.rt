//! Fields that nothing nests in, and what all fields have.

ghost use Rattle.std.specs.Prelude.{◌≡◌, ◌<◌, ◌≤◌, OnOk, Ok, option_map};
ghost use Rattle.protox_fields.specs.FieldGrammar as spec;
ghost use Rattle.protox_fields.specs.PlainView.{plain_view};
ghost use Rattle.protox_tokens.specs.Left.{left};
ghost use Rattle.protox_tokens.specs.Reads.{Reads};
ghost use Rattle.protox_tokens.specs.Stream.{stream};
ghost use Rattle.protox_tree.specs.NestView.{map_view, kind_view, extensions_view, field_view};
ghost use Rattle.protox_tree.specs.View.{ident_view, option_list_view, ty_view};

use descriptor_records::Label;
use protox_lex::{Int, Sign, Span, token};
use protox_options::{int, options, parts_after, ranges};
use protox_tokens::{Stop, Tokens, across};
use protox_tree::{Extensions, Field, FieldKind, Ident, Map, OptionList, Ty, TypeName};
use std::alloc::Global;

/// The type of a field that nothing nests in.
#[derive(Drop)]
enum PlainKind {
    Normal(Ty),
    Map(Map),
}

impl PlainKind {
    fn into_kind(self) -> FieldKind
        ensures { kind_view result ≡ plain_view self }
    {
        match self {
            PlainKind::Normal(ty) => FieldKind::Normal(ty),
            PlainKind::Map(map) => FieldKind::Map(map),
        }
    }
}

/// The type of a field: the word of a scalar type is always that type.
#[tactic(auto, unfolding(crate::specs::FieldGrammar::ty))]
fn ty<'a>(alloc: Global, tokens: &mut Tokens<'a>) -> Result<Ty, Stop<'a>>
    ensures reads { Reads ty_view (spec.ty (stream tokens.old)) result tokens.new }
    ensures moves { OnOk result (left tokens.new < left tokens.old) }
{
    let leading_dot = tokens.eat_sign(Sign::Dot);
    let first = tokens.ident(alloc)?;
    if leading_dot.is_none() {
        if let Some(scalar) = Ty::scalar(first.value.as_str()) {
            return Ok(Ty::Scalar(scalar, first.span));
        }
    }
    let name = parts_after(alloc, tokens, first)?;
    Ok(Ty::Named(TypeName { leading_dot, name }))
}

/// A map's types, behind its opening bracket, and the closing one.
fn map<'a>(alloc: Global, tokens: &mut Tokens<'a>, first: Span) -> Result<Map, Stop<'a>>
    ensures reads { Reads map_view (spec.map_type first (stream tokens.old)) result tokens.new }
    ensures moves { OnOk result (left tokens.new < left tokens.old) }
{
    let key = ty(alloc, tokens)?;
    tokens.expect_sign(Sign::Comma)?;
    let value = ty(alloc, tokens)?;
    let close = tokens.expect_sign(Sign::RightAngleBracket)?;
    Ok(Map {
        key,
        value,
        span: across(first, close),
    })
}

/// Where a type begins with the word `map`: that begins a map before `<` alone.
#[tactic(auto, unfolding(crate::specs::FieldGrammar::map_or_name))]
fn map_or_name<'a>(alloc: Global, tokens: &mut Tokens<'a>) -> Result<PlainKind, Stop<'a>>
    ensures reads { Reads plain_view (spec.map_or_name (stream tokens.old)) result tokens.new }
    ensures moves { OnOk result (left tokens.new < left tokens.old) }
{
    let first = tokens.ident(alloc)?;
    if tokens.eat_sign(Sign::LeftAngleBracket).is_some() {
        let map = map(alloc, tokens, first.span)?;
        return Ok(PlainKind::Map(map));
    }
    let name = parts_after(alloc, tokens, first)?;
    Ok(PlainKind::Normal(Ty::Named(TypeName {
        leading_dot: None,
        name,
    })))
}

/// A field's type.
fn field_type<'a>(alloc: Global, tokens: &mut Tokens<'a>) -> Result<PlainKind, Stop<'a>>
    ensures reads { Reads plain_view (spec.field_type (stream tokens.old)) result tokens.new }
    ensures moves { OnOk result (left tokens.new < left tokens.old) }
{
    if tokens.sees(token::MAP) {
        return map_or_name(alloc, tokens);
    }
    let ty = ty(alloc, tokens)?;
    Ok(PlainKind::Normal(ty))
}

/// The label of a field, if it has one.
#[tactic(auto, unfolding(crate::specs::FieldGrammar::label))]
pub fn label(tokens: &mut Tokens<'_>) -> Option<(Label, Span)>
    ensures reads { spec.label (stream tokens.old) ≡ Ok (result, stream tokens.new) }
    ensures moves { left tokens.new ≤ left tokens.old }
{
    if let Some(span) = tokens.eat(token::OPTIONAL) {
        return Some((Label::Optional, span));
    }
    if let Some(span) = tokens.eat(token::REQUIRED) {
        return Some((Label::Required, span));
    }
    if let Some(span) = tokens.eat(token::REPEATED) {
        return Some((Label::Repeated, span));
    }
    None
}

/// The statement `extensions .. ;`.
pub fn extensions<'a>(alloc: Global, tokens: &mut Tokens<'a>) -> Result<Extensions, Stop<'a>>
    ensures reads { Reads extensions_view (spec.extensions (stream tokens.old)) result tokens.new }
    ensures moves { OnOk result (left tokens.new < left tokens.old) }
{
    let first = tokens.expect(token::EXTENSIONS)?;
    let ranges = ranges(alloc, tokens)?;
    let options = options(alloc, tokens)?;
    let close = tokens.expect_sign(Sign::Semicolon)?;
    Ok(Extensions {
        ranges,
        options,
        span: across(first, close),
    })
}

/// What each field and each group has: a name, a number and the options behind it.
pub fn numbered_name<'a>(
    alloc: Global,
    tokens: &mut Tokens<'a>,
) -> Result<(Ident, Int, Option<OptionList>), Stop<'a>>
    ensures reads { Reads (λ x. (ident_view x.0, x.1, option_map option_list_view x.2))
        (spec.numbered_name (stream tokens.old)) result tokens.new }
    ensures moves { OnOk result (left tokens.new < left tokens.old) }
{
    let name = tokens.ident(alloc)?;
    tokens.expect_sign(Sign::Equals)?;
    let number = int(tokens)?;
    let options = options(alloc, tokens)?;
    Ok((name, number, options))
}

/// A field or a map behind its label. The label, if there is one, began at `start`; the field
/// begins there.
pub fn plain_field<'a>(
    alloc: Global,
    tokens: &mut Tokens<'a>,
    start: Span,
    label: Option<(Label, Span)>,
) -> Result<Field, Stop<'a>>
    ensures reads { Reads field_view (spec.plain_field start label (stream tokens.old))
        result tokens.new }
    ensures moves { OnOk result (left tokens.new < left tokens.old) }
{
    let kind = field_type(alloc, tokens)?;
    let (name, number, options) = numbered_name(alloc, tokens)?;
    let last = tokens.expect_sign(Sign::Semicolon)?;
    Ok(Field {
        label,
        kind: kind.into_kind(),
        name,
        number,
        options,
        span: across(start, last),
    })
}
