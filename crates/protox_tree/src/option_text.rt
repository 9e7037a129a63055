//! How the values of options print.

ghost use Rattle.std.specs.Fmt.{WritesOnOk};
ghost use Rattle.std.specs.Prelude.{Some, map};
ghost use Rattle.protox_tree.specs.TreeTexts as texts;
ghost use Rattle.protox_tree.specs.View.{literal_view, strings_view, value_view};

use crate::option::OptionValue;
use crate::text::Strings;
use protox_lex::String as Literal;
use std::fmt;

/// The value's tokens, with one space between each two.
impl fmt::Display for OptionValue {
    ghost output = { λ v. Some (texts.value_text (value_view v)) };

    fn fmt<W: fmt::Write>(&self, f: &mut fmt::Formatter<W>) -> fmt::Result {
        match self {
            OptionValue::Ident(ident) => write!(f, "{ident}"),
            OptionValue::NegativeWord(ident) => write!(f, "- {ident}"),
            OptionValue::Int(int) => {
                write_sign(f, int.negative)?;
                write!(f, "{}", int.value)
            }
            OptionValue::Float { negative, number } => {
                write_sign(f, *negative)?;
                f.write_str(number.text.as_str())
            }
            OptionValue::String(strings) => write_strings(f, strings),
            OptionValue::Aggregate(aggregate) if aggregate.text.as_str().is_empty() => {
                f.write_str("{ }")
            }
            OptionValue::Aggregate(aggregate) => write!(f, "{{ {} }}", aggregate.text),
        }
    }
}

fn write_sign<W: fmt::Write>(f: &mut fmt::Formatter<W>, negative: bool) -> fmt::Result
    ensures { WritesOnOk W.write_str_gives f.old result (texts.sign_text negative) f.new }
{
    f.write_str(if negative { "- " } else { "" })
}

fn write_strings<W: fmt::Write>(f: &mut fmt::Formatter<W>, strings: &Strings) -> fmt::Result
    ensures { WritesOnOk W.write_str_gives f.old result
        (texts.spaced (map texts.literal_text (strings_view strings.now))) f.new }
{
    if let Some((first, others)) = strings.literals().split_first() {
        write_literal(f, first)?;
        'others: for literal in others {
            f.write_str(" ")?;
            write_literal(f, literal)?;
        }
    }
    Ok(())
}

fn write_literal<W: fmt::Write>(f: &mut fmt::Formatter<W>, literal: &Literal) -> fmt::Result
    ensures { WritesOnOk W.write_str_gives f.old result
        (texts.literal_text (literal_view literal.now)) f.new }
{
    write!(f, "\"{literal}\"")
}
