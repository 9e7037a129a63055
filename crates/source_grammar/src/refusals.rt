//! At which token each rule of the parser tells its fault, as contracts of functions that do
//! nothing.
//!
//! `TellsFirst rule` says that a token which is not expected is the first with which nothing goes
//! on: with other tokens behind them those before it are read to the end, and with this one nothing
//! is that begins so. All tokens of what ends too early begin what is read.
ghost use Rattle.protox_aggregates.specs.AggregateGrammar.{aggregate};
ghost use Rattle.protox_declarations.specs.EnumGrammar.{enumeration};
ghost use Rattle.protox_declarations.specs.ServiceGrammar.{service};
ghost use Rattle.protox_fields.specs.FieldGrammar.{extensions};
ghost use Rattle.protox_file.specs.FileGrammar.{file};
ghost use Rattle.protox_messages.specs.MessageGrammar as rules;
ghost use Rattle.protox_messages.specs.MessageGrammar.{extend_with, message_with};
ghost use Rattle.protox_options.specs.NameGrammar.{an_int, full_ident, strings, type_name};
ghost use Rattle.protox_options.specs.OptionGrammar.{option};
ghost use Rattle.protox_options.specs.RangeGrammar.{reserved};
ghost use Rattle.source_grammar.specs.Refusals.{TellsFirst, TellsFirstInBlocks};
ghost use Rattle.std.specs.Prelude.{suc, ℕ};

/// Names, numbers and strings are refused at the first token with which nothing goes on.
pub fn names_are_refused_at_the_first_such_token()
    ensures full { TellsFirst full_ident }
    ensures types { TellsFirst type_name }
    ensures integers { TellsFirst an_int }
    ensures string { TellsFirst strings }
{}

/// So are statements that nothing nests in, and values in braces.
pub fn statements_are_refused_at_the_first_such_token()
    ensures braces { TellsFirst aggregate }
    ensures options { TellsFirst option }
    ensures ranges { TellsFirst reserved }
    ensures extension { TellsFirst extensions }
    ensures enums { TellsFirst enumeration }
    ensures services { TellsFirst service }
{}

/// So are messages and `extend` statements in which so many braces may be open at once, or else a
/// word `message` or `group` in them is that token.
pub fn messages_are_refused_at_the_first_such_token()
    ensures messages { (n : ℕ) → TellsFirstInBlocks (message_with (rules.block (suc n))) }
    ensures extends { (n : ℕ) → TellsFirstInBlocks (extend_with (rules.block (suc n))) }
{}

/// A file is refused at the first token with which no file goes on: the tokens before that one
/// begin a file, and with that one they begin none; and all tokens of one that ends too early begin
/// a file. Or else a word `message` or `group` before the fault is that token, as where 31 braces
/// are open, since behind it one more has to be.
pub fn files_are_refused_at_the_first_such_token()
    ensures { TellsFirstInBlocks file }
{}
