//! What each rule of the parser reads, as contracts of functions that do nothing.
//!
//! `ReadsExactly rule language behind` says both ways that the rule reads a value off tokens, and
//! leaves the others, exactly where the tokens that it takes are of the value's language and
//! `behind` holds of the others. The languages are those of the specification, one production each.
ghost use Rattle.protox_aggregates.specs.AggregateGrammar.{aggregate};
ghost use Rattle.protox_declarations.specs.EnumGrammar.{enumeration};
ghost use Rattle.protox_declarations.specs.ServiceGrammar.{service};
ghost use Rattle.protox_fields.specs.FieldGrammar.{extensions, ty};
ghost use Rattle.protox_file.specs.FileGrammar as files;
ghost use Rattle.protox_file.specs.Sources.{Spells};
ghost use Rattle.protox_laws.specs.Unplaced.{unplaced};
ghost use Rattle.protox_lex.specs.Class.{Text};
ghost use Rattle.protox_messages.specs.MessageGrammar as rules;
ghost use Rattle.protox_messages.specs.MessageGrammar.{extend_with, message_with};
ghost use Rattle.protox_options.specs.NameGrammar.{an_int, full_ident, strings, type_name};
ghost use Rattle.protox_options.specs.OptionGrammar as lists;
ghost use Rattle.protox_options.specs.OptionGrammar.{option, value};
ghost use Rattle.protox_options.specs.RangeGrammar.{range, reserved};
ghost use Rattle.protox_tokens.specs.Stream.{Stream};
ghost use Rattle.protox_tree.specs.FileTree.{File};
ghost use Rattle.source_grammar.specs.Aggregates.{an_aggregate};
ghost use Rattle.source_grammar.specs.Enums.{an_enum};
ghost use Rattle.source_grammar.specs.Fields.{TyEnds, a_type, an_extensions};
ghost use Rattle.source_grammar.specs.Files.{IsSpelledBy, a_file, a_package, an_import};
ghost use Rattle.source_grammar.specs.Languages.{Anything, ReadsExactly};
ghost use Rattle.source_grammar.specs.Messages.{a_message, an_extend, block};
ghost use Rattle.source_grammar.specs.Names.{
  NoDot,
  NoString,
  a_string,
  a_type_name,
  full_name,
  integer,
};
ghost use Rattle.source_grammar.specs.Options.{
  ConstantEnds,
  NoBracket,
  a_constant,
  an_option,
  options,
};
ghost use Rattle.source_grammar.specs.Ranges.{NoEnd, a_range, a_reserved};
ghost use Rattle.source_grammar.specs.SameTokens.{HaveSameTokens};
ghost use Rattle.source_grammar.specs.Services.{a_service};
ghost use Rattle.std.specs.Prelude.{◌≡◌, ◌↔◌, [], ℕ};

/// Names, and types' names, are words with dots between them.
pub fn names_are_read_as_they_are_spelled()
    ensures full { ReadsExactly full_ident full_name NoDot }
    ensures types { ReadsExactly type_name a_type_name NoDot }
{}

/// An integer is its digits, and a minus before them where it is negative.
pub fn integers_are_read_as_they_are_spelled()
    ensures { ReadsExactly an_int integer Anything }
{}

/// A string is one literal or more.
pub fn strings_are_read_as_they_are_spelled()
    ensures { ReadsExactly strings a_string NoString }
{}

/// A `reserved` statement is ranges or names with commas between them. A range is a number, and
/// behind the word `to` its end.
pub fn ranges_are_read_as_they_are_spelled()
    ensures range { ReadsExactly range a_range NoEnd }
    ensures reserved { ReadsExactly reserved a_reserved Anything }
{}

/// A value in braces is fields of text format, with braces of a hundred levels in them at most, and
/// the text that is kept of it is that of their tokens.
pub fn values_in_braces_are_read_as_they_are_spelled()
    ensures { ReadsExactly aggregate (λ x. an_aggregate x.0 x.1) Anything }
{}

/// An option is a name and a value. It stands in a statement, or with others in brackets.
pub fn options_are_read_as_they_are_spelled()
    ensures value { ReadsExactly value a_constant ConstantEnds }
    ensures statement { ReadsExactly option an_option Anything }
    ensures list { ReadsExactly lists.options options NoBracket }
{}

/// An enum is a name and statements in braces, of which those that no word begins are its values.
pub fn enums_are_read_as_they_are_spelled()
    ensures { ReadsExactly enumeration an_enum Anything }
{}

/// A service is a name, and options and methods in braces.
pub fn services_are_read_as_they_are_spelled()
    ensures { ReadsExactly service a_service Anything }
{}

/// A type is one of the scalar types' words, or a name that begins with another word or a dot. The
/// statement `extensions` is ranges, and options behind them.
pub fn types_are_read_as_they_are_spelled()
    ensures types { ReadsExactly ty a_type TyEnds }
    ensures extensions { ReadsExactly extensions an_extensions Anything }
{}

/// A message is a name and what may stand in it, and an `extend` statement a type's name and
/// fields, with at most so many braces of messages and groups open at once.
pub fn messages_are_read_as_they_are_spelled()
    ensures messages { (n : ℕ)
        → ReadsExactly (message_with (rules.block n)) (a_message (block n)) Anything }
    ensures extends { (n : ℕ)
        → ReadsExactly (extend_with (rules.block n)) (an_extend (block n)) Anything }
{}

/// An import is a string, before which `weak` or `public` may stand, and a package a name.
pub fn imports_and_packages_are_read_as_they_are_spelled()
    ensures imports { ReadsExactly files.an_import an_import Anything }
    ensures packages { ReadsExactly files.a_package a_package Anything }
{}

/// A text spells a tree exactly where its tokens are those of the tree.
pub fn sources_are_read_as_they_are_spelled()
    ensures { (z : Text) (tree : File) → Spells z tree ↔ IsSpelledBy tree z }
{}

/// Tokens are those of one tree at most: the grammar is not ambiguous.
pub fn tokens_are_those_of_one_tree()
    ensures { (ts : Stream) (a b : File) → a_file a ts [] → a_file b ts [] → a ≡ b }
{}

/// Sources with the same tokens, whatever stands between them, spell the same trees, but for
/// places.
pub fn sources_of_the_same_tokens_spell_the_same()
    ensures { (z w : Text) (t u : File) → HaveSameTokens z w → IsSpelledBy t z → IsSpelledBy u w
        → unplaced t ≡ unplaced u }
{}
