//! Laws of texts and of the messages that they give, each the contract of a function that does
//! nothing.
ghost use Rattle.std.specs.Prelude.{◌≡◌, ◌≤◌, ◌<◌, ◌^◌, ◌==◌, ◌↔◌, ℕ, true, false, [], ◌∷◌, Option, Some, option_and_then};
ghost use Rattle.std.specs.List.{filter};
ghost use Rattle.protox_lex.specs.Class.{Text};
ghost use Rattle.protobuf_model.specs.Coded.{SuitsType};
ghost use Rattle.protobuf_model.specs.Types.{Field, Name};
ghost use Rattle.protobuf_model.specs.Values.{Message, nothing};
ghost use Rattle.text_model.specs.Expansions.{HasOneForm};
ghost use Rattle.text_model.specs.Forms.{Form};
ghost use Rattle.text_model.specs.Identifiers.{HaveIdentifiers};
ghost use Rattle.text_model.specs.Plain.{IsPlain};
ghost use Rattle.text_model.specs.Printed.{IsInOrder, printed, printing_order};
ghost use Rattle.text_model.specs.Rendered.{text_of};
ghost use Rattle.text_model.specs.Schemas.{AreNames, HaveNames, Names, Schema, Shape, shape_of};
ghost use Rattle.text_model.specs.Texts.{Gives, IsMerged, Spells};
ghost use Rattle.text_model.specs.Tokens.{fields_tokens, open_braces};
ghost use Rattle.text_model.specs.Tree.{Fields, append};
ghost use Rattle.text_model.specs.Unset.{HaveReadDefaults};
ghost use Rattle.text_model.specs.Value.{value};

/// Tokens are those of one tree at most.
pub fn tokens_spell_one_tree()
    ensures { (a b : Fields) → fields_tokens a ≡ fields_tokens b → a ≡ b }
{}

/// A text spells one tree at most.
pub fn a_text_spells_one_tree()
    ensures { (z : Text) (a b : Fields) → Spells z a → Spells z b → a ≡ b }
{}

/// A text gives one message at most, behind each start.
pub fn a_text_gives_one_message()
    ensures { (w : Schema) (t : Name) (start : Message) (z : Text) (m n : Message)
        → IsMerged w t start z m → IsMerged w t start z n → m ≡ n }
{}

/// Fields, and others behind them, give what the others give behind what the first do.
pub fn fields_are_merged_in_pieces()
    ensures { (w : Schema) (s : Shape) (a b : Fields) (m : Message)
        → value w s (append a b) m ≡ option_and_then (value w s b) (value w s a m) }
{}

/// Fields are printed by ascending number, those that are declared before extensions.
pub fn fields_are_printed_in_order()
    ensures { (form : Form) → form.as_declared ≡ false → (names : Names) (type : ℕ → Option Field)
        → IsInOrder type (printing_order form names type) }
{}

/// Each number that a field may have comes once, also where fields are printed as they are
/// declared.
pub fn each_number_is_printed_once()
    ensures { (form : Form) (names : Names) (type : ℕ → Option Field) → AreNames type names
        → (n : ℕ) → 0 < n → n < 2 ^ 29
        → filter (λ q. q == n) (printing_order form names type) ≡ n ∷ [] }
{}

/// The fields that a message is printed as give the message: with defaults, where what is printed
/// of a field that is not set is read as such; with expansions, where each Any that is expanded
/// holds the one form of a message and nothing else.
pub fn printed_fields_give_the_message()
    ensures { (form : Form) (w : Schema) → HaveNames w
        → (form.defaults ≡ true → HaveReadDefaults w.types)
        → (t : Name) (m : Message) → SuitsType w.types t m → IsPlain w.types t m
        → (form.expands ≡ true → HasOneForm 100 w t m)
        → value w (shape_of w t) (printed form w t m) nothing ≡ Some m }
{}

/// What is written of them is cut into their tokens again, where names are identifiers.
pub fn printed_texts_spell_what_is_printed()
    ensures { (form : Form) (w : Schema) → HaveIdentifiers w
        → (form.defaults ≡ true → HaveReadDefaults w.types)
        → (t : Name) (m : Message) → SuitsType w.types t m → IsPlain w.types t m
        → (form.expands ≡ true → HasOneForm 100 w t m)
        → Spells (text_of form (printed form w t m)) (printed form w t m) }
{}

/// So it gives the message, if no more than 100 braces are open in it at once.
pub fn printed_texts_give_the_message()
    ensures { (form : Form) (w : Schema) → HaveNames w → HaveIdentifiers w
        → (form.defaults ≡ true → HaveReadDefaults w.types)
        → (t : Name) (m : Message) → SuitsType w.types t m → IsPlain w.types t m
        → (form.expands ≡ true → HasOneForm 100 w t m)
        → open_braces (printed form w t m) ≤ 100
        → Gives w t (text_of form (printed form w t m)) m }
{}

/// Two such messages have the same text exactly if they are equal.
pub fn equal_messages_have_equal_texts()
    ensures { (form : Form) (w : Schema) → HaveNames w → HaveIdentifiers w
        → (form.defaults ≡ true → HaveReadDefaults w.types) → (t : Name) (m n : Message)
        → SuitsType w.types t m → IsPlain w.types t m
        → (form.expands ≡ true → HasOneForm 100 w t m)
        → SuitsType w.types t n → IsPlain w.types t n
        → (form.expands ≡ true → HasOneForm 100 w t n)
        → (text_of form (printed form w t m) ≡ text_of form (printed form w t n)) ↔ (m ≡ n) }
{}
