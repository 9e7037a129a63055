//! Laws of options that are given in braces, each the contract of a function that does nothing.
//! `SetsAll` says of options that they are set one behind another, `LeadsAlong` of the parts of a
//! name that they lead along numbers to a field of one message, `ListsEach` of options that each of
//! them leads to a list of messages and is given with the next of some texts, or keeps clear of it,
//! and `held_along` is what stands under the last of the numbers.
ghost use Rattle.std.specs.Prelude.{◌≡◌, ◌∷◌, ◌++◌, false, ℕ, ℤ, List, Option, Some};
ghost use Rattle.std.specs.List.{AllByRecursion};
ghost use Rattle.descriptor_records.specs.Content.{NameContent, OptionContent};
ghost use Rattle.print_parts.specs.Pairwise.{Pairwise};
ghost use Rattle.protobuf_model.specs.Types.{Name};
ghost use Rattle.protobuf_model.specs.Values.{Message, content, message};
ghost use Rattle.protox_lex.specs.Class.{Text};
ghost use Rattle.stored_options.specs.Braces.{KeepsOff, LeadsAlong, ListsEach, held_along};
ghost use Rattle.stored_options.specs.Braces.{with_messages};
ghost use Rattle.stored_options.specs.SetOptions.{SetsAll, leads_by};
ghost use Rattle.text_model.specs.Schemas.{Schema};
ghost use Rattle.text_model.specs.Texts.{Gives};

/// What an option in braces holds is the message that the text in its braces gives, behind all the
/// options among which it is set, where those behind it keep off. A field of a list holds, behind
/// what was there before, one message for each option that leads there, in their order, each what
/// the text in its braces gives, where all others keep off, and those in front of the first off the
/// messages around the list too. Where none leads there, it holds what it held.
pub fn options_in_braces_hold_what_their_text_gives()
    ensures message { (w : Schema) (lead : Name → NameContent → Option ℕ) (t u : Name)
        (front back : List OptionContent) (o : OptionContent) (old m : Message)
        (paths : List (List ℤ)) (ns : List ℕ) (z : Text)
        → SetsAll w (leads_by lead) t (front ++ (o ∷ back)) old m paths
        → LeadsAlong w (leads_by lead) t o.name ns u → o.aggregate_value ≡ Some z
        → AllByRecursion (λ (x : OptionContent). KeepsOff w (leads_by lead) t ns x.name) back
        → (x : Message) × Gives w u z x × (held_along ns m ≡ content (message x)) }
    ensures list { (w : Schema) (lead : Name → NameContent → Option ℕ) (t u : Name)
        (os : List OptionContent) (old m : Message) (paths : List (List ℤ)) (ns : List ℕ)
        (zs : List Text) → SetsAll w (leads_by lead) t os old m paths
        → ListsEach w (leads_by lead) t ns u false os zs
        → (xs : List Message) × Pairwise (Gives w u) zs xs
        × (held_along ns m ≡ with_messages (held_along ns old) xs) }
{}
