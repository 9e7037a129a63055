//! Laws of what options set, each the contract of a function that does nothing.
//! `SetsAll w (leads_by lead) t os old new paths` says that the options `os`, one behind another,
//! lead from a message `old` of the type `t` of the schema `w` to `new`, each along its path; `lead`
//! gives the number that a part of a name leads to in a message of a type.
ghost use Rattle.std.specs.Prelude.{◌≡◌, ℕ, ℤ, List, Bool, true, Option};
ghost use Rattle.descriptor_records.specs.Content.{NameContent, OptionContent};
ghost use Rattle.texts_view.specs.SaysAll.{HaveEntryValues, SaysAll};
ghost use Rattle.known_messages.specs.KnownMessages.{KnowsAll};
ghost use Rattle.stored_options.specs.SetOptions.{SetsAll, leads_by};
ghost use Rattle.protobuf_model.specs.Types.{Name};
ghost use Rattle.protobuf_model.specs.Values.{Message};
ghost use Rattle.text_model.specs.Schemas.{Schema};

/// Options set one message, along the same paths.
pub fn options_set_one_message()
    ensures message { (w : Schema) (lead : Name → NameContent → Option ℕ) (t : Name)
        (os : List OptionContent) (old new other : Message) (paths others : List (List ℤ))
        → SetsAll w (leads_by lead) t os old new paths
        → SetsAll w (leads_by lead) t os old other others → new ≡ other }
    ensures paths { (w : Schema) (lead : Name → NameContent → Option ℕ) (t : Name)
        (os : List OptionContent) (old new other : Message) (paths others : List (List ℤ))
        → SetsAll w (leads_by lead) t os old new paths
        → SetsAll w (leads_by lead) t os old other others → paths ≡ others }
{}

/// What they set of a type that a schema declares they set too where another schema says all that
/// this one does and their names lead to the same numbers.
pub fn options_set_the_same_as_schemas_grow()
    ensures { (old_schema new_schema : Schema) (declared : Name → Bool)
        (lead : Name → NameContent → Option ℕ)
        → SaysAll old_schema new_schema declared → HaveEntryValues old_schema
        → (t : Name) → declared t ≡ true
        → (os : List OptionContent) (old new : Message) (paths : List (List ℤ))
        → SetsAll old_schema (leads_by lead) t os old new paths
        → SetsAll new_schema (leads_by lead) t os old new paths }
{}

/// Where the type knows all of the message before, it knows all of the one behind.
pub fn set_options_are_known()
    ensures { (w : Schema) (lead : Name → NameContent → Option ℕ) → HaveEntryValues w
        → (t : Name) (os : List OptionContent) (old new : Message) (paths : List (List ℤ))
        → KnowsAll w.types t old → SetsAll w (leads_by lead) t os old new paths
        → KnowsAll w.types t new }
{}
