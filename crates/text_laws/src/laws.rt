//! Laws of the messages that texts give, each the contract of a function that does nothing.
ghost use Rattle.std.specs.Prelude.{◌<◌, ◌^◌, length};
ghost use Rattle.std.specs.List.{AllByRecursion};
ghost use Rattle.protox_lex.specs.Class.{Text};
ghost use Rattle.protobuf_model.specs.Bytes.{bytes_of};
ghost use Rattle.protobuf_model.specs.Coded.{Mean, SuitsType};
ghost use Rattle.protobuf_model.specs.Types.{Name};
ghost use Rattle.protobuf_model.specs.Values.{Message};
ghost use Rattle.text_model.specs.Plain.{IsPlain};
ghost use Rattle.text_model.specs.Schemas.{Schema};
ghost use Rattle.text_model.specs.Texts.{Gives, IsMerged};
ghost use Rattle.text_laws.specs.SoundTypes.{HasSoundTypes, HaveSmallDefaults};

/// A message that a text gives suits its type.
pub fn given_messages_suit_their_type()
    ensures { (w : Schema) → HasSoundTypes w → (t : Name) (z : Text) (m : Message)
        → Gives w t z m → SuitsType w.types t m }
{}

/// So does one that a text gives behind a start that does.
pub fn merged_messages_suit_their_type()
    ensures { (w : Schema) → HasSoundTypes w → (t : Name) (start m : Message) (z : Text)
        → SuitsType w.types t start → IsMerged w t start z m → SuitsType w.types t m }
{}

/// A message that a text gives keeps no record, and it holds bytes where the text and the defaults
/// of maps do.
pub fn given_messages_are_plain()
    ensures { (w : Schema) → HasSoundTypes w → HaveSmallDefaults w.types
        → (t : Name) (z : Text) (m : Message) → AllByRecursion (λ b. b < 256) z
        → Gives w t z m → IsPlain w.types t m }
{}

/// The bytes of a message that a text gives mean the message, where they are no more than a length
/// can say.
pub fn given_messages_have_bytes()
    ensures { (w : Schema) → HasSoundTypes w → (t : Name) (z : Text) (m : Message)
        → Gives w t z m → length (bytes_of w.types t m) < 2 ^ 64
        → Mean w.types t (bytes_of w.types t m) m }
{}
