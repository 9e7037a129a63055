//! Laws of messages of which a type knows all, each the contract of a function that does nothing.
ghost use Rattle.std.specs.Prelude.{◌≡◌, ◌<◌, ◌^◌, ℕ, List, [], None, length};
ghost use Rattle.known_messages.specs.KnownMessages.{AreFormOf, KnowsAll};
ghost use Rattle.protobuf_model.specs.Bytes.{bytes_of};
ghost use Rattle.protobuf_model.specs.Coded.{IsRecoded, Mean, SuitsType};
ghost use Rattle.protobuf_model.specs.Older.{IsOlder};
ghost use Rattle.protobuf_model.specs.Types.{Name, Types};
ghost use Rattle.protobuf_model.specs.Values.{Message, nothing};
ghost use Rattle.text_model.specs.Plain.{IsPlain};

/// A message that suits a type which knows all of it suits each newer type, which knows all of it
/// too and writes it in the same bytes.
pub fn newer_types_write_known_messages_alike()
    ensures { (old new : Types) (t u : Name) (m : Message) → IsOlder old t new u
        → SuitsType old t m → KnowsAll old t m
        → SuitsType new u m × KnowsAll new u m × (bytes_of new u m ≡ bytes_of old t m) }
{}

/// So bytes that the one writes of such a message the other does.
pub fn written_bytes_stay_as_types_grow()
    ensures { (old new : Types) (t u : Name) (m : Message) (bytes : List ℕ) → IsOlder old t new u
        → AreFormOf old t m bytes → AreFormOf new u m bytes }
{}

/// They mean the message, and nothing else, and are recoded to themselves, where they are no more
/// than a length can say.
pub fn written_bytes_are_recoded_to_themselves()
    ensures mean { (types : Types) (t : Name) (m : Message) (bytes : List ℕ)
        → AreFormOf types t m bytes → length bytes < 2 ^ 64 → Mean types t bytes m }
    ensures recoded { (types : Types) (t : Name) (m : Message) (bytes : List ℕ)
        → AreFormOf types t m bytes → length bytes < 2 ^ 64 → IsRecoded types t bytes bytes }
{}

/// No bytes are those of the message in which nothing is set, and of a type without fields no
/// others are such.
pub fn nothing_is_written_in_no_bytes()
    ensures none { (types : Types) (t : Name) → AreFormOf types t nothing [] }
    ensures only { (types : Types) (t : Name) (m : Message) (bytes : List ℕ)
        → ((n : ℕ) → types t n ≡ None) → AreFormOf types t m bytes → (m ≡ nothing) × (bytes ≡ []) }
{}

/// Of what is plain to texts its type knows all.
pub fn plain_messages_are_known()
    ensures { (types : Types) (t : Name) (m : Message) → IsPlain types t m → KnowsAll types t m }
{}
