//! Laws of `Schema::encode` and of what `Schema::decode` prints, in the words of the model of
//! texts, each the contract of a function that does nothing. `Encoded s.pool name text out` is what
//! `encode` promises where a schema `s` answers: that the text spells fields of the named type, and
//! `out` is what is written of the message that they make. `IsNoText s.pool name text kind` is what
//! it promises where it refuses a text as one of a known type.
ghost use Rattle.std.specs.Prelude.{◌≡◌, ◌≤◌, ◌<◌, ◌^◌, ℕ, List, length, Option};
ghost use Rattle.protobuf_model.specs.Bytes.{bytes_of};
ghost use Rattle.protobuf_model.specs.Coded.{Mean};
ghost use Rattle.protobuf_model.specs.Types.{Name};
ghost use Rattle.protobuf_model.specs.Values.{Message};
ghost use Rattle.reflect_pool.specs.Dots.{without_dot};
ghost use Rattle.reflect_wire.specs.Written.{AreBytes};
ghost use Rattle.text_error.specs.declared.error.ParseErrorKind.{ParseErrorKind};
ghost use Rattle.text_model.specs.Plain.{IsPlain};
ghost use Rattle.text_model.specs.Printed.{printed};
ghost use Rattle.text_model.specs.Rendered.{compact};
ghost use Rattle.text_model.specs.Texts.{Gives};
ghost use Rattle.text_model.specs.Tokens.{open_braces};
ghost use Rattle.message_view.specs.Types.{types_of};
ghost use Rattle.text_view.specs.Schemas.{schema_of};
ghost use Rattle.text_view.specs.SourceNames.{HasSourceNames};
ghost use Rattle.print_view.specs.Forms.{own_form};
ghost use Rattle.schema_core.specs.Payloads.{Decoded, Encoded, Recoded};
ghost use Rattle.schema_core.specs.Refusals.{BytesRefused, IsNoText, TextRefused};
ghost use Rattle.schema_core.specs.declared.error.SchemaError.{SchemaError};
ghost use Rattle.schema_core.specs.declared.error.SchemaError.TheVariants.{Memory};
ghost use Rattle.schema_core.specs.declared.schema.Schema.{Schema};
ghost use Rattle.schema_laws.specs.Reprints.{IsShallow};

/// What a schema encodes a text to is the one form of the message that the text gives.
pub fn encoded_texts_give_their_messages()
    ensures { (s : Schema) (decoded : Name → List ℕ → Option Message) (name text out : List ℕ)
        → Encoded s.pool name text out
        → (m : Message) × Gives (schema_of s.pool decoded) (without_dot name) text m
        × (out ≡ bytes_of (types_of s.pool) (without_dot name) m) }
{}

/// A text that a schema refuses as one of a known type gives no message.
pub fn refused_texts_give_no_message()
    ensures { (s : Schema) (decoded : Name → List ℕ → Option Message) (name text : List ℕ)
        (kind : ParseErrorKind) → IsNoText s.pool name text kind
        → (m : Message) → Gives (schema_of s.pool decoded) (without_dot name) text m → ⊥ }
{}

/// A text is encoded in one way.
pub fn texts_have_one_encoding()
    ensures { (s : Schema) (name text a b : List ℕ)
        → Encoded s.pool name text a → Encoded s.pool name text b → a ≡ b }
{}

/// What a schema prints of bytes is the compact text of the tree of the message that they mean.
pub fn decoded_bytes_are_printed_as_they_mean()
    ensures { (s : Schema) (decoded : Name → List ℕ → Option Message) (name bytes text : List ℕ)
        → AreBytes bytes → Decoded s.pool name bytes text
        → (m : Message) × Mean (types_of s.pool) (without_dot name) bytes m
        × (text ≡ compact (printed own_form (schema_of s.pool decoded) (without_dot name) m)) }
{}

/// That text encodes to what the bytes are recoded to, where the names of the types are spelled as
/// in sources, no record is without a field, and no more than 100 braces are open in the text at
/// once.
pub fn printed_texts_encode_to_the_recoded_bytes()
    ensures { (s : Schema) (decoded : Name → List ℕ → Option Message)
        → HasSourceNames s.pool → (name bytes text out again : List ℕ) → AreBytes bytes
        → Decoded s.pool name bytes text → Recoded s.pool name bytes out
        → (m : Message) → Mean (types_of s.pool) (without_dot name) bytes m
        → IsPlain (types_of s.pool) (without_dot name) m
        → open_braces (printed own_form (schema_of s.pool decoded) (without_dot name) m) ≤ 100
        → Encoded s.pool name text again → again ≡ out }
{}

/// And it is refused for want of memory alone.
pub fn printed_texts_are_taken()
    ensures { (s : Schema) (decoded : Name → List ℕ → Option Message)
        → HasSourceNames s.pool → (name bytes text : List ℕ) → AreBytes bytes
        → Decoded s.pool name bytes text
        → (m : Message) → Mean (types_of s.pool) (without_dot name) bytes m
        → IsPlain (types_of s.pool) (without_dot name) m
        → open_braces (printed own_form (schema_of s.pool decoded) (without_dot name) m) ≤ 100
        → (e : SchemaError) → TextRefused s.pool name text e → e ≡ Memory }
{}

/// What a schema encodes, its type accepts, and it means the message that the text gives, where it
/// is no more than a length can say.
pub fn encoded_bytes_are_accepted()
    ensures { (s : Schema) (decoded : Name → List ℕ → Option Message) (name text out : List ℕ)
        → Encoded s.pool name text out → length out < 2 ^ 64
        → (m : Message) × Gives (schema_of s.pool decoded) (without_dot name) text m
        × Mean (types_of s.pool) (without_dot name) out m }
{}

/// So what a schema encoded it refuses, as bytes of the same type, for want of memory alone.
pub fn encoded_bytes_are_decoded()
    ensures { (s : Schema) (name text out : List ℕ) → Encoded s.pool name text out
        → length out < 2 ^ 64 → (e : SchemaError) → BytesRefused s.pool name out e → e ≡ Memory }
{}

/// Where names are spelled as in sources, what a schema prints of the bytes that it encoded a text
/// to encodes to these bytes again, and is refused for want of memory alone, if no more than 100
/// braces are open in it at once.
pub fn reprinted_texts_encode_to_the_same_bytes()
    ensures same { (s : Schema) (decoded : Name → List ℕ → Option Message)
        → HasSourceNames s.pool → (name text out reprint again : List ℕ) → AreBytes text
        → Encoded s.pool name text out → length out < 2 ^ 64 → Decoded s.pool name out reprint
        → IsShallow (schema_of s.pool decoded) (without_dot name) text
        → Encoded s.pool name reprint again → again ≡ out }
    ensures taken { (s : Schema) (decoded : Name → List ℕ → Option Message)
        → HasSourceNames s.pool → (name text out reprint : List ℕ) → AreBytes text
        → Encoded s.pool name text out → length out < 2 ^ 64 → Decoded s.pool name out reprint
        → IsShallow (schema_of s.pool decoded) (without_dot name) text
        → (e : SchemaError) → TextRefused s.pool name reprint e → e ≡ Memory }
{}
