//! Laws of `Schema::decode` and `Schema::recode`, each the contract of a function that does
//! nothing. `Decoded s.pool name bytes text` and `Recoded s.pool name bytes out` are what these
//! calls promise where a schema `s` answers: that the bytes spell a message of the named type, that
//! `text` is what is printed of it, and `out` what is written of it. `IsNoMessage s.pool name bytes
//! e` is what they promise where they refuse bytes as a message of a known type.
ghost use Rattle.std.specs.Prelude.{◌≡◌, ◌<◌, ◌^◌, ◌↔◌, ℕ, List, length, map};
ghost use Rattle.protobuf_model.specs.Coded.{AreOlderThan, IsAccepted, IsRecoded, Mean};
ghost use Rattle.protobuf_model.specs.Older.{IsOlder};
ghost use Rattle.protobuf_model.specs.Values.{Message};
ghost use Rattle.reflect_pool.specs.Dots.{without_dot};
ghost use Rattle.reflect_wire.specs.Written.{AreBytes};
ghost use Rattle.reflect_wire.specs.declared.wire_error.WireError.{WireError};
ghost use Rattle.message_view.specs.Sound.{IsSound};
ghost use Rattle.message_view.specs.Types.{types_of};
ghost use Rattle.schema_core.specs.Payloads.{Decoded, Recoded};
ghost use Rattle.schema_core.specs.Refusals.{BytesRefused, IsKnown, IsNoMessage};
ghost use Rattle.schema_core.specs.declared.error.SchemaError.{SchemaError};
ghost use Rattle.schema_core.specs.declared.error.SchemaError.TheVariants.{Memory};
ghost use Rattle.schema_core.specs.declared.schema.Schema.{Schema};
ghost use Rattle.schema_laws.specs.Schemas.{RecodedThrough, SchemaType, type_of};

/// The types of a schema are sound, whatever was added to it and refused.
pub fn schemas_are_sound()
    ensures { (s : Schema) → IsSound s.pool }
{}

/// The type accepts bytes that a schema decodes.
pub fn decoded_bytes_are_accepted()
    ensures { (s : Schema) (name bytes text : List ℕ) → AreBytes bytes
        → Decoded s.pool name bytes text
        → IsAccepted (types_of s.pool) (without_dot name) bytes }
{}

/// The type accepts no bytes that a schema refuses as a message of it.
pub fn refused_bytes_are_not_accepted()
    ensures { (s : Schema) (name bytes : List ℕ) (e : WireError)
        → IsNoMessage s.pool name bytes e
        → IsAccepted (types_of s.pool) (without_dot name) bytes → ⊥ }
{}

/// What a schema recodes is the one form of what the bytes mean to the named type.
pub fn schemas_recode_as_types_do()
    ensures { (s : Schema) (name bytes out : List ℕ) → AreBytes bytes
        → Recoded s.pool name bytes out
        → IsRecoded (types_of s.pool) (without_dot name) bytes out }
{}

/// Recoded bytes mean what the bytes do, where they are no more than a length can say.
pub fn recoded_bytes_mean_the_same()
    ensures { (s : Schema) (name bytes out : List ℕ) → AreBytes bytes
        → Recoded s.pool name bytes out → length out < 2 ^ 64 → (m : Message)
        → Mean (types_of s.pool) (without_dot name) bytes m
        → Mean (types_of s.pool) (without_dot name) out m }
{}

/// Recoded again they are the same.
pub fn recoded_bytes_stay()
    ensures { (s : Schema) (name bytes out again : List ℕ) → AreBytes bytes → AreBytes out
        → Recoded s.pool name bytes out → length out < 2 ^ 64 → Recoded s.pool name out again
        → again ≡ out }
{}

/// An older schema refuses no bytes, as a message of its type, that a newer one decodes or recodes;
/// and where it has the type, it refuses what the newer type accepts for want of memory alone.
pub fn older_schemas_take_what_newer_ones_take()
    ensures decoded { (old new : SchemaType)
        → IsOlder (types_of old.0.pool) (without_dot old.1)
        (types_of new.0.pool) (without_dot new.1)
        → (bytes text : List ℕ) → AreBytes bytes → Decoded new.0.pool new.1 bytes text
        → (e : WireError) → IsNoMessage old.0.pool old.1 bytes e → ⊥ }
    ensures recoded { (old new : SchemaType)
        → IsOlder (types_of old.0.pool) (without_dot old.1)
        (types_of new.0.pool) (without_dot new.1)
        → (bytes out : List ℕ) → AreBytes bytes → Recoded new.0.pool new.1 bytes out
        → (e : WireError) → IsNoMessage old.0.pool old.1 bytes e → ⊥ }
    ensures known { (old new : SchemaType)
        → IsOlder (types_of old.0.pool) (without_dot old.1)
        (types_of new.0.pool) (without_dot new.1)
        → IsKnown old.0.pool old.1
        → (bytes : List ℕ) → IsAccepted (types_of new.0.pool) (without_dot new.1) bytes
        → (e : SchemaError) → BytesRefused old.0.pool old.1 bytes e → e ≡ Memory }
{}

/// What an older schema recodes means to the newer what the bytes do.
pub fn bytes_pass_through_an_older_schema()
    ensures { (old new : SchemaType)
        → IsOlder (types_of old.0.pool) (without_dot old.1)
        (types_of new.0.pool) (without_dot new.1)
        → (bytes out : List ℕ) → AreBytes bytes → Recoded old.0.pool old.1 bytes out
        → length out < 2 ^ 64
        → (m : Message) → Mean (types_of new.0.pool) (without_dot new.1) bytes m
        → Mean (types_of new.0.pool) (without_dot new.1) out m }
{}

/// So what an older schema recodes the newer refuses for want of memory alone, if it prints or
/// recodes the bytes themselves, and it prints the same text of both.
pub fn older_schemas_change_no_printed_text()
    ensures same { (old new : SchemaType)
        → IsOlder (types_of old.0.pool) (without_dot old.1)
        (types_of new.0.pool) (without_dot new.1)
        → (bytes out : List ℕ) → AreBytes bytes → Recoded old.0.pool old.1 bytes out
        → length out < 2 ^ 64 → (a b : List ℕ) → AreBytes out
        → Decoded new.0.pool new.1 bytes a → Decoded new.0.pool new.1 out b → a ≡ b }
    ensures printed { (old new : SchemaType)
        → IsOlder (types_of old.0.pool) (without_dot old.1)
        (types_of new.0.pool) (without_dot new.1)
        → (bytes out : List ℕ) → AreBytes bytes → Recoded old.0.pool old.1 bytes out
        → length out < 2 ^ 64 → (text : List ℕ) → Decoded new.0.pool new.1 bytes text
        → (e : SchemaError) → BytesRefused new.0.pool new.1 out e → e ≡ Memory }
    ensures recoded { (old new : SchemaType)
        → IsOlder (types_of old.0.pool) (without_dot old.1)
        (types_of new.0.pool) (without_dot new.1)
        → (bytes out : List ℕ) → AreBytes bytes → Recoded old.0.pool old.1 bytes out
        → length out < 2 ^ 64 → (direct : List ℕ) → Recoded new.0.pool new.1 bytes direct
        → (e : SchemaError) → BytesRefused new.0.pool new.1 out e → e ≡ Memory }
{}

/// What came through a chain of schemas whose types are older than the newest's, from bytes that the
/// newest type accepts, the newest refuses for want of memory alone; and so does any that is older
/// than it, and so might come next.
pub fn chains_of_schemas_are_taken()
    ensures newest { (new : SchemaType) (ss : List SchemaType)
        → AreOlderThan (types_of new.0.pool) (without_dot new.1) (map type_of ss)
        → IsKnown new.0.pool new.1 → (bytes out : List ℕ) → AreBytes bytes
        → IsAccepted (types_of new.0.pool) (without_dot new.1) bytes → RecodedThrough ss bytes out
        → (e : SchemaError) → BytesRefused new.0.pool new.1 out e → e ≡ Memory }
    ensures next { (new old : SchemaType) (ss : List SchemaType)
        → AreOlderThan (types_of new.0.pool) (without_dot new.1) (map type_of ss)
        → IsOlder (types_of old.0.pool) (without_dot old.1)
        (types_of new.0.pool) (without_dot new.1) → IsKnown old.0.pool old.1
        → (bytes out : List ℕ) → AreBytes bytes
        → IsAccepted (types_of new.0.pool) (without_dot new.1) bytes → RecodedThrough ss bytes out
        → (e : SchemaError) → BytesRefused old.0.pool old.1 out e → e ≡ Memory }
{}

/// Behind any chain of schemas whose types are older than the newest's, the newest recodes to what
/// it recodes the bytes themselves to.
pub fn chains_of_schemas_have_one_normal_form()
    ensures { (new : SchemaType) (ss : List SchemaType)
        → AreOlderThan (types_of new.0.pool) (without_dot new.1) (map type_of ss)
        → (bytes out x y : List ℕ) → AreBytes bytes → RecodedThrough ss bytes out
        → Recoded new.0.pool new.1 out x → Recoded new.0.pool new.1 bytes y → x ≡ y }
{}

/// What it so recodes of two lists of bytes, behind whatever chains, is equal exactly where these
/// mean the same to it.
pub fn normal_forms_are_equal_where_meanings_are()
    ensures { (new : SchemaType) (ss ts : List SchemaType)
        → AreOlderThan (types_of new.0.pool) (without_dot new.1) (map type_of ss)
        → AreOlderThan (types_of new.0.pool) (without_dot new.1) (map type_of ts)
        → (a b x y p q : List ℕ) → AreBytes a → AreBytes b → RecodedThrough ss a x
        → RecodedThrough ts b y → Recoded new.0.pool new.1 x p → Recoded new.0.pool new.1 y q
        → length p < 2 ^ 64 → length q < 2 ^ 64 → (m n : Message)
        → Mean (types_of new.0.pool) (without_dot new.1) a m
        → Mean (types_of new.0.pool) (without_dot new.1) b n → (p ≡ q) ↔ (m ≡ n) }
{}
