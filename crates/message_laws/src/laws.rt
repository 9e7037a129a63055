//! Laws of what `decode` says, each the contract of a function that does nothing.
ghost use Rattle.std.specs.Prelude.{ℕ, List, None};
ghost use Rattle.reflect_decode.specs.Accepts.{Accepts};
ghost use Rattle.reflect_decode.specs.Refused.{BodyFault};
ghost use Rattle.reflect_pool.specs.declared.message.MessageDescriptor.{MessageDescriptor};
ghost use Rattle.reflect_wire.specs.Records.{Payload, SpellsRecords};
ghost use Rattle.reflect_wire.specs.Views.{records_of};
ghost use Rattle.reflect_wire.specs.declared.wire_error.WireError.{WireError};
ghost use Rattle.message_laws.specs.MapKeys.{HaveMapKeys};

/// Bytes of which a refusal is true spell no records that the type accepts, where maps have keys.
pub fn refused_bytes_are_not_accepted()
    ensures { (levels : ℕ) (d : MessageDescriptor) → HaveMapKeys d.pool.now
        → (bytes : List ℕ) (e : WireError) → BodyFault levels d.pool.now d.index None bytes e
        → (rs : List (ℕ × Payload)) → SpellsRecords levels bytes (records_of rs)
        → Accepts levels d rs → ⊥ }
{}
