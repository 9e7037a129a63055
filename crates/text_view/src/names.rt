//! Laws of the names and types of pools in texts, each the contract of a function that does
//! nothing.
ghost use Rattle.std.specs.Prelude.{ℕ, List, Option};
ghost use Rattle.protobuf_model.specs.Types.{Name};
ghost use Rattle.protobuf_model.specs.Values.{Message};
ghost use Rattle.reflect_tables.specs.Types.{PoolType};
ghost use Rattle.message_view.specs.Sound.{IsSound};
ghost use Rattle.message_view.specs.Types.{types_of};
ghost use Rattle.text_model.specs.Identifiers.{HaveIdentifiers};
ghost use Rattle.text_model.specs.Schemas.{HaveNames};
ghost use Rattle.text_laws.specs.SoundTypes.{HasSoundTypes, HaveSmallDefaults};
ghost use Rattle.text_view.specs.Schemas.{schema_of};
ghost use Rattle.text_view.specs.SourceNames.{HasSourceNames};

/// Where the names of a pool are spelled as in sources, what is printed under a name is found by it
/// in a text, and a text can spell it.
pub fn names_as_in_sources_are_found()
    ensures names { (pool : PoolType) → IsSound pool → HasSourceNames pool
        → (decoded : Name → List ℕ → Option Message) → HaveNames (schema_of pool decoded) }
    ensures identifiers { (pool : PoolType) → IsSound pool → HasSourceNames pool
        → (decoded : Name → List ℕ → Option Message) → HaveIdentifiers (schema_of pool decoded) }
{}

/// The types of a sound pool are such as a schema has, whatever their fields are called.
pub fn sound_pools_have_sound_types()
    ensures { (pool : PoolType) → IsSound pool → (decoded : Name → List ℕ → Option Message)
        → HasSoundTypes (schema_of pool decoded) }
{}

/// Where the names of a pool are spelled as in sources, the defaults of its maps' entries hold
/// bytes.
pub fn defaults_as_in_sources_hold_bytes()
    ensures { (pool : PoolType) → IsSound pool → HasSourceNames pool
        → HaveSmallDefaults (types_of pool) }
{}
