//! Laws of how what a schema takes and what it refuses exclude each other, and of what two refusals
//! tell alike, each the contract of a function that does nothing. That `IsPool` holds of each pool
//! `pools_are_whole` says.
ghost use Rattle.std.specs.Prelude.{ℕ, List};
ghost use Rattle.option_parts.specs.OptionTypes.{ReadsOptions, TellsRequired};
ghost use Rattle.option_parts.specs.declared.option_error.OptionError.{OptionError};
ghost use Rattle.option_parts.specs.declared.option_error.OptionErrorKind.{OptionErrorKind};
ghost use Rattle.option_parts.specs.declared.option_scope.OptionScope.{OptionScope};
ghost use Rattle.protox_parse.specs.declared.error.ParseError.{ParseError};
ghost use Rattle.reflect_passes.specs.declared.error.DescriptorError.{DescriptorError};
ghost use Rattle.reflect_pool.specs.Linked.{empty_pool};
ghost use Rattle.reflect_tables.specs.Types.{PoolType};
ghost use Rattle.reflect_wire.specs.declared.wire_error.WireError.{WireError};
ghost use Rattle.schema_core.specs.Refusals.{AreSmall, IsNoSet, IsPool, SetLinked, SetRefused};
ghost use Rattle.schema_core.specs.Refusals.{SourcesLinked, SourcesRefused};
ghost use Rattle.schema_core.specs.declared.error.SchemaError.TheVariants.{Link, Options, Parse};
ghost use Rattle.schema_core.specs.declared.error.SchemaError.TheVariants.{TooLong, Wire};
ghost use Rattle.schema_core.specs.declared.schema.Schema.{Schema};
ghost use Rattle.schema_laws.specs.Histories.{IsGrown, Sources};
ghost use Rattle.schema_laws.specs.OptionRefusals.{TellTheSame};

/// Of sources that are added to one schema, each of fewer bytes than are too large, none is
/// refused as such, by that schema or another; and a schema that takes them does not refuse them
/// for how they link, nor for their options.
pub fn linked_sources_are_not_refused()
    ensures parsed { (p q new : PoolType) (given : Sources) (e : ParseError)
        → AreSmall given → SourcesLinked p given new → SourcesRefused q given (Parse e) → ⊥ }
    ensures linked { (old new : Schema) (given : Sources) (e : DescriptorError)
        → IsGrown old → IsPool new.pool → SourcesLinked old.pool given new.pool
        → SourcesRefused old.pool given (Link e) → ⊥ }
    ensures options { (old new : Schema) (given : Sources) (e : OptionError)
        → IsGrown old → IsPool new.pool → SourcesLinked old.pool given new.pool
        → SourcesRefused old.pool given (Options e) → ⊥ }
{}

/// The bytes of a set that is added to one schema are not refused as no set, by that schema or
/// another; and a schema that takes its files does not refuse them for how they link, nor for their
/// options.
pub fn linked_sets_are_not_refused()
    ensures spelled { (p q new : PoolType) (bytes : List ℕ) (e : WireError)
        → SetLinked p bytes new → SetRefused q bytes (Wire e) → ⊥ }
    ensures short { (p q new : PoolType) (bytes : List ℕ)
        → SetLinked p bytes new → SetRefused q bytes TooLong → ⊥ }
    ensures linked { (old new : Schema) (bytes : List ℕ) (e : DescriptorError)
        → IsGrown old → IsPool new.pool → SetLinked old.pool bytes new.pool
        → SetRefused old.pool bytes (Link e) → ⊥ }
    ensures options { (old new : Schema) (bytes : List ℕ) (e : OptionError)
        → IsGrown old → IsPool new.pool → SetLinked old.pool bytes new.pool
        → SetRefused old.pool bytes (Options e) → ⊥ }
{}

/// Two refusals of the same sources for their options, by the same schema, tell the same place, if
/// any, and there a fault of one sort, of an option of one name; and so it is of sets.
pub fn refusals_of_options_tell_the_same()
    ensures sources { (old : Schema) (given : Sources) (e f : OptionError) → IsGrown old
        → SourcesRefused old.pool given (Options e) → SourcesRefused old.pool given (Options f)
        → TellTheSame e f }
    ensures sets { (old : Schema) (bytes : List ℕ) (e f : OptionError) → IsGrown old
        → SetRefused old.pool bytes (Options e) → SetRefused old.pool bytes (Options f)
        → TellTheSame e f }
{}

/// Sources are refused in one way: where one of them is refused as such, each of fewer bytes than
/// are too large, no schema refuses them for how they link, nor for their options; and a schema
/// that refuses them for how they link does not refuse them for their options.
pub fn sources_are_refused_in_one_way()
    ensures links { (p q : PoolType) (given : Sources) (e : ParseError) (f : DescriptorError)
        → AreSmall given → SourcesRefused p given (Parse e) → SourcesRefused q given (Link f) → ⊥ }
    ensures options { (p q : PoolType) (given : Sources) (e : ParseError) (f : OptionError)
        → AreSmall given → SourcesRefused p given (Parse e) → SourcesRefused q given (Options f)
        → ⊥ }
    ensures either { (old : Schema) (given : Sources) (e : DescriptorError) (f : OptionError)
        → IsGrown old → SourcesRefused old.pool given (Link e)
        → SourcesRefused old.pool given (Options f) → ⊥ }
{}

/// So are sets, whose bytes may be none.
pub fn sets_are_refused_in_one_way()
    ensures links { (p : PoolType) (bytes : List ℕ) (e : WireError) (f : DescriptorError)
        → IsNoSet bytes e → SetRefused p bytes (Link f) → ⊥ }
    ensures options { (p : PoolType) (bytes : List ℕ) (e : WireError) (f : OptionError)
        → IsNoSet bytes e → SetRefused p bytes (Options f) → ⊥ }
    ensures either { (old : Schema) (bytes : List ℕ) (e : DescriptorError) (f : OptionError)
        → IsGrown old → SetRefused old.pool bytes (Link e)
        → SetRefused old.pool bytes (Options f) → ⊥ }
{}

/// A source that makes a schema by which all options are read is not refused for a type of options
/// that it lacks, or that options are not read by.
pub fn sources_with_all_types_lack_none()
    ensures { (given : Sources) (s : Schema) (new : PoolType) (kind : OptionErrorKind)
        → IsPool s.pool → IsPool new → SourcesLinked empty_pool given s.pool
        → ((scope : OptionScope) → ReadsOptions s.pool scope)
        → SourcesLinked empty_pool given new → TellsRequired new kind → ⊥ }
{}
