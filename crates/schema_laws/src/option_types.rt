//! Laws of the types that options are read by, each the contract of a function that does nothing.
ghost use Rattle.std.specs.Prelude.{◌≡◌, ℕ, List, Option};
ghost use Rattle.message_view.specs.Sound.{IsSound};
ghost use Rattle.option_parts.specs.OptionTypes.{CanRead};
ghost use Rattle.option_parts.specs.declared.option_scope.OptionScope.{OptionScope};
ghost use Rattle.protobuf_model.specs.Types.{Name};
ghost use Rattle.protobuf_model.specs.Values.{Message};
ghost use Rattle.reflect_tables.specs.Types.{PoolType};
ghost use Rattle.settled_view.specs.BuiltBut.{ChangesOptions};
ghost use Rattle.text_view.specs.Schemas.{schema_of};
ghost use Rattle.schema_laws.specs.ToldMessages.{KeepAlike};

/// Where two pools say the same to texts, and messages of one name keep the same numbers for
/// extensions, the one can read the options that the other can.
pub fn pools_that_say_the_same_read_the_same_options()
    ensures { (p q : PoolType) → IsSound p → IsSound q
        → ((decoded : Name → List ℕ → Option Message) → schema_of p decoded ≡ schema_of q decoded)
        → KeepAlike p q → (scope : OptionScope) → CanRead p scope → CanRead q scope }
{}

/// And a pool reads the options that it read before some were settled in it.
pub fn settled_pools_read_the_same_options()
    ensures { (linked new : PoolType) → ChangesOptions linked new
        → (scope : OptionScope) → CanRead linked scope → CanRead new scope }
{}
