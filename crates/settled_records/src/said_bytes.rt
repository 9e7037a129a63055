//! Laws of what options settle to, each the contract of a function that does nothing.
ghost use Rattle.std.specs.Prelude.{List, ℤ};
ghost use Rattle.descriptor_records.specs.Content.{options_view};
ghost use Rattle.descriptor_records.specs.declared.options.Options.{Options};
ghost use Rattle.option_parts.specs.OptionTypes.{CanRead};
ghost use Rattle.option_parts.specs.declared.option_scope.OptionScope.{OptionScope};
ghost use Rattle.option_setter.specs.declared.option_setter.NameScope.{NameScope};
ghost use Rattle.plain_records.specs.SaidOptions.{SaysItsBytes};
ghost use Rattle.reflect_options.specs.Settled.{Settles};
ghost use Rattle.message_view.specs.Sound.{IsSound};

/// What options settle to says what its bytes do.
pub fn settled_options_say_their_bytes()
    ensures { (scope : OptionScope) (s : NameScope) (o settled : Options) (paths : List (List ℤ))
        → IsSound s.pool.now → CanRead s.pool.now scope
        → Settles scope s o (options_view settled) paths
        → SaysItsBytes scope (options_view settled) }
{}
