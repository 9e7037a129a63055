//! Laws of options in files that come in another order, each the contract of a function that does
//! nothing.
ghost use Rattle.std.specs.Prelude.{◌≡◌, ℤ, List, []};
ghost use Rattle.descriptor_records.specs.Content.{FileContent, Text, options_view};
ghost use Rattle.descriptor_records.specs.declared.options.Options.{Options};
ghost use Rattle.message_view.specs.Sound.{IsSound};
ghost use Rattle.stored_options.specs.Standing.{HaveOneEnd, StandsIn};
ghost use Rattle.option_parts.specs.OptionTypes.{CanRead};
ghost use Rattle.option_parts.specs.declared.option_scope.OptionScope.{OptionScope};
ghost use Rattle.option_setter.specs.declared.option_setter.NameScope.{NameScope};
ghost use Rattle.plain_records.specs.SourceOptions.{AreGiven};
ghost use Rattle.reflect_options.specs.Settled.{Settles, StayAsTheyAre};
ghost use Rattle.reflect_tables.specs.Types.{PoolType};
ghost use Rattle.text_view.specs.SourceNames.{HaveOwnNames};

/// Options that a source gives settle to the same record, along the same paths, in whatever batches
/// the files come that make up the same schema in the end.
pub fn options_settle_alike_in_another_order()
    ensures { (batches others : List (List FileContent)) (p q : PoolType) (s t : NameScope)
        (file name : Text) (scope : OptionScope) (o x settled other : Options)
        (paths ways : List (List ℤ)) → HaveOneEnd batches others
        → StandsIn batches p s file name → StandsIn others q t file name
        → IsSound p → IsSound q → HaveOwnNames p → HaveOwnNames q
        → CanRead p scope → CanRead q scope
        → AreGiven scope (options_view o) → options_view x ≡ options_view o
        → Settles scope s o (options_view settled) paths
        → Settles scope t x (options_view other) ways
        → (options_view settled ≡ options_view other) × (paths ≡ ways) }
{}

/// Where there is no type for them yet when their file comes, options that a source gives stay as
/// they are; where another order brings the type first, they settle to just what they are, and none
/// of them has a place.
pub fn options_without_a_type_settle_to_what_they_are_in_another_order()
    ensures { (s t : NameScope) (scope : OptionScope) (o x settled : Options)
        (paths : List (List ℤ)) → IsSound t.pool.now → CanRead t.pool.now scope
        → AreGiven scope (options_view o)
        → options_view x ≡ options_view o → StayAsTheyAre scope s o
        → Settles scope t x (options_view settled) paths
        → (options_view settled ≡ options_view x) × (paths ≡ []) }
{}
