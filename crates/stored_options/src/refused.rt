//! Laws of options that are refused, each the contract of a function that does nothing.
ghost use Rattle.std.specs.Prelude.{◌≡◌, ℕ, ℤ, List, Option, Some, map};
ghost use Rattle.descriptor_records.specs.Content.{FileContent, OptionsContent, file_view};
ghost use Rattle.descriptor_records.specs.declared.options.Options.{Options};
ghost use Rattle.message_view.specs.Sound.{IsSound};
ghost use Rattle.option_parts.specs.OptionTypes.{CanRead};
ghost use Rattle.option_parts.specs.declared.option_error.OptionErrorKind.{OptionErrorKind};
ghost use Rattle.option_parts.specs.declared.option_scope.OptionScope.{OptionScope};
ghost use Rattle.option_setter.specs.declared.option_setter.NameScope.{NameScope};
ghost use Rattle.reflect_faults.specs.Faults.{Place};
ghost use Rattle.reflect_options.specs.Settled.{RefusesOptions, Settles, StayAsTheyAre};
ghost use Rattle.reflect_options.specs.Settling.{RefusesFrom, SettlesPool};
ghost use Rattle.reflect_tables.specs.Types.{PoolType};
ghost use Rattle.stored_options.specs.ToldAlike.{TellAlike};
ghost use Rattle.types_view.specs.Pools.{IsPool};
ghost use Rattle.types_view.specs.Typed.{IsTyped};

/// Options that are refused cannot be settled: where a refusal is true of the options of a record,
/// there is nothing that they settle to, wherever their messages lie in memory. Nor do they stay as
/// they are.
pub fn refused_options_are_not_settled()
    ensures settled { (scope : OptionScope) (s : NameScope) (o : Options) (at : Option ℕ)
        (e : OptionErrorKind) (settled : OptionsContent) (paths : List (List ℤ))
        → IsSound s.pool.now → CanRead s.pool.now scope
        → RefusesOptions scope s o at e → Settles scope s o settled paths → ⊥ }
    ensures left { (scope : OptionScope) (s : NameScope) (o : Options) (at : Option ℕ)
        (e : OptionErrorKind)
        → RefusesOptions scope s o at e → StayAsTheyAre scope s o → ⊥ }
{}

/// And so it is of pools: where a refusal is true of the files from an index on, at a place or of a
/// type of options, no pool is this one with the options of these files settled. What `IsPool` asks
/// each pool has, as `pools_are_whole` says, and one that files were linked into is sound.
pub fn refused_pools_are_not_settled()
    ensures { (pool new : PoolType) (first : ℕ) (place : Option Place) (e : OptionErrorKind)
        → IsPool pool → IsSound pool
        → RefusesFrom pool first place e → SettlesPool pool first new → ⊥ }
{}

/// However the same files are linked: where a refusal is true, at a place, of a pool that these
/// batches built, the last of them first, no other pool that they built, with the same records
/// wherever these lie in memory, has a settled one.
pub fn refused_files_are_not_settled_in_another_pool()
    ensures { (batches : List (List FileContent)) (pool other new : PoolType) (first : ℕ)
        (place : Place) (e : OptionErrorKind) → IsTyped batches pool → IsTyped batches other
        → IsPool pool → IsPool other → IsSound pool → IsSound other
        → map file_view pool.records ≡ map file_view other.records
        → RefusesFrom pool first (Some place) e → SettlesPool other first new → ⊥ }
{}

/// Files are refused at one place for their options: of two refusals that are true of the files of
/// a pool from an index on, both tell the same place, or both none; so it is however the same
/// files are linked, where both tell a place.
pub fn refusals_of_files_are_at_one_place()
    ensures once { (pool : PoolType) (first : ℕ) (place other : Option Place)
        (e f : OptionErrorKind) → IsPool pool → IsSound pool → RefusesFrom pool first place e
        → RefusesFrom pool first other f → place ≡ other }
    ensures twice { (batches : List (List FileContent)) (pool again : PoolType) (first : ℕ)
        (place other : Place) (e f : OptionErrorKind)
        → IsTyped batches pool → IsTyped batches again
        → IsPool pool → IsPool again → IsSound pool → IsSound again
        → map file_view pool.records ≡ map file_view again.records
        → RefusesFrom pool first (Some place) e → RefusesFrom again first (Some other) f
        → place ≡ other }
{}

/// And they tell a fault of one sort, of an option of one name.
pub fn refusals_of_files_tell_the_same()
    ensures once { (pool : PoolType) (first : ℕ) (place other : Option Place)
        (e f : OptionErrorKind) → IsPool pool → IsSound pool → RefusesFrom pool first place e
        → RefusesFrom pool first other f → TellAlike e f }
    ensures twice { (batches : List (List FileContent)) (pool again : PoolType) (first : ℕ)
        (place other : Place) (e f : OptionErrorKind)
        → IsTyped batches pool → IsTyped batches again
        → IsPool pool → IsPool again → IsSound pool → IsSound again
        → map file_view pool.records ≡ map file_view again.records
        → RefusesFrom pool first (Some place) e → RefusesFrom again first (Some other) f
        → TellAlike e f }
{}
