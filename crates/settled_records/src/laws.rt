//! Laws of the records of settled pools, each the contract of a function that does nothing.
ghost use Rattle.std.specs.Prelude.{◌≡◌, ◌≤◌, ℕ, length, map, take};
ghost use Rattle.descriptor_records.specs.Content.{file_view};
ghost use Rattle.message_view.specs.Sound.{IsSound};
ghost use Rattle.plain_records.specs.PlainRecords.{ArePlainFiles};
ghost use Rattle.plain_records.specs.SaidOptions.{SaysAndIsSettled, SaysOrWaits};
ghost use Rattle.reflect_options.specs.Settling.{SettlesPool};
ghost use Rattle.reflect_tables.specs.Types.{PoolType};
ghost use Rattle.settled_records.specs.Themselves.{FilesSettleToThemselves};

/// Where options are settled, plain records stay plain.
pub fn settled_records_are_plain()
    ensures { (old new : PoolType) (first : ℕ) → IsSound old
        → ArePlainFiles SaysOrWaits (map file_view old.records) → SettlesPool old first new
        → ArePlainFiles SaysOrWaits (map file_view new.records) }
{}

/// Nothing is left to settle in them, where nothing was in the files before the index from which on
/// options are settled.
pub fn settled_records_are_settled()
    ensures { (old new : PoolType) (first : ℕ) → IsSound old
        → length old.records ≤ length old.files
        → ArePlainFiles SaysOrWaits (map file_view old.records)
        → ArePlainFiles SaysAndIsSettled (take first (map file_view old.records))
        → SettlesPool old first new
        → ArePlainFiles SaysAndIsSettled (map file_view new.records) }
{}

/// Where options settle to what they are, and none of them has a place, records stay as they are.
pub fn options_that_settle_to_themselves_stay()
    ensures { (old new : PoolType) (first : ℕ) → FilesSettleToThemselves old first
        → SettlesPool old first new → map file_view new.records ≡ map file_view old.records }
{}
