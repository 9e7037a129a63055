//! Laws of records and their bytes, each the contract of a function that does nothing.
ghost use Rattle.std.specs.Prelude.{◌≡◌, ℕ, List};
ghost use Rattle.reflect_wire.specs.Encoding.{records_bytes};
ghost use Rattle.reflect_wire.specs.Records.{Records, SpellsRecords};
ghost use Rattle.reflect_wire.specs.Written.{AreBytes, FitsRecords};

/// What records are written as spells them, where their numbers fit and their groups nest within
/// the levels.
pub fn written_records_are_spelled()
    ensures { (levels : ℕ) (rs : Records) → FitsRecords levels rs
        → SpellsRecords levels (records_bytes rs) rs }
{}

/// Records that were read can be written: their numbers fit, and their groups nest within the
/// levels.
pub fn spelled_records_fit()
    ensures { (levels : ℕ) (bytes : List ℕ) (rs : Records) → AreBytes bytes
        → SpellsRecords levels bytes rs → FitsRecords levels rs }
{}

/// Bytes spell one list of records at most.
pub fn bytes_spell_one_list()
    ensures { (levels : ℕ) (bytes : List ℕ) (rs ts : Records) → SpellsRecords levels bytes rs
        → SpellsRecords levels bytes ts → rs ≡ ts }
{}
