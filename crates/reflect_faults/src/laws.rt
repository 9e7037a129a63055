//! Laws of places in sources, each the contract of a function that does nothing.

ghost use Rattle.protox_lex.specs.Lines.{feeds_of, span_at};
ghost use Rattle.reflect_faults.specs.SourceBytes.{bytes_at};
ghost use Rattle.reflect_faults.specs.Spans.{span_of};
ghost use Rattle.std.specs.Option.{option_and_then};
ghost use Rattle.std.specs.Prelude.{◌≡◌, ◌≤◌, ℕ, List, Some, length};

/// The lines and columns by which a location tells bytes of a source, as who reads the source tells
/// them, lead back to these bytes.
pub fn places_lead_back_to_their_bytes()
    ensures { (z : List ℕ) (start end : ℕ) → start ≤ end → end ≤ length z
        → option_and_then (bytes_at z) (span_of (span_at (feeds_of z) start end))
        ≡ Some (record { start = start; end = end }) }
{}
