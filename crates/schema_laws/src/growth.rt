//! Laws of texts and of schemas that grow, each the contract of a function that does nothing. What
//! `IsPool` asks each pool has, as `pools_are_whole` says.
ghost use Rattle.std.specs.Prelude.{◌≡◌, ◌++◌, ℕ, List};
ghost use Rattle.descriptor_records.specs.Content.{FileContent};
ghost use Rattle.text_error.specs.declared.error.ParseErrorKind.{ParseErrorKind};
ghost use Rattle.types_view.specs.Typed.{IsTyped};
ghost use Rattle.schema_core.specs.Payloads.{Encoded};
ghost use Rattle.schema_core.specs.Refusals.{IsNoText, IsPool, IsUnknown};
ghost use Rattle.schema_core.specs.declared.schema.Schema.{Schema};
ghost use Rattle.schema_laws.specs.Batches.{Grows};

/// What a schema encoded a text to it encodes it to after any number of further batches, and it
/// refuses no text that it encoded: the type is still known, and the text is one of it.
pub fn encoded_texts_stay_as_batches_come()
    ensures same { (earlier more : List (List FileContent)) (old new : Schema)
        → IsTyped earlier old.pool → IsTyped (more ++ earlier) new.pool
        → IsPool old.pool → IsPool new.pool → (name text a b : List ℕ)
        → Encoded old.pool name text a → Encoded new.pool name text b → a ≡ b }
    ensures taken { (earlier more : List (List FileContent)) (old new : Schema)
        → IsTyped earlier old.pool → IsTyped (more ++ earlier) new.pool
        → IsPool old.pool → IsPool new.pool → (name text out : List ℕ) (kind : ParseErrorKind)
        → Encoded old.pool name text out → IsNoText new.pool name text kind → ⊥ }
    ensures known { (earlier more : List (List FileContent)) (old new : Schema)
        → IsTyped earlier old.pool → IsTyped (more ++ earlier) new.pool
        → IsPool old.pool → IsPool new.pool → (name text out : List ℕ)
        → Encoded old.pool name text out → IsUnknown new.pool name → ⊥ }
{}

/// So it is after sources are added, or a descriptor set is.
pub fn encoded_texts_stay_as_files_come()
    ensures same { (earlier : List (List FileContent)) (old new : Schema)
        → IsTyped earlier old.pool → Grows old new → (name text a b : List ℕ)
        → Encoded old.pool name text a → Encoded new.pool name text b → a ≡ b }
    ensures taken { (earlier : List (List FileContent)) (old new : Schema)
        → IsTyped earlier old.pool → Grows old new
        → (name text out : List ℕ) (kind : ParseErrorKind)
        → Encoded old.pool name text out → IsNoText new.pool name text kind → ⊥ }
    ensures known { (earlier : List (List FileContent)) (old new : Schema)
        → IsTyped earlier old.pool → Grows old new → (name text out : List ℕ)
        → Encoded old.pool name text out → IsUnknown new.pool name → ⊥ }
{}
