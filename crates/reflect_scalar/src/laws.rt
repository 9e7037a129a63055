//! Laws of single values and their bytes, each the contract of a function that does nothing.
ghost use Rattle.std.specs.Prelude.{◌≡◌, ℕ, List, ◌++◌, IfSome};
ghost use Rattle.reflect_wire.specs.declared.wire_key.WireType.{WireType};
ghost use Rattle.reflect_pool.specs.declared.kind.Kind.{Kind};
ghost use Rattle.reflect_scalar.specs.Kinds.{wire_type};
ghost use Rattle.reflect_scalar.specs.Meaning.{IsScalar};
ghost use Rattle.reflect_scalar.specs.Singles.{Single};
ghost use Rattle.reflect_scalar.specs.Written.{written, plain_bytes, Fits};

/// What a value is written as is read as that value.
pub fn written_value_is_read()
    ensures { (kind : Kind) (v : Single) → Fits v
        → IfSome (written kind v) (λ p. IsScalar kind (wire_type kind) (plain_bytes p) v) }
{}

/// Of the bytes at a front, one part at most spells a value of a kind, and one value.
pub fn bytes_mean_one_value()
    ensures { (kind : Kind) (wire : WireType) (a b x y : List ℕ) (v w : Single)
        → IsScalar kind wire a v → IsScalar kind wire b w → a ++ x ≡ b ++ y → (a ≡ b) × (v ≡ w)
        × (x ≡ y) }
{}
