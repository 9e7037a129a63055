//! Laws that lead from the tests of values, `is_valid_for_field` and its like, to what the laws of
//! `message_view` and `set_view` ask of what is set, each the contract of a function that does
//! nothing. The messages that a value is or has are asked about apart: on the surface they are of
//! their field's type, whatever they hold.
ghost use Rattle.std.specs.Prelude.{◌≡◌, Bool, Some, suc, true, ℕ};
ghost use Rattle.protobuf_model.specs.Typed.{IsHeldOf, IsOf, IsTyped};
ghost use Rattle.reflect_message.specs.Declares.{NoField, Owns, OwnsExtension};
ghost use Rattle.reflect_message.specs.Names.{Value};
ghost use Rattle.reflect_numbered.specs.Fits.{IsValidFor, fit_of};
ghost use Rattle.reflect_numbered.specs.declared.validity.Strictness.TheVariants.{Surface};
ghost use Rattle.reflect_pool.specs.FieldsLeft.{field_type};
ghost use Rattle.reflect_pool.specs.declared.extension.ExtensionDescriptor.{ExtensionDescriptor};
ghost use Rattle.reflect_pool.specs.declared.field.FieldDescriptor.{FieldDescriptor};
ghost use Rattle.reflect_pool.specs.declared.message.MessageDescriptor.{MessageDescriptor};
ghost use Rattle.reflect_scalar.specs.FieldTypes.{extension_type};
ghost use Rattle.reflect_tables.specs.Types.{FieldType, PoolType};
ghost use Rattle.message_view.specs.Shaped.{FitsOne, FitsShaped, HasShape};
ghost use Rattle.message_view.specs.Sound.{IsSound};
ghost use Rattle.message_view.specs.Types.{kind_in, name_at, types_of};
ghost use Rattle.message_view.specs.Views.{content_view, held_in};
ghost use Rattle.valid_view.specs.Inside.{EachMessage, IfMessage, IsShapedIn, IsTypedIn, IsWhole};

/// What is valid for a field suits it in messages in shape, where each message in it is of the
/// field's pool, and in shape itself. Of another pool's type of the same place and full name it
/// would be valid as well.
pub fn values_that_are_valid_fit()
    ensures { (exclusive : Bool) (levels : ℕ) (pool : PoolType) (f : FieldType) (v : Value)
        → IsValidFor pool f v → EachMessage (IsShapedIn exclusive levels pool) v
        → FitsShaped (HasShape exclusive levels) pool f v }
{}

/// So does what is valid as one of the values of a list suit it as one.
pub fn single_values_that_are_valid_fit()
    ensures { (exclusive : Bool) (levels : ℕ) (pool : PoolType) (f : FieldType) (v : Value)
        → (fit_of v).one Surface pool f.kind ≡ true
        → IfMessage (IsShapedIn exclusive levels pool) v
        → FitsOne (HasShape exclusive levels) pool f v }
{}

/// What is valid for a field of a type means, under the field's number, what suits the type, where
/// each message in it suits its own. That numbers have their bits, texts are of UTF-8 and the keys
/// of maps ascend is so of each value that the code has, as `values_are_whole` says.
pub fn values_that_are_valid_suit()
    ensures { (levels : ℕ) (d : MessageDescriptor) → IsSound d.pool.now
        → (f : FieldDescriptor) → Owns d f
        → (v : Value) → IsValidFor d.pool.now (field_type f) v
        → EachMessage (IsTypedIn levels d.pool.now) v → IsWhole v
        → IsHeldOf (IsTyped levels (types_of d.pool.now)) (suc levels)
        (types_of d.pool.now (name_at d.pool.now d.index) (field_type f).number)
        (held_in d.pool.now (field_type f) (Some (content_view v))) }
{}

/// The same of an extension, under whose number no field stands.
pub fn extension_values_that_are_valid_suit()
    ensures { (levels : ℕ) (d : MessageDescriptor) → IsSound d.pool.now
        → (x : ExtensionDescriptor) → OwnsExtension d x → NoField d (extension_type x).number
        → (v : Value) → IsValidFor d.pool.now (extension_type x) v
        → EachMessage (IsTypedIn levels d.pool.now) v → IsWhole v
        → IsHeldOf (IsTyped levels (types_of d.pool.now)) (suc levels)
        (types_of d.pool.now (name_at d.pool.now d.index) (extension_type x).number)
        (held_in d.pool.now (extension_type x) (Some (content_view v))) }
{}

/// What is valid as one of the values of a list means one of the field's kind, as a list takes it.
pub fn single_values_that_are_valid_suit()
    ensures { (levels : ℕ) (pool : PoolType) (f : FieldType) (v : Value)
        → (fit_of v).one Surface pool f.kind ≡ true → IfMessage (IsTypedIn levels pool) v
        → IsWhole v
        → IsOf (IsTyped levels (types_of pool)) (kind_in pool f.group f.kind) (content_view v) }
{}
