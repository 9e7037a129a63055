//! Laws of messages into which bytes are merged, and of those whose lists and maps take further
//! values: they suit their types at each depth, are tidy, and hold what is whole, where they did
//! and were. What such a call leaves where it is refused, its own contract says, or it is one that
//! put fewer values.
ghost use Rattle.std.specs.Prelude.{◌≡◌, ◌≤◌, List, suc, true, ℕ};
ghost use Rattle.std.specs.List.{AllByRecursion};
ghost use Rattle.reflect_decode.specs.Spelled.{IsMerged};
ghost use Rattle.reflect_entries.specs.Entries.{IsAscending, value_at};
ghost use Rattle.reflect_extend.specs.Others.{KeepsOther};
ghost use Rattle.reflect_extend.specs.Puts.{PutsEntries};
ghost use Rattle.reflect_message.specs.Declares.{Owns, OwnsExtension};
ghost use Rattle.reflect_message.specs.Held.{extensions_of, fields_of};
ghost use Rattle.reflect_message.specs.Lists.{Lengthens};
ghost use Rattle.reflect_message.specs.Names.{DynamicMessage, Value};
ghost use Rattle.reflect_message.specs.Oneofs.{IsExclusive};
ghost use Rattle.reflect_numbered.specs.Fits.{suits_type};
ghost use Rattle.reflect_numbered.specs.declared.validity.Strictness.{Strictness};
ghost use Rattle.reflect_numbered.specs.declared.validity.Strictness.TheVariants.{Types};
ghost use Rattle.reflect_pool.specs.FieldsLeft.{field_type};
ghost use Rattle.reflect_pool.specs.Shapes.{holds_list, holds_map};
ghost use Rattle.reflect_pool.specs.declared.extension.ExtensionDescriptor.{ExtensionDescriptor};
ghost use Rattle.reflect_pool.specs.declared.field.FieldDescriptor.{FieldDescriptor};
ghost use Rattle.reflect_scalar.specs.FieldTypes.{extension_type};
ghost use Rattle.reflect_tables.specs.Types.{PoolType};
ghost use Rattle.reflect_wire.specs.Written.{AreBytes};
ghost use Rattle.message_view.specs.Sound.{IsSound};
ghost use Rattle.set_view.specs.Extends.{ExtendsExtension, ExtendsField};
ghost use Rattle.valid_view.specs.Given.{GivenWith, IsSolidIn, IsSuitedIn};
ghost use Rattle.valid_view.specs.Inside.{IfMessage, IsWhole};
ghost use Rattle.valid_view.specs.Tidy.{Solid, Tidy};

/// A message that suits its type at each depth, and is tidy, of as many levels as bytes may have or
/// more, does and is so behind `merge`, whatever the bytes. Where they are refused it is unchanged.
pub fn merged_messages_are_typed_and_tidy()
    ensures { (pool : PoolType) → IsSound pool → (levels : ℕ) → 100 ≤ levels
        → (old new : DynamicMessage) → new.descriptor ≡ old.descriptor
        → (bytes : List ℕ) → IsMerged old.descriptor bytes old new
        → suits_type Types old ≡ true → Tidy pool (suc levels) old
        → (suits_type Types new ≡ true) × Tidy pool (suc levels) new }
{}

/// A message that is tidy and solid, of as many levels as bytes may have or more, is solid behind
/// `merge`, whatever the bytes, and whether or not it suits its type.
pub fn merged_messages_are_solid()
    ensures { (levels : ℕ) → 100 ≤ levels → (pool : PoolType) → IsSound pool
        → (old new : DynamicMessage) (bytes : List ℕ) → AreBytes bytes
        → IsMerged old.descriptor bytes old new
        → Tidy pool (suc levels) old → Solid (suc levels) old → Solid (suc levels) new }
{}

/// A message that suits its type does so where `extend_field` puts values behind a list that are
/// each valid as one of it, or entries into a map of which each is a message of the entries' type
/// of its pool, if each message suits its own type. So it is with `is_encodable`. Where the field
/// is no list and no map, nothing is put.
pub fn extended_fields_leave_messages_typed()
    ensures list { (how : Strictness) (old new : DynamicMessage) → suits_type how old ≡ true
        → (f : FieldDescriptor) → Owns old.descriptor f → ExtendsField old new f
        → IsAscending (fields_of old)
        → holds_list old.descriptor.pool.now (field_type f) ≡ true → (vs : List Value)
        → AllByRecursion
        (GivenWith (λ m. suits_type how m ≡ true) old.descriptor.pool.now (field_type f)) vs
        → Lengthens (value_at (fields_of old) (field_type f).number)
        (value_at (fields_of new) (field_type f).number) vs → suits_type how new ≡ true }
    ensures map { (how : Strictness) (old new : DynamicMessage) → suits_type how old ≡ true
        → (f : FieldDescriptor) → Owns old.descriptor f → ExtendsField old new f
        → IsAscending (fields_of old) → IsSound old.descriptor.pool.now
        → holds_map old.descriptor.pool.now (field_type f) ≡ true → (vs : List Value)
        → AllByRecursion (GivenWith (IsSuitedIn how old.descriptor.pool.now)
        old.descriptor.pool.now (field_type f)) vs
        → PutsEntries (value_at (fields_of old) (field_type f).number)
        (value_at (fields_of new) (field_type f).number) vs → suits_type how new ≡ true }
    ensures neither { (how : Strictness) (old new : DynamicMessage) → suits_type how old ≡ true
        → (f : FieldDescriptor) → ExtendsField old new f → fields_of new ≡ fields_of old
        → suits_type how new ≡ true }
{}

/// The same of `extend_extension`.
pub fn extended_extensions_leave_messages_typed()
    ensures list { (how : Strictness) (old new : DynamicMessage) → suits_type how old ≡ true
        → (x : ExtensionDescriptor) → OwnsExtension old.descriptor x → ExtendsExtension old new x
        → IsAscending (extensions_of old)
        → holds_list old.descriptor.pool.now (extension_type x) ≡ true → (vs : List Value)
        → AllByRecursion
        (GivenWith (λ m. suits_type how m ≡ true) old.descriptor.pool.now (extension_type x)) vs
        → Lengthens (value_at (extensions_of old) (extension_type x).number)
        (value_at (extensions_of new) (extension_type x).number) vs → suits_type how new ≡ true }
    ensures map { (how : Strictness) (old new : DynamicMessage) → suits_type how old ≡ true
        → (x : ExtensionDescriptor) → OwnsExtension old.descriptor x → ExtendsExtension old new x
        → IsAscending (extensions_of old) → IsSound old.descriptor.pool.now
        → holds_map old.descriptor.pool.now (extension_type x) ≡ true → (vs : List Value)
        → AllByRecursion (GivenWith (IsSuitedIn how old.descriptor.pool.now)
        old.descriptor.pool.now (extension_type x)) vs
        → PutsEntries (value_at (extensions_of old) (extension_type x).number)
        (value_at (extensions_of new) (extension_type x).number) vs → suits_type how new ≡ true }
    ensures neither { (how : Strictness) (old new : DynamicMessage) → suits_type how old ≡ true
        → (x : ExtensionDescriptor) → ExtendsExtension old new x
        → extensions_of new ≡ extensions_of old → suits_type how new ≡ true }
{}

/// A tidy message is so where `extend_field` puts values behind a list whose messages are tidy one
/// level below, whether or not they suit it, or entries into a map of which each is a message of
/// the entries' type as tidy as itself: what such an entry holds is then one level below.
pub fn extended_fields_leave_messages_tidy()
    ensures list { (pool : PoolType) → IsSound pool → (levels : ℕ) (old new : DynamicMessage)
        → Tidy pool (suc levels) old → IsExclusive new
        → (f : FieldDescriptor) → Owns old.descriptor f → ExtendsField old new f
        → (vs : List Value) → AllByRecursion (IfMessage (Tidy pool levels)) vs
        → Lengthens (value_at (fields_of old) (field_type f).number)
        (value_at (fields_of new) (field_type f).number) vs
        → KeepsOther (value_at (fields_of old) (field_type f).number)
        (value_at (fields_of new) (field_type f).number) → Tidy pool (suc levels) new }
    ensures map { (pool : PoolType) → IsSound pool → (levels : ℕ) (old new : DynamicMessage)
        → Tidy pool (suc (suc levels)) old → IsExclusive new
        → (f : FieldDescriptor) → Owns old.descriptor f → holds_map pool (field_type f) ≡ true
        → ExtendsField old new f → (vs : List Value)
        → AllByRecursion (GivenWith (Tidy pool (suc (suc levels))) pool (field_type f)) vs
        → PutsEntries (value_at (fields_of old) (field_type f).number)
        (value_at (fields_of new) (field_type f).number) vs → Tidy pool (suc (suc levels)) new }
    ensures neither { (pool : PoolType) → IsSound pool → (levels : ℕ) (old new : DynamicMessage)
        → Tidy pool (suc levels) old → IsExclusive new
        → (f : FieldDescriptor) → Owns old.descriptor f → ExtendsField old new f
        → fields_of new ≡ fields_of old → Tidy pool (suc levels) new }
{}

/// The same of `extend_extension`.
pub fn extended_extensions_leave_messages_tidy()
    ensures list { (pool : PoolType) → IsSound pool → (levels : ℕ) (old new : DynamicMessage)
        → Tidy pool (suc levels) old → IsExclusive new
        → (x : ExtensionDescriptor) → OwnsExtension old.descriptor x → ExtendsExtension old new x
        → (vs : List Value) → AllByRecursion (IfMessage (Tidy pool levels)) vs
        → Lengthens (value_at (extensions_of old) (extension_type x).number)
        (value_at (extensions_of new) (extension_type x).number) vs
        → KeepsOther (value_at (extensions_of old) (extension_type x).number)
        (value_at (extensions_of new) (extension_type x).number) → Tidy pool (suc levels) new }
    ensures map { (pool : PoolType) → IsSound pool → (levels : ℕ) (old new : DynamicMessage)
        → Tidy pool (suc (suc levels)) old → IsExclusive new
        → (x : ExtensionDescriptor) → OwnsExtension old.descriptor x
        → holds_map pool (extension_type x) ≡ true
        → ExtendsExtension old new x → (vs : List Value)
        → AllByRecursion (GivenWith (Tidy pool (suc (suc levels))) pool (extension_type x)) vs
        → PutsEntries (value_at (extensions_of old) (extension_type x).number)
        (value_at (extensions_of new) (extension_type x).number) vs
        → Tidy pool (suc (suc levels)) new }
    ensures neither { (pool : PoolType) → IsSound pool → (levels : ℕ) (old new : DynamicMessage)
        → Tidy pool (suc levels) old → IsExclusive new
        → (x : ExtensionDescriptor) → OwnsExtension old.descriptor x → ExtendsExtension old new x
        → extensions_of new ≡ extensions_of old → Tidy pool (suc levels) new }
{}

/// What a message holds is whole where it was, and `extend_field` puts values behind a list that
/// are, each message one level below, whether or not they suit it, or entries into a map of which
/// each is a message of the entries' type that is as solid as itself.
pub fn extended_fields_leave_messages_solid()
    ensures list { (levels : ℕ) (old new : DynamicMessage) → Solid (suc levels) old
        → (f : FieldDescriptor) → ExtendsField old new f → (vs : List Value)
        → AllByRecursion IsWhole vs → AllByRecursion (IfMessage (Solid levels)) vs
        → Lengthens (value_at (fields_of old) (field_type f).number)
        (value_at (fields_of new) (field_type f).number) vs
        → KeepsOther (value_at (fields_of old) (field_type f).number)
        (value_at (fields_of new) (field_type f).number) → Solid (suc levels) new }
    ensures map { (pool : PoolType) → IsSound pool → (levels : ℕ) (old new : DynamicMessage)
        → old.descriptor.pool.now ≡ pool → Solid (suc (suc levels)) old
        → (f : FieldDescriptor) → Owns old.descriptor f → holds_map pool (field_type f) ≡ true
        → ExtendsField old new f → (vs : List Value)
        → AllByRecursion (GivenWith (IsSolidIn (suc (suc levels)) pool) pool (field_type f)) vs
        → PutsEntries (value_at (fields_of old) (field_type f).number)
        (value_at (fields_of new) (field_type f).number) vs → Solid (suc (suc levels)) new }
    ensures neither { (levels : ℕ) (old new : DynamicMessage) → Solid (suc levels) old
        → (f : FieldDescriptor) → ExtendsField old new f → fields_of new ≡ fields_of old
        → Solid (suc levels) new }
{}

/// The same of `extend_extension`.
pub fn extended_extensions_leave_messages_solid()
    ensures list { (levels : ℕ) (old new : DynamicMessage) → Solid (suc levels) old
        → (x : ExtensionDescriptor) → ExtendsExtension old new x → (vs : List Value)
        → AllByRecursion IsWhole vs → AllByRecursion (IfMessage (Solid levels)) vs
        → Lengthens (value_at (extensions_of old) (extension_type x).number)
        (value_at (extensions_of new) (extension_type x).number) vs
        → KeepsOther (value_at (extensions_of old) (extension_type x).number)
        (value_at (extensions_of new) (extension_type x).number) → Solid (suc levels) new }
    ensures map { (pool : PoolType) → IsSound pool → (levels : ℕ) (old new : DynamicMessage)
        → old.descriptor.pool.now ≡ pool → Solid (suc (suc levels)) old
        → (x : ExtensionDescriptor) → OwnsExtension old.descriptor x
        → holds_map pool (extension_type x) ≡ true
        → ExtendsExtension old new x → (vs : List Value)
        → AllByRecursion (GivenWith (IsSolidIn (suc (suc levels)) pool) pool (extension_type x)) vs
        → PutsEntries (value_at (extensions_of old) (extension_type x).number)
        (value_at (extensions_of new) (extension_type x).number) vs → Solid (suc (suc levels)) new }
    ensures neither { (levels : ℕ) (old new : DynamicMessage) → Solid (suc levels) old
        → (x : ExtensionDescriptor) → ExtendsExtension old new x
        → extensions_of new ≡ extensions_of old → Solid (suc levels) new }
{}
