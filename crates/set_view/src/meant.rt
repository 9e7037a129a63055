//! Laws of what lists and maps mean that took further values.
ghost use Rattle.std.specs.Prelude.{◌≡◌, ◌++◌, Bool, List, Some, false, map, suc, true, ℕ};
ghost use Rattle.std.specs.List.{AllByRecursion};
ghost use Rattle.std.specs.Option.{IsSome};
ghost use Rattle.protobuf_model.specs.Meaning.{if_any, if_some, items, pairs, put_all};
ghost use Rattle.protobuf_model.specs.Typed.{IsEntryOf, IsHeldOf, IsOf, IsTyped};
ghost use Rattle.protobuf_model.specs.Types.{Field, Key, Name, Types, keyed, many};
ghost use Rattle.protobuf_model.specs.Values.{Content, Held, Single};
ghost use Rattle.reflect_entries.specs.Entries.{value_at};
ghost use Rattle.reflect_extend.specs.Gives.{Entry};
ghost use Rattle.reflect_extend.specs.Puts.{PutsEntries};
ghost use Rattle.reflect_extend.specs.Siblings.{LacksSibling};
ghost use Rattle.reflect_message.specs.Declares.{NoField, Owns, OwnsExtension};
ghost use Rattle.reflect_message.specs.Held.{choices_of, extensions_of, fields_of};
ghost use Rattle.reflect_message.specs.Known.{holds_floats};
ghost use Rattle.reflect_message.specs.Lists.{Lengthens, items_held};
ghost use Rattle.reflect_message.specs.Maps.{entries_held};
ghost use Rattle.reflect_message.specs.Messages.{message_in};
ghost use Rattle.reflect_message.specs.Names.{DynamicMessage, Value};
ghost use Rattle.reflect_message.specs.Oneofs.{IsExclusive};
ghost use Rattle.reflect_pool.specs.FieldsLeft.{field_type};
ghost use Rattle.reflect_pool.specs.Shapes.{holds_map};
ghost use Rattle.reflect_pool.specs.declared.extension.ExtensionDescriptor.{ExtensionDescriptor};
ghost use Rattle.reflect_pool.specs.declared.field.FieldDescriptor.{FieldDescriptor};
ghost use Rattle.reflect_scalar.specs.FieldTypes.{extension_type};
ghost use Rattle.reflect_tables.specs.Types.{FieldType, PoolType};
ghost use Rattle.message_view.specs.Shaped.{FitsOne, Shaped};
ghost use Rattle.message_view.specs.Sound.{IsSound};
ghost use Rattle.message_view.specs.Types.{name_at, types_of};
ghost use Rattle.message_view.specs.Views.{content_view, view};
ghost use Rattle.set_view.specs.Extends.{ExtendsExtension, ExtendsField};
ghost use Rattle.set_view.specs.Given.{AreGiven, GivesKeyed, GivesSuiting, HasKey, SuitsEntries, entry_view};
ghost use Rattle.set_view.specs.Puts.{IsPut};

/// A field that values are put behind holds the list that it held, followed by what the values
/// mean, the other members of its oneof hold nothing, and nothing else is changed.
pub fn extended_lists_are_put()
    ensures { (old new : DynamicMessage) → IsSound old.descriptor.pool.now → IsExclusive old
        → (f : FieldDescriptor) → Owns old.descriptor f → ExtendsField old new f
        → LacksSibling f (choices_of old) (fields_of new)
        → (vs : List Value) → IsSome (items_held (value_at (fields_of old) (field_type f).number))
        → Lengthens (value_at (fields_of old) (field_type f).number)
        (value_at (fields_of new) (field_type f).number) vs
        → IsPut (types_of old.descriptor.pool.now
        (name_at old.descriptor.pool.now old.descriptor.index)) (field_type f).number
        (if_any (items (view old (field_type f).number) ++ map content_view vs))
        (view old) (view new) }
{}

/// So does an extension, under whose number no field stands.
pub fn extended_list_extensions_are_put()
    ensures { (old new : DynamicMessage) → IsSound old.descriptor.pool.now
        → (x : ExtensionDescriptor) → OwnsExtension old.descriptor x
        → NoField old.descriptor (extension_type x).number → ExtendsExtension old new x
        → (vs : List Value)
        → IsSome (items_held (value_at (extensions_of old) (extension_type x).number))
        → Lengthens (value_at (extensions_of old) (extension_type x).number)
        (value_at (extensions_of new) (extension_type x).number) vs
        → IsPut (types_of old.descriptor.pool.now
        (name_at old.descriptor.pool.now old.descriptor.index)) (extension_type x).number
        (if_any (items (view old (extension_type x).number) ++ map content_view vs))
        (view old) (view new) }
{}

/// A field that entries are put into holds the map that it held, with the entries that the values
/// give put in one behind the other, each over the one of an equal key, where all keys are of the
/// map's kind. The other members of its oneof hold nothing, and nothing else is changed.
pub fn extended_maps_are_put()
    ensures { (old new : DynamicMessage) → IsSound old.descriptor.pool.now → IsExclusive old
        → (f : FieldDescriptor) → Owns old.descriptor f → ExtendsField old new f
        → LacksSibling f (choices_of old) (fields_of new)
        → (before : List Entry)
        → entries_held (value_at (fields_of old) (field_type f).number) ≡ Some before
        → AllByRecursion (HasKey old.descriptor.pool.now (field_type f)) before
        → (vs : List Value)
        → AllByRecursion (GivesKeyed old.descriptor.pool.now (field_type f)) vs
        → PutsEntries (value_at (fields_of old) (field_type f).number)
        (value_at (fields_of new) (field_type f).number) vs
        → (es : List Entry) × AreGiven vs es × IsPut (types_of old.descriptor.pool.now
        (name_at old.descriptor.pool.now old.descriptor.index)) (field_type f).number
        (if_some (put_all (pairs (view old (field_type f).number)) (map entry_view es)))
        (view old) (view new) }
{}

/// So does an extension, under whose number no field stands.
pub fn extended_map_extensions_are_put()
    ensures { (old new : DynamicMessage) → IsSound old.descriptor.pool.now
        → (x : ExtensionDescriptor) → OwnsExtension old.descriptor x
        → NoField old.descriptor (extension_type x).number → ExtendsExtension old new x
        → (before : List Entry)
        → entries_held (value_at (extensions_of old) (extension_type x).number) ≡ Some before
        → AllByRecursion (HasKey old.descriptor.pool.now (extension_type x)) before
        → (vs : List Value)
        → AllByRecursion (GivesKeyed old.descriptor.pool.now (extension_type x)) vs
        → PutsEntries (value_at (extensions_of old) (extension_type x).number)
        (value_at (extensions_of new) (extension_type x).number) vs
        → (es : List Entry) × AreGiven vs es × IsPut (types_of old.descriptor.pool.now
        (name_at old.descriptor.pool.now old.descriptor.index)) (extension_type x).number
        (if_some (put_all (pairs (view old (extension_type x).number)) (map entry_view es)))
        (view old) (view new) }
{}

/// Where a message suits its type, the keys of a field that is a map are of the map's kind.
pub fn maps_that_suit_have_their_keys()
    ensures { (depth : ℕ) (m : DynamicMessage) → IsSound m.descriptor.pool.now
        → IsTyped (suc depth) (types_of m.descriptor.pool.now)
        (name_at m.descriptor.pool.now m.descriptor.index) (view m)
        → (f : FieldDescriptor) → Owns m.descriptor f
        → holds_map m.descriptor.pool.now (field_type f) ≡ true
        → (es : List Entry)
        → entries_held (value_at (fields_of m) (field_type f).number) ≡ Some es
        → AllByRecursion (HasKey m.descriptor.pool.now (field_type f)) es }
{}

/// So are those of an extension.
pub fn map_extensions_that_suit_have_their_keys()
    ensures { (depth : ℕ) (m : DynamicMessage) → IsSound m.descriptor.pool.now
        → IsTyped (suc depth) (types_of m.descriptor.pool.now)
        (name_at m.descriptor.pool.now m.descriptor.index) (view m)
        → (x : ExtensionDescriptor) → OwnsExtension m.descriptor x
        → NoField m.descriptor (extension_type x).number
        → holds_map m.descriptor.pool.now (extension_type x) ≡ true
        → (es : List Entry)
        → entries_held (value_at (extensions_of m) (extension_type x).number) ≡ Some es
        → AllByRecursion (HasKey m.descriptor.pool.now (extension_type x)) es }
{}

/// A message in shape that suits the type of a map's entries gives an entry with such a key.
pub fn entries_that_suit_give_their_keys()
    ensures { (levels depth : ℕ) (pool : PoolType) → IsSound pool
        → (f : FieldType) → holds_map pool f ≡ true
        → (v : Value) → FitsOne (Shaped (suc (suc levels))) pool f v
        → ((m : DynamicMessage) → message_in v ≡ Some m
        → IsTyped (suc depth) (types_of pool) (name_at pool m.descriptor.index) (view m))
        → GivesKeyed pool f v }
{}

/// It gives one that suits the map, where messages hold this: its values are no floating-point
/// numbers.
pub fn entries_that_suit_give_what_suits()
    ensures { (levels depth : ℕ) (pool : PoolType) → IsSound pool
        → (f : FieldType) → holds_map pool f ≡ true → holds_floats pool f ≡ false
        → (v : Value) → FitsOne (Shaped (suc (suc levels))) pool f v
        → ((m : DynamicMessage) → message_in v ≡ Some m
        → IsTyped (suc depth) (types_of pool) (name_at pool m.descriptor.index) (view m))
        → GivesSuiting depth pool f v }
{}

/// A list that suits its field does so with elements behind it that suit.
pub fn longer_lists_suit_the_field()
    ensures { (depth : ℕ) (types : Types) (t : Name) (n : ℕ) (f : Field) (packed : Bool)
        (held : Held) (cs : List Content) → types t n ≡ Some f → f.label ≡ many packed
        → IsHeldOf (IsTyped depth types) (suc depth) (types t n) held
        → AllByRecursion (IsOf (IsTyped depth types) f.part.kind) cs
        → IsHeldOf (IsTyped depth types) (suc depth) (types t n) (if_any (items held ++ cs)) }
{}

/// So does a map with entries put in that suit.
pub fn fuller_maps_suit_the_field()
    ensures { (depth : ℕ) (types : Types) (t : Name) (n : ℕ) (f : Field) (key : Key) (held : Held)
        (es : List (Single × Content)) → types t n ≡ Some f → f.label ≡ keyed key
        → IsHeldOf (IsTyped depth types) (suc depth) (types t n) held
        → AllByRecursion (IsEntryOf (IsTyped depth types) key f.part) es
        → IsHeldOf (IsTyped depth types) (suc depth) (types t n)
        (if_some (put_all (pairs held) es)) }
{}

/// Where a message is in shape and suits its type, it still does with entries put into a field that
/// is a map, by messages that are in shape and suit the entries' type: so `encode` writes it in one
/// form, and `decode` reads it again as it was.
pub fn extended_maps_suit_the_type()
    ensures { (levels depth : ℕ) (old new : DynamicMessage) → IsSound old.descriptor.pool.now
        → Shaped (suc (suc levels)) old
        → IsTyped (suc depth) (types_of old.descriptor.pool.now)
        (name_at old.descriptor.pool.now old.descriptor.index) (view old)
        → IsExclusive old → (f : FieldDescriptor) → Owns old.descriptor f
        → holds_map old.descriptor.pool.now (field_type f) ≡ true
        → ExtendsField old new f → LacksSibling f (choices_of old) (fields_of new)
        → (vs : List Value)
        → AllByRecursion (SuitsEntries levels depth old.descriptor.pool.now (field_type f)) vs
        → PutsEntries (value_at (fields_of old) (field_type f).number)
        (value_at (fields_of new) (field_type f).number) vs
        → Shaped (suc (suc levels)) new × IsTyped (suc depth) (types_of old.descriptor.pool.now)
        (name_at old.descriptor.pool.now old.descriptor.index) (view new) }
{}

/// So it does with entries put into an extension, under whose number no field stands.
pub fn extended_map_extensions_suit_the_type()
    ensures { (levels depth : ℕ) (old new : DynamicMessage) → IsSound old.descriptor.pool.now
        → Shaped (suc (suc levels)) old
        → IsTyped (suc depth) (types_of old.descriptor.pool.now)
        (name_at old.descriptor.pool.now old.descriptor.index) (view old)
        → (x : ExtensionDescriptor) → OwnsExtension old.descriptor x
        → NoField old.descriptor (extension_type x).number
        → holds_map old.descriptor.pool.now (extension_type x) ≡ true
        → ExtendsExtension old new x → (vs : List Value)
        → AllByRecursion (SuitsEntries levels depth old.descriptor.pool.now (extension_type x)) vs
        → PutsEntries (value_at (extensions_of old) (extension_type x).number)
        (value_at (extensions_of new) (extension_type x).number) vs
        → Shaped (suc (suc levels)) new × IsTyped (suc depth) (types_of old.descriptor.pool.now)
        (name_at old.descriptor.pool.now old.descriptor.index) (view new) }
{}
