//! Laws of pools and messages in the words of the model of texts, each the contract of a function
//! that does nothing.
ghost use Rattle.std.specs.Prelude.{◌≡◌, ◌≢◌, ◌⊎◌, ◌↔◌, ◌<◌, ◌≤◌, ℕ, length, suc, Option, false, true, map, Bool, List, None, Some};
ghost use Rattle.std.specs.List.{AllByRecursion};
ghost use Rattle.protox_lex.specs.Class.{Text};
ghost use Rattle.reflect_pool.specs.declared.message.MessageDescriptor.{MessageDescriptor};
ghost use Rattle.reflect_any.specs.Any.{IsAny};
ghost use Rattle.reflect_pool.specs.Kinds.{IsKind};
ghost use Rattle.reflect_pool.specs.declared.kind.Kind.{Kind};
ghost use Rattle.reflect_tables.specs.Types.{KindType, PoolType};
ghost use Rattle.reflect_tables.specs.Types as types;
ghost use Rattle.reflect_message.specs.Bytes.{message_bytes};
ghost use Rattle.reflect_message.specs.Contents as contents;
ghost use Rattle.reflect_message.specs.Contents.{content_of};
ghost use Rattle.reflect_message.specs.Known.{is_float};
ghost use Rattle.reflect_message.specs.Names.{Value, DynamicMessage};
ghost use Rattle.reflect_message.specs.Lists.{items_held};
ghost use Rattle.reflect_message.specs.Oneofs.{IsExclusive};
ghost use Rattle.reflect_pool.specs.FindsNames.{FindsMessage};
ghost use Rattle.reflect_pool.specs.Shapes.{holds_list, holds_map};
ghost use Rattle.reflect_numbered.specs.Called.{HasName, OwnsMeant};
ghost use Rattle.reflect_numbered.specs.Fits.{suits_type};
ghost use Rattle.reflect_numbered.specs.declared.validity.Strictness.{Strictness};
ghost use Rattle.reflect_format.specs.Filled.{Fills, HasRival, IsScalar, Makes, PutsOne};
ghost use Rattle.reflect_format.specs.Kinds.{scalar_given};
ghost use Rattle.reflect_format.specs.Named.{NamesExtension, NamesField, NoExtensionNamed, NoFieldNamed};
ghost use Rattle.reflect_format.specs.Reads.{Stops};
ghost use Rattle.reflect_format.specs.Steps.{held_by, is_set, AddsValues, Puts, SetsNumber};
ghost use Rattle.reflect_format.specs.Takes.{holds_many, target_pool, target_type};
ghost use Rattle.reflect_format.specs.Unfit.{CannotMake, Unfit};
ghost use Rattle.reflect_format.specs.declared.target.Target.{Target};
ghost use Rattle.protobuf_model.specs.Bytes.{bytes_of};
ghost use Rattle.protobuf_model.specs.Types.{Name};
ghost use Rattle.protobuf_model.specs.Values.{blob, nothing, text, Content, Message};
ghost use Rattle.message_view.specs.Shaped.{HasShape};
ghost use Rattle.message_view.specs.Sound.{HaveNames, AreApart, IsSound};
ghost use Rattle.message_view.specs.Types.{field_at, kind_in, name_at, types_of};
ghost use Rattle.message_view.specs.Views.{content_view, view};
ghost use Rattle.text_error.specs.declared.error.ParseErrorKind.{ParseErrorKind};
ghost use Rattle.text_error.specs.declared.error.ParseErrorKind.TheVariants as kinds;
ghost use Rattle.text_lex.specs.Token.{Lexeme};
ghost use Rattle.text_model.specs.Schemas.{shape_of, Schema};
ghost use Rattle.text_model.specs.Texts.{Gives, IsText};
ghost use Rattle.text_model.specs.Tokens.{open_braces};
ghost use Rattle.text_model.specs.Tree.{Fields, ScalarValue};
ghost use Rattle.text_model.specs.Value.{add_all, assign, hold, of_message, scalar_content, set_one, settled, value, wanted_in, wanted_of};
ghost use Rattle.text_view.specs.Holds.{HoldsKinds};
ghost use Rattle.text_view.specs.Names.{names_of, number_in};
ghost use Rattle.text_view.specs.Schemas.{is_any_at, schema_of, shape_at, type_called};
ghost use Rattle.text_view.specs.Targets.{target_field};
ghost use Rattle.text_syntax.specs.Beginning.{BeginWith};
ghost use Rattle.text_syntax.specs.Syntax.{at_end, message_at};
ghost use Rattle.text_view.specs.Values.{IsMessageOf, IsOne};

/// The field that a text names is found by its name.
pub fn named_fields_are_found()
    ensures { (m : MessageDescriptor) (w : Text) (t : Target) → NamesField m w t
        → (names_of m.pool.now m.index).field w ≡ Some (target_type t).number }
{}

/// A number that is found by a name is that of a field which the text names.
pub fn found_fields_are_named()
    ensures { (m : MessageDescriptor) (w : Text) (n : ℕ)
        → (names_of m.pool.now m.index).field w ≡ Some n
        → (t : Target) × NamesField m w t × ((target_type t).number ≡ n) }
{}

/// Where a text names no field, none is found.
pub fn no_field_is_found()
    ensures { (m : MessageDescriptor) (w : Text) → NoFieldNamed m w
        → (names_of m.pool.now m.index).field w ≡ None }
{}

/// Where no field is found, a text names none.
pub fn no_field_is_named()
    ensures { (m : MessageDescriptor) (w : Text)
        → (names_of m.pool.now m.index).field w ≡ None → NoFieldNamed m w }
{}

/// The extension that a text names is found by its full name.
pub fn named_extensions_are_found()
    ensures { (m : MessageDescriptor) (w : Text) (t : Target) → NamesExtension m w t
        → (names_of m.pool.now m.index).extension w ≡ Some (target_type t).number }
{}

/// A number that is found by a full name is that of an extension which the text names.
pub fn found_extensions_are_named()
    ensures { (m : MessageDescriptor) (w : Text) (n : ℕ)
        → (names_of m.pool.now m.index).extension w ≡ Some n
        → (t : Target) × NamesExtension m w t × ((target_type t).number ≡ n) }
{}

/// Where a text names no extension, none is found.
pub fn no_extension_is_found()
    ensures { (m : MessageDescriptor) (w : Text) → NoExtensionNamed m w
        → (names_of m.pool.now m.index).extension w ≡ None }
{}

/// Where no extension is found, a text names none.
pub fn no_extension_is_named()
    ensures { (m : MessageDescriptor) (w : Text)
        → (names_of m.pool.now m.index).extension w ≡ None → NoExtensionNamed m w }
{}

/// Where numbers and names are apart, what a text names is what the type has under its number.
pub fn what_is_named_stands_under_its_number()
    ensures { (m : MessageDescriptor) → AreApart m.pool.now → HaveNames m.pool.now
        → (w : Text) (t : Target) → NamesField m w t ⊎ NamesExtension m w t
        → types_of m.pool.now (name_at m.pool.now m.index) (target_type t).number
        ≡ Some (target_field m t) }
{}

/// So is the field that a call by name means: the first of its number.
pub fn fields_called_by_name_are_the_types_own()
    ensures { (m : MessageDescriptor) → AreApart m.pool.now → (w : Text)
        → OwnsMeant (HasName w) m }
{}

/// A type is told to keep a message of any type exactly where it does.
pub fn the_type_of_any_message_is_told()
    ensures { (m : MessageDescriptor) → (is_any_at m.pool.now m.index ≡ true) ↔ IsAny m }
{}

/// A single value that a text gives to a kind is read as what is seen of it.
pub fn given_scalars_are_read()
    ensures { (w : Schema) (pool : PoolType) (group : Bool) (s : ScalarValue)
        (k : Kind) (t : KindType) (v : Value) → IsKind pool k t → IsScalar k s v
        → scalar_content (wanted_in w (number_in pool t) (kind_in pool group t)) s
        ≡ Some (content_view v) }
{}

/// What a text does not give to a kind that messages hold is not read.
pub fn no_other_scalars_are_read()
    ensures { (w : Schema) (pool : PoolType) (group : Bool) (s : ScalarValue)
        (k : Kind) (t : KindType) → IsKind pool k t → is_float t ≡ false → scalar_given k s ≡ None
        → scalar_content (wanted_in w (number_in pool t) (kind_in pool group t)) s ≡ None }
{}

/// So it is of a target that is no map: a single value that a text gives is read by its names.
pub fn given_scalars_are_read_by_names()
    ensures { (m : MessageDescriptor) → AreApart m.pool.now → (w : Schema) (name : Text)
        (t : Target) → NamesField m name t ⊎ NamesExtension m name t
        → holds_map (target_pool t) (target_type t) ≡ false
        → (s : ScalarValue) (k : Kind) (v : Value) → IsKind (target_pool t) k (target_type t).kind
        → IsScalar k s v
        → scalar_content (wanted_of w (names_of m.pool.now m.index) (target_type t).number
        (target_field m t).part (target_field m t).label) s
        ≡ Some (content_view v) }
{}

/// And what it does not give is not read.
pub fn no_other_scalars_are_read_by_names()
    ensures { (m : MessageDescriptor) → AreApart m.pool.now → (w : Schema) (name : Text)
        (t : Target) → NamesField m name t ⊎ NamesExtension m name t
        → holds_map (target_pool t) (target_type t) ≡ false
        → (s : ScalarValue) (k : Kind) → IsKind (target_pool t) k (target_type t).kind
        → scalar_given k s ≡ None
        → scalar_content (wanted_of w (names_of m.pool.now m.index) (target_type t).number
        (target_field m t).part (target_field m t).label) s
        ≡ None }
{}

/// A value that is put into a target of one value is assigned, in what is seen of the message.
pub fn what_is_put_is_assigned()
    ensures { (old new : DynamicMessage) → AreApart old.descriptor.pool.now
        → HaveNames old.descriptor.pool.now → (w : Text) (t : Target)
        → NamesField old.descriptor w t ⊎ NamesExtension old.descriptor w t
        → holds_many t ≡ false → (v : Value) → IsOne v → IsExclusive old
        → new.descriptor ≡ old.descriptor → Puts t v old new
        → view new ≡ assign
        (types_of old.descriptor.pool.now (name_at old.descriptor.pool.now old.descriptor.index))
        (target_type t).number
        (settled (target_field old.descriptor t).part (content_view v)) (view old) }
{}

/// Values that are added to a list stand behind those that it has, and other members of its oneof
/// are unset.
pub fn what_is_added_to_a_list_stands_behind()
    ensures { (old new : DynamicMessage) → AreApart old.descriptor.pool.now
        → HaveNames old.descriptor.pool.now → (w : Text) (t : Target)
        → NamesField old.descriptor w t ⊎ NamesExtension old.descriptor w t
        → holds_list (target_pool t) (target_type t) ≡ true → IsExclusive old
        → (vs before : List Value) → items_held (held_by old t) ≡ Some before
        → new.descriptor ≡ old.descriptor → AddsValues t vs old new
        → add_all
        (types_of old.descriptor.pool.now (name_at old.descriptor.pool.now old.descriptor.index))
        (target_type t).number (target_field old.descriptor t).part
        (target_field old.descriptor t).label (view old) (map content_view vs)
        ≡ Some (view new) }
{}

/// The type that a text expands is found by its full name.
pub fn named_types_are_found()
    ensures { (pool : PoolType) (w : Text) (d : MessageDescriptor) → FindsMessage pool w (Some d)
        → type_called pool w ≡ Some (name_at pool d.index) }
{}

/// Where no type has the full name, none is found.
pub fn no_type_is_found()
    ensures { (pool : PoolType) (w : Text) → FindsMessage pool w None
        → type_called pool w ≡ None }
{}

/// Where names are apart, texts of a type are read by what stands at its place.
pub fn the_shape_of_a_name_is_that_of_its_place()
    ensures { (pool : PoolType) → HaveNames pool → (decoded : Name → Text → Option Message)
        → (i : ℕ) → i < length pool.messages
        → shape_of (schema_of pool decoded) (name_at pool i) ≡ shape_at pool i }
{}

/// Of a message in which nothing is set nothing is seen, and what texts ask of messages is so.
pub fn nothing_is_seen_where_nothing_is_set()
    ensures { (m : DynamicMessage) → content_of m ≡ contents.nothing
        → (view m ≡ nothing) × IsExclusive m × HoldsKinds m }
{}

/// A message that suits its type, as `is_typed` tells, holds values of the kinds of its fields, as
/// the laws of texts ask of the message that a text fills. So does one that `is_encodable` accepts.
pub fn messages_that_are_typed_hold_their_kinds()
    ensures { (how : Strictness) (m : DynamicMessage) → suits_type how m ≡ true → HoldsKinds m }
{}

/// A value that is put where neither its target nor another member of the oneof is set is set, in
/// what is seen of the message.
pub fn what_is_put_alone_is_set()
    ensures { (old new : DynamicMessage) → IsSound old.descriptor.pool.now → (w : Text) (t : Target)
        → NamesField old.descriptor w t ⊎ NamesExtension old.descriptor w t
        → (v : Value) → IsOne v → IsExclusive old → HoldsKinds old
        → new.descriptor ≡ old.descriptor → PutsOne t v old new
        → set_one (field_at old.descriptor.pool.now old.descriptor.index) (target_type t).number
        (target_field old.descriptor t).part (view old) (content_view v)
        ≡ Some (view new) }
{}

/// Where the target is set, or another member of its oneof, no value is.
pub fn no_second_value_is_set()
    ensures { (m : DynamicMessage) → IsSound m.descriptor.pool.now → (w : Text) (t : Target)
        → NamesField m.descriptor w t ⊎ NamesExtension m.descriptor w t
        → holds_many t ≡ false → HoldsKinds m → (is_set m t ≡ true) ⊎ HasRival t m → (c : Content)
        → set_one (field_at m.descriptor.pool.now m.descriptor.index) (target_type t).number
        (target_field m.descriptor t).part (view m) c
        ≡ None }
{}

/// The entries of a map are read as messages of their type.
pub fn entries_are_read_as_messages_of_their_type()
    ensures { (m : MessageDescriptor) → IsSound m.pool.now
        → (decoded : Name → Text → Option Message) (w : Text) (t : Target)
        → NamesField m w t ⊎ NamesExtension m w t
        → holds_map (target_pool t) (target_type t) ≡ true
        → (d : MessageDescriptor) → d.pool.now ≡ m.pool.now
        → (target_type t).kind ≡ types.message d.index
        → wanted_of (schema_of m.pool.now decoded) (names_of m.pool.now m.index)
        (target_type t).number (target_field m t).part (target_field m t).label
        ≡ of_message (shape_at m.pool.now d.index) }
{}

/// Messages that are put into a map, of its type of entries, are put as the entries that they are.
pub fn what_is_put_into_a_map_is_added()
    ensures { (old new : DynamicMessage) → IsSound old.descriptor.pool.now → (w : Text) (t : Target)
        → NamesField old.descriptor w t ⊎ NamesExtension old.descriptor w t
        → holds_map (target_pool t) (target_type t) ≡ true → IsExclusive old → HoldsKinds old
        → (d : MessageDescriptor) → d.pool.now ≡ old.descriptor.pool.now
        → (target_type t).kind ≡ types.message d.index
        → (vs : List Value) → AllByRecursion (IsMessageOf d) vs
        → new.descriptor ≡ old.descriptor → AddsValues t vs old new
        → add_all (field_at old.descriptor.pool.now old.descriptor.index) (target_type t).number
        (target_field old.descriptor t).part (target_field old.descriptor t).label (view old)
        (map content_view vs)
        ≡ Some (view new) }
{}

/// A google.protobuf.Any that gets a URL and bytes holds them, in what is seen of it.
pub fn what_an_any_gets_is_held()
    ensures { (old between new : DynamicMessage) → AreApart old.descriptor.pool.now
        → IsExclusive old → IsExclusive between → between.descriptor ≡ old.descriptor
        → new.descriptor ≡ old.descriptor → IsAny old.descriptor → (url bytes : Text)
        → SetsNumber 1 (text url) old between → SetsNumber 2 (blob bytes) between new
        → hold (shape_at old.descriptor.pool.now old.descriptor.index) url bytes (view old)
        ≡ Some (view new) }
{}

/// The fields of a text that fill a message give, in the model, what is then seen of it.
pub fn texts_give_what_they_fill()
    ensures { (decoded : Name → Text → Option Message) (old new : DynamicMessage)
        → IsSound old.descriptor.pool.now → IsExclusive old → HoldsKinds old
        → (fs : Fields) → Fills fs old new
        → value (schema_of old.descriptor.pool.now decoded)
        (shape_at old.descriptor.pool.now old.descriptor.index) fs (view old)
        ≡ Some (view new) }
{}

/// Those that a message does not take give nothing.
pub fn unfit_texts_give_nothing()
    ensures { (decoded : Name → Text → Option Message) (old : DynamicMessage)
        → IsSound old.descriptor.pool.now → IsExclusive old → HoldsKinds old
        → (fs : Fields) → Unfit fs old
        → value (schema_of old.descriptor.pool.now decoded)
        (shape_at old.descriptor.pool.now old.descriptor.index) fs (view old)
        ≡ None }
{}

/// So no text fills a message that does not take it.
pub fn no_unfit_text_fills()
    ensures { (old new : DynamicMessage) → IsSound old.descriptor.pool.now → IsExclusive old
        → HoldsKinds old → (fs : Fields) → Fills fs old new → Unfit fs old → ⊥ }
{}

/// And it fills a message in one way.
pub fn texts_fill_in_one_way()
    ensures { (old a b : DynamicMessage) → IsSound old.descriptor.pool.now → IsExclusive old
        → HoldsKinds old → (fs : Fields) → Fills fs old a → Fills fs old b
        → view a ≡ view b }
{}

/// A message that a text fills again is exclusive, and holds values of the kinds of its fields.
pub fn filled_messages_stay_so()
    ensures { (old new : DynamicMessage) → IsSound old.descriptor.pool.now → IsExclusive old
        → HoldsKinds old → (fs : Fields) → Fills fs old new
        → IsExclusive new × HoldsKinds new }
{}

/// And a message of which a text was refused is exclusive still, whatever it was refused for.
pub fn refused_messages_stay_exclusive()
    ensures { (old new : DynamicMessage) → IsSound old.descriptor.pool.now → IsExclusive old
        → HoldsKinds old → (ls : List Lexeme) (kind : ParseErrorKind) → Stops ls kind old new
        → IsExclusive new }
{}

/// But for want of memory, a message of which a text was refused is what the fields in front of the
/// first fault make of it, and holds values of the kinds of its fields.
pub fn refused_texts_leave_what_stands_before()
    ensures { (decoded : Name → Text → Option Message) (old new : DynamicMessage)
        → IsSound old.descriptor.pool.now → IsExclusive old → HoldsKinds old
        → (ls : List Lexeme) (kind : ParseErrorKind) → (kind ≢ kinds.Memory)
        → Stops ls kind old new
        → (done : Fields) × (rest : List Lexeme) × BeginWith at_end (message_at 100) ls done rest
        × (value (schema_of old.descriptor.pool.now decoded)
        (shape_at old.descriptor.pool.now old.descriptor.index) done (view old)
        ≡ Some (view new)) × HoldsKinds new }
{}

/// A message in shape that a text fills is in shape, of as many levels as braces are open in the
/// text, or more. Where it was exclusive at each depth, it is so still.
pub fn filled_messages_stay_in_shape()
    ensures { (exclusive : Bool) (old new : DynamicMessage) → IsSound old.descriptor.pool.now
        → (fs : Fields) (levels : ℕ) → open_braces fs ≤ levels
        → HasShape exclusive (suc levels) old → Fills fs old new
        → HasShape exclusive (suc levels) new }
{}

/// And a message of which a text was refused, whatever it was refused for, holds values of the
/// kinds of its fields, and stays in shape of as many levels as it was, if these are as many as
/// texts may have: so it may be encoded, merged into, and filled by the next text, as before.
pub fn refused_messages_stay_in_shape()
    ensures kinds { (old new : DynamicMessage) → IsSound old.descriptor.pool.now
        → new.descriptor ≡ old.descriptor → IsExclusive old → HoldsKinds old
        → (ls : List Lexeme) (kind : ParseErrorKind) → Stops ls kind old new → HoldsKinds new }
    ensures shape { (exclusive : Bool) (old new : DynamicMessage)
        → IsSound old.descriptor.pool.now → new.descriptor ≡ old.descriptor
        → (levels : ℕ) → 100 ≤ levels → HasShape exclusive (suc levels) old
        → (ls : List Lexeme) (kind : ParseErrorKind) → Stops ls kind old new
        → HasShape exclusive (suc levels) new }
{}

/// What a text makes of a type is the message that the text gives, and is written in the one form
/// of it.
pub fn texts_make_the_message_that_they_give()
    ensures { (d : MessageDescriptor) → IsSound d.pool.now
        → (decoded : Name → Text → Option Message) (z : Text) (fs : Fields) → IsText z fs
        → (m : DynamicMessage) → Makes d (Fills fs) m
        → Gives (schema_of d.pool.now decoded) (name_at d.pool.now d.index) z (view m)
        × (message_bytes m
        ≡ bytes_of (types_of d.pool.now) (name_at d.pool.now d.index) (view m)) }
{}

/// A text that the type does not take, however it is spelled, gives no message.
pub fn texts_that_make_none_give_none()
    ensures { (d : MessageDescriptor) → IsSound d.pool.now
        → (decoded : Name → Text → Option Message) (z : Text)
        → ((fs : Fields) → IsText z fs → CannotMake d (Unfit fs))
        → (m : Message)
        → Gives (schema_of d.pool.now decoded) (name_at d.pool.now d.index) z m → ⊥ }
{}
