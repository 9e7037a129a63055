//! Laws of what `decode` and `encode` say of bytes and messages, each the contract of a function
//! that does nothing. They speak of the types of a pool, and of a message as one of these.
ghost use Rattle.std.specs.Prelude.{◌≡◌, ◌↔◌, ◌<◌, ◌^◌, ◌++◌, ℕ, List, map, length, Some, String};
ghost use Rattle.std.specs.List.{AllByRecursion};
ghost use Rattle.protobuf_model.specs.Coded.{AreOlderThan, IsAccepted, IsRecoded, Mean, SuitsType};
ghost use Rattle.protobuf_model.specs.Bytes.{bytes_of};
ghost use Rattle.protobuf_model.specs.Values.{Message};
ghost use Rattle.protobuf_model.specs.Older.{IsOlder};
ghost use Rattle.reflect_decode.specs.Spelled.{IsMerged, IsSpelled, TellsWhy};
ghost use Rattle.reflect_decode.specs.Suits.{Suits};
ghost use Rattle.reflect_message.specs.Contents.{content_of};
ghost use Rattle.reflect_message.specs.Names.{DynamicMessage};
ghost use Rattle.reflect_pool.specs.Dots.{without_dot};
ghost use Rattle.reflect_pool.specs.FindsNames.{FindsMessage};
ghost use Rattle.reflect_pool.specs.Linked.{IsLinked};
ghost use Rattle.reflect_scope.specs.declared.definition.Definition.{Definition};
ghost use Rattle.reflect_scope.specs.declared.seen.Links.{Links};
ghost use Rattle.reflect_tables.specs.ExtensionNumbers.{KeyType};
ghost use Rattle.reflect_tables.specs.Types.{ArePooled, PoolType};
ghost use Rattle.reflect_tables.specs.declared.stored.StoredMessage.{StoredMessage};
ghost use Rattle.std.specs.BTreeMap.{BTreeMap};
ghost use Rattle.name_table.specs.declared.table.NameTable.{NameTable};
ghost use Rattle.std.specs.declared.alloc.Global.{Global};
ghost use Rattle.reflect_pool.specs.declared.message.MessageDescriptor.{MessageDescriptor};
ghost use Rattle.reflect_wire.specs.Written.{AreBytes};
ghost use Rattle.reflect_wire.specs.declared.wire_error.WireError.{WireError};
ghost use Rattle.reflect_wire.specs.declared.wire_error.WireError.TheVariants.{Memory};
ghost use Rattle.reflect_message.specs.Bytes.{message_bytes};
ghost use Rattle.message_view.specs.Recoded.{Recodes, RecodesThrough, type_of};
ghost use Rattle.message_view.specs.Sound.{HaveNames, IsSound};
ghost use Rattle.message_view.specs.Types.{name_at, types_of};
ghost use Rattle.message_view.specs.Views.{view};

/// The parts of a linked pool fit together, and no two of its message types have one name.
pub fn linked_pools_have_names()
    ensures { (pool : PoolType) (names : NameTable Definition)
        (file_names : BTreeMap (String Global) ℕ) (places : BTreeMap KeyType ℕ) (links : List Links)
        (messages : List StoredMessage)
        → IsLinked pool names file_names places links messages → ArePooled pool × HaveNames pool }
{}

/// The type accepts bytes that `decode` answers, and they mean the message that it gives.
pub fn decoded_bytes_mean_the_message()
    ensures { (d : MessageDescriptor) → IsSound d.pool.now → (bytes : List ℕ) → AreBytes bytes
        → (m : DynamicMessage) → m.descriptor ≡ d → IsSpelled d bytes m
        → Mean (types_of d.pool.now) (name_at d.pool.now d.index) bytes (view m) }
{}

/// The type accepts no bytes that `decode` refuses, but for want of memory.
pub fn refused_bytes_are_not_accepted()
    ensures { (d : MessageDescriptor) → IsSound d.pool.now
        → (bytes : List ℕ) (e : WireError) → (e ≡ Memory → ⊥) → TellsWhy d bytes e
        → IsAccepted (types_of d.pool.now) (name_at d.pool.now d.index) bytes → ⊥ }
{}

/// What `decode` gives suits its type.
pub fn decoded_messages_suit_the_type()
    ensures { (d : MessageDescriptor) → IsSound d.pool.now → (bytes : List ℕ) → AreBytes bytes
        → (m : DynamicMessage) → m.descriptor ≡ d → IsSpelled d bytes m
        → SuitsType (types_of d.pool.now) (name_at d.pool.now d.index) (view m) }
{}

/// Bytes that `decode` answers by a type it refuses by no older type, of this or of another pool,
/// but for want of memory.
pub fn decoded_bytes_are_decoded_by_older_types()
    ensures { (old new : MessageDescriptor)
        → IsSound old.pool.now → IsSound new.pool.now
        → IsOlder (types_of old.pool.now) (name_at old.pool.now old.index)
        (types_of new.pool.now) (name_at new.pool.now new.index)
        → (bytes : List ℕ) → AreBytes bytes
        → (m : DynamicMessage) → m.descriptor ≡ new → IsSpelled new bytes m
        → (e : WireError) → (e ≡ Memory → ⊥) → TellsWhy old bytes e → ⊥ }
{}

/// Bytes that `decode` answers it refuses no more one behind the other, but for want of memory.
pub fn decoded_bytes_are_decoded_together()
    ensures { (d : MessageDescriptor) → IsSound d.pool.now
        → (a b : List ℕ) → AreBytes a → AreBytes b
        → (m n : DynamicMessage) → m.descriptor ≡ d → n.descriptor ≡ d
        → IsSpelled d a m → IsSpelled d b n
        → (e : WireError) → (e ≡ Memory → ⊥) → TellsWhy d (a ++ b) e → ⊥ }
{}

/// The type accepts bytes that `merge` takes into a message that suits it.
pub fn merged_bytes_are_accepted()
    ensures { (d : MessageDescriptor) → IsSound d.pool.now → (bytes : List ℕ) → AreBytes bytes
        → (old new : DynamicMessage) → Suits 100 d (content_of old) → IsMerged d bytes old new
        → IsAccepted (types_of d.pool.now) (name_at d.pool.now d.index) bytes }
{}

/// `encode` writes a decoded message in the one form of what the bytes mean.
pub fn decoded_messages_are_written_in_one_form()
    ensures { (d : MessageDescriptor) → IsSound d.pool.now → (bytes : List ℕ)
        → (m : DynamicMessage) → m.descriptor ≡ d → IsSpelled d bytes m
        → message_bytes m ≡ bytes_of (types_of d.pool.now) (name_at d.pool.now d.index) (view m) }
{}

/// What the program recodes the type does.
pub fn recoded_bytes_are_those_of_the_type()
    ensures { (d : MessageDescriptor) → IsSound d.pool.now → (bytes out : List ℕ) → AreBytes bytes
        → Recodes d bytes out
        → IsRecoded (types_of d.pool.now) (name_at d.pool.now d.index) bytes out }
{}

/// Recoded bytes mean what the bytes do, where they are no more than a length can say.
pub fn recoded_bytes_mean_the_same()
    ensures { (d : MessageDescriptor) → IsSound d.pool.now → (bytes out : List ℕ) → AreBytes bytes
        → Recodes d bytes out → length out < 2 ^ 64 → (m : Message)
        → Mean (types_of d.pool.now) (name_at d.pool.now d.index) bytes m
        → Mean (types_of d.pool.now) (name_at d.pool.now d.index) out m }
{}

/// `decode` refuses no such bytes, but for want of memory.
pub fn recoded_bytes_are_decoded()
    ensures { (d : MessageDescriptor) → IsSound d.pool.now → (bytes out : List ℕ) → AreBytes bytes
        → Recodes d bytes out → length out < 2 ^ 64
        → (e : WireError) → (e ≡ Memory → ⊥) → TellsWhy d out e → ⊥ }
{}

/// What `decode` gives of them is the message that was encoded.
pub fn encoded_messages_are_decoded_as_they_were()
    ensures { (d : MessageDescriptor) → IsSound d.pool.now → (bytes out : List ℕ)
        → AreBytes bytes → AreBytes out → (r : Recodes d bytes out) → length out < 2 ^ 64
        → (m : DynamicMessage) → m.descriptor ≡ d → IsSpelled d out m → view m ≡ view r.message }
{}

/// Recoded again they are the same.
pub fn recoded_bytes_stay()
    ensures { (d : MessageDescriptor) → IsSound d.pool.now → (bytes out again : List ℕ)
        → AreBytes bytes → AreBytes out
        → Recodes d bytes out → length out < 2 ^ 64 → Recodes d out again → again ≡ out }
{}

/// Two recodings are equal exactly if the decoded messages are.
pub fn recoded_bytes_are_equal_where_messages_are()
    ensures { (d : MessageDescriptor) → IsSound d.pool.now
        → (a b x y : List ℕ) → AreBytes a → AreBytes b
        → (r : Recodes d a x) (s : Recodes d b y) → length x < 2 ^ 64 → length y < 2 ^ 64
        → (x ≡ y) ↔ (view r.message ≡ view s.message) }
{}

/// What an older type recodes, of this or of another pool, means to the newer what the bytes do.
pub fn bytes_pass_through_an_older_type()
    ensures { (old new : MessageDescriptor) → IsSound old.pool.now → IsSound new.pool.now
        → IsOlder (types_of old.pool.now) (name_at old.pool.now old.index)
        (types_of new.pool.now) (name_at new.pool.now new.index)
        → (bytes out : List ℕ) → AreBytes bytes → Recodes old bytes out → length out < 2 ^ 64
        → (m : Message) → Mean (types_of new.pool.now) (name_at new.pool.now new.index) bytes m
        → Mean (types_of new.pool.now) (name_at new.pool.now new.index) out m }
{}

/// The same of a chain of types, each older than the newest.
pub fn bytes_pass_through_older_types()
    ensures { (new : MessageDescriptor) (ds : List MessageDescriptor)
        → IsSound new.pool.now → AllByRecursion (λ (d : MessageDescriptor). IsSound d.pool.now) ds
        → AreOlderThan (types_of new.pool.now) (name_at new.pool.now new.index) (map type_of ds)
        → (bytes out : List ℕ) → AreBytes bytes → RecodesThrough ds bytes out
        → (m : Message) → Mean (types_of new.pool.now) (name_at new.pool.now new.index) bytes m
        → Mean (types_of new.pool.now) (name_at new.pool.now new.index) out m }
{}

/// Behind any such chain the newest recodes to what it recodes the bytes themselves to.
pub fn chains_have_one_normal_form()
    ensures { (new : MessageDescriptor) (ds : List MessageDescriptor)
        → IsSound new.pool.now → AllByRecursion (λ (d : MessageDescriptor). IsSound d.pool.now) ds
        → AreOlderThan (types_of new.pool.now) (name_at new.pool.now new.index) (map type_of ds)
        → (bytes out x y : List ℕ) → AreBytes bytes → RecodesThrough ds bytes out
        → Recodes new out x → Recodes new bytes y → x ≡ y }
{}

/// A type that is found by a name has it.
pub fn a_found_type_has_the_name()
    ensures { (d : MessageDescriptor) (pool : PoolType) (name : List ℕ)
        → FindsMessage pool name (Some d) → name_at pool d.index ≡ without_dot name }
{}

/// What the program recodes by a type's name the type of the name does.
pub fn bytes_are_recoded_by_name()
    ensures { (pool : PoolType) (name : List ℕ) (d : MessageDescriptor)
        → IsSound pool → d.pool.now ≡ pool → FindsMessage pool name (Some d)
        → (bytes out : List ℕ) → AreBytes bytes → Recodes d bytes out
        → IsRecoded (types_of pool) (without_dot name) bytes out }
{}
