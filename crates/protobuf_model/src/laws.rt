//! Laws of messages and their bytes, each the contract of a function that does nothing.
ghost use Rattle.std.specs.Prelude.{◌≡◌, ◌↔◌, ◌<◌, ◌≤◌, ◌^◌, ◌++◌, ℕ, List, length};
ghost use Rattle.protobuf_model.specs.Bytes.{bytes_of};
ghost use Rattle.protobuf_model.specs.Coded.{AreMerged, AreOlderThan, IsAccepted, IsRecoded, IsRecodedThrough, SuitsType, Mean};
ghost use Rattle.protobuf_model.specs.Older.{IsOlder};
ghost use Rattle.protobuf_model.specs.Typed.{HaveDefaults, IsTyped};
ghost use Rattle.protobuf_model.specs.Types.{Name, Types};
ghost use Rattle.protobuf_model.specs.Values.{Message, nothing};

/// Bytes mean one message at most, behind each start.
pub fn bytes_mean_one_message()
    ensures { (types : Types) (t : Name) (start : Message) (bytes : List ℕ) (m n : Message)
        → AreMerged types t start bytes m → AreMerged types t start bytes n → m ≡ n }
{}

/// Behind accepted bytes others are accepted exactly if they are by themselves.
pub fn bytes_are_accepted_in_pieces()
    ensures { (types : Types) (t : Name) (a b : List ℕ)
        → IsAccepted types t a → IsAccepted types t (a ++ b) ↔ IsAccepted types t b }
{}

/// Merging bytes, and then others, is merging both, one behind the other.
pub fn bytes_are_merged_in_pieces()
    ensures { (types : Types) (t : Name) (a b : List ℕ) (start m n : Message)
        → AreMerged types t start a m → AreMerged types t m b n
        → AreMerged types t start (a ++ b) n }
{}

/// A message that suits its type is what its bytes mean, where they are no more than a length can
/// say.
pub fn written_bytes_mean_the_message()
    ensures { (types : Types) (t : Name) (m : Message)
        → SuitsType types t m → length (bytes_of types t m) < 2 ^ 64
        → Mean types t (bytes_of types t m) m }
{}

/// Two such messages have equal bytes exactly if they are equal.
pub fn equal_messages_have_equal_bytes()
    ensures { (types : Types) (t : Name) (m n : Message)
        → SuitsType types t m → SuitsType types t n
        → length (bytes_of types t m) < 2 ^ 64 → length (bytes_of types t n) < 2 ^ 64
        → (bytes_of types t m ≡ bytes_of types t n) ↔ (m ≡ n) }
{}

/// What accepted bytes mean suits the type, also behind a start that does, of as many levels as
/// bytes have, or more, where the defaults of maps' keys and values are values of their kinds.
pub fn merged_bytes_suit_the_type()
    ensures { (types : Types) → HaveDefaults types → (t : Name) (start m : Message) (bytes : List ℕ)
        → (levels : ℕ) → 100 ≤ levels → IsTyped levels types t start
        → AreMerged types t start bytes m → IsTyped levels types t m }
{}

/// The message in which nothing is set suits each type.
pub fn nothing_suits_each_type()
    ensures { (types : Types) (t : Name) → SuitsType types t nothing }
{}

/// What a type accepts each older type accepts.
pub fn older_types_accept()
    ensures { (old new : Types) (t u : Name) (bytes : List ℕ)
        → IsOlder old t new u → IsAccepted new u bytes → IsAccepted old t bytes }
{}

/// What an older type writes again of accepted bytes means to the newer type what the bytes mean to
/// it, records of unknown numbers included.
pub fn bytes_pass_through_an_older_type()
    ensures { (old new : Types) (t u : Name) (bytes out : List ℕ) (m : Message)
        → IsOlder old t new u → HaveDefaults new → Mean new u bytes m
        → IsRecoded old t bytes out → length out < 2 ^ 64 → Mean new u out m }
{}

/// The same of a chain of types, each older than the newest: they need not be older than one
/// another.
pub fn bytes_pass_through_older_types()
    ensures { (new : Types) (u : Name) (ts : List (Types × Name)) (bytes out : List ℕ) (m : Message)
        → HaveDefaults new → AreOlderThan new u ts → Mean new u bytes m
        → IsRecodedThrough ts bytes out → Mean new u out m }
{}

/// Behind any chain of older types the newest writes what it writes of the bytes themselves.
pub fn chains_have_one_normal_form()
    ensures { (new : Types) (u : Name) → HaveDefaults new → (ts : List (Types × Name))
        → AreOlderThan new u ts → (bytes through x y : List ℕ)
        → IsAccepted new u bytes → IsRecodedThrough ts bytes through
        → IsRecoded new u through x → IsRecoded new u bytes y → x ≡ y }
{}

/// Two accepted byte lists have equal such results, whatever their chains, exactly if their
/// meanings are equal.
pub fn normal_forms_are_equal_where_meanings_are()
    ensures { (new : Types) (u : Name) → HaveDefaults new → (ts us : List (Types × Name))
        → AreOlderThan new u ts → AreOlderThan new u us
        → (a b x y p q : List ℕ) (m n : Message) → Mean new u a m → Mean new u b n
        → IsRecodedThrough ts a x → IsRecodedThrough us b y
        → IsRecoded new u x p → IsRecoded new u y q
        → length p < 2 ^ 64 → length q < 2 ^ 64 → (p ≡ q) ↔ (m ≡ n) }
{}
