//! Laws of what pools say to texts, each the contract of a function that does nothing.
ghost use Rattle.std.specs.Prelude.{◌≡◌, ℕ, List, map, Contains, Option};
ghost use Rattle.descriptor_records.specs.Content.{FileContent, file_view};
ghost use Rattle.protobuf_model.specs.Types.{Name};
ghost use Rattle.protobuf_model.specs.Values.{Message};
ghost use Rattle.reflect_tables.specs.Types.{PoolType};
ghost use Rattle.schema_view.specs.Lawful.{SameFiles, sources};
ghost use Rattle.schema_view.specs.Plain.{IsPlainFile};
ghost use Rattle.schema_view.specs.Views.{view_of};
ghost use Rattle.types_view.specs.Pools.{IsKept};
ghost use Rattle.linked_view.specs.Built.{IsBuilt};
ghost use Rattle.text_view.specs.Schemas.{schema_of};
ghost use Rattle.types_view.specs.Fields.{TellsFields};
ghost use Rattle.types_view.specs.Typed.{IsTyped};
ghost use Rattle.texts_view.specs.Named.{schema_in};

/// What a pool that batches built says to texts is what the view of its records says: its types,
/// the names of fields, extensions and enums' values, and which message keeps any other.
pub fn built_pools_have_the_names_of_their_records()
    ensures { (batches : List (List FileContent)) (p : PoolType) → IsBuilt batches p → IsKept p
        → TellsFields p → (decoded : Name → List ℕ → Option Message)
        → schema_of p decoded ≡ schema_in (view_of (map file_view p.records)) decoded }
{}

/// Of a pool whose options were settled between the batches it is what the records that linking
/// wrote say.
pub fn settled_pools_have_the_names_of_their_records()
    ensures { (batches : List (List FileContent)) (p : PoolType) (t : IsTyped batches p) → IsKept p
        → (decoded : Name → List ℕ → Option Message)
        → schema_of p decoded
        ≡ schema_in (view_of (map file_view t.but.linked.records)) decoded }
{}

/// Where the same files come in other batches, and their names have no dots, two such pools say the
/// same to texts.
pub fn schemas_in_another_order()
    ensures { (batches others : List (List FileContent)) (p q : PoolType)
        → ((f : FileContent) → Contains (sources batches) f → IsPlainFile f)
        → SameFiles (sources batches) (sources others)
        → IsTyped batches p → IsTyped others q → IsKept p → IsKept q
        → (decoded : Name → List ℕ → Option Message)
        → schema_of p decoded ≡ schema_of q decoded }
{}
