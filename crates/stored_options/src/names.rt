//! Laws of the names of options, each the contract of a function that does nothing.
ghost use Rattle.std.specs.Prelude.{List};
ghost use Rattle.descriptor_records.specs.Content.{FileContent, Text};
ghost use Rattle.stored_options.specs.SetOptions.{LeadAlike};
ghost use Rattle.stored_options.specs.Standing.{HaveOneEnd, StandsIn};
ghost use Rattle.option_setter.specs.declared.option_setter.NameScope.{NameScope};
ghost use Rattle.stored_options.specs.NamedNumbers.{numbers_named};
ghost use Rattle.reflect_tables.specs.Types.{PoolType};

/// In a file and a scope names of options lead to the same numbers, where they lead to any, in
/// whatever batches the files come that make up the same schema in the end.
pub fn names_lead_to_the_same_numbers_in_another_order()
    ensures { (batches others : List (List FileContent)) (p q : PoolType) (s t : NameScope)
        (file scope : Text) → HaveOneEnd batches others
        → StandsIn batches p s file scope → StandsIn others q t file scope
        → LeadAlike (numbers_named s) (numbers_named t) }
{}
