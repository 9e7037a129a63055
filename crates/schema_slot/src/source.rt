//! Sources that wait to be linked.

ghost use Rattle.std.specs.Prelude.{◌≡◌, IfOk, map};
ghost use Rattle.schema_core.specs.Refusals.{sources_of};
ghost use Rattle.schema_slot.specs.Held.{pair_of};

use std::alloc::{AllocError, Global};

/// A file's name and its text.
#[derive(Drop)]
pub(crate) struct Source {
    pub(crate) name: String,
    pub(crate) text: String,
}

impl Source {
    /// A copy of both.
    pub(crate) fn new(alloc: Global, name: &str, text: &str) -> Result<Source, AllocError>
        ensures { IfOk result (λ s. pair_of s ≡ (name.now, text.now)) }
    {
        let name = String::from_str(alloc, name)?;
        let text = String::from_str(alloc, text)?;
        Ok(Source { name, text })
    }
}

/// Sources as a schema takes them.
pub(crate) fn lent(alloc: Global, sources: &Vec<Source>) -> Result<Vec<(&str, &str)>, AllocError>
    ensures { IfOk result (λ pairs. sources_of pairs.items ≡ map pair_of sources.now.items) }
{
    let mut pairs = Vec::with_capacity(alloc, sources.len())?;
    'each: for source in sources {
        pairs.push((source.name.as_str(), source.text.as_str()))?;
    }
    Ok(pairs)
}
