ghost use Rattle.std.specs.Prelude.{◌≡◌};
ghost use Rattle.reflect_references.specs.Meanings.{meaning, behind};

use reflect_names::Reference;
use reflect_scope::DefinitionKind;

/// What the references of files mean that a walk over them has not met yet.
#[derive(Clone, Copy)]
pub struct References<'a> {
    /// The meanings that the walk has not come to, the next one first.
    pub rest: &'a [Reference],
}

impl<'a> References<'a> {
    /// All of them, in the order in which a walk meets them.
    pub fn new(all: &'a [Reference]) -> References<'a>
        ensures { result.rest.now ≡ all.now }
    {
        References { rest: all }
    }

    /// What the next reference means, where there is one at this place.
    pub fn meaning_of(&mut self, name: &Option<String>) -> Option<DefinitionKind>
        ensures meaning { result ≡ meaning name.now self.old.rest.now }
        ensures rest { self.new.rest.now ≡ behind name.now self.old.rest.now }
    {
        if name.is_none() {
            return None;
        }
        let (first, rest) = self.rest.split_first()?;
        self.rest = rest;
        Some(first.definition.kind)
    }
}
