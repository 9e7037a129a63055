ghost use Rattle.std.specs.Prelude.{◌≡◌};

use crate::value::Value;

/// What a field holds, or its default where it is not set.
#[derive(Drop)]
pub enum FieldRef<'m, 'p> {
    /// What the message holds.
    Borrowed(&'m Value<'p>),
    /// The default.
    Owned(Value<'p>),
}

impl<'m, 'p> FieldRef<'m, 'p> {
    ghost use Rattle.reflect_message.specs.Shown.{shown};

    /// The value.
    pub fn value(&self) -> &Value<'p>
        ensures { result.now ≡ shown self.now }
    {
        match self {
            FieldRef::Borrowed(value) => *value,
            FieldRef::Owned(value) => value,
        }
    }
}
