//! What the number rules ask about the types of a pool and of a batch.

ghost use Rattle.std.specs.Prelude.{◌≡◌};
ghost use Rattle.std.specs.Option.{option_copied};

use reflect_index::Batch;
use reflect_rules::Types;
use reflect_scope::{EnumIndex, MessageIndex};
use reflect_tables::{NumberRanges, StoredEnum, StoredMessage, Tables};

/// The types of a pool, and behind them those of a batch that is not in it yet.
#[derive(Clone, Copy)]
pub struct LinkedTypes<'a> {
    pub old: &'a Tables,
    pub new: &'a Batch,
}

impl<'a> LinkedTypes<'a> {
    ghost use Rattle.reflect_passes.specs.Linked.{message_at, enum_at};

    fn message(&self, index: MessageIndex) -> Option<&'a StoredMessage>
        ensures { option_copied result ≡ message_at self.now index }
    {
        let index = index as usize;
        let count = self.old.messages.len();
        if index < count {
            self.old.messages.get(index)
        } else {
            self.new.messages.get(index - count)
        }
    }

    fn enumeration(&self, index: EnumIndex) -> Option<&'a StoredEnum>
        ensures { option_copied result ≡ enum_at self.now index }
    {
        let index = index as usize;
        let count = self.old.enums.len();
        if index < count {
            self.old.enums.get(index)
        } else {
            self.new.enums.get(index - count)
        }
    }
}

impl<'a> Types for LinkedTypes<'a> {
    ghost use Rattle.reflect_passes.specs.Linked.{linked_says, linked_values};

    ghost says = { linked_says };

    ghost values = { linked_values };

    fn reserved_numbers(&self, message: MessageIndex) -> Option<&NumberRanges> {
        Some(&self.message(message)?.reserved_numbers)
    }

    fn extension_numbers(&self, message: MessageIndex) -> Option<&NumberRanges> {
        Some(&self.message(message)?.extension_numbers)
    }

    fn is_map_entry(&self, message: MessageIndex) -> bool {
        self.message(message)
            .is_some_and(|message| message.is_entry)
    }

    fn message_name(&self, message: MessageIndex) -> &str {
        match self.message(message) {
            Some(message) => message.full_name.as_str(),
            None => "",
        }
    }

    fn has_value(&self, enumeration: EnumIndex, name: &str) -> bool {
        match self.enumeration(enumeration) {
            Some(enumeration) => enumeration.values.of_name(name).is_some(),
            None => false,
        }
    }
}
