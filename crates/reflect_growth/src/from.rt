//! Whether entries are declared in files from a place on.

ghost use Rattle.std.specs.Bool.{Decides};
ghost use Rattle.std.specs.Prelude.{◌≤◌, map};
ghost use Rattle.std.specs.List.{AllByRecursion};
ghost use Rattle.reflect_growth.specs.Tested.{AreFrom};
ghost use Rattle.reflect_tables.specs.Views.{message_of, enum_of, extension_of, service_of};

use reflect_tables::{StoredEnum, StoredExtension, StoredMessage, StoredService, Tables};

fn messages_from(items: &[StoredMessage], first: u32) -> bool
    ensures { Decides result (AllByRecursion (λ m. first ≤ m.file) (map message_of items.now)) }
{
    for message in items {
        if message.file < first {
            return false;
        }
    }
    true
}

fn enums_from(items: &[StoredEnum], first: u32) -> bool
    ensures { Decides result (AllByRecursion (λ e. first ≤ e.file) (map enum_of items.now)) }
{
    for enumeration in items {
        if enumeration.file < first {
            return false;
        }
    }
    true
}

fn extensions_from(items: &[StoredExtension], first: u32) -> bool
    ensures { Decides result (AllByRecursion (λ x. first ≤ x.file) (map extension_of items.now)) }
{
    for extension in items {
        if extension.file < first {
            return false;
        }
    }
    true
}

fn services_from(items: &[StoredService], first: u32) -> bool
    ensures { Decides result (AllByRecursion (λ s. first ≤ s.file) (map service_of items.now)) }
{
    for service in items {
        if service.file < first {
            return false;
        }
    }
    true
}

/// All entries are declared in the file at the place `first` or one behind it.
pub fn are_from(tables: &Tables, first: u32) -> bool
    ensures { Decides result (AreFrom first tables.now) }
{
    messages_from(tables.messages.as_slice(), first)
        && enums_from(tables.enums.as_slice(), first)
        && extensions_from(tables.extensions.as_slice(), first)
        && services_from(tables.services.as_slice(), first)
}
