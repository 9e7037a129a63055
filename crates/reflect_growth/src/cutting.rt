//! Leaves the entries of the first files alone.

ghost use Rattle.std.specs.Prelude.{◌≡◌, map, nat_lt};
ghost use Rattle.std.specs.List.{filter};
ghost use Rattle.reflect_growth.specs.Cut.{cut_to};
ghost use Rattle.reflect_tables.specs.Views.{enum_of, extension_of, service_of, pool_of};

use reflect_tables::{StoredEnum, StoredExtension, StoredMessage, StoredService, Tables};

fn cut_messages(items: &mut Vec<StoredMessage>, mark: u32)
    ensures { items.new.items ≡ filter (λ m. nat_lt m.file mark) items.old.items }
{
    items.retain(|message| message.file < mark);
}

fn cut_enums(items: &mut Vec<StoredEnum>, mark: u32)
    ensures { map enum_of items.new.items
        ≡ filter (λ e. nat_lt e.file mark) (map enum_of items.old.items) }
{
    items.retain(|enumeration| enumeration.file < mark);
}

fn cut_extensions(items: &mut Vec<StoredExtension>, mark: u32)
    ensures { map extension_of items.new.items
        ≡ filter (λ x. nat_lt x.file mark) (map extension_of items.old.items) }
{
    items.retain(|extension| extension.file < mark);
}

fn cut_services(items: &mut Vec<StoredService>, mark: u32)
    ensures { map service_of items.new.items
        ≡ filter (λ s. nat_lt s.file mark) (map service_of items.old.items) }
{
    items.retain(|service| service.file < mark);
}

/// Leaves the entries of so many files, and of what is declared in them. Takes no memory.
pub fn cut(tables: &mut Tables, mark: u32)
    ensures pool { pool_of tables.new ≡ cut_to (pool_of tables.old) mark }
    ensures messages { tables.new.messages.items
        ≡ filter (λ m. nat_lt m.file mark) tables.old.messages.items }
{
    tables.files.truncate(mark as usize);
    cut_messages(&mut tables.messages, mark);
    cut_enums(&mut tables.enums, mark);
    cut_extensions(&mut tables.extensions, mark);
    cut_services(&mut tables.services, mark);
}
