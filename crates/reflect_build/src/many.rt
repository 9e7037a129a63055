//! Counts what files declare, before they are linked: there has to be an index for each.

ghost use Rattle.std.specs.Prelude.{◌≡◌, ◌+◌, ◌^◌, nat_le, sum_by};
ghost use Rattle.reflect_tables.specs.Views.{pool_of};
ghost use Rattle.reflect_build.specs.Many.{in_enum, in_service, in_message, in_file, entries_of, as_u64};

use descriptor_records::{
    DescriptorProto, EnumDescriptorProto, FileDescriptorProto, ServiceDescriptorProto,
};
use reflect_tables::Tables;

/// Enums and their values. No count passes what a `u64` holds.
fn count_enums(enums: &[EnumDescriptorProto]) -> u64
    ensures { result ≡ as_u64 (sum_by in_enum enums.now) }
{
    let mut count: u64 = 0;
    'enums: for enumeration in enums {
        count = count
            .saturating_add(1)
            .saturating_add(enumeration.value.len() as u64);
    }
    count
}

/// Services and their methods.
fn count_services(services: &[ServiceDescriptorProto]) -> u64
    ensures { result ≡ as_u64 (sum_by in_service services.now) }
{
    let mut count: u64 = 0;
    'services: for service in services {
        count = count
            .saturating_add(1)
            .saturating_add(service.method.len() as u64);
    }
    count
}

/// Messages, with all that is declared in them.
#[cycle(messages)]
fn count_messages(messages: &[DescriptorProto]) -> u64
    ensures { result ≡ as_u64 (sum_by in_message messages.now) }
{
    let mut count: u64 = 0;
    'messages: for message in messages {
        count = count.saturating_add(count_message(message));
    }
    count
}

/// A message, with all that is declared in it.
#[cycle(messages)]
fn count_message(message: &DescriptorProto) -> u64
    ensures { result ≡ as_u64 (in_message message.now) }
{
    let nested = count_messages(message.nested_type.as_slice());
    nested
        .saturating_add(1)
        .saturating_add(message.field.len() as u64)
        .saturating_add(message.extension.len() as u64)
        .saturating_add(message.oneof_decl.len() as u64)
        .saturating_add(count_enums(message.enum_type.as_slice()))
}

/// A file, with all that is declared in it.
fn count_file(file: &FileDescriptorProto) -> u64
    ensures { result ≡ as_u64 (in_file file.now) }
{
    count_messages(file.message_type.as_slice())
        .saturating_add(1)
        .saturating_add(file.extension.len() as u64)
        .saturating_add(count_enums(file.enum_type.as_slice()))
        .saturating_add(count_services(file.service.as_slice()))
}

/// Files, with all that is declared in them.
fn count_files(files: &[FileDescriptorProto]) -> u64
    ensures { result ≡ as_u64 (sum_by in_file files.now) }
{
    let mut count: u64 = 0;
    'files: for file in files {
        count = count.saturating_add(count_file(file));
    }
    count
}

/// What the tables have.
fn count_entries(tables: &Tables) -> u64
    ensures { result ≡ as_u64 (entries_of (pool_of tables.now)) }
{
    (tables.files.len() as u64)
        .saturating_add(tables.messages.len() as u64)
        .saturating_add(tables.enums.len() as u64)
        .saturating_add(tables.extensions.len() as u64)
        .saturating_add(tables.services.len() as u64)
}

/// What the tables have, and what the files declare, is more than an index tells.
pub fn are_too_many(tables: &Tables, files: &[FileDescriptorProto]) -> bool
    ensures { result ≡ nat_le (2 ^ 31)
        (entries_of (pool_of tables.now) + sum_by in_file files.now) }
{
    count_entries(tables).saturating_add(count_files(files)) > 0x7fff_ffff
}
