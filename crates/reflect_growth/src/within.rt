//! Whether what new entries name is there, among old and new ones.

ghost use Rattle.std.specs.Bool.{Decides};
ghost use Rattle.std.specs.Prelude.{◌<◌, ◌^◌, map};
ghost use Rattle.std.specs.List.{All, AllByRecursion};
ghost use Rattle.reflect_tables.specs.Types.{IsWithin, MessageWithin, EnumWithin, ExtensionWithin, MethodWithin, ServiceWithin, IsAmong, HasParts, HaveMembers, ChildrenWithin, HoldsWithin, FileWithin};
ghost use Rattle.reflect_tables.specs.Views.{message_of, enum_of, extension_of, service_of, method_of, field_of, oneof_of, kind_of, children_of, places_of};
ghost use Rattle.reflect_growth.specs.Tested.{AreWithin};

use reflect_tables::{
    Children, Counts, StoredEntry, StoredEnum, StoredExtension, StoredField, StoredFile,
    StoredKind, StoredMessage, StoredMethod, StoredOneof, StoredService, Tables,
};

/// The type that a field names is one of so many.
fn is_within(kind: StoredKind, counts: Counts) -> bool
    ensures { Decides result (IsWithin counts (kind_of kind)) }
{
    match kind {
        StoredKind::Message(index) => index < counts.messages,
        StoredKind::Enum(index) => index < counts.enums,
        _ => true,
    }
}

fn fields_within(fields: &[StoredField], counts: Counts) -> bool
    ensures { Decides result (AllByRecursion (λ f. IsWithin counts f.kind)
        (map field_of fields.now)) }
{
    for field in fields {
        if !is_within(field.kind, counts) {
            return false;
        }
    }
    true
}

/// The place, if there is one, is one of so many.
fn is_among(place: Option<u32>, count: usize) -> bool
    ensures { Decides result (IsAmong count place) }
{
    match place {
        Some(place) => (place as usize) < count,
        None => true,
    }
}

/// The oneof of each field, if it is in one, is one of so many.
fn oneofs_within(fields: &[StoredField], count: usize) -> bool
    ensures { Decides result (AllByRecursion (λ f. IsAmong count f.oneof)
        (map field_of fields.now)) }
{
    for field in fields {
        if !is_among(field.oneof, count) {
            return false;
        }
    }
    true
}

/// Each place is one of so many.
fn are_below(places: &[u32], count: usize) -> bool
    ensures { Decides result (All (λ place. place < count) places.now) }
{
    places.iter().all(|place| (*place as usize) < count)
}

/// The members of each oneof are among so many fields.
fn have_members(oneofs: &[StoredOneof], fields: usize) -> bool
    ensures { Decides result (HaveMembers fields (map oneof_of oneofs.now)) }
{
    for oneof in oneofs {
        if !are_below(oneof.fields.as_slice(), fields) {
            return false;
        }
    }
    true
}

/// There are so few that each place, and the one behind the last, fits a number of the program.
fn is_few(count: usize) -> bool
    ensures { Decides result (count < 2 ^ 31) }
{
    count < 0x8000_0000
}

fn has_parts(entry: Option<StoredEntry>, fields: usize) -> bool
    ensures { Decides result (HasParts fields entry) }
{
    match entry {
        Some(entry) => (entry.key as usize) < fields && (entry.value as usize) < fields,
        None => true,
    }
}

/// What a file or a message declares is one of so many.
fn children_within(children: &Children, counts: Counts) -> bool
    ensures { Decides result (ChildrenWithin counts (children_of children.now)) }
{
    are_below(children.messages.as_slice(), counts.messages as usize)
        && are_below(children.enums.as_slice(), counts.enums as usize)
        && are_below(children.extensions.as_slice(), counts.extensions as usize)
}

fn file_within(file: &StoredFile, counts: Counts) -> bool
    ensures { Decides result (FileWithin counts (places_of file.now)) }
{
    children_within(&file.declared.children, counts)
        && are_below(file.declared.services.as_slice(), counts.services as usize)
}

fn files_within(items: &[StoredFile], counts: Counts) -> bool
    ensures { Decides result (AllByRecursion (FileWithin counts) (map places_of items.now)) }
{
    for file in items {
        if !file_within(file, counts) {
            return false;
        }
    }
    true
}

fn message_within(message: &StoredMessage, counts: Counts) -> bool
    ensures { Decides result (MessageWithin counts (message_of message.now)) }
{
    message.file < counts.files
        && is_among(message.parent, counts.messages as usize)
        && fields_within(message.fields.list.as_slice(), counts)
        && oneofs_within(message.fields.list.as_slice(), message.oneofs.len())
        && have_members(message.oneofs.as_slice(), message.fields.list.len())
        && has_parts(message.entry, message.fields.list.len())
        && is_few(message.fields.list.len())
        && is_few(message.oneofs.len())
}

fn messages_within(items: &[StoredMessage], counts: Counts) -> bool
    ensures { Decides result (AllByRecursion (MessageWithin counts) (map message_of items.now)) }
{
    for message in items {
        if !message_within(message, counts) {
            return false;
        }
    }
    true
}

/// What the messages declare is one of so many.
fn hold_within(items: &[StoredMessage], counts: Counts) -> bool
    ensures { Decides result (AllByRecursion (HoldsWithin counts) (map message_of items.now)) }
{
    for message in items {
        if !children_within(&message.children, counts) {
            return false;
        }
    }
    true
}

fn enum_within(enumeration: &StoredEnum, counts: Counts) -> bool
    ensures { Decides result (EnumWithin counts (enum_of enumeration.now)) }
{
    enumeration.file < counts.files
        && is_among(enumeration.parent, counts.messages as usize)
        && !enumeration.values.list.is_empty()
        && is_few(enumeration.values.list.len())
}

fn enums_within(items: &[StoredEnum], counts: Counts) -> bool
    ensures { Decides result (AllByRecursion (EnumWithin counts) (map enum_of items.now)) }
{
    for enumeration in items {
        if !enum_within(enumeration, counts) {
            return false;
        }
    }
    true
}

fn extension_within(extension: &StoredExtension, counts: Counts) -> bool
    ensures { Decides result (ExtensionWithin counts (extension_of extension.now)) }
{
    extension.file < counts.files
        && is_among(extension.parent, counts.messages as usize)
        && extension.extendee < counts.messages
        && is_within(extension.field.kind, counts)
}

fn extensions_within(items: &[StoredExtension], counts: Counts) -> bool
    ensures { Decides result
        (AllByRecursion (ExtensionWithin counts) (map extension_of items.now)) }
{
    for extension in items {
        if !extension_within(extension, counts) {
            return false;
        }
    }
    true
}

fn method_within(method: &StoredMethod, counts: Counts) -> bool
    ensures { Decides result (MethodWithin counts (method_of method.now)) }
{
    method.input < counts.messages && method.output < counts.messages
}

fn methods_within(items: &[StoredMethod], counts: Counts) -> bool
    ensures { Decides result (AllByRecursion (MethodWithin counts) (map method_of items.now)) }
{
    for method in items {
        if !method_within(method, counts) {
            return false;
        }
    }
    true
}

fn service_within(service: &StoredService, counts: Counts) -> bool
    ensures { Decides result (ServiceWithin counts (service_of service.now)) }
{
    service.file < counts.files
        && methods_within(service.methods.as_slice(), counts)
        && is_few(service.methods.len())
}

fn services_within(items: &[StoredService], counts: Counts) -> bool
    ensures { Decides result (AllByRecursion (ServiceWithin counts) (map service_of items.now)) }
{
    for service in items {
        if !service_within(service, counts) {
            return false;
        }
    }
    true
}

/// All that the entries name is among so many.
pub fn are_within(tables: &Tables, counts: Counts) -> bool
    ensures { Decides result (AreWithin counts tables.now) }
{
    files_within(tables.files.as_slice(), counts)
        && messages_within(tables.messages.as_slice(), counts)
        && hold_within(tables.messages.as_slice(), counts)
        && enums_within(tables.enums.as_slice(), counts)
        && extensions_within(tables.extensions.as_slice(), counts)
        && services_within(tables.services.as_slice(), counts)
}
