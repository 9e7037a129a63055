//! Moves settled options, and the paths of locations that speak of them, into the files' records.

ghost use Rattle.std.specs.Prelude.{◌≡◌, fold, map};
ghost use Rattle.std.specs.Option.{option_map};
ghost use Rattle.descriptor_records.specs.Content.{enum_value_view, enum_view, extension_range_view, field_view, file_view, message_view, method_view, oneof_view, options_view, service_view};
ghost use Rattle.reflect_known.specs.GivenNames.{names_of_file};
ghost use Rattle.reflect_tables.specs.Types.{IsSettled};
ghost use Rattle.reflect_tables.specs.Views.{places_of, pool_of};
ghost use Rattle.reflect_growth.specs.Put.{edited, enum_put, field_put, file_put, message_put, method_put, oneof_put, own_put, path_put, range_put, service_put, step_of, value_put, with_at};
ghost use Rattle.reflect_growth.specs.Settled.{bare_of, stored_view};

use descriptor_records::{
    DescriptorProto, EnumDescriptorProto, EnumValueDescriptorProto, ExtensionRange,
    FieldDescriptorProto, FileDescriptorProto, MethodDescriptorProto, OneofDescriptorProto,
    Options, ServiceDescriptorProto, tag,
};
use reflect_scope::FileIndex;
use reflect_tables::{StoredFile, Tables};

/// What is put into the record of the file at a place of the pool.
#[derive(Drop)]
pub enum Edit {
    /// The settled options of the declaration, or the extension range, at a path; the empty path is
    /// the file's.
    Options {
        file: FileIndex,
        path: Vec<i32>,
        options: Options,
    },
    /// The path of the location at a place of the file's list.
    Location {
        file: FileIndex,
        place: u32,
        path: Vec<i32>,
    },
}

/// The first step of a path, a field number and a place in that list, and what is left.
fn first_step(path: &[i32]) -> Option<(i32, usize, &[i32])>
    ensures { option_map (λ s. (s.0, s.1, s.2.now)) result ≡ step_of path.now }
{
    let (number, behind) = path.split_first()?;
    let (place, rest) = behind.split_first()?;
    Some((*number, usize::try_from(*place).ok()?, rest))
}

/// Puts options in place of those of what a path has led to.
fn settle_own(own: &mut Option<Options>, rest: &[i32], options: Options)
    ensures { option_map options_view own.new
        ≡ own_put rest.now (options_view options) (option_map options_view own.old) }
{
    if rest.is_empty() {
        *own = Some(options);
    }
}

fn settle_field(
    fields: &mut Vec<FieldDescriptorProto>,
    place: usize,
    rest: &[i32],
    options: Options,
)
    ensures { map field_view fields.new.items
        ≡ with_at place (field_put rest.now (options_view options))
        (map field_view fields.old.items) }
{
    if let Some(field) = fields.get_mut(place) {
        settle_own(&mut field.options, rest, options);
    }
}

fn settle_oneof(
    oneofs: &mut Vec<OneofDescriptorProto>,
    place: usize,
    rest: &[i32],
    options: Options,
)
    ensures { map oneof_view oneofs.new.items
        ≡ with_at place (oneof_put rest.now (options_view options))
        (map oneof_view oneofs.old.items) }
{
    if let Some(oneof) = oneofs.get_mut(place) {
        settle_own(&mut oneof.options, rest, options);
    }
}

fn settle_range(ranges: &mut Vec<ExtensionRange>, place: usize, rest: &[i32], options: Options)
    ensures { map extension_range_view ranges.new.items
        ≡ with_at place (range_put rest.now (options_view options))
        (map extension_range_view ranges.old.items) }
{
    if let Some(range) = ranges.get_mut(place) {
        settle_own(&mut range.options, rest, options);
    }
}

fn settle_value(
    values: &mut Vec<EnumValueDescriptorProto>,
    place: usize,
    rest: &[i32],
    options: Options,
)
    ensures { map enum_value_view values.new.items
        ≡ with_at place (value_put rest.now (options_view options))
        (map enum_value_view values.old.items) }
{
    if let Some(value) = values.get_mut(place) {
        settle_own(&mut value.options, rest, options);
    }
}

fn settle_method(
    methods: &mut Vec<MethodDescriptorProto>,
    place: usize,
    rest: &[i32],
    options: Options,
)
    ensures { map method_view methods.new.items
        ≡ with_at place (method_put rest.now (options_view options))
        (map method_view methods.old.items) }
{
    if let Some(method) = methods.get_mut(place) {
        settle_own(&mut method.options, rest, options);
    }
}

fn settle_enum(enumeration: &mut EnumDescriptorProto, path: &[i32], options: Options)
    ensures { enum_view enumeration.new
        ≡ enum_put path.now (options_view options) (enum_view enumeration.old) }
{
    if path.is_empty() {
        enumeration.options = Some(options);
        return;
    }
    if let Some((number, place, rest)) = first_step(path) {
        if number == tag::enumeration::VALUE {
            settle_value(&mut enumeration.value, place, rest, options);
        }
    }
}

fn settle_enums(enums: &mut Vec<EnumDescriptorProto>, place: usize, rest: &[i32], options: Options)
    ensures { map enum_view enums.new.items
        ≡ with_at place (enum_put rest.now (options_view options))
        (map enum_view enums.old.items) }
{
    if let Some(enumeration) = enums.get_mut(place) {
        settle_enum(enumeration, rest, options);
    }
}

fn settle_service(service: &mut ServiceDescriptorProto, path: &[i32], options: Options)
    ensures { service_view service.new
        ≡ service_put path.now (options_view options) (service_view service.old) }
{
    if path.is_empty() {
        service.options = Some(options);
        return;
    }
    if let Some((number, place, rest)) = first_step(path) {
        if number == tag::service::METHOD {
            settle_method(&mut service.method, place, rest, options);
        }
    }
}

fn settle_services(
    services: &mut Vec<ServiceDescriptorProto>,
    place: usize,
    rest: &[i32],
    options: Options,
)
    ensures { map service_view services.new.items
        ≡ with_at place (service_put rest.now (options_view options))
        (map service_view services.old.items) }
{
    if let Some(service) = services.get_mut(place) {
        settle_service(service, rest, options);
    }
}

fn settle_message(message: &mut DescriptorProto, path: &[i32], options: Options)
    ensures { message_view message.new
        ≡ message_put path.now (options_view options) (message_view message.old) }
{
    if path.is_empty() {
        message.options = Some(options);
        return;
    }
    let Some((number, place, rest)) = first_step(path) else {
        return;
    };
    match number {
        tag::message::FIELD => settle_field(&mut message.field, place, rest, options),
        tag::message::EXTENSION => settle_field(&mut message.extension, place, rest, options),
        tag::message::ENUM_TYPE => settle_enums(&mut message.enum_type, place, rest, options),
        tag::message::EXTENSION_RANGE => {
            settle_range(&mut message.extension_range, place, rest, options);
        }
        tag::message::ONEOF_DECL => settle_oneof(&mut message.oneof_decl, place, rest, options),
        tag::message::NESTED_TYPE => {
            if let Some(child) = message.nested_type.get_mut(place) {
                settle_message(child, rest, options);
            }
        }
        _ => {}
    }
}

fn settle_messages(
    messages: &mut Vec<DescriptorProto>,
    place: usize,
    rest: &[i32],
    options: Options,
)
    ensures { map message_view messages.new.items
        ≡ with_at place (message_put rest.now (options_view options))
        (map message_view messages.old.items) }
{
    if let Some(message) = messages.get_mut(place) {
        settle_message(message, rest, options);
    }
}

fn settle_file(file: &mut FileDescriptorProto, path: &[i32], options: Options)
    ensures { file_view file.new
        ≡ file_put path.now (options_view options) (file_view file.old) }
{
    if path.is_empty() {
        file.options = Some(options);
        return;
    }
    let Some((number, place, rest)) = first_step(path) else {
        return;
    };
    match number {
        tag::file::MESSAGE_TYPE => settle_messages(&mut file.message_type, place, rest, options),
        tag::file::ENUM_TYPE => settle_enums(&mut file.enum_type, place, rest, options),
        tag::file::SERVICE => settle_services(&mut file.service, place, rest, options),
        tag::file::EXTENSION => settle_field(&mut file.extension, place, rest, options),
        _ => {}
    }
}

fn move_location(file: &mut FileDescriptorProto, place: usize, path: Vec<i32>)
    ensures { file_view file.new ≡ path_put place path.items (file_view file.old) }
{
    if let Some(info) = &mut file.source_code_info {
        if let Some(location) = info.location.get_mut(place) {
            location.path = path;
        }
    }
}

fn settle_options(files: &mut Vec<StoredFile>, file: usize, path: &[i32], options: Options)
    ensures declared { map places_of files.new.items ≡ map places_of files.old.items }
    ensures put { map stored_view files.new.items
        ≡ with_at file (file_put path.now (options_view options))
        (map stored_view files.old.items) }
{
    if let Some(stored) = files.get_mut(file) {
        settle_file(&mut stored.record, path, options);
    }
}

fn settle_location(files: &mut Vec<StoredFile>, file: usize, place: usize, path: Vec<i32>)
    ensures declared { map places_of files.new.items ≡ map places_of files.old.items }
    ensures put { map stored_view files.new.items
        ≡ with_at file (path_put place path.items) (map stored_view files.old.items) }
{
    if let Some(stored) = files.get_mut(file) {
        move_location(&mut stored.record, place, path);
    }
}

fn settle_edit(files: &mut Vec<StoredFile>, edit: Edit)
    ensures declared { map places_of files.new.items ≡ map places_of files.old.items }
    ensures put { map stored_view files.new.items ≡ edited (map stored_view files.old.items) edit }
{
    match edit {
        Edit::Options {
            file,
            path,
            options,
        } => settle_options(files, file as usize, path.as_slice(), options),
        Edit::Location { file, place, path } => {
            settle_location(files, file as usize, place as usize, path);
        }
    }
}

/// Moves edits into the records, one behind the other, where all else stays. One whose path leads
/// to nothing that has options, or that names no location, is passed over. Takes no memory.
pub fn settle_all(tables: &mut Tables, edits: Vec<Edit>)
    ensures settled { IsSettled (pool_of tables.old) (pool_of tables.new) }
    ensures messages { tables.new.messages.items ≡ tables.old.messages.items }
    ensures names { map names_of_file (pool_of tables.new).records
        ≡ map names_of_file (pool_of tables.old).records }
    ensures bare { map bare_of (pool_of tables.new).records
        ≡ map bare_of (pool_of tables.old).records }
    ensures put { map file_view (pool_of tables.new).records
        ≡ fold edited (map file_view (pool_of tables.old).records) edits.items }
{
    settle_edits(&mut tables.files, edits);
}

fn settle_edits(files: &mut Vec<StoredFile>, edits: Vec<Edit>)
    ensures declared { map places_of files.new.items ≡ map places_of files.old.items }
    ensures put { map stored_view files.new.items
        ≡ fold edited (map stored_view files.old.items) edits.items }
{
    for edit in edits {
        settle_edit(files, edit);
    }
}
