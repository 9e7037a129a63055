//! What the types of options must have, so that options can be read by them.

ghost use Rattle.std.specs.Prelude.{IfOk, IfSome, IfNone};
ghost use Rattle.std.specs.Bool.{Decides};
ghost use Rattle.reflect_tables.specs.Types.{type_of_field};
ghost use Rattle.option_parts.specs.OptionTypes.{HasField, ListsMessages, IsTruthValue, KeepsExtensions, IsOptionType, CanRead, ReadsOptions, TellsName, TellsRequired, TellsType};
ghost use Rattle.option_parts.specs.OptionTypes as types;

use crate::option_error::OptionErrorKind;
use crate::option_scope::OptionScope;
use reflect_link::{DescriptorPool, MessageReaders};
use reflect_pool::{FieldDescriptor, Kind, MessageDescriptor};
use reflect_wire::MAX_FIELD_NUMBER;
use std::alloc::{AllocError, Global};

/// The number of the list of uninterpreted options in each type of options.
pub const UNINTERPRETED_OPTION: u32 = 999;

/// Extensions have the numbers from this one on.
const FIRST_EXTENSION: u32 = 1000;

/// The number behind the last one.
const BEHIND_EXTENSIONS: u32 = MAX_FIELD_NUMBER + 1;

/// The field is a list of messages, each behind its length, of the name of uninterpreted options.
fn lists_messages(field: FieldDescriptor<'_>) -> bool
    ensures { Decides result (ListsMessages field.entry.message.pool.now
        (type_of_field field.entry.message.pool.now field.entry.message.index
        field.entry.index)) }
{
    field.name() == "uninterpreted_option"
        && field.is_list()
        && !field.is_group()
        && matches!(field.kind(), Kind::Message(_))
}

/// The type has its list of uninterpreted options.
fn has_uninterpreted(options: MessageDescriptor<'_>) -> bool
    ensures { Decides result (HasField options.entry.pool.now options.entry.index 999
        (ListsMessages options.entry.pool.now)) }
{
    match options.get_field(UNINTERPRETED_OPTION) {
        Some(field) => lists_messages(field),
        None => false,
    }
}

/// The type keeps all numbers from 1000 on for extensions.
fn has_extensions(options: MessageDescriptor<'_>) -> bool
    ensures { Decides result (KeepsExtensions options.entry.pool.now options.entry.index) }
{
    for range in options.extension_ranges() {
        if range.start == FIRST_EXTENSION && range.end == BEHIND_EXTENSIONS {
            return true;
        }
    }
    false
}

/// The field is a truth value of this name that may be set or not.
fn is_plain_truth(field: FieldDescriptor<'_>, name: &str) -> bool
    ensures { Decides result (IsTruthValue name.now
        (type_of_field field.entry.message.pool.now field.entry.message.index
        field.entry.index)) }
{
    field.name() == name
        && matches!(field.kind(), Kind::Bool)
        && field.supports_presence()
        && field.containing_oneof().is_none()
}

/// The type has the option that linking reads itself, if there is one in its scope.
fn has_typed_option(scope: OptionScope, options: MessageDescriptor<'_>) -> bool
    ensures { Decides result (IfSome (types.typed_option scope)
        (λ o. HasField options.entry.pool.now options.entry.index o.1 (IsTruthValue o.0))) }
{
    let Some((name, number)) = scope.typed_option() else {
        return true;
    };
    match options.get_field(number) {
        Some(field) => is_plain_truth(field, name),
        None => false,
    }
}

/// Options of the scope can be read by the type.
fn is_good(scope: OptionScope, options: MessageDescriptor<'_>) -> bool
    ensures { Decides result (IsOptionType options.entry.pool.now scope options.entry.index) }
{
    has_uninterpreted(options) && has_extensions(options) && has_typed_option(scope, options)
}

fn bad(alloc: Global, name: &str) -> Result<OptionErrorKind, AllocError>
    ensures { IfOk result (TellsName name.now) }
{
    let name = String::from_str(alloc, name)?;
    Ok(OptionErrorKind::BadDescriptorProto { name })
}

/// What is wrong with the pool's types of options, if there is something: each that is there must
/// have a repeated message field `uninterpreted_option` of number 999 and keep the numbers from
/// 1000 on for extensions; those of fields, enums and messages must have a singular truth value
/// `packed` 2, `allow_alias` 2 and `map_entry` 7.
///
/// What is told is the first type that is not so, by its name, in the order of `OptionScope::ALL`.
/// Refused for want of memory alone.
pub fn check_option_types(
    alloc: Global,
    pool: &DescriptorPool,
) -> Result<Option<OptionErrorKind>, AllocError>
    ensures good { IfOk result (λ fault. IfNone fault ((scope : OptionScope)
        → CanRead pool.now scope)) }
    ensures told { IfOk result (λ fault. IfSome fault (TellsType (CanRead pool.now))) }
{
    for scope in OptionScope::ALL {
        if let Some(options) = pool.get_message_by_name(scope.type_name()) {
            if !is_good(scope, options) {
                return Ok(Some(bad(alloc, scope.type_name())?));
            }
        }
    }
    Ok(None)
}

/// What is wrong with the pool's types of options, where all nine must be there: the first that is
/// missing, or, where none is, the first that is not as `check_option_types` asks. Refused for want
/// of memory alone.
pub fn require_option_types(
    alloc: Global,
    pool: &DescriptorPool,
) -> Result<Option<OptionErrorKind>, AllocError>
    ensures good { IfOk result (λ fault. IfNone fault ((scope : OptionScope)
        → ReadsOptions pool.now scope)) }
    ensures told { IfOk result (λ fault. IfSome fault (TellsRequired pool.now)) }
{
    for scope in OptionScope::ALL {
        if pool.get_message_by_name(scope.type_name()).is_none() {
            return Ok(Some(bad(alloc, scope.type_name())?));
        }
    }
    check_option_types(alloc, pool)
}
