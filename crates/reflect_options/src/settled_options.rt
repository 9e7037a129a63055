//! The options of one record, read by their type.

ghost use Rattle.std.specs.Prelude.{◌≡◌, IfErr, IfNone, IfOk, IfSome, IsSome, None, OnOk};
ghost use Rattle.descriptor_records.specs.Content.{option_view, options_view};
ghost use Rattle.option_parts.specs.declared.option_error.OptionErrorKind.TheVariants.{Memory};
ghost use Rattle.option_setter.specs.OptionNames.{UnlessMemory};
ghost use Rattle.reflect_message.specs.Bytes.{message_bytes};
ghost use Rattle.reflect_message.specs.Names.{DynamicMessage};
ghost use Rattle.reflect_options.specs.Settled.{FindsForbidden, IsForbiddenAt, IsReadBack, IsRecordOf, IsStored, IsWhole, RefusesAt, RefusesOptions, RefusesStored, RefusesTyped, RefusesWritten, SetsAll, Settles, StayAsTheyAre, is_forbidden, is_reserved, lists_of, of_wire, settled_record, truth_said, typed_said, unread};

use descriptor_records::{Options, UninterpretedOption};
use option_parts::{OptionErrorKind, OptionScope, UNINTERPRETED_OPTION};
use option_setter::{NameScope, OptionSetter, option_name};
use reflect_decode::DecodeMessage;
use reflect_encode::EncodeMessage;
use reflect_link::MessageDescriptor;
use reflect_message::{DynamicMessage, declared_field};
use reflect_numbered::FieldsByNumber;
use reflect_wire::WireError;
use std::alloc::{AllocError, AllocFailed, Global};

/// What is wrong with a record's options, and which of those that a source wrote is at fault, if it
/// is one of them.
#[derive(Drop)]
pub struct OptionFault {
    pub kind: OptionErrorKind,
    pub option: Option<usize>,
}

impl From<OptionErrorKind> for OptionFault {
    ghost from_gives = { λ kind f. (f.kind ≡ kind) × (f.option ≡ None) };

    fn from(kind: OptionErrorKind) -> OptionFault {
        OptionFault { kind, option: None }
    }
}

impl From<AllocError> for OptionFault {
    ghost from_gives = { λ _ f. (f.kind ≡ Memory) × (f.option ≡ None) };

    fn from(_error: AllocError) -> OptionFault {
        OptionFault::from(OptionErrorKind::Memory)
    }
}

impl From<WireError> for OptionFault {
    ghost from_gives = { λ error f. (f.kind ≡ of_wire error) × (f.option ≡ None) };

    fn from(error: WireError) -> OptionFault {
        OptionFault::from(match error {
            WireError::Memory => OptionErrorKind::Memory,
            error => OptionErrorKind::UndecodableOptions { error: Some(error) },
        })
    }
}

impl<T: Drop> From<AllocFailed<T>> for OptionFault {
    ghost from_gives = { λ _ f. (f.kind ≡ Memory) × (f.option ≡ None) };

    fn from(_error: AllocFailed<T>) -> OptionFault {
        OptionFault::from(OptionErrorKind::Memory)
    }
}

/// A record's options as their type has them, and where each of those that a source wrote was set.
#[derive(Drop)]
pub struct SettledOptions {
    pub options: Options,
    /// The numbers that lead to it from the options, one list for each.
    pub targets: Vec<Vec<i32>>,
}

/// No source may set the field of this name: the list of uninterpreted options, and what says that
/// a message is a map's entry.
fn is_reserved(scope: OptionScope, name: &str) -> bool
    ensures { result ≡ is_reserved scope name.now }
{
    match scope {
        OptionScope::Message => name == "uninterpreted_option" || name == "map_entry",
        _ => name == "uninterpreted_option",
    }
}

/// The option is one that no source may set.
fn is_forbidden(scope: OptionScope, option: &UninterpretedOption) -> bool
    ensures { result ≡ is_forbidden scope (option_view option.now).name }
{
    match option.name.as_slice() {
        [part, ..] => !part.is_extension && is_reserved(scope, part.name_part.as_str()),
        _ => false,
    }
}

/// Refuses options that no source may set: the first of them is told.
fn check_forbidden(alloc: Global, scope: OptionScope, options: &Options) -> Result<(), OptionFault>
    ensures none { OnOk result (FindsForbidden scope options.now None) }
    ensures told { IfErr result (λ f. UnlessMemory (IsForbiddenAt scope options.now f.option)
        f.kind) }
{
    'options: for (place, option) in options.uninterpreted_option.iter().enumerate() {
        if is_forbidden(scope, option) {
            let name = option_name(alloc, option)?;
            return Err(OptionFault {
                kind: OptionErrorKind::ForbiddenOption { name },
                option: Some(place),
            });
        }
    }
    Ok(())
}

/// What the truth value of a number says, where it is set.
fn truth_at(message: &DynamicMessage<'_>, number: u32) -> Result<Option<bool>, AllocError>
    ensures { IfOk result (λ said. said ≡ truth_said number message.now) }
{
    let Some(field) = declared_field(message.descriptor(), number) else {
        return Ok(None);
    };
    if !message.has_field(&field) {
        return Ok(None);
    }
    Ok(message.get_field(&field)?.value().as_bool())
}

/// The message of options that the stored bytes spell. Those of a message must say of map entries
/// what the record says.
fn stored_message<'p>(
    alloc: Global,
    scope: OptionScope,
    descriptor: MessageDescriptor<'p>,
    options: &Options,
) -> Result<DynamicMessage<'p>, OptionFault>
    ensures same_type { IfOk result (λ m. m.descriptor ≡ descriptor.entry) }
    ensures stored { IfOk result (IsStored scope descriptor.entry options.now) }
    ensures first { IfErr result (λ f. f.option ≡ None) }
    ensures refused { IfErr result (λ f.
        UnlessMemory (RefusesStored scope descriptor.entry options.now) f.kind) }
{
    let message = DynamicMessage::decode(alloc, descriptor, options.encoded.as_slice())?;
    if let (OptionScope::Message, Some((_, number))) = (scope, scope.typed_option()) {
        let stored = truth_at(&message, number)?.unwrap_or(false);
        if stored != options.map_entry.unwrap_or(false) {
            let error = None;
            return Err(OptionFault::from(OptionErrorKind::UndecodableOptions { error }));
        }
    }
    Ok(message)
}

/// Sets the options that a source wrote, in order.
fn set_all<'p>(
    alloc: Global,
    names: NameScope<'_, 'p>,
    options: &[UninterpretedOption],
    message: &mut DynamicMessage<'p>,
) -> Result<Vec<Vec<i32>>, OptionFault>
    ensures type_stays { message.new.descriptor ≡ message.old.descriptor }
    ensures set { IfOk result (λ paths. SetsAll names.entry options.now message.old message.new
        (lists_of paths)) }
    ensures refused { IfErr result (λ f. UnlessMemory (λ kind. IfSome f.option (λ place.
        RefusesAt names.entry options.now message.old place kind) × IsSome f.option) f.kind) }
{
    let mut targets = Vec::with_capacity(alloc, options.len())?;
    'options: for (place, option) in options.iter().enumerate() {
        match OptionSetter::new(alloc, names, option).set(message) {
            Ok(target) => targets.push(target)?,
            Err(kind) => {
                return Err(OptionFault {
                    kind,
                    option: Some(place),
                });
            }
        }
    }
    Ok(targets)
}

/// The bytes of a message of options, which must nest as messages may.
fn written(alloc: Global, message: &DynamicMessage<'_>) -> Result<Vec<u8>, OptionFault>
    ensures bytes { IfOk result (λ bytes. bytes.items ≡ message_bytes message.now) }
    ensures read { OnOk result (IsReadBack message.now) }
    ensures none { IfErr result (λ f. f.option ≡ None) }
    ensures refused { IfErr result (λ f. UnlessMemory (RefusesWritten message.now) f.kind) }
{
    let bytes = match message.encode_to_vec() {
        Ok(bytes) => bytes,
        Err(_) => return Err(OptionFault::from(OptionErrorKind::Memory)),
    };
    match DynamicMessage::decode(alloc, message.descriptor(), bytes.as_slice()) {
        Ok(_) => Ok(bytes),
        Err(error) => Err(unread(error)),
    }
}

/// Why what was written is not read back.
fn unread(error: WireError) -> OptionFault
    ensures kind { result.kind ≡ unread error }
    ensures none { result.option ≡ None }
{
    match error {
        WireError::TooDeep => OptionFault::from(OptionErrorKind::OptionTooDeep),
        error => OptionFault::from(error),
    }
}

/// What linking reads itself of a message of options, where it says it.
fn typed_truth(scope: OptionScope, message: &DynamicMessage<'_>) -> Result<Option<bool>, AllocError>
    ensures { IfOk result (λ said. said ≡ typed_said scope message.now) }
{
    match scope.typed_option() {
        Some((_, number)) => truth_at(message, number),
        None => Ok(None),
    }
}

/// The record of options that have these bytes, and say this of what linking reads itself. Takes no
/// memory.
fn settled_record(
    alloc: Global,
    scope: OptionScope,
    said: Option<bool>,
    encoded: Vec<u8>,
) -> Options
    ensures { options_view result ≡ settled_record scope said encoded.items }
{
    let (packed, allow_alias, map_entry) = match scope {
        OptionScope::Field => (said, None, None),
        OptionScope::Enum => (None, said, None),
        OptionScope::Message => (None, None, said),
        _ => (None, None, None),
    };
    Options {
        encoded,
        packed,
        allow_alias,
        map_entry,
        uninterpreted_option: Vec::new(alloc),
    }
}

/// The record of a message of options.
fn record_of(
    alloc: Global,
    scope: OptionScope,
    message: &DynamicMessage<'_>,
) -> Result<Options, OptionFault>
    ensures whole { IfOk result (λ o. IsRecordOf scope message.now (options_view o)) }
    ensures none { IfErr result (λ f. f.option ≡ None) }
    ensures refused { IfErr result (λ f. UnlessMemory (RefusesWritten message.now) f.kind) }
{
    let encoded = written(alloc, message)?;
    let said = typed_truth(scope, message)?;
    Ok(settled_record(alloc, scope, said, encoded))
}

/// The options of a record, read by their type: the stored bytes, then what a source wrote, in
/// order.
fn settled_by<'p>(
    alloc: Global,
    scope: OptionScope,
    names: NameScope<'_, 'p>,
    descriptor: MessageDescriptor<'p>,
    options: &Options,
) -> Result<SettledOptions, OptionFault>
    ensures settled { IfOk result (λ settled. (whole : DynamicMessage)
        × IsWhole scope names.entry descriptor.entry options.now whole (lists_of settled.targets)
        × IsRecordOf scope whole (options_view settled.options)) }
    ensures refused { IfErr result (λ f. UnlessMemory
        (RefusesTyped scope names.entry descriptor.entry options.now f.option) f.kind) }
{
    let mut message = stored_message(alloc, scope, descriptor, options)?;
    let targets = set_all(
        alloc,
        names,
        options.uninterpreted_option.as_slice(),
        &mut message,
    )?;
    message.clear_field_by_number(UNINTERPRETED_OPTION);
    let options = record_of(alloc, scope, &message)?;
    Ok(SettledOptions { options, targets })
}

/// The options of a record, read by the pool's type for them: the stored bytes, then what a source
/// wrote, in order.
///
/// Nothing where the pool has no type for them and a source wrote none. Refused at the first of
/// those that a source wrote that no source may set, that there is no type for, or that is not set;
/// and, at none of them, where the stored bytes are no options of the type, contradict the record
/// about map entries, or nest too deep with what was set.
pub fn settled_options<'p>(
    alloc: Global,
    scope: OptionScope,
    names: NameScope<'_, 'p>,
    options: &Options,
) -> Result<Option<SettledOptions>, OptionFault>
    ensures settled { IfOk result (λ o. IfSome o (λ settled. Settles scope names.entry options.now
        (options_view settled.options) (lists_of settled.targets))) }
    ensures none { IfOk result (λ o. IfNone o (StayAsTheyAre scope names.entry options.now)) }
    ensures refused { IfErr result (λ f. UnlessMemory
        (RefusesOptions scope names.entry options.now f.option) f.kind) }
{
    check_forbidden(alloc, scope, options)?;
    let Some(descriptor) = names.pool.get_message_by_name(scope.type_name()) else {
        if options.uninterpreted_option.is_empty() {
            return Ok(None);
        }
        return Err(OptionFault {
            kind: OptionErrorKind::NoDescriptorProto,
            option: Some(0),
        });
    };
    Ok(Some(settled_by(alloc, scope, names, descriptor, options)?))
}
