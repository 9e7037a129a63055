//! The pass over extensions: no two extensions of one message have one number.

ghost use Rattle.std.specs.Prelude.{◌≡◌, ◌+◌, ◌||◌, ◌++◌, ◌∷◌, [], pos, length, OnOk, IfOk, IfErr};
ghost use Rattle.std.specs.Int.{w32, cast_signed};
ghost use Rattle.reflect_faults.specs.Faults.{Adds, list_of, place_at, duplicate_extension};
ghost use Rattle.reflect_passes.specs.Errors.{ListsFaults};
ghost use Rattle.reflect_tables.specs.ExtensionNumbers.{KeyType, KeepsNumbers, numbers_of};
ghost use Rattle.reflect_passes.specs.Extensions.{has_key, is_known, is_taken, with_number, with_numbers, double_faults, extension_faults};
ghost use Rattle.reflect_passes.specs.Linked.{linked_says};

use crate::error::DescriptorError;
use crate::linked_types::LinkedTypes;
use crate::passes::{walk_error, without_faults};
use descriptor_records::tag;
use reflect_faults::{DescriptorErrorKind, Faults};
use reflect_rules::Types;
use reflect_scope::{ExtensionIndex, MessageIndex};
use reflect_tables::StoredExtension;
use reflect_walk::VisitError;
use std::alloc::{AllocError, Global};
use std::collections::BTreeMap;

/// Lists that an extension has the number of an earlier one.
fn list_doubled(
    alloc: Global,
    faults: &mut Faults<'_>,
    message: &str,
    extension: &StoredExtension,
) -> Result<(), AllocError>
    ensures { OnOk result (Adds faults.old faults.new
        (duplicate_extension (cast_signed w32 extension.now.field.number) message.now
        (place_at faults.old extension.now.file (extension.now.field.path.items ++ (pos 3 ∷ [])))
        ∷ [])) }
{
    let path = extension.field.path.as_slice();
    let found = faults.label_at(alloc, extension.file, path, tag::field::NUMBER)?;
    faults.push(DescriptorErrorKind::DuplicateExtensionNumber {
        number: extension.field.number.cast_signed(),
        message: String::from_str(alloc, message)?,
        found,
    })
}

/// Puts an extension's number beside those that are known, with the extension's place, or lists it
/// where it is there already.
fn put_number(
    alloc: Global,
    types: &LinkedTypes<'_>,
    faults: &mut Faults<'_>,
    numbers: &mut BTreeMap<(MessageIndex, u32), ExtensionIndex>,
    place: ExtensionIndex,
    extension: &StoredExtension,
) -> Result<(), VisitError>
    ensures faults { OnOk result (Adds faults.old faults.new
        (double_faults (is_known numbers.old) (linked_says types.now) (place_at faults.old)
        extension.now)) }
    ensures numbers { OnOk result ((k : KeyType) → is_known numbers.new k
        ≡ (is_known numbers.old k || has_key k extension.now)) }
    ensures places { OnOk result (numbers_of numbers.new
        ≡ with_number (numbers_of numbers.old) place extension.now) }
    ensures keeps { KeepsNumbers place (numbers_of numbers.old) (numbers_of numbers.new) }
{
    let key = (extension.extendee, extension.field.number);
    if numbers.contains_key(&key) {
        let message = types.message_name(extension.extendee);
        list_doubled(alloc, faults, message, extension)?;
    } else {
        numbers.insert(key, place)?;
    }
    Ok(())
}

/// The place behind so many others of an extension at a place among the new ones.
fn place_behind(count: usize, at: usize) -> Result<ExtensionIndex, VisitError>
    ensures { IfOk result (λ place. place ≡ count + at) }
{
    match u32::try_from(count.saturating_add(at)) {
        Ok(place) => Ok(place),
        Err(_) => Err(VisitError::TooMany),
    }
}

/// Puts the numbers of all new extensions.
fn put_numbers(
    alloc: Global,
    types: &LinkedTypes<'_>,
    faults: &mut Faults<'_>,
    numbers: &mut BTreeMap<(MessageIndex, u32), ExtensionIndex>,
) -> Result<(), VisitError>
    ensures faults { OnOk result (Adds faults.old faults.new
        (extension_faults (is_known numbers.old) (linked_says types.now) (place_at faults.old)
        types.now.new.now.extensions.items)) }
    ensures numbers { OnOk result ((k : KeyType) → is_known numbers.new k
        ≡ is_taken (is_known numbers.old) types.now.new.now.extensions.items k) }
    ensures places { OnOk result (numbers_of numbers.new
        ≡ with_numbers (numbers_of numbers.old) (length types.now.old.now.extensions.items)
        types.now.new.now.extensions.items) }
    ensures keeps { KeepsNumbers (length types.now.old.now.extensions.items)
        (numbers_of numbers.old) (numbers_of numbers.new) }
{
    let extensions = types.new.extensions.as_slice();
    'turns: for (at, extension) in extensions.iter().enumerate() {
        let place = place_behind(types.old.extensions.len(), at)?;
        put_number(alloc, types, faults, numbers, place, extension)?;
    }
    Ok(())
}

/// Puts the new extensions' numbers beside those that are known. Ok where `faults` are none and
/// each is new, else the error that lists `faults`, and behind them each extension whose message
/// and number an earlier one has. Want of memory, or an index past the last, is alone. A refusal
/// may leave some of the new numbers.
pub fn list_extensions(
    alloc: Global,
    types: &LinkedTypes<'_>,
    mut faults: Faults<'_>,
    numbers: &mut BTreeMap<(MessageIndex, u32), ExtensionIndex>,
) -> Result<(), DescriptorError>
    ensures ok { OnOk result (list_of faults.entry
        ++ extension_faults (is_known numbers.old) (linked_says types.now) (place_at faults.entry)
        types.now.new.now.extensions.items ≡ []) }
    ensures err { IfErr result (λ e. ListsFaults
        (λ xs. xs ≡ list_of faults.entry
        ++ extension_faults (is_known numbers.old) (linked_says types.now) (place_at faults.entry)
        types.now.new.now.extensions.items) e) }
    ensures numbers { OnOk result ((k : KeyType) → is_known numbers.new k
        ≡ is_taken (is_known numbers.old) types.now.new.now.extensions.items k) }
    ensures places { OnOk result (numbers_of numbers.new
        ≡ with_numbers (numbers_of numbers.old) (length types.now.old.now.extensions.items)
        types.now.new.now.extensions.items) }
    ensures keeps { KeepsNumbers (length types.now.old.now.extensions.items)
        (numbers_of numbers.old) (numbers_of numbers.new) }
{
    put_numbers(alloc, types, &mut faults, numbers).map_err(|error| walk_error(alloc, error))?;
    without_faults(faults)
}
