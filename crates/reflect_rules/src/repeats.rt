//! Numbers that an earlier entry of their list has (protobuf.dev, "Assigning Field Numbers", "Enum
//! Value Aliases").

ghost use Rattle.std.specs.Prelude.{◌≡◌, OnOk, IfOk};
ghost use Rattle.reflect_faults.specs.Faults.{Adds, fault_view, place_at, place_of};
ghost use Rattle.reflect_rules.specs.Repeats.{repeats, repeat_fault, repeat_faults};
ghost use Rattle.reflect_rules.specs.Numbered.{fault_of, list_tag, number_tag};

use descriptor_records::tag;
use reflect_faults::{DescriptorErrorKind, Faults, Label};
use reflect_scope::FileIndex;
use reflect_walk::VisitError;
use std::alloc::{AllocError, Global};
use std::collections::BTreeSet;

/// What a list of numbers is of.
#[derive(Clone, Copy)]
pub enum Numbered {
    Fields,
    EnumValues,
}

impl Numbered {
    /// The tag of the list in the record that declares it.
    fn list(self) -> i32
        ensures { result ≡ list_tag self }
    {
        match self {
            Numbered::Fields => tag::message::FIELD,
            Numbered::EnumValues => tag::enumeration::VALUE,
        }
    }

    /// The tag of the number in an entry's record.
    fn number(self) -> i32
        ensures { result ≡ number_tag self }
    {
        match self {
            Numbered::Fields => tag::field::NUMBER,
            Numbered::EnumValues => tag::enum_value::NUMBER,
        }
    }

    /// That the number is an earlier entry's.
    fn fault(self, number: i32, found: Label) -> DescriptorErrorKind
        ensures { fault_view result ≡ fault_of self number (place_of found) }
    {
        match self {
            Numbered::Fields => DescriptorErrorKind::DuplicateFieldNumber { number, found },
            Numbered::EnumValues => DescriptorErrorKind::DuplicateEnumNumber { number, found },
        }
    }
}

/// Those of the numbers that stand earlier too, each behind its place.
fn repeated(alloc: Global, numbers: &[Option<i32>]) -> Result<Vec<(usize, i32)>, AllocError>
    ensures { IfOk result (λ found. found.items ≡ repeats numbers.now) }
{
    let mut seen = BTreeSet::new(alloc);
    let mut repeated = Vec::new(alloc);
    'turns: for (place, number) in numbers.iter().enumerate() {
        if let Some(number) = *number {
            if !seen.insert(number)? {
                repeated.push((place, number))?;
            }
        }
    }
    Ok(repeated)
}

/// Lists that the entry at a place has a number that an earlier entry has.
fn list_repeat(
    alloc: Global,
    faults: &mut Faults<'_>,
    file: FileIndex,
    path: &[i32],
    what: Numbered,
    place: usize,
    number: i32,
) -> Result<(), VisitError>
    ensures { OnOk result (Adds faults.old faults.new
        (repeat_fault (fault_of what) (list_tag what) (number_tag what) path.now
        (place_at faults.old file) (place, number))) }
{
    let found = faults.entry_label(alloc, file, path, what.list(), place, what.number())?;
    faults.push(what.fault(number, found))?;
    Ok(())
}

/// Lists each of the numbers that an earlier one equals. `TooMany` is a place past `i32::MAX`.
pub fn list_repeats(
    alloc: Global,
    faults: &mut Faults<'_>,
    file: FileIndex,
    path: &[i32],
    what: Numbered,
    numbers: &[Option<i32>],
) -> Result<(), VisitError>
    ensures { OnOk result (Adds faults.old faults.new
        (repeat_faults (fault_of what) (list_tag what) (number_tag what) path.now
        (place_at faults.old file) numbers.now)) }
{
    let again = repeated(alloc, numbers)?;
    'turns: for repeat in again.as_slice() {
        list_repeat(alloc, faults, file, path, what, repeat.0, repeat.1)?;
    }
    Ok(())
}
