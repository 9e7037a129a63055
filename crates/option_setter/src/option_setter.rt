//! One option, set in a message of options.

ghost use Rattle.std.specs.Prelude.{◌≡◌, ◌++◌, ℤ, List, IfErr, IfOk, OnOk, string_bytes, true};
ghost use Rattle.descriptor_records.specs.Content.{name_view, option_view};
ghost use Rattle.option_parts.specs.declared.option_error.OptionErrorKind.TheVariants.{Memory};
ghost use Rattle.option_setter.specs.OptionNames.{LacksExtension, LacksTarget, NamesExtension, NamesTarget, UnlessMemory};
ghost use Rattle.option_setter.specs.OptionValues.{IsSaid};
ghost use Rattle.option_setter.specs.SetOptions.{IsNoMessage, LeadsInto, LeadsNowhere, RefusesLast, RefusesParts, RefusesValue, SetsLast, SetsParts};
ghost use Rattle.option_setter.specs.WrittenNames.{TellsOption, behind_dot, written_name};
ghost use Rattle.reflect_message.specs.declared.value.ValueOf.TheVariants as values;
ghost use Rattle.reflect_format.specs.Takes.{BelongsTo, holds_many, target_pool, target_type};
ghost use Rattle.reflect_scalar.specs.Floats.{HoldsFloats};

use crate::option_value::option_value;
use crate::part_target::{holds_float_numbers, is_list, number_of, place_of, taken, values_held};
use descriptor_records::{NamePart, UninterpretedOption};
use option_parts::OptionErrorKind;
use reflect_format::Target;
use reflect_link::{DescriptorPool, Kind, MessageDescriptor};
use reflect_message::{DynamicMessage, Value};
use reflect_scope::{ResolveNameError, ResolveNameFilter, SeenFiles, resolve_name};
use reflect_wire::MAX_LEVELS;
use std::alloc::{AllocError, Global};

/// Where the names of extensions are looked up.
#[derive(Clone, Copy)]
pub struct NameScope<'a, 'p> {
    pub pool: &'p DescriptorPool,
    /// The files that the option's file sees.
    pub seen: &'a SeenFiles,
    /// The full name of the declaration that has the option; of a file its package.
    pub name: &'a str,
}

/// Puts a part of an option's name behind those in front of it. A refusal may leave some of it.
fn push_part(name: &mut String, part: &NamePart) -> Result<(), AllocError>
    ensures { OnOk result (string_bytes name.new
        ≡ behind_dot (string_bytes name.old) (name_view part.now)) }
{
    if !name.is_empty() {
        name.push_str(".")?;
    }
    if !part.is_extension {
        return name.push_str(part.name_part.as_str());
    }
    name.push_str("(")?;
    name.push_str(part.name_part.as_str())?;
    name.push_str(")")
}

/// The name of an option as it is written. Refused for want of memory alone.
pub fn option_name(alloc: Global, option: &UninterpretedOption) -> Result<String, AllocError>
    ensures { IfOk result (λ name. string_bytes name ≡ written_name (option_view option.now)) }
{
    let mut name = String::new(alloc);
    'parts: for part in &option.name {
        push_part(&mut name, part)?;
    }
    Ok(name)
}

/// Sets one option.
#[derive(Clone, Copy)]
pub struct OptionSetter<'a, 'p> {
    alloc: Global,
    scope: NameScope<'a, 'p>,
    option: &'a UninterpretedOption,
}

impl<'a, 'p> OptionSetter<'a, 'p> {
    /// A setter of the option, whose names are looked up in the scope.
    pub fn new(
        alloc: Global,
        scope: NameScope<'a, 'p>,
        option: &'a UninterpretedOption,
    ) -> OptionSetter<'a, 'p>
        ensures scope { result.scope ≡ scope.entry }
        ensures option { result.option.now ≡ option.now }
    {
        OptionSetter {
            alloc,
            scope,
            option,
        }
    }

    /// Sets the option in a message of options, and gives the path of what it set there: the
    /// numbers of the fields, and behind that of a list the place of the element. An option without
    /// a name sets nothing.
    ///
    /// Refused at the first part of the name that leads to no field (`OptionNotFound`, or
    /// `InvalidOptionExtendee` of an extension of another type), that is not the last and leads to
    /// no single message (`InvalidOptionType`), or that lies too deep (`OptionTooDeep`). Of the last
    /// part it is told first that it holds floating-point numbers (`FloatOption`) or has a value
    /// already (`DuplicateOption`), and else that the option says nothing to its kind
    /// (`InvalidOptionType`), or `InvalidMessageOption` with the first fault of the text in its
    /// braces. `Memory` may come at any time. A refusal may leave the message changed.
    pub fn set(&self, message: &mut DynamicMessage<'p>) -> Result<Vec<i32>, OptionErrorKind>
        ensures type_stays { message.new.descriptor ≡ message.old.descriptor }
        ensures set { IfOk result (λ path. SetsParts self.now.scope
            (option_view self.now.option.now) 100 self.now.option.now.name.items message.old
            message.new path.items) }
        ensures refused { IfErr result (UnlessMemory
            (RefusesParts self.now.scope (option_view self.now.option.now) 100
            self.now.option.now.name.items message.old)) }
        ensures named { IfErr result (TellsOption (option_view self.now.option.now)) }
    {
        let mut path = Vec::with_capacity(self.alloc, self.option.name.len().saturating_add(1))?;
        self.set_parts(message, self.option.name.as_slice(), MAX_LEVELS, &mut path)?;
        Ok(path)
    }

    /// The name of the option, for a fault. Refused for want of memory alone.
    fn name(&self) -> Result<String, OptionErrorKind>
        ensures written { IfOk result (λ name. string_bytes name
            ≡ written_name (option_view self.now.option.now)) }
        ensures refused { IfErr result (λ e. e ≡ Memory) }
    {
        Ok(option_name(self.alloc, self.option)?)
    }

    /// Sets what the parts lead to from a message, below which so many levels may lie.
    #[cycle(parts)]
    fn set_parts(
        &self,
        message: &mut DynamicMessage<'p>,
        parts: &[NamePart],
        levels: u32,
        path: &mut Vec<i32>,
    ) -> Result<(), OptionErrorKind>
        ensures type_stays { message.new.descriptor ≡ message.old.descriptor }
        ensures set { OnOk result ((rest : List ℤ) × SetsParts self.now.scope
            (option_view self.now.option.now) levels parts.now message.old message.new rest
            × (path.new.items ≡ path.old.items ++ rest)) }
        ensures refused { IfErr result (UnlessMemory
            (RefusesParts self.now.scope (option_view self.now.option.now) levels parts.now
            message.old)) }
        ensures named { IfErr result (TellsOption (option_view self.now.option.now)) }
    {
        let Some((part, rest)) = parts.split_first() else {
            return Ok(());
        };
        let target = self.target(message.descriptor(), part)?;
        path.push(number_of(target).cast_signed())?;
        if rest.is_empty() {
            return self.set_last(message, target, path);
        }
        if levels == 0 {
            return Err(OptionErrorKind::OptionTooDeep);
        }
        let mut inner = self.inner(message, target)?;
        self.set_parts(&mut inner, rest, levels - 1, path)?;
        target.set(message, Value::Message(inner))?;
        Ok(())
    }

    /// What a part of the name means in a message of the type.
    fn target(
        &self,
        message: MessageDescriptor<'p>,
        part: &NamePart,
    ) -> Result<Target<'p>, OptionErrorKind>
        ensures takes { IfOk result (BelongsTo message.entry) }
        ensures found { IfOk result (NamesTarget self.now.scope message.entry part.now) }
        ensures refused { IfErr result (UnlessMemory
            (LacksTarget self.now.scope message.entry part.now)) }
        ensures named { IfErr result (TellsOption (option_view self.now.option.now)) }
    {
        if part.is_extension {
            return self.extension(message, part.name_part.as_str());
        }
        match message.get_field_by_name(part.name_part.as_str()) {
            Some(field) => Ok(Target::Field(field)),
            None => Err(OptionErrorKind::OptionNotFound { name: self.name()? }),
        }
    }

    /// The extension of a name, which must extend the type.
    fn extension(
        &self,
        message: MessageDescriptor<'p>,
        name: &str,
    ) -> Result<Target<'p>, OptionErrorKind>
        ensures takes { IfOk result (BelongsTo message.entry) }
        ensures found { IfOk result (NamesExtension self.now.scope message.entry name.now) }
        ensures refused { IfErr result (UnlessMemory
            (LacksExtension self.now.scope message.entry name.now)) }
        ensures named { IfErr result (TellsOption (option_view self.now.option.now)) }
    {
        let scope = self.scope;
        let filter = ResolveNameFilter::Extension;
        let names = scope.pool.names();
        let resolved = match resolve_name(self.alloc, scope.seen, names, scope.name, name, filter) {
            Ok(resolved) => resolved,
            Err(ResolveNameError::Memory) => return Err(OptionErrorKind::Memory),
            Err(_) => return Err(OptionErrorKind::OptionNotFound { name: self.name()? }),
        };
        let full_name = resolved.full_name.as_str();
        if let Some(extension) = message.get_extension_by_full_name(full_name) {
            return Ok(Target::Extension(extension));
        }
        match scope.pool.get_extension_by_name(full_name) {
            Some(_) => Err(OptionErrorKind::InvalidOptionExtendee { name: self.name()? }),
            None => Err(OptionErrorKind::OptionNotFound { name: self.name()? }),
        }
    }

    /// The message that a value is.
    fn held_message(&self, held: Value<'p>) -> Result<DynamicMessage<'p>, OptionErrorKind>
        ensures message { IfOk result (λ m. held.entry ≡ values.Message m) }
        ensures none { IfErr result (UnlessMemory (IsNoMessage held.entry)) }
        ensures named { IfErr result (TellsOption (option_view self.now.option.now)) }
    {
        match held {
            Value::Message(inner) => Ok(inner),
            _ => Err(OptionErrorKind::InvalidOptionType { name: self.name()? }),
        }
    }

    /// The message that a part of the name leads into, taken out of the one that holds it: a new
    /// one where none is held.
    fn inner(
        &self,
        message: &mut DynamicMessage<'p>,
        target: Target<'p>,
    ) -> Result<DynamicMessage<'p>, OptionErrorKind>
        requires { BelongsTo message.old.descriptor target }
        ensures type_stays { message.new.descriptor ≡ message.old.descriptor }
        ensures led { IfOk result (LeadsInto target.entry message.old message.new) }
        ensures refused { IfErr result (UnlessMemory (LeadsNowhere target.entry message.old)) }
        ensures named { IfErr result (TellsOption (option_view self.now.option.now)) }
    {
        match target.kind() {
            Kind::Message(kind) if !target.holds_many() => match taken(target, message) {
                Some(held) => self.held_message(held),
                None => Ok(DynamicMessage::new(self.alloc, kind)),
            },
            _ => Err(OptionErrorKind::InvalidOptionType { name: self.name()? }),
        }
    }

    /// Sets what the last part means. A list gets one more element and a map one more entry;
    /// anything else must not be set yet.
    fn set_last(
        &self,
        message: &mut DynamicMessage<'p>,
        target: Target<'p>,
        path: &mut Vec<i32>,
    ) -> Result<(), OptionErrorKind>
        requires { BelongsTo message.old.descriptor target }
        ensures type_stays { message.new.descriptor ≡ message.old.descriptor }
        ensures set { OnOk result ((rest : List ℤ) × SetsLast target.entry
            (option_view self.now.option.now) message.old message.new rest
            × (path.new.items ≡ path.old.items ++ rest)) }
        ensures refused { IfErr result (UnlessMemory
            (RefusesLast target.entry (option_view self.now.option.now) message.old)) }
        ensures named { IfErr result (TellsOption (option_view self.now.option.now)) }
    {
        if holds_float_numbers(target) {
            return Err(OptionErrorKind::FloatOption { name: self.name()? });
        }
        if target.holds_many() {
            return self.add(message, target, path);
        }
        if target.is_set(message) {
            return Err(OptionErrorKind::DuplicateOption { name: self.name()? });
        }
        let value = self.value(target.kind())?;
        target.set(message, value)?;
        Ok(())
    }

    /// One value of the kind.
    fn value(&self, kind: Kind<'p>) -> Result<Value<'p>, OptionErrorKind>
        ensures said { IfOk result (IsSaid kind.entry (option_view self.now.option.now)) }
        ensures refused { IfErr result (UnlessMemory
            (RefusesValue kind.entry (option_view self.now.option.now))) }
        ensures named { IfErr result (TellsOption (option_view self.now.option.now)) }
    {
        match option_value(self.alloc, self.option, kind) {
            Ok(value) => Ok(value),
            Err(fault) => Err(fault.of_option(self.name()?)),
        }
    }

    /// Puts the value behind those of a list, whose place ends the path, or, as an entry, into a
    /// map.
    fn add(
        &self,
        message: &mut DynamicMessage<'p>,
        target: Target<'p>,
        path: &mut Vec<i32>,
    ) -> Result<(), OptionErrorKind>
        requires takes { BelongsTo message.old.descriptor target }
        requires no_floats { HoldsFloats (target_pool target) (target_type target)
            → ⊥ }
        requires many { holds_many target ≡ true }
        ensures type_stays { message.new.descriptor ≡ message.old.descriptor }
        ensures set { OnOk result ((rest : List ℤ) × SetsLast target.entry
            (option_view self.now.option.now) message.old message.new rest
            × (path.new.items ≡ path.old.items ++ rest)) }
        ensures refused { IfErr result (UnlessMemory
            (RefusesLast target.entry (option_view self.now.option.now) message.old)) }
        ensures named { IfErr result (TellsOption (option_view self.now.option.now)) }
    {
        let value = self.value(target.kind())?;
        if is_list(target) {
            let place = values_held(target, message)?;
            path.push(place_of(place))?;
        }
        let mut values = Vec::with_capacity(self.alloc, 1)?;
        values.push(value)?;
        target.add(message, values)?;
        Ok(())
    }
}
