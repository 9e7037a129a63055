//! The names that stand directly in a message.

ghost use Rattle.std.specs.Prelude.{◌++◌, IfOk, OnOk, map};
ghost use Rattle.descriptor_records.specs.Content as content;
ghost use Rattle.protox_message_records.specs.SyntheticOneofs as synthetic;

use descriptor_records::{
    DescriptorProto, EnumDescriptorProto, FieldDescriptorProto, OneofDescriptorProto,
};
use std::alloc::{AllocError, Global};
use std::collections::BTreeSet;

/// The names of what is declared directly in a message, of which this is the record so far.
pub fn declared_names<'r>(
    alloc: Global,
    message: &'r DescriptorProto,
) -> Result<BTreeSet<&'r str>, AllocError>
    ensures { IfOk result (λ names. synthetic.AreSame (map (λ n. n.now) names.keys)
        (synthetic.names_in (content.message_view message.now))) }
{
    let mut names = BTreeSet::new(alloc);
    add_fields(&message.field, &mut names)?;
    add_fields(&message.extension, &mut names)?;
    add_types(&message.nested_type, &mut names)?;
    add_enums(&message.enum_type, &mut names)?;
    add_oneofs(&message.oneof_decl, &mut names)?;
    Ok(names)
}

fn add_fields<'r>(
    fields: &'r Vec<FieldDescriptorProto>,
    names: &mut BTreeSet<&'r str>,
) -> Result<(), AllocError>
    ensures { OnOk result (synthetic.AreSame (map (λ n. n.now) names.new.keys)
        (map (λ n. n.now) names.old.keys
        ++ synthetic.field_names (map content.field_view fields.now.items))) }
{
    'each: for field in fields {
        add_name(&field.name, names)?;
    }
    Ok(())
}

fn add_types<'r>(
    types: &'r Vec<DescriptorProto>,
    names: &mut BTreeSet<&'r str>,
) -> Result<(), AllocError>
    ensures { OnOk result (synthetic.AreSame (map (λ n. n.now) names.new.keys)
        (map (λ n. n.now) names.old.keys
        ++ synthetic.type_names (content.messages_of (map content.message_view types.now.items)))) }
{
    'each: for nested in types {
        add_name(&nested.name, names)?;
    }
    Ok(())
}

fn add_enums<'r>(
    enums: &'r Vec<EnumDescriptorProto>,
    names: &mut BTreeSet<&'r str>,
) -> Result<(), AllocError>
    ensures { OnOk result (synthetic.AreSame (map (λ n. n.now) names.new.keys)
        (map (λ n. n.now) names.old.keys
        ++ synthetic.enum_names (map content.enum_view enums.now.items))) }
{
    'each: for enumeration in enums {
        add_name(&enumeration.name, names)?;
    }
    Ok(())
}

fn add_oneofs<'r>(
    oneofs: &'r Vec<OneofDescriptorProto>,
    names: &mut BTreeSet<&'r str>,
) -> Result<(), AllocError>
    ensures { OnOk result (synthetic.AreSame (map (λ n. n.now) names.new.keys)
        (map (λ n. n.now) names.old.keys
        ++ synthetic.oneof_names (map content.oneof_view oneofs.now.items))) }
{
    'each: for oneof in oneofs {
        add_name(&oneof.name, names)?;
    }
    Ok(())
}

fn add_name<'r>(name: &'r Option<String>, names: &mut BTreeSet<&'r str>) -> Result<(), AllocError>
    ensures { OnOk result (synthetic.AreSame (map (λ n. n.now) names.new.keys)
        (map (λ n. n.now) names.old.keys ++ synthetic.if_named (content.text_view name.now))) }
{
    if let Some(name) = name {
        names.insert(name.as_str())?;
    }
    Ok(())
}
