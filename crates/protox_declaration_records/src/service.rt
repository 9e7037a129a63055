//! The records of services.

ghost use Rattle.std.specs.Prelude.{◌≡◌, IfOk, map, option_map};
ghost use Rattle.std.specs.List.{flat_map};
ghost use Rattle.descriptor_records.specs.Content.{method_view, option_view, options_view, service_view};
ghost use Rattle.protox_declaration_records.specs.OptionRecords.{options_of};
ghost use Rattle.protox_declaration_records.specs.ServiceRecords as services;

use crate::option::{declared, option_record};
use descriptor_records::{
    MethodDescriptorProto, Options, ServiceDescriptorProto, UninterpretedOption,
};
use protox_tree::{Method, MethodBody, MethodItem, Service, ServiceItem};
use std::alloc::{AllocError, Global};

/// The record of a service.
pub fn service_record(
    alloc: Global,
    service: &Service,
) -> Result<ServiceDescriptorProto, AllocError>
    ensures { IfOk result (λ made. service_view made ≡ services.service_of service.now) }
{
    Ok(ServiceDescriptorProto {
        name: Some(service.name.value.clone()?),
        method: methods(alloc, &service.items)?,
        options: options(alloc, &service.items)?,
    })
}

fn methods(
    alloc: Global,
    items: &Vec<ServiceItem>,
) -> Result<Vec<MethodDescriptorProto>, AllocError>
    ensures { IfOk result (λ methods. map method_view methods.items
        ≡ flat_map services.method_at items.now.items) }
{
    let mut methods = Vec::new(alloc);
    'each: for item in items {
        let ServiceItem::Method(method) = item else {
            continue;
        };
        methods.push(method_record(alloc, method)?)?;
    }
    Ok(methods)
}

fn options(alloc: Global, items: &Vec<ServiceItem>) -> Result<Option<Options>, AllocError>
    ensures { IfOk result (λ options. option_map options_view options
        ≡ options_of (flat_map services.option_at items.now.items)) }
{
    let mut written = Vec::new(alloc);
    'each: for item in items {
        let ServiceItem::Option(option) = item else {
            continue;
        };
        written.push(option_record(alloc, &option.body)?)?;
    }
    Ok(declared(alloc, written))
}

fn method_record(alloc: Global, method: &Method) -> Result<MethodDescriptorProto, AllocError>
    ensures { IfOk result (λ made. method_view made ≡ services.method_of method.now) }
{
    Ok(MethodDescriptorProto {
        name: Some(method.name.value.clone()?),
        input_type: Some(method.input.name.to_text(alloc)?),
        output_type: Some(method.output.name.to_text(alloc)?),
        options: declared(alloc, method_options(alloc, &method.body)?),
        client_streaming: method.input.stream.map(|_| true),
        server_streaming: method.output.stream.map(|_| true),
    })
}

/// The options in a method's braces, where there are any.
fn method_options(
    alloc: Global,
    body: &Option<MethodBody>,
) -> Result<Vec<UninterpretedOption>, AllocError>
    ensures { IfOk result (λ written. map option_view written.items
        ≡ services.method_options body.now) }
{
    let mut written = Vec::new(alloc);
    let Some(body) = body else {
        return Ok(written);
    };
    'each: for item in &body.items {
        let MethodItem::Option(option) = item else {
            continue;
        };
        written.push(option_record(alloc, &option.body)?)?;
    }
    Ok(written)
}
