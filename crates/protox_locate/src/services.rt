ghost use Rattle.std.specs.Prelude.{◌≡◌, [], OnOk, option_map};
ghost use Rattle.protox_locate.specs.Declarations as spec;
ghost use Rattle.protox_locate.specs.Collected.{meet, meets, state};
ghost use Rattle.protox_locate.specs.Located.{statement};
ghost use Rattle.protox_tree.specs.View.{method_body_view, method_item_view, method_type_view, method_view, service_item_view, service_view};

use crate::locator::Locator;
use crate::options::option_statement;
use crate::slot::Count;
use descriptor_records::tag;
use protox_tree::{Method, MethodBody, MethodItem, MethodType, Service, ServiceItem};
use std::alloc::AllocError;

/// How many entries the lists of a service's record have so far.
#[derive(Clone, Copy)]
struct ServiceCounts {
    methods: Count,
    options: Count,
}

impl ServiceCounts {
    fn new() -> ServiceCounts
        ensures { result ≡ spec.no_methods }
    {
        ServiceCounts {
            methods: Count::new(),
            options: Count::new(),
        }
    }
}

/// The locations of a service whose record stands at a path.
pub fn service(
    locator: &mut Locator<'_>,
    path: &[i32],
    statement: &Service,
) -> Result<(), AllocError>
    ensures { OnOk result (state locator.new
        ≡ meets (state locator.old) (spec.service_events path.now (service_view statement.now))) }
{
    locator.enter(path, &[], statement.span, statement.braces)?;
    locator.add(path, &[tag::service::NAME], statement.name.span)?;
    let mut counts = ServiceCounts::new();
    'items: for item in &statement.items {
        service_item(locator, path, &mut counts, item)?;
    }
    locator.leave(statement.braces)?;
    Ok(())
}

fn service_item(
    locator: &mut Locator<'_>,
    path: &[i32],
    counts: &mut ServiceCounts,
    item: &ServiceItem,
) -> Result<(), AllocError>
    ensures located { OnOk result (state locator.new
        ≡ meets (state locator.old) (spec.service_item_events path.now counts.old
        (service_item_view item.now))) }
    ensures counted { OnOk result (counts.new
        ≡ spec.after_service_item counts.old (service_item_view item.now)) }
{
    match item {
        ServiceItem::Method(one) => {
            let at = locator.entry(path, tag::service::METHOD, counts.methods.next())?;
            method(locator, at.as_slice(), one)
        }
        ServiceItem::Option(option) => {
            let options = tag::service::OPTIONS;
            option_statement(locator, path, options, &mut counts.options, option)
        }
        ServiceItem::Empty(span) => locator.pass(*span),
    }
}

fn method(locator: &mut Locator<'_>, path: &[i32], statement: &Method) -> Result<(), AllocError>
    ensures { OnOk result (state locator.new
        ≡ meets (state locator.old) (spec.method_events path.now (method_view statement.now))) }
{
    begin_method(locator, path, statement)?;
    locator.add(path, &[tag::method::NAME], statement.name.span)?;
    let (name, stream) = (tag::method::INPUT_TYPE, tag::method::CLIENT_STREAMING);
    method_type(locator, path, name, stream, &statement.input)?;
    let (name, stream) = (tag::method::OUTPUT_TYPE, tag::method::SERVER_STREAMING);
    method_type(locator, path, name, stream, &statement.output)?;
    method_body(locator, path, &statement.body)?;
    Ok(())
}

fn begin_method(locator: &mut Locator<'_>, path: &[i32], method: &Method) -> Result<(), AllocError>
    ensures { OnOk result (state locator.new
        ≡ meet (state locator.old) (statement path.now [] method.now.span
        (spec.end_in method.now.span (option_map method_body_view method.now.body)))) }
{
    match &method.body {
        Some(body) => locator.enter(path, &[], method.span, body.braces),
        None => locator.statement(path, &[], method.span),
    }
}

/// The type of a method's input or output, and the word `stream`.
fn method_type(
    locator: &mut Locator<'_>,
    path: &[i32],
    name_tag: i32,
    stream_tag: i32,
    method_type: &MethodType,
) -> Result<(), AllocError>
    ensures { OnOk result (state locator.new
        ≡ meets (state locator.old) (spec.method_type_events path.now name_tag stream_tag
        (method_type_view method_type.now))) }
{
    locator.add_some(path, &[stream_tag], method_type.stream)?;
    locator.add(path, &[name_tag], method_type.name.span())?;
    Ok(())
}

fn method_body(
    locator: &mut Locator<'_>,
    path: &[i32],
    body: &Option<MethodBody>,
) -> Result<(), AllocError>
    ensures { OnOk result (state locator.new
        ≡ meets (state locator.old) (spec.method_body_events path.now
        (option_map method_body_view body.now))) }
{
    let Some(body) = body else {
        return Ok(());
    };
    let mut options = Count::new();
    'items: for item in &body.items {
        method_item(locator, path, &mut options, item)?;
    }
    locator.leave(body.braces)?;
    Ok(())
}

fn method_item(
    locator: &mut Locator<'_>,
    path: &[i32],
    options: &mut Count,
    item: &MethodItem,
) -> Result<(), AllocError>
    ensures located { OnOk result (state locator.new
        ≡ meets (state locator.old) (spec.method_item_events path.now options.old
        (method_item_view item.now))) }
    ensures counted { OnOk result (options.new
        ≡ spec.after_method_item options.old (method_item_view item.now)) }
{
    match item {
        MethodItem::Option(option) => {
            option_statement(locator, path, tag::method::OPTIONS, options, option)
        }
        MethodItem::Empty(span) => locator.pass(*span),
    }
}
