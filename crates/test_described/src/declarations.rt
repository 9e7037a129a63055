//! A line for each declaration of a pool, sort by sort: files, messages, enums, extensions,
//! services.

use crate::fields::write_extension;
use crate::parts::{
    write_found, write_home, write_listed, write_named, write_names, write_path, write_record,
    write_truth,
};
use crate::types::{write_enums, write_messages};
use reflect_link::{
    DescriptorPool, FileDescriptor, InFile, MethodDescriptor, PoolReaders, ServiceDescriptor,
    Syntax,
};
use std::alloc::{AllocError, Global};
use test_json::Text;

/// What all readers of the pool's descriptors answer.
pub fn described(alloc: Global, pool: &DescriptorPool) -> Result<String, AllocError> {
    let mut out = Text::new(alloc);
    write_files(&mut out, pool);
    write_messages(&mut out, pool);
    write_enums(&mut out, pool);
    write_extensions(&mut out, pool);
    write_services(&mut out, pool);
    out.into_string()
}

fn write_files(out: &mut Text, pool: &DescriptorPool) {
    for file in pool.files() {
        write_file(out, file);
        write_declared(out, file);
    }
}

fn write_extensions(out: &mut Text, pool: &DescriptorPool) {
    for extension in pool.all_extensions() {
        write_extension(out, extension);
    }
}

fn write_services(out: &mut Text, pool: &DescriptorPool) {
    for service in pool.services() {
        write_service(out, service);
        write_methods(out, service);
    }
}

fn syntax_name(syntax: Syntax) -> &'static str {
    match syntax {
        Syntax::Proto2 => "proto2",
        Syntax::Proto3 => "proto3",
    }
}

/// Writes what a file says of itself, and what finds it again.
fn write_file(out: &mut Text, file: FileDescriptor<'_>) {
    out.push_pair("file ", file.name());
    out.push_shown(" index=", file.index());
    out.push_pair(" package=", file.package_name());
    out.push_pair(" syntax=", syntax_name(file.syntax()));
    write_record(out, &file.file_descriptor_proto().name);
    let found = file.parent_pool().get_file_by_name(file.name());
    write_listed(out, " found=", found);
}

/// Writes the names of what a file imports and declares.
fn write_declared(out: &mut Text, file: FileDescriptor<'_>) {
    write_names(out, " imports=", file.dependencies());
    write_names(out, " public=", file.public_dependencies());
    write_names(out, " messages=", file.messages());
    write_names(out, " enums=", file.enums());
    write_names(out, " extensions=", file.extensions());
    write_names(out, " services=", file.services());
    out.push_str("\n");
}

/// Writes a service's name, its record, what finds it again, and the names of its methods.
fn write_service(out: &mut Text, service: ServiceDescriptor<'_>) {
    write_named(out, "service ", service.full_name(), service.name());
    out.push_shown(" index=", service.index());
    let file = service.parent_file().name();
    write_home(out, service.path(), file, service.package_name());
    write_record(out, &service.service_descriptor_proto().name);
    let pool = service.parent_pool();
    let found = pool.get_service_by_name(service.full_name());
    write_found(out, " found=", found);
    write_names(out, " methods=", service.methods());
    out.push_str("\n");
}

fn write_methods(out: &mut Text, service: ServiceDescriptor<'_>) {
    for method in service.methods() {
        write_method_names(out, method);
        write_method_types(out, method);
    }
}

/// Writes a method's name, what it stands in, and its record.
fn write_method_names(out: &mut Text, method: MethodDescriptor<'_>) {
    write_named(out, "method ", method.full_name(), method.name());
    out.push_shown(" index=", method.index());
    write_path(out, method.path());
    out.push_pair(" file=", method.parent_file().name());
    out.push_pair(" in=", method.parent_service().full_name());
    write_record(out, &method.method_descriptor_proto().name);
}

/// Writes what a method takes and gives.
fn write_method_types(out: &mut Text, method: MethodDescriptor<'_>) {
    out.push_pair(" input=", method.input().full_name());
    out.push_pair(" output=", method.output().full_name());
    write_truth(out, " streams=", method.is_client_streaming());
    write_truth(out, ",", method.is_server_streaming());
    out.push_str("\n");
}
