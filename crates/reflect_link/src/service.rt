ghost use Rattle.std.specs.Prelude.{◌≡◌, ◌<◌, ◌-◌, All, Some, length, slice_get, IfSome, IsSome};
ghost use Rattle.std.proofs.Props.{props};
ghost use Rattle.reflect_tables.specs.Types.{service_at};
ghost use Rattle.reflect_tables.specs.Views.{service_of, method_of, record_file};
ghost use Rattle.reflect_link.specs.FileTypes.{file_type_at};
ghost use Rattle.reflect_link.specs.Lent.{IsServiceOf, IsMethodOf};
ghost use Rattle.reflect_pool.specs.Parts.{type_of_method};

use crate::file::FileDescriptor;
use crate::records::{method_record, service_record};
use descriptor_records::{FileDescriptorProto, MethodDescriptorProto, ServiceDescriptorProto};
use reflect_pool::{DescriptorPool, MessageDescriptor};
use reflect_scope::{MethodIndex, ServiceIndex};
use reflect_tables::{StoredMethod, StoredService};

/// A service of a pool.
#[derive(Clone, Copy)]
pub struct ServiceDescriptor<'p> {
    pub(crate) pool: &'p DescriptorPool,
    pub(crate) index: ServiceIndex,
    ghost in_range: { index < length pool.now.services },
}

impl<'p> ServiceDescriptor<'p> {
    ghost use Rattle.reflect_link.specs.MethodsLeft.{methods_left};
    ghost use Rattle.reflect_pool.specs.PlacesLeft.{places_from};

    /// The service at a place of a pool.
    pub fn new(pool: &'p DescriptorPool, index: ServiceIndex) -> ServiceDescriptor<'p>
        requires { index < length pool.now.services }
        ensures pool { result.pool.now ≡ pool.now }
        ensures index { result.index ≡ index }
    {
        ServiceDescriptor { pool, index }
    }

    /// The pool that the service stands in.
    pub fn parent_pool(&self) -> &'p DescriptorPool
        ensures { result.now ≡ self.now.pool.now }
    {
        self.pool
    }

    /// The place in the pool.
    pub fn index(&self) -> ServiceIndex
        ensures { result ≡ self.now.index }
    {
        self.index
    }

    /// The file that the service is declared in.
    pub fn parent_file(&self) -> FileDescriptor<'p>
        ensures pool { result.pool.now ≡ self.now.pool.now }
        ensures file { result.index ≡ (service_at self.now.pool.now self.now.index).file }
    {
        FileDescriptor {
            pool: self.pool,
            index: self.pool.file_of_service(self.index),
        }
    }

    /// The record of the file that the service is declared in.
    pub fn parent_file_descriptor_proto(&self) -> &'p FileDescriptorProto
        ensures stands { slice_get self.now.pool.now.records
            (service_at self.now.pool.now self.now.index).file ≡ Some result.now }
        ensures header { record_file result.now
            ≡ file_type_at self.now.pool.now (service_at self.now.pool.now self.now.index).file }
    {
        self.parent_file().file_descriptor_proto()
    }

    /// The package of the file that the service is declared in.
    pub fn package_name(&self) -> &'p str
        ensures { result.now ≡ (file_type_at self.now.pool.now
            (service_at self.now.pool.now self.now.index).file).package_name }
    {
        self.parent_file().package_name()
    }

    fn stored(&self) -> &'p StoredService
        ensures { service_of result.now ≡ service_at self.now.pool.now self.now.index }
    {
        let tables = self.pool.tables();
        &tables.services[self.index as usize]
    }

    /// The name, as it is declared.
    pub fn name(&self) -> &'p str
        ensures { result.now ≡ (service_at self.now.pool.now self.now.index).name }
    {
        self.stored().name.as_str()
    }

    /// The file's package, a dot and the service's name.
    pub fn full_name(&self) -> &'p str
        ensures { result.now ≡ (service_at self.now.pool.now self.now.index).full_name }
    {
        self.stored().full_name.as_str()
    }

    /// Where the declaration stands in its file's record.
    pub fn path(&self) -> &'p [i32]
        ensures { result.now ≡ (service_at self.now.pool.now self.now.index).path }
    {
        self.stored().path.as_slice()
    }

    /// The record of the service.
    pub fn service_descriptor_proto(&self) -> &'p ServiceDescriptorProto
        ensures { IsServiceOf self.now.pool.now self.now.index result.now }
    {
        self.pool.has_records();
        service_record(self.parent_file_descriptor_proto(), self.path()).unwrap()
    }

    /// The methods, as they were declared.
    pub fn methods(&self) -> Methods<'p>
        ensures { methods_left result ≡ places_from self.now 0
            (length (service_at self.now.pool.now self.now.index).methods) }
    {
        Methods {
            service: *self,
            next: 0,
            end: self.pool.method_count(self.index),
        }
    }

    /// The method at a place.
    fn method_at(&self, index: MethodIndex) -> Option<MethodDescriptor<'p>>
        ensures service { IfSome result (λ m. m.service ≡ self.now) }
        ensures index { IfSome result (λ m. m.index ≡ index) }
        ensures there { index < length (service_at self.now.pool.now self.now.index).methods
            → IsSome result }
    {
        let tables = self.pool.tables();
        if (index as usize) < tables.services[self.index as usize].methods.len() {
            Some(MethodDescriptor {
                service: *self,
                index,
            })
        } else {
            None
        }
    }
}

/// Services, by their places.
#[derive(Drop)]
pub struct Services<'p> {
    pub(crate) pool: &'p DescriptorPool,
    pub(crate) places: &'p [ServiceIndex],
    ghost inside: { All (λ place. place < length pool.now.services)
        places.now } by { Prim.hlevel props },
}

impl<'p> Iterator for Services<'p> {
    ghost use Rattle.std.specs.Iterator.{YieldsFirstBy, item_count};
    ghost use Rattle.reflect_link.specs.ListsLeft.{services_left};
    ghost use Rattle.reflect_link.specs.TypesLeft.{service_place};

    type Item = ServiceDescriptor<'p>;

    ghost next_gives = { YieldsFirstBy service_place services_left };

    ghost remaining = { item_count services_left };

    fn next(&mut self) -> Option<ServiceDescriptor<'p>> {
        let (place, others) = self.places.split_first()?;
        self.places = others;
        service_in(self.pool, *place)
    }

    fn size_hint(&self) -> (usize, Option<usize>) {
        let left = self.len();
        (left, Some(left))
    }
}

impl<'p> ExactSizeIterator for Services<'p> {
    fn len(&self) -> usize {
        self.places.len()
    }
}

/// The service at a place, if there is one.
pub fn service_in<'p>(
    pool: &'p DescriptorPool,
    index: ServiceIndex,
) -> Option<ServiceDescriptor<'p>>
    ensures pool { IfSome result (λ s. s.pool.now ≡ pool.now) }
    ensures index { IfSome result (λ s. s.index ≡ index) }
    ensures there { index < length pool.now.services → IsSome result }
{
    if (index as usize) < pool.tables().services.len() {
        Some(ServiceDescriptor { pool, index })
    } else {
        None
    }
}

/// The methods of a service, as they were declared.
#[derive(Drop)]
pub struct Methods<'p> {
    service: ServiceDescriptor<'p>,
    next: MethodIndex,
    end: MethodIndex,
    ghost whole: { end ≡ length (service_at service.pool.now service.index).methods },
}

impl<'p> Iterator for Methods<'p> {
    ghost use Rattle.std.specs.Iterator.{YieldsFirstBy, item_count};
    ghost use Rattle.reflect_link.specs.MethodsLeft.{method_place, methods_left};

    type Item = MethodDescriptor<'p>;

    ghost next_gives = { YieldsFirstBy method_place methods_left };

    ghost remaining = { item_count methods_left };

    fn next(&mut self) -> Option<MethodDescriptor<'p>> {
        if self.next < self.end {
            let place = self.next;
            self.next += 1;
            self.service.method_at(place)
        } else {
            None
        }
    }

    fn size_hint(&self) -> (usize, Option<usize>) {
        let left = self.len();
        (left, Some(left))
    }
}

impl<'p> ExactSizeIterator for Methods<'p> {
    fn len(&self) -> usize {
        self.end.saturating_sub(self.next) as usize
    }
}

/// A method of a service.
#[derive(Clone, Copy)]
pub struct MethodDescriptor<'p> {
    pub(crate) service: ServiceDescriptor<'p>,
    pub(crate) index: MethodIndex,
    ghost in_range: { index < length (service_at service.pool.now service.index).methods },
}

impl<'p> MethodDescriptor<'p> {
    /// The method at a place of a service.
    pub fn new(service: ServiceDescriptor<'p>, index: MethodIndex) -> MethodDescriptor<'p>
        requires { index < length (service_at service.pool.now service.index).methods }
        ensures service { result.service ≡ service.entry }
        ensures index { result.index ≡ index }
    {
        MethodDescriptor { service, index }
    }

    /// The pool that the method stands in.
    pub fn parent_pool(&self) -> &'p DescriptorPool
        ensures { result.now ≡ self.now.service.pool.now }
    {
        self.service.pool
    }

    /// The service that the method belongs to.
    pub fn parent_service(&self) -> ServiceDescriptor<'p>
        ensures { result ≡ self.now.service }
    {
        self.service
    }

    /// The place in the service.
    pub fn index(&self) -> MethodIndex
        ensures { result ≡ self.now.index }
    {
        self.index
    }

    /// The file that the method is declared in.
    pub fn parent_file(&self) -> FileDescriptor<'p>
        ensures pool { result.pool.now ≡ self.now.service.pool.now }
        ensures file { result.index ≡ (service_at self.now.service.pool.now
            self.now.service.index).file }
    {
        self.service.parent_file()
    }

    /// The record of the file that the method is declared in.
    pub fn parent_file_descriptor_proto(&self) -> &'p FileDescriptorProto
        ensures stands { slice_get self.now.service.pool.now.records
            (service_at self.now.service.pool.now self.now.service.index).file ≡ Some result.now }
        ensures header { record_file result.now
            ≡ file_type_at self.now.service.pool.now
            (service_at self.now.service.pool.now self.now.service.index).file }
    {
        self.service.parent_file_descriptor_proto()
    }

    fn stored(&self) -> &'p StoredMethod
        ensures { method_of result.now
            ≡ type_of_method self.now.service.pool.now self.now.service.index self.now.index }
    {
        let tables = self.service.pool.tables();
        &tables.services[self.service.index as usize].methods[self.index as usize]
    }

    /// The name, as it is declared.
    pub fn name(&self) -> &'p str
        ensures { result.now ≡ (type_of_method self.now.service.pool.now self.now.service.index
            self.now.index).name }
    {
        self.stored().name.as_str()
    }

    /// The service's full name, a dot and the method's name.
    pub fn full_name(&self) -> &'p str
        ensures { result.now ≡ (type_of_method self.now.service.pool.now self.now.service.index
            self.now.index).full_name }
    {
        self.stored().full_name.as_str()
    }

    /// Where the declaration stands in its file's record.
    pub fn path(&self) -> &'p [i32]
        ensures { result.now ≡ (type_of_method self.now.service.pool.now self.now.service.index
            self.now.index).path }
    {
        self.stored().path.as_slice()
    }

    /// The record of the method.
    pub fn method_descriptor_proto(&self) -> &'p MethodDescriptorProto
        ensures { IsMethodOf self.now.service.pool.now self.now.service.index
            self.now.index result.now }
    {
        self.service.pool.has_records();
        method_record(self.parent_file_descriptor_proto(), self.path()).unwrap()
    }

    /// The message type that the method takes.
    pub fn input(&self) -> MessageDescriptor<'p>
        ensures pool { result.pool.now ≡ self.now.service.pool.now }
        ensures input { result.index ≡ (type_of_method self.now.service.pool.now
            self.now.service.index self.now.index).input }
    {
        self.service.pool.input_of(self.service.index, self.index)
    }

    /// The message type that the method answers.
    pub fn output(&self) -> MessageDescriptor<'p>
        ensures pool { result.pool.now ≡ self.now.service.pool.now }
        ensures output { result.index ≡ (type_of_method self.now.service.pool.now
            self.now.service.index self.now.index).output }
    {
        self.service.pool.output_of(self.service.index, self.index)
    }

    /// The caller sends any number of messages.
    pub fn is_client_streaming(&self) -> bool
        ensures { result ≡ (type_of_method self.now.service.pool.now self.now.service.index
            self.now.index).client_streaming }
    {
        self.stored().is_client_streaming
    }

    /// The service answers with any number of messages.
    pub fn is_server_streaming(&self) -> bool
        ensures { result ≡ (type_of_method self.now.service.pool.now self.now.service.index
            self.now.index).server_streaming }
    {
        self.stored().is_server_streaming
    }
}
