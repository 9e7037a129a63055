//! Parts that have no parts: the fields and oneofs of messages, the values of enums and the methods
//! of services.

ghost use Rattle.std.specs.Prelude.{ℕ, ℤ, ◌<◌, ◌^◌, List, OnOk};
ghost use Rattle.reflect_declarations.specs.Declarations.{Declaration, Runs, each, one_field, one_oneof, one_value, one_method};

use crate::place::{Place, list_index};
use crate::visit_error::VisitError;
use crate::visitor::Visitor;
use descriptor_records::{
    EnumValueDescriptorProto, FieldDescriptorProto, MethodDescriptorProto, OneofDescriptorProto,
    tag,
};
use reflect_scope::FileIndex;
use std::alloc::Global;

/// A part of what holds a list of such parts.
pub trait Part<V: Visitor> {
    /// What it declares: of the path, the scope, the file and the index of what holds it, and of
    /// its place in the list.
    ghost declared: { List ℤ → List ℕ → ℕ → ℕ → ℕ → Self → List Declaration };

    fn visit(
        &self,
        alloc: Global,
        visitor: &mut V,
        place: &mut Place,
        path: &[i32],
        scope: &str,
        file: FileIndex,
        holder: u32,
        index: u32,
    ) -> Result<(), VisitError>
        requires { index < 2 ^ 31 }
        ensures runs { OnOk result (Runs V.steps visitor.old
            (declared path.now scope.now file holder index self.now) visitor.new) }
        ensures keeps { V.kept file visitor.old visitor.new };
}

impl<V: Visitor> Part<V> for FieldDescriptorProto {
    ghost declared = { one_field };

    fn visit(
        &self,
        alloc: Global,
        visitor: &mut V,
        place: &mut Place,
        path: &[i32],
        scope: &str,
        file: FileIndex,
        holder: u32,
        index: u32,
    ) -> Result<(), VisitError> {
        place.lead(path, tag::message::FIELD, index, scope, &self.name)?;
        let (own, name) = (place.path.as_slice(), place.full_name.as_str());
        visitor.visit_field(alloc, own, name, file, holder, index, self)
    }
}

impl<V: Visitor> Part<V> for OneofDescriptorProto {
    ghost declared = { one_oneof };

    fn visit(
        &self,
        alloc: Global,
        visitor: &mut V,
        place: &mut Place,
        path: &[i32],
        scope: &str,
        file: FileIndex,
        holder: u32,
        index: u32,
    ) -> Result<(), VisitError> {
        place.lead(path, tag::message::ONEOF_DECL, index, scope, &self.name)?;
        let (own, name) = (place.path.as_slice(), place.full_name.as_str());
        visitor.visit_oneof(alloc, own, name, file, holder, index, self)
    }
}

impl<V: Visitor> Part<V> for EnumValueDescriptorProto {
    ghost declared = { one_value };

    fn visit(
        &self,
        alloc: Global,
        visitor: &mut V,
        place: &mut Place,
        path: &[i32],
        scope: &str,
        file: FileIndex,
        holder: u32,
        index: u32,
    ) -> Result<(), VisitError> {
        place.lead(path, tag::enumeration::VALUE, index, scope, &self.name)?;
        let (own, name) = (place.path.as_slice(), place.full_name.as_str());
        visitor.visit_enum_value(alloc, own, name, file, holder, index, self)
    }
}

impl<V: Visitor> Part<V> for MethodDescriptorProto {
    ghost declared = { one_method };

    fn visit(
        &self,
        alloc: Global,
        visitor: &mut V,
        place: &mut Place,
        path: &[i32],
        scope: &str,
        file: FileIndex,
        holder: u32,
        index: u32,
    ) -> Result<(), VisitError> {
        place.lead(path, tag::service::METHOD, index, scope, &self.name)?;
        let (own, name) = (place.path.as_slice(), place.full_name.as_str());
        visitor.visit_method(alloc, own, name, file, holder, index, self)
    }
}

/// Visits the parts of a list, one after the other.
pub fn visit_parts<V: Visitor, P: Part<V>>(
    alloc: Global,
    visitor: &mut V,
    path: &[i32],
    scope: &str,
    file: FileIndex,
    holder: u32,
    parts: &Vec<P>,
) -> Result<(), VisitError>
    ensures runs { OnOk result (Runs V.steps visitor.old
        (each (P.declared path.now scope.now file holder) 0 parts.now.items) visitor.new) }
    ensures keeps { V.kept file visitor.old visitor.new }
{
    let mut place = Place::new(alloc);
    'turns: for (at, part) in parts.iter().enumerate() {
        let index = list_index(at)?;
        part.visit(alloc, visitor, &mut place, path, scope, file, holder, index)?;
    }
    Ok(())
}
