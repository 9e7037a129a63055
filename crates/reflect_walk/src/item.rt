//! What is counted over all files, beside messages: enums, extensions and services.

ghost use Rattle.std.specs.Prelude.{◌≡◌, ℕ, ℤ, ◌+◌, ◌∷◌, [], List, Option, length, OnOk};
ghost use Rattle.reflect_declarations.specs.Declarations.{Declaration, Runs, each, enum_declaration, extension_declaration, one_method, one_value, service_declaration};
ghost use Rattle.reflect_declarations.specs.Tree.{text_of as content_of};
ghost use Rattle.reflect_scope.specs.Means.{join};
ghost use Rattle.reflect_walk.specs.Items.{placed};

use crate::part::visit_parts;
use crate::place::{entry_path, name_in, next_index};
use crate::visit_error::VisitError;
use crate::visitor::Visitor;
use descriptor_records::{EnumDescriptorProto, FieldDescriptorProto, ServiceDescriptorProto};
use reflect_scope::{FileIndex, MessageIndex};
use std::alloc::Global;

/// A declaration with a path of its own and what is declared in it.
pub trait Item<V: Visitor> {
    /// What it declares: of its path, the scope that it has a name in, its file, the message that
    /// it is declared in, and its index.
    ghost declared: { List ℤ → List ℕ → ℕ → Option ℕ → ℕ → Self → List Declaration };

    fn visit(
        &self,
        alloc: Global,
        visitor: &mut V,
        path: &[i32],
        scope: &str,
        file: FileIndex,
        parent: Option<MessageIndex>,
        index: u32,
    ) -> Result<(), VisitError>
        ensures runs { OnOk result (Runs V.steps visitor.old
            (declared path.now scope.now file parent index self.now) visitor.new) }
        ensures keeps { V.kept file visitor.old visitor.new };
}

impl<V: Visitor> Item<V> for EnumDescriptorProto {
    ghost declared = { λ path scope file parent n e.
        enum_declaration path (join scope (content_of e.name)) file parent n e
        ∷ each (one_value path scope file n) 0 e.value.items };

    fn visit(
        &self,
        alloc: Global,
        visitor: &mut V,
        path: &[i32],
        scope: &str,
        file: FileIndex,
        parent: Option<MessageIndex>,
        index: u32,
    ) -> Result<(), VisitError> {
        let full_name = name_in(alloc, scope, &self.name)?;
        let inner = full_name.as_str();
        visitor.visit_enum(alloc, path, inner, file, parent, index, self)?;
        visit_parts(alloc, visitor, path, scope, file, index, &self.value)
    }
}

impl<V: Visitor> Item<V> for FieldDescriptorProto {
    ghost declared = { λ path scope file parent n x.
        extension_declaration path (join scope (content_of x.name)) file parent n x ∷ [] };

    fn visit(
        &self,
        alloc: Global,
        visitor: &mut V,
        path: &[i32],
        scope: &str,
        file: FileIndex,
        parent: Option<MessageIndex>,
        index: u32,
    ) -> Result<(), VisitError> {
        let full_name = name_in(alloc, scope, &self.name)?;
        let inner = full_name.as_str();
        visitor.visit_extension(alloc, path, inner, file, parent, index, self)
    }
}

impl<V: Visitor> Item<V> for ServiceDescriptorProto {
    ghost declared = { λ path scope file parent n s.
        service_declaration path (join scope (content_of s.name)) file n s
        ∷ each (one_method path (join scope (content_of s.name)) file n) 0 s.method.items };

    fn visit(
        &self,
        alloc: Global,
        visitor: &mut V,
        path: &[i32],
        scope: &str,
        file: FileIndex,
        _parent: Option<MessageIndex>,
        index: u32,
    ) -> Result<(), VisitError> {
        let full_name = name_in(alloc, scope, &self.name)?;
        let inner = full_name.as_str();
        visitor.visit_service(alloc, path, inner, file, index, self)?;
        visit_parts(alloc, visitor, path, inner, file, index, &self.method)
    }
}

/// Visits the items of a list, counted on from those before.
pub fn visit_items<V: Visitor, I: Item<V>>(
    alloc: Global,
    visitor: &mut V,
    count: &mut u32,
    path: &[i32],
    tag: i32,
    scope: &str,
    file: FileIndex,
    parent: Option<MessageIndex>,
    items: &Vec<I>,
) -> Result<(), VisitError>
    ensures runs { OnOk result (Runs V.steps visitor.old
        (each (placed I.declared path.now tag scope.now file parent count.old) 0 items.now.items)
        visitor.new) }
    ensures counts { OnOk result (count.new ≡ count.old + length items.now.items) }
    ensures keeps { V.kept file visitor.old visitor.new }
{
    'turns: for (at, item) in items.iter().enumerate() {
        let place = entry_path(alloc, path, tag, at)?;
        let number = next_index(count)?;
        item.visit(
            alloc,
            visitor,
            place.as_slice(),
            scope,
            file,
            parent,
            number,
        )?;
    }
    Ok(())
}
