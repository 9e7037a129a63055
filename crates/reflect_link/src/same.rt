//! Files, services and methods are equal as the descriptors of types are: where they stand at one
//! place, under one name.

use crate::file::FileDescriptor;
use crate::service::{MethodDescriptor, ServiceDescriptor};

/// Both have one place and one name in their pools.
impl<'p> PartialEq for FileDescriptor<'p> {
    ghost use Rattle.std.specs.Cmp.Rules.{comparing};
    ghost use Rattle.std.proofs.Common.{rules};
    ghost use Rattle.reflect_link.specs.Same.{same_file};

    ghost eq = { same_file };

    ghost laws = { Prim.search (comparing, rules) };

    fn eq(&self, other: &FileDescriptor<'p>) -> bool {
        self.index == other.index && self.name() == other.name()
    }
}

impl<'p> Eq for FileDescriptor<'p> {
    ghost use Rattle.std.specs.Cmp.Rules.{comparing};
    ghost use Rattle.std.proofs.Common.{rules};

    ghost laws = { Prim.search (comparing, rules) };
}

/// Both have one place and one full name in their pools.
impl<'p> PartialEq for ServiceDescriptor<'p> {
    ghost use Rattle.std.specs.Cmp.Rules.{comparing};
    ghost use Rattle.std.proofs.Common.{rules};
    ghost use Rattle.reflect_link.specs.Same.{same_service};

    ghost eq = { same_service };

    ghost laws = { Prim.search (comparing, rules) };

    fn eq(&self, other: &ServiceDescriptor<'p>) -> bool {
        self.index == other.index && self.full_name() == other.full_name()
    }
}

impl<'p> Eq for ServiceDescriptor<'p> {
    ghost use Rattle.std.specs.Cmp.Rules.{comparing};
    ghost use Rattle.std.proofs.Common.{rules};

    ghost laws = { Prim.search (comparing, rules) };
}

/// Both have one place in one service.
impl<'p> PartialEq for MethodDescriptor<'p> {
    ghost use Rattle.std.specs.Cmp.Rules.{comparing};
    ghost use Rattle.std.proofs.Common.{rules};
    ghost use Rattle.reflect_link.specs.Same.{same_method};

    ghost eq = { same_method };

    ghost laws = { Prim.search (comparing, rules) };

    fn eq(&self, other: &MethodDescriptor<'p>) -> bool {
        self.index == other.index && self.service == other.service
    }
}

impl<'p> Eq for MethodDescriptor<'p> {
    ghost use Rattle.std.specs.Cmp.Rules.{comparing};
    ghost use Rattle.std.proofs.Common.{rules};

    ghost laws = { Prim.search (comparing, rules) };
}
