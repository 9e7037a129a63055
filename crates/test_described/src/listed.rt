//! What lines list by its name, or find by its full name.

use reflect_link::{
    EnumDescriptor, EnumValueDescriptor, ExtensionDescriptor, FieldDescriptor, FileDescriptor,
    MessageDescriptor, MethodDescriptor, OneofDescriptor, ServiceDescriptor,
};

/// What stands in a list by its name.
pub trait Listed<'p>: Copy {
    fn listed_name(&self) -> &'p str;
}

impl<'p> Listed<'p> for &'p str {
    fn listed_name(&self) -> &'p str {
        *self
    }
}

impl<'p> Listed<'p> for FileDescriptor<'p> {
    fn listed_name(&self) -> &'p str {
        self.name()
    }
}

impl<'p> Listed<'p> for MessageDescriptor<'p> {
    fn listed_name(&self) -> &'p str {
        self.name()
    }
}

impl<'p> Listed<'p> for FieldDescriptor<'p> {
    fn listed_name(&self) -> &'p str {
        self.name()
    }
}

impl<'p> Listed<'p> for OneofDescriptor<'p> {
    fn listed_name(&self) -> &'p str {
        self.name()
    }
}

impl<'p> Listed<'p> for EnumDescriptor<'p> {
    fn listed_name(&self) -> &'p str {
        self.name()
    }
}

impl<'p> Listed<'p> for EnumValueDescriptor<'p> {
    fn listed_name(&self) -> &'p str {
        self.name()
    }
}

impl<'p> Listed<'p> for ExtensionDescriptor<'p> {
    fn listed_name(&self) -> &'p str {
        self.name()
    }
}

impl<'p> Listed<'p> for ServiceDescriptor<'p> {
    fn listed_name(&self) -> &'p str {
        self.name()
    }
}

impl<'p> Listed<'p> for MethodDescriptor<'p> {
    fn listed_name(&self) -> &'p str {
        self.name()
    }
}

/// What is found by its full name.
pub trait Found<'p>: Copy {
    fn found_name(&self) -> &'p str;
}

impl<'p> Found<'p> for MessageDescriptor<'p> {
    fn found_name(&self) -> &'p str {
        self.full_name()
    }
}

impl<'p> Found<'p> for EnumDescriptor<'p> {
    fn found_name(&self) -> &'p str {
        self.full_name()
    }
}

impl<'p> Found<'p> for ExtensionDescriptor<'p> {
    fn found_name(&self) -> &'p str {
        self.full_name()
    }
}

impl<'p> Found<'p> for ServiceDescriptor<'p> {
    fn found_name(&self) -> &'p str {
        self.full_name()
    }
}
