ghost use Rattle.std.specs.Prelude.{◌≡◌};
ghost use Rattle.descriptor_records.specs.Content.{method_view, service_view};

use crate::options::Options;
use std::alloc::AllocError;

/// A service.
#[derive(PartialEq, Drop)]
pub struct ServiceDescriptorProto {
    pub name: Option<String>,
    pub method: Vec<MethodDescriptorProto>,
    pub options: Option<Options>,
}

/// A method of a service.
#[derive(PartialEq, Drop)]
pub struct MethodDescriptorProto {
    pub name: Option<String>,
    pub input_type: Option<String>,
    pub output_type: Option<String>,
    pub options: Option<Options>,
    pub client_streaming: Option<bool>,
    pub server_streaming: Option<bool>,
}

impl Clone for ServiceDescriptorProto {
    ghost is_clone = { λ a b. service_view b ≡ service_view a };

    fn clone(&self) -> Result<ServiceDescriptorProto, AllocError> {
        Ok(ServiceDescriptorProto {
            name: self.name.clone()?,
            method: self.method.clone()?,
            options: self.options.clone()?,
        })
    }
}

impl Clone for MethodDescriptorProto {
    ghost is_clone = { λ a b. method_view b ≡ method_view a };

    fn clone(&self) -> Result<MethodDescriptorProto, AllocError> {
        Ok(MethodDescriptorProto {
            name: self.name.clone()?,
            input_type: self.input_type.clone()?,
            output_type: self.output_type.clone()?,
            options: self.options.clone()?,
            client_streaming: self.client_streaming,
            server_streaming: self.server_streaming,
        })
    }
}
