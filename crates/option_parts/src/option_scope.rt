//! Which options' types belong to which declarations.

ghost use Rattle.std.specs.Prelude.{◌≡◌, option_map};
ghost use Rattle.option_parts.specs.OptionTypes as types;

/// A sort of declarations that have options.
#[derive(Clone, Copy, PartialEq, Eq)]
pub enum OptionScope {
    File,
    Message,
    Field,
    Oneof,
    Enum,
    EnumValue,
    Service,
    Method,
    ExtensionRange,
}

impl OptionScope {
    /// All of them.
    pub const ALL: [OptionScope; 9] = [
        OptionScope::File,
        OptionScope::Message,
        OptionScope::Field,
        OptionScope::Oneof,
        OptionScope::Enum,
        OptionScope::EnumValue,
        OptionScope::Service,
        OptionScope::Method,
        OptionScope::ExtensionRange,
    ];

    /// The full name of the message type of the options, as `descriptor.proto` declares it.
    pub fn type_name(self) -> &'static str
        ensures { result.now ≡ types.type_name self }
    {
        match self {
            OptionScope::File => "google.protobuf.FileOptions",
            OptionScope::Message => "google.protobuf.MessageOptions",
            OptionScope::Field => "google.protobuf.FieldOptions",
            OptionScope::Oneof => "google.protobuf.OneofOptions",
            OptionScope::Enum => "google.protobuf.EnumOptions",
            OptionScope::EnumValue => "google.protobuf.EnumValueOptions",
            OptionScope::Service => "google.protobuf.ServiceOptions",
            OptionScope::Method => "google.protobuf.MethodOptions",
            OptionScope::ExtensionRange => "google.protobuf.ExtensionRangeOptions",
        }
    }

    /// The name and the number of the option of these types that linking reads itself, if there is
    /// one.
    pub fn typed_option(self) -> Option<(&'static str, u32)>
        ensures { option_map (λ o. (o.0.now, o.1)) result ≡ types.typed_option self }
    {
        match self {
            OptionScope::Field => Some(("packed", 2)),
            OptionScope::Enum => Some(("allow_alias", 2)),
            OptionScope::Message => Some(("map_entry", 7)),
            _ => None,
        }
    }
}
