ghost use Rattle.std.specs.Prelude.{◌≡◌};
ghost use Rattle.text_lines.specs.Forms.{usual_form};

/// In which form a message is printed. What each field means is said by the method that sets it.
#[derive(Clone, Copy, Debug)]
pub struct FormatOptions {
    pub pretty: bool,
    pub skip_unknown_fields: bool,
    pub skip_default_fields: bool,
    pub in_index_order: bool,
    pub expand_any: bool,
}

impl FormatOptions {
    /// One line without spaces, of the fields that are set, by ascending number, with each
    /// `google.protobuf.Any` expanded.
    pub fn new() -> FormatOptions
        ensures { result ≡ usual_form }
    {
        FormatOptions {
            pretty: false,
            skip_unknown_fields: true,
            skip_default_fields: true,
            in_index_order: false,
            expand_any: true,
        }
    }

    /// Whether each field has a line of its own, and deeper ones are indented.
    pub fn pretty(mut self, yes: bool) -> FormatOptions
        ensures { result ≡ record self { pretty = yes } }
    {
        self.pretty = yes;
        self
    }

    /// Whether records of fields that the type does not declare are left out.
    pub fn skip_unknown_fields(mut self, yes: bool) -> FormatOptions
        ensures { result ≡ record self { skip_unknown_fields = yes } }
    {
        self.skip_unknown_fields = yes;
        self
    }

    /// Whether fields without presence that hold their default are left out.
    pub fn skip_default_fields(mut self, yes: bool) -> FormatOptions
        ensures { result ≡ record self { skip_default_fields = yes } }
    {
        self.skip_default_fields = yes;
        self
    }

    /// Whether the declared fields come as they are declared, and not by ascending number.
    pub fn print_message_fields_in_index_order(mut self, yes: bool) -> FormatOptions
        ensures { result ≡ record self { in_index_order = yes } }
    {
        self.in_index_order = yes;
        self
    }

    /// Whether a `google.protobuf.Any` of a known type is printed as the message that it holds.
    pub fn expand_any(mut self, yes: bool) -> FormatOptions
        ensures { result ≡ record self { expand_any = yes } }
    {
        self.expand_any = yes;
        self
    }
}

impl Default for FormatOptions {
    ghost is_default = { λ form. form ≡ usual_form };

    fn default() -> FormatOptions {
        FormatOptions::new()
    }
}
