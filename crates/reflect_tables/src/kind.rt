ghost use Rattle.std.specs.Prelude.{◌≡◌};
ghost use Rattle.reflect_tables.specs.Views.{syntax_type};

use descriptor_records::FileDescriptorProto;

/// The syntax that a file is written in.
#[derive(Clone, Copy, PartialEq, Eq, PartialOrd, Ord, Debug)]
pub enum Syntax {
    Proto2,
    Proto3,
}

/// How often a field may stand.
#[derive(Clone, Copy, PartialEq, Eq, PartialOrd, Ord, Debug)]
pub enum Cardinality {
    Optional,
    Required,
    Repeated,
}

/// The syntax that a file's record says.
pub fn syntax_of(file: &FileDescriptorProto) -> Syntax
    ensures { result ≡ syntax_type file.now.syntax }
{
    match &file.syntax {
        Some(syntax) if syntax.as_str() == "proto3" => Syntax::Proto3,
        _ => Syntax::Proto2,
    }
}
