//! The syntax tree of a protobuf source, and what can be wrong with one.
#![tactic(auto)]

mod enumeration;
mod error;
mod error_text;
mod file;
mod ident;
mod message;
mod option;
mod option_text;
mod range;
mod service;
mod text;
mod types;

pub use enumeration::{Enum, EnumItem, EnumValue};
pub use error::{ExpectedToken, ParseErrorKind};
pub use file::{File, FileItem, Import, ImportKind, Package, SyntaxStatement};
pub use ident::{FullIdent, Ident, TypeName};
pub use message::{
    Extend, ExtendItem, Field, FieldKind, Group, Map, Message, MessageItem, Oneof, OneofItem,
};
pub use option::{Aggregate, OptionBody, OptionList, OptionNamePart, OptionStatement, OptionValue};
pub use range::{Extensions, RangeEnd, Reserved, ReservedItems, ReservedRange};
pub use service::{Method, MethodBody, MethodItem, MethodType, Service, ServiceItem};
pub use text::Strings;
pub use types::{Syntax, Ty};
