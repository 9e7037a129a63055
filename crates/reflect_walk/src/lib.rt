//! The declarations of protobuf files as one list: a visitor is called at each of them, in the
//! order of that list.
#![tactic(auto)]

mod item;
mod map_entry;
mod part;
mod place;
mod visit_error;
mod visit_files;
mod visit_parts;
mod visitor;

pub use map_entry::says_map_entry;
pub use place::entry_path;
pub use reflect_declarations::Offsets;
pub use visit_error::VisitError;
pub use visit_files::visit_all;
pub use visit_parts::visit;
pub use visitor::Visitor;
