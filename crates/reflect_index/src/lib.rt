//! From the declarations of new files to what a pool keeps of them.
#![tactic(auto)]

mod batch;
mod children;
mod drafts;
mod finish;
mod index;
mod kind;
mod rewrite;
mod visitor;

pub use batch::Batch;
pub use rewrite::rewritten;
pub use visitor::IndexVisitor;
