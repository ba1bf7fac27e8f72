//! Source programs as trees: what the texts of the language spell, what a regular tree is, and the
//! canonical text of a tree. The trees keep the places of their names and elements.
#![tactic(auto)]

mod declarations;
mod laws;
mod refusal;
mod text;
mod tree;
mod writer;

/// The greatest number of a source.
pub const GREATEST_NUMBER: u32 = 65_535;

pub use laws::spelled_law;
pub use refusal::{Limit, SourceRefusal};
pub use text::to_text;
pub use tree::{
    Class, Decl, DeclList, ElementList, Expr, ExprList, Index, IndexList, Link, LinkList, Name,
    Program, Ref, Stmt, StmtList, What,
};
