//! The trees of programs.

use mk_base::{Bytes, Place};
use mk_field::FieldId;
use sqlite_items::{Boxed, Items};

/// A name: a word that is not reserved.
pub type Name = Bytes;

/// A list of elements of a field.
pub type ElementList = Bytes;

/// A list of declarations.
pub type DeclList = Items<Decl>;

/// A list of statements.
pub type StmtList = Items<Stmt>;

/// A list of expressions.
pub type ExprList = Items<Expr>;

/// A list of indexes.
pub type IndexList = Items<Index>;

/// A list of the links of a chain.
pub type LinkList = Items<Link>;

/// A program: its field, its declarations and its statements, in order.
#[derive(Drop)]
pub struct Program {
    pub field: FieldId,
    pub decls: DeclList,
    pub body: StmtList,
}

/// A declaration: the name, its place, and what it is declared to be.
#[derive(Drop)]
pub struct Decl {
    pub name: Name,
    pub at: Place,
    pub what: What,
}

/// What a name is declared to be.
#[derive(Drop)]
pub enum What {
    /// An additive map, by the images of the bits of an element, that of bit 0 first.
    Map { images: ElementList },
    /// A variable: an array of so many elements where it has a size.
    Var { class: Class, size: Option<u32> },
}

/// The class of a variable.
#[derive(Clone, Copy, Debug, PartialEq, Eq)]
pub enum Class {
    Secret,
    Public,
    Output,
    LocalSecret,
    LocalPublic,
}

/// A statement.
#[cycle(stmt)]
#[derive(Drop)]
pub enum Stmt {
    /// An assignment.
    Set {
        target: Ref,
        value: Expr,
    },
    /// A loop of its name over the numbers from `from` up to but not with `to`.
    Loop {
        name: Name,
        at: Place,
        from: u32,
        to: u32,
        body: StmtList,
    },
}

/// A reference to a variable, or to an element of an array. The place is that of the name.
#[derive(Drop)]
pub struct Ref {
    pub name: Name,
    pub at: Place,
    pub index: Option<Index>,
}

/// An expression on elements.
#[cycle(expr)]
#[derive(Drop)]
pub enum Expr {
    /// An element.
    Lit {
        value: u8,
        at: Place,
    },
    /// The value of a reference.
    Read {
        from: Ref,
    },
    /// A square.
    Sq {
        arg: Boxed<Expr>,
    },
    /// The image under the map of this name.
    Apply {
        map: Name,
        at: Place,
        arg: Boxed<Expr>,
    },
    /// A sum of at least two parts.
    Sum {
        parts: ExprList,
    },
    /// A product of at least two parts.
    Product {
        parts: ExprList,
    },
}

/// An index, which is a whole number.
#[cycle(index)]
#[derive(Drop)]
pub enum Index {
    /// A number.
    Num { value: u32 },
    /// The number of the turn of the loop of this name.
    Var { name: Name, at: Place },
    /// A sum of at least two parts.
    Sum { parts: IndexList },
    /// An index and at least one link, which are applied from the left.
    Chain { first: Boxed<Index>, rest: LinkList },
}

/// A link of a chain.
#[cycle(index)]
#[derive(Drop)]
pub enum Link {
    /// Times this index.
    Times { by: Index },
    /// The remainder of the division by this number.
    Mod { by: u32 },
}
