//! What is found of an expression, and what names stand for.

use sqlite_items::Items;
use xc_tree::{Expr, Ty};

/// What is known of an expression.
#[derive(Drop)]
pub enum Known {
    /// Its type is not known, since it has a fault or a part with one. It breaks no further rule that some type would
    /// keep. `place` says whether it may name an object; otherwise it is a value.
    Unknown { place: bool },
    /// It has a value of this type, or none where that is `Void`. It names no object.
    Value(Ty),
    /// It names an object of this type. `within` says that the object lies in a struct that has a pointer and a cell
    /// of another type.
    Place { ty: Ty, within: bool },
}

/// What is found of an expression. What is made has the known type, and a place's is the pointer to it; nothing is
/// made of what has a fault.
#[derive(Drop)]
pub struct Found {
    pub known: Known,
    pub made: Option<Expr>,
}

/// What a name stands for. A type is none where its declaration has a fault.
#[derive(Drop)]
pub enum Thing {
    /// An object at file scope.
    Global {
        number: u32,
        ty: Option<Ty>,
    },
    /// An object of a function.
    Local {
        number: u32,
        ty: Option<Ty>,
    },
    /// A function. It has no number where the text has no definition of it.
    Func {
        number: Option<u32>,
        params: Items<Option<Ty>>,
        ret: Option<Ty>,
    },
}

/// A member of a struct: its name by number, how many cells into the struct it begins, and its type, which is none
/// where its declaration has a fault.
#[derive(Drop)]
pub struct Member {
    pub name: u32,
    pub off: u32,
    pub ty: Option<Ty>,
}
