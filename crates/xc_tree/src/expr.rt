//! Expressions.

use crate::operator::{BinOp, UnOp};
use crate::ty::Ty;
use sqlite_items::{Boxed, Items};
use xc_text_place::Span;
use xc_word::Kind;

/// An expression with the type of its value. A place is a value too: the pointer to it.
#[cycle(expr)]
#[derive(Drop)]
pub struct Expr {
    pub ty: Ty,
    pub span: Span,
    pub kind: ExprKind,
}

/// The forms of expressions. Locals, globals, functions and formats go by number.
#[cycle(expr)]
#[derive(Drop)]
pub enum ExprKind {
    /// A word of type Int or Uint, or the null pointer.
    Const(u64),
    /// The value of a local that has no address.
    Local(u32),
    /// Gives a local that has no address a value, which is the value of the whole.
    Set {
        local: u32,
        value: Boxed<Expr>,
    },
    /// The place of a global.
    Global(u32),
    /// The place of a local that has an address.
    Auto(u32),
    /// The place of an element: `base` is the place of an array where there is a bound, else a pointer.
    /// `size` counts cells. The bound is the array's, one more under `&`.
    Index {
        base: Boxed<Expr>,
        index: Boxed<Expr>,
        size: u32,
        bound: Option<u32>,
    },
    /// The place of a member, so many cells into the struct at `base`.
    Member {
        base: Boxed<Expr>,
        off: u32,
    },
    /// Reads the scalar at a place.
    Read {
        kind: Kind,
        place: Boxed<Expr>,
    },
    /// Writes the scalar at a place. It is void as a call, and has the written value as an assignment.
    Write {
        kind: Kind,
        place: Boxed<Expr>,
        value: Boxed<Expr>,
    },
    /// Adds to the integer at a place, and has its old value.
    FetchAdd {
        place: Boxed<Expr>,
        value: Boxed<Expr>,
    },
    /// Empties the cell at a place.
    Purge {
        place: Boxed<Expr>,
    },
    /// A compound assignment. Where `place` is a `Local`, it is that variable itself.
    /// The whole has the old value where `post` holds, else the new one.
    Update {
        op: BinOp,
        post: bool,
        place: Boxed<Expr>,
        value: Boxed<Expr>,
    },
    /// An operator on one value.
    Unary {
        op: UnOp,
        of: Boxed<Expr>,
    },
    /// An operator on two values.
    Binary {
        op: BinOp,
        a: Boxed<Expr>,
        b: Boxed<Expr>,
    },
    /// `&&`
    And(Boxed<Expr>, Boxed<Expr>),
    /// `||`
    Or(Boxed<Expr>, Boxed<Expr>),
    /// `test ? then : other`
    Cond {
        test: Boxed<Expr>,
        then: Boxed<Expr>,
        other: Boxed<Expr>,
    },
    /// The comma operator.
    Comma(Boxed<Expr>, Boxed<Expr>),
    /// A call of the function with this number.
    Call {
        func: u32,
        args: Items<Expr>,
    },
    /// `printf` with the text of this number.
    Print {
        format: u32,
        args: Items<Expr>,
    },
}
