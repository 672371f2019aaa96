//! Statements.

use crate::expr::Expr;
use crate::pragmas::Pragmas;
use sqlite_items::{Boxed, Items};
use xc_text_place::Span;

/// The number of a loop in its program: in a program that was checked, its place in text order from 0.
pub type LoopId = u32;

/// The keyword of a loop.
#[derive(Drop, Clone, Copy)]
pub enum LoopForm {
    /// `while (test) body`
    While,
    /// `do body while (test)`
    Do,
    /// `for (init; test; step) body`
    For,
}

/// Why a loop is not in normal form: the first of these that holds.
#[derive(Drop, Clone, Copy, PartialEq, Eq)]
pub enum NotNormal {
    /// It is a `while`.
    While,
    /// It is a `do`.
    Do,
    /// The first clause does not set one variable of type Int, which has no address, and that alone.
    Index,
    /// The test does not compare the index with a bound by `<`, `<=`, `>` or `>=`.
    Test,
    /// The bound is not of type Int, or not unchanging.
    Bound,
    /// The step is not by a constant of 1 to 2^20 in size, upward below a bound and downward above one.
    Step,
    /// The body assigns the index.
    Assigned,
    /// The body has a `break` of this loop or a `return`.
    Exit,
}

/// What a `future` statement copies: the value of `from` into the local of its body.
#[derive(Drop)]
pub struct Capture {
    pub from: Expr,
    pub local: u32,
}

/// A statement or a declaration, with its place in the source.
#[cycle(stmt)]
#[derive(Drop)]
pub struct Stmt {
    pub span: Span,
    pub kind: StmtKind,
}

/// The forms of statements. A declaration of several names is several of them.
#[cycle(stmt)]
#[derive(Drop)]
pub enum StmtKind {
    /// `;`
    Empty,
    /// Declares a local. Each initialiser has its offset in the object, in ascending order.
    Declare {
        local: u32,
        init: Items<(u32, Expr)>,
    },
    /// An expression whose value is not used.
    Eval(Expr),
    /// Statements and declarations in braces.
    Block(Items<Stmt>),
    /// `if`, with or without `else`.
    If {
        test: Expr,
        then: Boxed<Stmt>,
        other: Option<Boxed<Stmt>>,
    },
    /// `init` has the declarations or the expression of a `for`'s first clause.
    Loop {
        id: LoopId,
        form: LoopForm,
        init: Items<Stmt>,
        test: Option<Expr>,
        step: Option<Expr>,
        body: Boxed<Stmt>,
        pragmas: Pragmas,
    },
    /// `switch`. The statements behind the label that fits are run, else those behind `default`, else none.
    Switch {
        value: Expr,
        items: Items<Item>,
    },
    /// `return`: of a function, or of the body of a `future` statement.
    Return(Option<Expr>),
    /// `break`
    Break,
    /// `continue`
    Continue,
    /// Starts a thread that runs `body` and then writes its answer to `place`.
    Future {
        place: Expr,
        captures: Items<Capture>,
        body: Boxed<Stmt>,
    },
}

/// What stands in the braces of a `switch`.
#[cycle(stmt)]
#[derive(Drop)]
pub enum Item {
    /// `case`, with a word of the type of the value.
    At(u64),
    /// `default`
    Other,
    /// A statement. It is no declaration.
    Do(Stmt),
}
