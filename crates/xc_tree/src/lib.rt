//! The typed program: a tree whose invariant is that it is well typed.
#![tactic(auto)]

pub mod copy;
pub mod expr;
pub mod operator;
pub mod pragmas;
pub mod stmt;
pub mod tree;
pub mod ty;

pub use copy::{copy_expr, copy_pragmas, copy_stmt, copy_ty};
pub use expr::{Expr, ExprKind};
pub use operator::{BinOp, UnOp};
pub use pragmas::{Marks, Pragmas, Root, Schedule};
pub use stmt::{Capture, Item, LoopForm, LoopId, NotNormal, Stmt, StmtKind};
pub use tree::{Func, Local, Object, Tree};
pub use ty::Ty;
pub use xc_text_place::{Pos, Span};
