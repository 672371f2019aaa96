//! Copies of trees: each equals what it copies, and shares nothing with it. Each call answers `AllocError` for want
//! of memory alone.

pub mod expr;
pub mod stmt;
pub mod ty;

pub use expr::copy_expr;
pub use stmt::{copy_pragmas, copy_stmt};
pub use ty::copy_ty;
