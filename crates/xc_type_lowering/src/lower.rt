//! Lowering, and what it keeps.

ghost use Rattle.std.specs.Prelude.{◌≡◌, ℕ, List, IfOk};
ghost use Rattle.xc_tree.specs.Walk.{loop_ids, declared};
ghost use Rattle.xc_tree.specs.Statements.{leaving, sees_ok};
ghost use Rattle.xc_type_lowering.specs.Lowered.{lowered, lowered_stmt};
ghost use Rattle.xc_type_lowering.specs.Kept.{ExprKept, StmtKept};

use crate::expr::make_expr;
use crate::stmt::make_stmt;
use std::alloc::{AllocError, Global};
use xc_tree::{Expr, Stmt};

/// The expression with each local whose address is never taken as a value. `addressed` tells of each local whether its
/// address is taken; a local that it does not have counts as one whose address is. The time is linear in the expression.
pub fn lower_expr(alloc: Global, addressed: &[bool], e: &Expr) -> Result<Expr, AllocError>
    ensures made { IfOk result (λ r. r ≡ lowered addressed.now e.now) }
    ensures of_type { (lowered addressed.now e.now).ty ≡ e.now.ty }
    ensures typed { ExprKept addressed.now e.now (lowered addressed.now e.now) }
{
    make_expr(alloc, addressed, e)
}

/// The statement with each local whose address is never taken as a value, as `lower_expr` makes each of its expressions.
pub fn lower_stmt(alloc: Global, addressed: &[bool], s: &Stmt) -> Result<Stmt, AllocError>
    ensures made { IfOk result (λ r. r ≡ lowered_stmt addressed.now s.now) }
    ensures typed { StmtKept addressed.now s.now (lowered_stmt addressed.now s.now) }
    ensures leaves { leaving (lowered_stmt addressed.now s.now) ≡ leaving s.now }
    ensures sees { (seen : List ℕ) → sees_ok (lowered_stmt addressed.now s.now) seen ≡ sees_ok s.now seen }
    ensures loops { loop_ids (lowered_stmt addressed.now s.now) ≡ loop_ids s.now }
    ensures declares { declared (lowered_stmt addressed.now s.now) ≡ declared s.now }
{
    make_stmt(alloc, addressed, s)
}
