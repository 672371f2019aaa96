ghost use Rattle.std.specs.Prelude.{◌≡◌, IsTrue, IfOk, [], ◌∷◌};
ghost use Rattle.xc_tree.specs.declared.stmt.Item.{At};
ghost use Rattle.xc_tree.specs.Typed.{context};
ghost use Rattle.xc_tree.specs.Statements.{stmt_ok};

use sqlite_items::Items;
use std::alloc::{AllocError, Global};
use xc_tree::{Expr, ExprKind, Item, Span, Stmt, StmtKind, Ty};

fn cases(alloc: Global, first: u64, second: u64) -> Result<Items<Item>, AllocError>
    ensures { IfOk result (λ items. items ≡ At first ∷ At second ∷ []) }
{
    let mut items = Items::new(alloc);
    items.push(Item::At(first))?;
    items.push(Item::At(second))?;
    Ok(items)
}

/// `switch (1) { case 1: case 2: }`, which is well typed anywhere.
#[tactic(auto, using(xc_tree::proofs::Samples::opened_all), unfolding(xc_tree::specs::Lists::distinct, xc_tree::specs::Typed::rule))]
pub fn two_cases(alloc: Global) -> Result<Stmt, AllocError>
    ensures { IfOk result (λ s. IsTrue (stmt_ok (context [] [] [] [] []) s)) }
{
    let span = Span { start: 0, end: 0 };
    let items = cases(alloc, 1, 2)?;
    let value = Expr {
        ty: Ty::Int,
        span,
        kind: ExprKind::Const(1),
    };
    Ok(Stmt {
        span,
        kind: StmtKind::Switch { value, items },
    })
}
