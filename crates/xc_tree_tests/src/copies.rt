use crate::texts::accepted;
use std::alloc::{AllocError, Global};
use std::test::Fail;
use xc_tree::{
    Expr, ExprKind, Stmt, StmtKind, Tree, Ty, copy_expr, copy_pragmas, copy_stmt, copy_ty,
};

const SOURCE: &str = "int *p;
int main()
{
  !p;
  if (p) ;
  #pragma mta use 5 streams
  while (1) break;
}
";

fn copies_type(alloc: Global, tree: &Tree) -> Result<bool, AllocError> {
    let Some(global) = tree.globals.as_slice().first() else {
        return Ok(false);
    };
    let copied = copy_ty(alloc, &global.ty)?;
    let same = matches!(&copied, Ty::Ptr(_));
    drop(copied);
    Ok(same)
}

fn copies_expr(alloc: Global, e: &Expr) -> Result<bool, AllocError> {
    let copied = copy_expr(alloc, e)?;
    let same = matches!(&copied.kind, ExprKind::Unary { .. });
    drop(copied);
    Ok(same)
}

fn copies_block(alloc: Global, s: &Stmt) -> Result<bool, AllocError> {
    let copied = copy_stmt(alloc, s)?;
    let same = match &copied.kind {
        StmtKind::Block(all) => all.len() == 3,
        _ => false,
    };
    drop(copied);
    Ok(same)
}

/// Whether the copy of a statement, and those of what is in it, are of the same kinds.
fn copies_part(alloc: Global, s: &Stmt) -> Result<bool, AllocError> {
    match &s.kind {
        StmtKind::Eval(e) => copies_expr(alloc, e),
        StmtKind::Loop { pragmas, .. } => {
            let copied = copy_pragmas(alloc, pragmas)?;
            let same = copied.streams == 5;
            drop(copied);
            Ok(same)
        }
        _ => Ok(true),
    }
}

fn copies_parts(alloc: Global, body: &Stmt) -> Result<bool, AllocError> {
    let StmtKind::Block(all) = &body.kind else {
        return Ok(false);
    };
    for s in all.as_slice() {
        if !copies_part(alloc, s)? {
            return Ok(false);
        }
    }
    copies_block(alloc, body)
}

#[test]
fn copies_of_a_text(rt: HostRuntime) -> Result<(), Fail> {
    let tree = accepted(rt.alloc(), SOURCE)?;
    let ty = copies_type(rt.alloc(), &tree);
    let parts = copies_parts(rt.alloc(), tree.main_func().body.get());
    drop(tree);
    assert!(rt; ty == Ok(true) && parts == Ok(true));
    Ok(())
}
