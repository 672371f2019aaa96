//! The trees of texts.

use std::alloc::Global;
use std::test::Fail;
use xc_lex::lex;
use xc_parse::parse;
use xc_tree::{Stmt, StmtKind, Tree};
use xc_type::check;

/// The typed tree of a text that has no fault.
pub fn accepted(alloc: Global, text: &str) -> Result<Tree, Fail> {
    let source = text.as_bytes();
    if source.len() > 1 << 20 {
        return Err(Fail::from("long"));
    }
    let tokens = lex(alloc, source).ok().ok_or("tokens")?;
    let raw = parse(alloc, source, &tokens).ok().ok_or("raw")?;
    Ok(check(alloc, source, &tokens, raw).ok().ok_or("a tree")?)
}

/// The first loop of a block.
pub fn first_loop(body: &Stmt) -> Option<&Stmt> {
    let StmtKind::Block(all) = &body.kind else {
        return None;
    };
    for s in all.as_slice() {
        if let StmtKind::Loop { .. } = &s.kind {
            return Some(s);
        }
    }
    None
}
