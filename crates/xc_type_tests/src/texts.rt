//! Texts and their trees.

use std::alloc::Global;
use std::test::Fail;
use xc_lex::lex;
use xc_parse::parse;
use xc_tree::Tree;
use xc_type::{CheckFault, check};

/// The typed tree of a text, or its first fault.
pub fn tree_of(alloc: Global, source: &[u8]) -> Result<Result<Tree, CheckFault>, Fail> {
    if source.len() > 1 << 20 {
        return Err(Fail::from("long"));
    }
    let tokens = lex(alloc, source).ok().ok_or("tokens")?;
    let raw = parse(alloc, source, &tokens).ok().ok_or("tree")?;
    Ok(check(alloc, source, &tokens, raw))
}

/// The typed tree of a text that has no fault.
pub fn accepted(alloc: Global, source: &str) -> Result<Tree, Fail> {
    let tree = tree_of(alloc, source.as_bytes())?;
    Ok(tree.ok().ok_or("a tree")?)
}

/// A text with a `main` that does nothing behind it.
pub fn with_main(alloc: Global, source: &str) -> Result<String, Fail> {
    Ok(format!(in alloc; "{source} int main() {{ return 0; }}")?)
}
