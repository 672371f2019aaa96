//! The passes, one behind another.

ghost use Rattle.std.specs.Prelude.{◌≡◌, ◌≤◌, ◌^◌, None, length, IfOk, IfErr};
ghost use Rattle.std.specs.List.{All};
ghost use Rattle.xc_lex.specs.Source.{AreTokens, IsSpelled};
ghost use Rattle.xc_tree_sizes.specs.Nodes.{IsSmall};
ghost use Rattle.xc_type.specs.Checked.{IsTree};
ghost use Rattle.xc_gen.specs.Unbuilt.{unbuilt_of};
ghost use Rattle.xc_driver.specs.Compiles as spec;

use crate::fault::{CompileFault, Refusal, RefusalKind};
use std::alloc::Global;
use xc_gen::{code_of, unbuilt};
use xc_hold::kept;
use xc_isa::Code;
use xc_lex::{LexFault, Tokens, lex};
use xc_parse::{ParseFault, parse};
use xc_raw::Raw;
use xc_text_place::{Pos, position};
use xc_tree::Tree;
use xc_type::{CheckFault, check};

/// A program that is compiled: its typed tree and its code.
#[derive(Drop)]
pub struct Compiled {
    pub tree: Tree,
    pub code: Code,
}

fn refusal(kind: RefusalKind, at: Pos) -> CompileFault
    ensures { result ≡ CompileFault.Refused (record { kind = kind; at = at }) }
{
    CompileFault::Refused(Refusal { kind, at })
}

fn tokens_of(alloc: Global, source: &[u8]) -> Result<Tokens, CompileFault>
    requires { length source.now ≤ 2 ^ 20 }
    ensures tokens { IfOk result (λ tokens. AreTokens source.now tokens) }
    ensures few { IfOk result (λ tokens. length tokens ≤ 2 ^ 20) }
    ensures spelled { IfOk result (λ tokens. All (IsSpelled source.now) tokens) }
    ensures refused { IfErr result (spec.IsRefused source.now) }
{
    match lex(alloc, source) {
        Ok(tokens) => Ok(tokens),
        Err(LexFault::NoMemory) => Err(CompileFault::NoMemory),
        Err(LexFault::At(pos)) => Err(refusal(RefusalKind::Lex, pos)),
    }
}

fn raw_of(alloc: Global, source: &[u8], tokens: &Tokens) -> Result<Raw, CompileFault>
    requires short { length source.now ≤ 2 ^ 20 }
    requires few { length tokens.now ≤ 2 ^ 20 }
    requires tokens { AreTokens source.now tokens.now }
    ensures parsed { IfOk result (spec.IsParsed source.now tokens.now) }
    ensures refused { IfErr result (spec.IsRefused source.now) }
{
    match parse(alloc, source, tokens) {
        Ok(raw) => Ok(raw),
        Err(ParseFault::NoMemory) => Err(CompileFault::NoMemory),
        Err(ParseFault::Syntax(pos)) => Err(refusal(RefusalKind::Syntax, pos)),
        Err(ParseFault::Depth(pos)) => Err(refusal(RefusalKind::Depth, pos)),
    }
}

fn tree_of_raw(
    alloc: Global,
    source: &[u8],
    tokens: &Tokens,
    raw: Raw,
) -> Result<Tree, CompileFault>
    requires short { length source.now ≤ 2 ^ 20 }
    requires few { length tokens.now ≤ 2 ^ 20 }
    requires spelled { All (IsSpelled source.now) tokens.now }
    requires parsed { spec.IsParsed source.now tokens.now raw }
    ensures tree { IfOk result (IsTree source.now tokens.now raw) }
    ensures small { IfOk result IsSmall }
    ensures refused { IfErr result (spec.IsRefused source.now) }
{
    match check(alloc, source, tokens, raw) {
        Ok(tree) => Ok(tree),
        Err(CheckFault::NoMemory) => Err(CompileFault::NoMemory),
        Err(CheckFault::Name(pos)) => Err(refusal(RefusalKind::Name, pos)),
        Err(CheckFault::Typing(pos)) => Err(refusal(RefusalKind::Typing, pos)),
        Err(CheckFault::Count(pos)) => Err(refusal(RefusalKind::Count, pos)),
    }
}

/// The typed tree of the tokens of a source.
fn tree_of_tokens(alloc: Global, source: &[u8], tokens: &Tokens) -> Result<Tree, CompileFault>
    requires short { length source.now ≤ 2 ^ 20 }
    requires few { length tokens.now ≤ 2 ^ 20 }
    requires spelled { All (IsSpelled source.now) tokens.now }
    requires tokens { AreTokens source.now tokens.now }
    ensures tree { IfOk result (spec.IsTreeOf source.now) }
    ensures small { IfOk result IsSmall }
    ensures refused { IfErr result (spec.IsRefused source.now) }
{
    let raw = raw_of(alloc, source, tokens)?;
    tree_of_raw(alloc, source, tokens, raw)
}

/// The typed tree of a source.
fn tree_of(alloc: Global, source: &[u8]) -> Result<Tree, CompileFault>
    requires { length source.now ≤ 2 ^ 20 }
    ensures tree { IfOk result (spec.IsTreeOf source.now) }
    ensures small { IfOk result IsSmall }
    ensures refused { IfErr result (spec.IsRefused source.now) }
{
    let tokens = tokens_of(alloc, source)?;
    let tree = tree_of_tokens(alloc, source, &tokens);
    drop(tokens);
    tree
}

/// The code of a typed tree, or the first form that has none.
fn compile_tree(alloc: Global, source: &[u8], tree: Tree) -> Result<Compiled, CompileFault>
    requires short { length source.now ≤ 2 ^ 20 }
    requires tree { spec.IsTreeOf source.now tree }
    requires small { IsSmall tree }
    ensures compiled { IfOk result (spec.IsCompiled source.now) }
    ensures built { IfOk result (λ c. unbuilt_of c.tree ≡ None) }
    ensures refused { IfErr result (spec.IsRefused source.now) }
{
    match unbuilt(&tree) {
        Some(at) => {
            drop(tree);
            let pos = position(source, at.start as usize);
            Err(refusal(RefusalKind::Unbuilt, pos))
        }
        None => {
            let (code, tree) = kept(code_of(alloc, &tree), tree)?;
            Ok(Compiled { tree, code })
        }
    }
}

/// The code of a source, or the first reason why there is none: of the kinds in their order, each at its place.
pub fn compile(alloc: Global, source: &[u8]) -> Result<Compiled, CompileFault>
    requires { length source.now ≤ 2 ^ 20 }
    ensures compiled { IfOk result (spec.IsCompiled source.now) }
    ensures refused { IfErr result (spec.IsRefused source.now) }

    // Each answer is the only one, but for want of memory.
    ensures only_tree { IfOk result (λ c. spec.IsOnlyTree source.now c.tree) }
    ensures only_refusal { IfErr result (spec.IsOnlyRefused source.now) }
    ensures complete { spec.IsComplete source.now result }
{
    match tree_of(alloc, source) {
        Ok(tree) => compile_tree(alloc, source, tree),
        Err(fault) => Err(fault),
    }
}
