//! Whole texts.

ghost use Rattle.std.specs.Prelude.{◌≡◌, ◌<◌, ◌^◌, map, length, IfOk, OnOk};
ghost use Rattle.xc_type_rule.specs.Least.{least_from};
ghost use Rattle.xc_raw.specs.declared.tree.Raw.{out-Raw};
ghost use Rattle.xc_type_unit.specs.InnerItems.{Does};
ghost use Rattle.xc_type_unit.specs.Functions as functions;
ghost use Rattle.xc_type_unit.specs.Texts as spec;

use crate::functions::{bodies_of, function};
use crate::globals::declaration;
use crate::heads::{found_body, main_of};
use crate::scope::FileScope;
use std::alloc::{AllocError, Global};
use xc_hold::kept;
use xc_raw::{Raw, Rule};
use xc_raw_parts::span_of;
use xc_text_place::Span;
use xc_type_expressions::{Text, note_name_unless};
use xc_type_names::Scopes;
use xc_type_rule::Fault;

/// What a text makes of file scope, and the number of its `main` if it defines one.
#[derive(Drop)]
pub struct Whole {
    pub scope: FileScope,
    pub main: Option<u32>,
}

#[tactic(auto, using(crate::proofs::Turns::node_rules), unfolding(crate::specs::Texts::item, crate::specs::Texts::item_by))]
fn item(
    alloc: Global,
    text: &Text,
    bodies: &Scopes<u32>,
    scope: &mut FileScope,
    node: &Raw,
    first: &mut Option<Fault>,
) -> Result<(), AllocError>
    ensures { OnOk result (Does (spec.item text.now bodies.now node.now) scope.old scope.new first.old first.new) }
{
    match node.rule {
        Rule::Pragma => scope.env.add_pragma(span_of(text.tokens, node)),
        Rule::Declaration => {
            scope.env.pass_pragmas(alloc)?;
            declaration(alloc, text, scope, node.parts.as_slice(), first)
        }
        Rule::Function => {
            scope.env.pass_pragmas(alloc)?;
            function(alloc, text, bodies, scope, node.parts.as_slice(), first)
        }
        _ => Ok(()),
    }
}

#[tactic(auto, using(crate::proofs::Turns::turn_rules), unfolding(crate::specs::Texts::items))]
fn items(
    alloc: Global,
    text: &Text,
    bodies: &Scopes<u32>,
    scope: &mut FileScope,
    nodes: &[Raw],
    first: &mut Option<Fault>,
) -> Result<(), AllocError>
    ensures { OnOk result (Does (spec.items text.now bodies.now nodes.now) scope.old scope.new first.old first.new) }
{
    'nodes: for node in nodes {
        item(alloc, text, bodies, scope, node, first)?;
    }
    Ok(())
}

fn main_in(text: &Text, bodies: &Scopes<u32>) -> Option<u32>
    ensures { result ≡ spec.main_in text.now bodies.now }
{
    found_body(bodies, main_of(text)?)
}

fn end_of(text: &Text) -> Span
    requires { length text.now.source.now < 2 ^ 32 }
    ensures { result ≡ spec.end_of text.now }
{
    let end = text.source.len() as u32;
    Span { start: end, end }
}

// The items, and no pragma before a loop behind the last one.
#[tactic(auto, using(crate::proofs::Turns::node_rules))]
fn all_items(
    alloc: Global,
    text: &Text,
    bodies: &Scopes<u32>,
    scope: &mut FileScope,
    nodes: &[Raw],
    first: &mut Option<Fault>,
) -> Result<(), AllocError>
    ensures scope { OnOk result (scope.new ≡ spec.past_pragmas (spec.items text.now bodies.now nodes.now scope.old).scope) }
    ensures first { OnOk result (first.new ≡ least_from first.old (spec.items text.now bodies.now nodes.now scope.old).faults) }
{
    items(alloc, text, bodies, scope, nodes, first)?;
    scope.env.pass_pragmas(alloc)
}

#[tactic(auto, using(crate::proofs::Turns::node_rules))]
fn file_scope(
    alloc: Global,
    text: &Text,
    bodies: &Scopes<u32>,
    nodes: &[Raw],
    first: &mut Option<Fault>,
) -> Result<FileScope, AllocError>
    ensures scope { IfOk result (λ r. r ≡ spec.past_pragmas (spec.items text.now bodies.now nodes.now spec.empty).scope) }
    ensures first { OnOk result (first.new ≡ least_from first.old (spec.items text.now bodies.now nodes.now spec.empty).faults) }
{
    let mut scope = FileScope::new(alloc)?;
    let done = all_items(alloc, text, bodies, &mut scope, nodes, first);
    let ((), scope) = kept(done, scope)?;
    Ok(scope)
}

/// What a text makes of file scope: its node `Unit`. All its faults count.
#[tactic(auto, using(crate::proofs::Turns::node_rules), unfolding(crate::specs::Texts::whole_by))]
pub fn outer(
    alloc: Global,
    text: &Text,
    node: &Raw,
    first: &mut Option<Fault>,
) -> Result<Whole, AllocError>
    requires { length text.now.source.now < 2 ^ 32 }
    ensures scope { IfOk result (λ r. r.scope ≡ (spec.whole text.now node.now).scope) }
    ensures main { IfOk result (λ r. r.main ≡ spec.main_in text.now (functions.bodies_of text.now (out-Raw node.now).parts)) }
    ensures first { OnOk result (first.new ≡ least_from first.old (spec.whole text.now node.now).faults) }
{
    let nodes = node.parts.as_slice();
    let bodies = bodies_of(alloc, text, nodes)?;
    let scope = file_scope(alloc, text, &bodies, nodes, first);
    let main = main_in(text, &bodies);
    drop(bodies);
    let scope = scope?;
    note_name_unless(main.is_some(), end_of(text), first);
    Ok(Whole { scope, main })
}
