//! The parameters of functions.

ghost use Rattle.std.specs.Prelude.{◌≡◌, map, IfOk, OnOk};
ghost use Rattle.xc_raw.specs.declared.tree.Raw.{out-Raw};
ghost use Rattle.xc_type_declarators.specs.Declarators.{pointer_typing};
ghost use Rattle.xc_type_scopes.specs.Judge.{Judges};
ghost use Rattle.xc_type_unit.specs.Parameters as spec;

use sqlite_items::Items;
use std::alloc::{AllocError, Global};
use xc_hold::kept;
use xc_raw::{Raw, Word};
use xc_raw_parts::{
    Brackets, declarator_span, first_brackets, parameter_name, spot, star_words, word_at,
};
use xc_text_place::Span;
use xc_tree::{Ty, copy_ty};
use xc_type_declarators::{
    Bound, Typing, array_parameter_typing, note_bounds, pointer_typing, scalar_typing, told,
};
use xc_type_expressions::{Declared, Text, bounds_found, specified};
use xc_type_rule::Fault;
use xc_type_scopes::Env;
use xc_type_statement_parts::declare;

/// The declarator of a parameter: the parameter's node, the first token behind the specifiers, and the bounds.
#[derive(Drop)]
struct Declarator<'a> {
    node: &'a Raw,
    from: u32,
    bounds: &'a [Bound],
}

fn behind_first(bounds: &[Bound]) -> &[Bound]
    ensures { result.now ≡ spec.behind_first bounds.now }
{
    match bounds {
        [] => &[],
        [_, rest @ ..] => rest,
    }
}

fn parameter_typing(
    alloc: Global,
    sizes: &[u32],
    typing: Typing,
    brackets: Brackets,
    bounds: &[Bound],
) -> Result<Typing, AllocError>
    ensures { IfOk result (λ r. r ≡ spec.parameter_typing sizes.now typing brackets bounds.now) }
{
    match brackets {
        Brackets::Absent => Ok(scalar_typing(typing)),
        Brackets::Empty => array_parameter_typing(alloc, sizes, typing, bounds),
        Brackets::Bound => array_parameter_typing(alloc, sizes, typing, behind_first(bounds)),
    }
}

fn parameter_spot(text: &Text, node: &Raw, token: Option<usize>) -> Span
    ensures { result ≡ spec.parameter_spot text.now node.now token }
{
    match token {
        None => declarator_span(text.tokens, node),
        Some(token) => spot(text.tokens, token),
    }
}

fn name_in(text: &Text, token: Option<usize>) -> Option<u32>
    ensures { result ≡ spec.name_in text.now token }
{
    match token {
        None => None,
        Some(token) => text.name_of(token),
    }
}

#[tactic(auto, using(xc_type_rule::proofs::Least::least_rules))]
fn typed_by(
    alloc: Global,
    text: &Text,
    env: &Env,
    base: Option<Ty>,
    declarator: &Declarator,
    first: &mut Option<Fault>,
) -> Result<Declared, AllocError>
    ensures { IfOk result (λ r. Judges (spec.typed_by text.now declarator.now.node.now base declarator.now.from declarator.now.bounds.now) env.now env.now first.old first.new r) }
{
    let Declarator { node, from, bounds } = *declarator;
    let stars = star_words(alloc, text.source, text.tokens, from, node.end);
    let (stars, base) = kept(stars, base)?;
    let pointed = pointer_typing(alloc, base, stars.as_slice());
    drop(stars);
    let brackets = first_brackets(text.source, text.tokens, node);
    let typing = parameter_typing(alloc, env.structs().sizes(), pointed?, brackets, bounds)?;
    note_bounds(bounds, first);
    let ty = told(declarator_span(text.tokens, node), typing, first);
    let token = parameter_name(text.tokens, node);
    Ok(Declared {
        name: name_in(text, token),
        at: parameter_spot(text, node, token),
        ty,
    })
}

#[tactic(auto, using(crate::proofs::Turns::node_rules), unfolding(crate::specs::Parameters::described_by))]
fn described(
    alloc: Global,
    text: &Text,
    env: &mut Env,
    node: &Raw,
    first: &mut Option<Fault>,
) -> Result<Declared, AllocError>
    ensures { IfOk result (λ r. Judges (spec.described_by text.now node.now (out-Raw node.now).parts) env.old env.new first.old first.new r) }
{
    match node.parts.as_slice() {
        [] => Ok(Declared {
            name: None,
            at: declarator_span(text.tokens, node),
            ty: None,
        }),
        [specs, rest @ ..] => {
            let base = specified(alloc, text, env, specs, false, first)?;
            let (bounds, base) = kept(bounds_found(alloc, text, env, rest, first), base)?;
            let declarator = Declarator {
                node,
                from: specs.end,
                bounds: bounds.as_slice(),
            };
            typed_by(alloc, text, env, base, &declarator, first)
        }
    }
}

fn unnamed(alloc: Global, env: &mut Env, at: Span, ty: &Option<Ty>) -> Result<(), AllocError>
    ensures { OnOk result (env.new ≡ spec.unnamed at ty.now env.old) }
{
    match ty {
        None => Ok(()),
        Some(ty) => {
            // Nothing names the object, so nothing asks for its number.
            let _ = env.add_local(at, copy_ty(alloc, ty)?)?;
            Ok(())
        }
    }
}

#[tactic(auto, using(crate::proofs::Turns::node_rules), unfolding(crate::specs::Parameters::begun))]
fn begun(
    alloc: Global,
    env: &mut Env,
    declared: &Declared,
    first: &mut Option<Fault>,
) -> Result<(), AllocError>
    ensures { IfOk result (λ r. Judges (spec.begun declared.now) env.old env.new first.old first.new r) }
{
    match declared.name {
        None => unnamed(alloc, env, declared.at, &declared.ty),
        Some(_) => {
            // The caller gives a parameter its value, so no initialiser asks for its number.
            let _ = declare(alloc, env, declared, first)?;
            Ok(())
        }
    }
}

#[tactic(auto, using(crate::proofs::Turns::node_rules), unfolding(crate::specs::Parameters::parameter))]
fn parameter(
    alloc: Global,
    text: &Text,
    env: &mut Env,
    node: &Raw,
    first: &mut Option<Fault>,
) -> Result<Option<Ty>, AllocError>
    ensures { IfOk result (λ r. Judges (spec.parameter text.now node.now) env.old env.new first.old first.new r) }
{
    let one = described(alloc, text, env, node, first)?;
    let begun = begun(alloc, env, &one, first);
    let Declared { name: _, at: _, ty } = one;
    let ((), ty) = kept(begun, ty)?;
    Ok(ty)
}

fn is_lone(text: &Text, node: &Raw) -> bool
    ensures { result ≡ spec.is_lone text.now node.now }
{
    u64::from(node.end) == u64::from(node.first) + 1
        && matches!(
            word_at(text.source, text.tokens, node.first as usize),
            Word::Void
        )
}

fn listed<'a>(text: &Text, nodes: &'a [Raw]) -> &'a [Raw]
    ensures { result.now ≡ spec.listed text.now nodes.now }
{
    match nodes {
        [node] if is_lone(text, node) => &[],
        _ => nodes,
    }
}

#[tactic(auto, using(crate::proofs::Turns::part_rules))]
fn all_parameters(
    alloc: Global,
    text: &Text,
    env: &mut Env,
    nodes: &[Raw],
    first: &mut Option<Fault>,
) -> Result<Items<Option<Ty>>, AllocError>
    ensures { IfOk result (λ r. Judges (spec.all_parameters text.now nodes.now) env.old env.new first.old first.new r) }
{
    let mut all = Items::new(alloc);
    'nodes: for node in nodes {
        let ty = parameter(alloc, text, env, node, first)?;
        all.push(ty)?;
    }
    Ok(all)
}

/// The types of the parameters that stand between a function's parentheses, each the next object of the function.
#[tactic(auto, unfolding(crate::specs::Parameters::parameters))]
pub(crate) fn parameters(
    alloc: Global,
    text: &Text,
    env: &mut Env,
    nodes: &[Raw],
    first: &mut Option<Fault>,
) -> Result<Items<Option<Ty>>, AllocError>
    ensures { IfOk result (λ r. Judges (spec.parameters text.now nodes.now) env.old env.new first.old first.new r) }
{
    all_parameters(alloc, text, env, listed(text, nodes), first)
}
