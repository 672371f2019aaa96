//! Expressions, by what is found of their parts.

ghost use Rattle.std.specs.Prelude.{◌≡◌, IfOk};
ghost use Rattle.xc_raw.specs.declared.tree.Raw.{out-Raw};
ghost use Rattle.xc_type_scopes.specs.Judge.{Judges};
ghost use Rattle.xc_type_scopes.specs.InnerTold.{Tells};
ghost use Rattle.xc_raw_parts.specs.Words.{star_words};
ghost use Rattle.xc_type_expressions.specs.Operations as operations;
ghost use Rattle.xc_type_expressions.specs.Judged as spec;

use crate::operations::{assigned, between, nothing_of, nothing_of_both, prefixed};
use crate::places::{arrowed, dotted, of_token};
use crate::text::Text;
use std::alloc::{AllocError, Global};
use xc_raw::{Access, Raw, Rule, Word};
use xc_raw_parts::{
    Prefix, Suffix, assign_operator, binary_operator, member_name, postfix_operator,
    prefix_operator, span_of, star_words, step_op,
};
use xc_text_place::Span;
use xc_type_rule::{Fault, Found, unknown_place};
use xc_type_rule_operators::{comma, conditional, grouped, step};
use xc_type_rule_places::index;
use xc_type_scopes::Env;

fn prefix_takes_value(op: Option<Prefix>) -> bool
    ensures { result ≡ spec.prefix_takes_value op }
{
    !matches!(op, Some(Prefix::Step(_) | Prefix::Address))
}

fn suffix_takes_value(op: Option<Suffix>) -> bool
    ensures { result ≡ spec.suffix_takes_value op }
{
    matches!(op, Some(Suffix::Access(Access::Arrow)))
}

/// Whether the first part of an expression is taken as a value (C99 6.3.2.1).
#[tactic(auto, unfolding(crate::specs::Judged::takes_value))]
pub(crate) fn takes_value(text: &Text, node: &Raw) -> bool
    ensures { result ≡ spec.takes_value text.now node.now (out-Raw node.now).rule }
{
    match node.rule {
        Rule::Prim | Rule::Assign => false,
        Rule::Postfix => suffix_takes_value(postfix_operator(text.source, text.tokens, node)),
        Rule::Unary => prefix_takes_value(prefix_operator(text.source, text.tokens, node)),
        _ => true,
    }
}

/// Whether a node `Postfix` is a call.
pub(crate) fn is_call(text: &Text, node: &Raw) -> bool
    ensures { result ≡ spec.is_call (spec.suffix_in text.now node.now) }
{
    matches!(
        postfix_operator(text.source, text.tokens, node),
        Some(Suffix::Call)
    )
}

fn has_any(words: &[Word]) -> bool
    ensures { result ≡ operations.has_any words.now }
{
    match words {
        [] => false,
        _ => true,
    }
}

/// Whether the type of a cast has stars, which stand behind its specifiers.
pub(crate) fn has_stars(
    alloc: Global,
    text: &Text,
    node: &Raw,
    specs: &Raw,
) -> Result<bool, AllocError>
    ensures { IfOk result (λ r. r ≡ operations.has_any (star_words text.now.source.now text.now.tokens.now (out-Raw specs.now).end (out-Raw node.now).end)) }
{
    let stars = star_words(alloc, text.source, text.tokens, specs.end, node.end)?;
    Ok(has_any(stars.as_slice()))
}

/// An expression without parts.
#[tactic(auto, using(xc_type_rule::proofs::Least::least_rules), unfolding(crate::specs::Judged::with_none))]
pub(crate) fn with_none(
    alloc: Global,
    text: &Text,
    env: &Env,
    node: &Raw,
    first: &mut Option<Fault>,
) -> Result<Found, AllocError>
    ensures { IfOk result (λ r. Judges (spec.with_none text.now node.now (out-Raw node.now).rule) env.now env.now first.old first.new r) }
{
    let span = span_of(text.tokens, node);
    match node.rule {
        Rule::Prim => of_token(alloc, text, env, span, node.first as usize, first),
        _ => Ok(unknown_place()),
    }
}

#[tactic(auto, using(xc_type_rule::proofs::Least::least_rules), unfolding(crate::specs::Judged::suffixed))]
fn suffixed(
    alloc: Global,
    text: &Text,
    env: &Env,
    node: &Raw,
    op: Option<Suffix>,
    a: Found,
    first: &mut Option<Fault>,
) -> Result<Found, AllocError>
    ensures { IfOk result (λ r. Judges (spec.suffixed text.now node.now op a) env.now env.now first.old first.new r) }
{
    let token = member_name(text.tokens, node);
    let (span, at, name) = (
        span_of(text.tokens, node),
        text.spot(token),
        text.name_at(token),
    );
    match op {
        Some(Suffix::Access(Access::Dot)) => dotted(alloc, env, span, at, name, a, first),
        Some(Suffix::Access(Access::Arrow)) => arrowed(alloc, env, span, at, name, a, first),
        Some(Suffix::Step(s)) => step(alloc, span, step_op(s), true, a, first),
        Some(Suffix::Index | Suffix::Call) => Ok(nothing_of(a)),
        None => Ok(nothing_of(a)),
    }
}

/// An expression of one part.
#[tactic(auto, using(xc_type_rule::proofs::Least::least_rules), unfolding(crate::specs::Judged::with_one))]
pub(crate) fn with_one(
    alloc: Global,
    text: &Text,
    env: &mut Env,
    node: &Raw,
    a: Found,
    first: &mut Option<Fault>,
) -> Result<Found, AllocError>
    ensures { IfOk result (λ r. Judges (spec.with_one text.now node.now (out-Raw node.now).rule a) env.old env.new first.old first.new r) }
{
    let span = span_of(text.tokens, node);
    match node.rule {
        Rule::Prim => Ok(grouped(span, a)),
        Rule::Postfix => {
            let op = postfix_operator(text.source, text.tokens, node);
            suffixed(alloc, text, env, node, op, a, first)
        }
        Rule::Unary => {
            let op = prefix_operator(text.source, text.tokens, node);
            prefixed(alloc, env, span, op, a, first)
        }
        _ => Ok(nothing_of(a)),
    }
}

#[tactic(auto, using(xc_type_rule::proofs::Least::least_rules), unfolding(crate::specs::Judged::element))]
fn element(
    alloc: Global,
    env: &Env,
    span: Span,
    at: Span,
    op: Option<Suffix>,
    a: Found,
    b: Found,
    first: &mut Option<Fault>,
) -> Result<Found, AllocError>
    ensures { IfOk result (λ r. Judges (spec.element span at op a b) env.now env.now first.old first.new r) }
{
    match op {
        Some(Suffix::Index) => index(alloc, env.structs().sizes(), span, at, a, b, first),
        Some(Suffix::Call | Suffix::Access(_) | Suffix::Step(_)) => Ok(nothing_of_both(a, b)),
        None => Ok(nothing_of_both(a, b)),
    }
}

/// An expression of two parts, of which `at` covers the first.
#[tactic(auto, using(xc_type_rule::proofs::Least::least_rules), unfolding(crate::specs::Judged::with_two))]
pub(crate) fn with_two(
    alloc: Global,
    text: &Text,
    env: &Env,
    node: &Raw,
    at: Span,
    a: Found,
    b: Found,
    first: &mut Option<Fault>,
) -> Result<Found, AllocError>
    ensures { IfOk result (λ r. Judges (spec.with_two text.now node.now (out-Raw node.now).rule at a b) env.now env.now first.old first.new r) }
{
    let span = span_of(text.tokens, node);
    match node.rule {
        Rule::Postfix => {
            let op = postfix_operator(text.source, text.tokens, node);
            element(alloc, env, span, at, op, a, b, first)
        }
        Rule::Binary(_) => {
            let op = binary_operator(text.source, text.tokens, node);
            between(alloc, span, op, a, b, first)
        }
        Rule::Assign => {
            let op = assign_operator(text.source, text.tokens, node);
            assigned(alloc, span, op, a, b, first)
        }
        Rule::Comma => comma(alloc, span, a, b, first),
        _ => Ok(nothing_of_both(a, b)),
    }
}

/// An expression of three parts.
#[tactic(auto, using(xc_type_rule::proofs::Least::least_rules), unfolding(crate::specs::Judged::with_three))]
pub(crate) fn with_three(
    alloc: Global,
    text: &Text,
    node: &Raw,
    test: Found,
    a: Found,
    b: Found,
    first: &mut Option<Fault>,
) -> Result<Found, AllocError>
    ensures { IfOk result (λ r. Tells (spec.with_three text.now node.now (out-Raw node.now).rule test a b) first.old first.new r) }
{
    match node.rule {
        Rule::Cond => conditional(alloc, span_of(text.tokens, node), test, a, b, first),
        _ => {
            drop(test);
            Ok(nothing_of_both(a, b))
        }
    }
}
