//! Expressions, specifiers and declarators, each by its parts.

ghost use Rattle.std.specs.Prelude.{◌≡◌, map, IfOk};
ghost use Rattle.xc_raw.specs.declared.tree.Raw.{out-Raw};
ghost use Rattle.xc_type_scopes.specs.Judge.{Judges};
ghost use Rattle.xc_type_expressions.specs.Roles as roles;
ghost use Rattle.xc_type_expressions.specs.Judged.{judged, by_parts, operand, casted, span_in};
ghost use Rattle.xc_type_expressions.specs.Calls.{applied, called};
ghost use Rattle.xc_type_expressions.specs.Types as types;

use crate::calls::{calling, format_of, named_by, printing};
use crate::operations::cast_to;
use crate::parts::{has_stars, is_call, takes_value, with_none, with_one, with_three, with_two};
use crate::structs::{
    begun, bound_of, declared_ty, note_name_unless, specified_by, struct_named, with_declared,
};
use crate::text::Text;
use crate::types::{Declared, Tagged};
use std::alloc::{AllocError, Global};
use xc_hold::kept;
use xc_raw::{Raw, Rule};
use xc_raw_parts::{declarator_name, span_of, specifier_words, star_words, struct_name};
use xc_text_place::Span;
use xc_tree::Ty;
use xc_type_declarators::{Bound, note_bounds, told};
use xc_type_rule::{Fault, Found, note_lost, rvalue, unknown_place};
use xc_type_rule_calls::misused;
use xc_type_scopes::Env;

// Expressions.

/// The bytes that an expression covers without the parentheses around it.
#[cycle(inner)]
#[tactic(auto, using(crate::proofs::Roles::judge_rules))]
fn inner_span(text: &Text, node: &Raw) -> Span
    ensures { result ≡ (judged text.now node.now).inner }
{
    match (node.rule, node.parts.as_slice()) {
        (Rule::Prim, [enclosed]) => inner_span(text, enclosed),
        _ => span_of(text.tokens, node),
    }
}

/// What an expression is found to be.
#[cycle(judge)]
#[tactic(auto, using(crate::proofs::Roles::judge_rules), unfolding(crate::specs::Judged::found_of))]
pub fn found(
    alloc: Global,
    text: &Text,
    env: &mut Env,
    node: &Raw,
    first: &mut Option<Fault>,
) -> Result<Found, AllocError>
    ensures { IfOk result (λ r. Judges ((judged text.now node.now).found) env.old env.new first.old first.new r) }
{
    match node.rule {
        Rule::Cast => cast_found(alloc, text, env, node, first),
        Rule::Postfix => {
            if is_call(text, node) {
                return call_found(alloc, text, env, node, first);
            }
            part_found(alloc, text, env, node, first)
        }
        _ => part_found(alloc, text, env, node, first),
    }
}

/// What an expression is found to be as a value.
#[cycle(judge)]
#[tactic(auto, using(crate::proofs::Roles::judge_rules), unfolding(crate::specs::Roles::value))]
pub fn value(
    alloc: Global,
    text: &Text,
    env: &mut Env,
    node: &Raw,
    first: &mut Option<Fault>,
) -> Result<Found, AllocError>
    ensures { IfOk result (λ r. Judges (roles.value (judged text.now node.now)) env.old env.new first.old first.new r) }
{
    let f = found(alloc, text, env, node, first)?;
    note_lost(inner_span(text, node), &f.known, first);
    rvalue(alloc, env.structs().sizes(), span_of(text.tokens, node), f)
}

#[cycle(judge)]
#[tactic(auto, using(crate::proofs::Roles::judge_rules))]
fn values(
    alloc: Global,
    text: &Text,
    env: &mut Env,
    nodes: &[Raw],
    first: &mut Option<Fault>,
) -> Result<Vec<Found>, AllocError>
    ensures { IfOk result (λ r. Judges (roles.values (map (judged text.now) nodes.now)) env.old env.new first.old first.new r.items) }
{
    let mut all = Vec::new(alloc);
    for node in nodes {
        let v = value(alloc, text, env, node, first)?;
        all.push(v)?;
    }
    Ok(all)
}

#[cycle(judge)]
#[tactic(auto, using(crate::proofs::Roles::judge_rules))]
fn operand_found(
    alloc: Global,
    text: &Text,
    env: &mut Env,
    node: &Raw,
    as_value: bool,
    first: &mut Option<Fault>,
) -> Result<Found, AllocError>
    ensures { IfOk result (λ r. Judges (operand as_value (judged text.now node.now)) env.old env.new first.old first.new r) }
{
    if as_value {
        value(alloc, text, env, node, first)
    } else {
        found(alloc, text, env, node, first)
    }
}

#[cycle(judge)]
#[tactic(auto, using(crate::proofs::Roles::judge_rules), unfolding(crate::specs::Judged::by_parts))]
fn part_found(
    alloc: Global,
    text: &Text,
    env: &mut Env,
    node: &Raw,
    first: &mut Option<Fault>,
) -> Result<Found, AllocError>
    ensures { IfOk result (λ r. Judges (by_parts text.now node.now (out-Raw node.now).rule (map (judged text.now) (out-Raw node.now).parts)) env.old env.new first.old first.new r) }
{
    match node.parts.as_slice() {
        [] => with_none(alloc, text, env, node, first),
        [a] => {
            let x = operand_found(alloc, text, env, a, takes_value(text, node), first)?;
            with_one(alloc, text, env, node, x, first)
        }
        [a, b] => {
            let at = span_of(text.tokens, a);
            let x = operand_found(alloc, text, env, a, takes_value(text, node), first)?;
            let (y, x) = kept(value(alloc, text, env, b, first), x)?;
            with_two(alloc, text, env, node, at, x, y, first)
        }
        [a, b, c] => {
            let x = value(alloc, text, env, a, first)?;
            let (y, x) = kept(value(alloc, text, env, b, first), x)?;
            let (z, (x, y)) = kept(value(alloc, text, env, c, first), (x, y))?;
            with_three(alloc, text, node, x, y, z, first)
        }
        _ => Ok(unknown_place()),
    }
}

#[cycle(judge)]
#[tactic(auto, using(crate::proofs::Roles::judge_rules), unfolding(crate::specs::Judged::casted))]
fn cast_found(
    alloc: Global,
    text: &Text,
    env: &mut Env,
    node: &Raw,
    first: &mut Option<Fault>,
) -> Result<Found, AllocError>
    ensures { IfOk result (λ r. Judges (casted text.now node.now (map (judged text.now) (out-Raw node.now).parts)) env.old env.new first.old first.new r) }
{
    match node.parts.as_slice() {
        [specs, a] => {
            let has_stars = has_stars(alloc, text, node, specs)?;
            let ty = specified(alloc, text, env, specs, false, first)?;
            let (v, ty) = kept(value(alloc, text, env, a, first), ty)?;
            cast_to(alloc, span_of(text.tokens, node), has_stars, ty, v, first)
        }
        _ => Ok(unknown_place()),
    }
}

#[cycle(judge)]
#[tactic(auto, using(crate::proofs::Roles::judge_rules), unfolding(crate::specs::Calls::called))]
fn call_found(
    alloc: Global,
    text: &Text,
    env: &mut Env,
    node: &Raw,
    first: &mut Option<Fault>,
) -> Result<Found, AllocError>
    ensures { IfOk result (λ r. Judges (called text.now (span_in text.now node.now) (map (judged text.now) (out-Raw node.now).parts)) env.old env.new first.old first.new r) }
{
    match node.parts.as_slice() {
        [f, p, rest @ ..] => match format_of(text, f, p) {
            Some(format) => {
                let vs = values(alloc, text, env, rest, first)?;
                printing(
                    alloc,
                    text,
                    env,
                    span_of(text.tokens, node),
                    format,
                    rest,
                    vs,
                    first,
                )
            }
            None => applied_found(alloc, text, env, node, first),
        },
        _ => applied_found(alloc, text, env, node, first),
    }
}

#[cycle(judge)]
#[tactic(auto, using(crate::proofs::Roles::judge_rules), unfolding(crate::specs::Calls::applied))]
fn applied_found(
    alloc: Global,
    text: &Text,
    env: &mut Env,
    node: &Raw,
    first: &mut Option<Fault>,
) -> Result<Found, AllocError>
    ensures { IfOk result (λ r. Judges (applied text.now (span_in text.now node.now) (map (judged text.now) (out-Raw node.now).parts)) env.old env.new first.old first.new r) }
{
    let span = span_of(text.tokens, node);
    match node.parts.as_slice() {
        [] => Ok(unknown_place()),
        [f, args @ ..] => match named_by(text, f) {
            None => {
                drop(found(alloc, text, env, f, first)?);
                drop(values(alloc, text, env, args, first)?);
                Ok(misused(span, first))
            }
            Some(name) => {
                let at = span_of(text.tokens, f);
                let vs = values(alloc, text, env, args, first)?;
                calling(alloc, env, span, at, name, vs, first)
            }
        },
    }
}

// Types.

/// The type that a list of specifiers gives, at file scope or not.
#[cycle(judge)]
#[tactic(auto, using(crate::proofs::Roles::judge_rules), unfolding(crate::specs::Types::specified_by))]
pub fn specified(
    alloc: Global,
    text: &Text,
    env: &mut Env,
    node: &Raw,
    outermost: bool,
    first: &mut Option<Fault>,
) -> Result<Option<Ty>, AllocError>
    ensures { IfOk result (λ r. Judges ((judged text.now node.now).specified outermost) env.old env.new first.old first.new r) }
{
    let structs = tagged_all(alloc, text, env, node.parts.as_slice(), first)?;
    let words = specifier_words(alloc, text.source, text.tokens, node)?;
    let span = span_of(text.tokens, node);
    specified_by(
        alloc,
        span,
        words.as_slice(),
        structs.as_slice(),
        outermost,
        first,
    )
}

#[cycle(judge)]
#[tactic(auto, using(crate::proofs::Roles::judge_rules))]
fn tagged_all(
    alloc: Global,
    text: &Text,
    env: &mut Env,
    nodes: &[Raw],
    first: &mut Option<Fault>,
) -> Result<Vec<Tagged>, AllocError>
    ensures { IfOk result (λ r. Judges (types.tags (map (judged text.now) nodes.now)) env.old env.new first.old first.new r.items) }
{
    let mut all = Vec::new(alloc);
    for node in nodes {
        let tag = tagged(alloc, text, env, node, first)?;
        all.push(tag)?;
    }
    Ok(all)
}

#[cycle(judge)]
#[tactic(auto, using(crate::proofs::Roles::judge_rules), unfolding(crate::specs::Types::struct_by))]
fn tagged(
    alloc: Global,
    text: &Text,
    env: &mut Env,
    node: &Raw,
    first: &mut Option<Fault>,
) -> Result<Tagged, AllocError>
    ensures { IfOk result (λ r. Judges ((judged text.now node.now).struct) env.old env.new first.old first.new r) }
{
    let token = struct_name(text.tokens, node);
    let at = text.spot(token);
    let Some(name) = text.name_at(token) else {
        return Ok(Tagged {
            number: 0,
            fits: true,
        });
    };
    match node.parts.as_slice() {
        [] => {
            let number = env.tag(name);
            struct_named(alloc, env, at, number, first)
        }
        parts => {
            note_name_unless(env.is_new_tag(name), at, first);
            let (number, before) = begun(alloc, env, name)?;
            members(alloc, text, env, parts, first)?;
            let fits = !env.layout().is_too_large();
            env.end_struct(number, before);
            Ok(Tagged { number, fits })
        }
    }
}

#[cycle(judge)]
#[tactic(auto, using(crate::proofs::Roles::judge_rules))]
fn members(
    alloc: Global,
    text: &Text,
    env: &mut Env,
    nodes: &[Raw],
    first: &mut Option<Fault>,
) -> Result<(), AllocError>
    ensures { IfOk result (λ r. Judges (types.members (map (judged text.now) nodes.now)) env.old env.new first.old first.new r) }
{
    for node in nodes {
        member(alloc, text, env, node, first)?;
    }
    Ok(())
}

#[cycle(judge)]
#[tactic(auto, using(crate::proofs::Roles::judge_rules), unfolding(crate::specs::Types::member_by))]
fn member(
    alloc: Global,
    text: &Text,
    env: &mut Env,
    node: &Raw,
    first: &mut Option<Fault>,
) -> Result<(), AllocError>
    ensures { IfOk result (λ r. Judges ((judged text.now node.now).member) env.old env.new first.old first.new r) }
{
    match node.parts.as_slice() {
        [] => Ok(()),
        [specs, declarators @ ..] => {
            let ty = specified(alloc, text, env, specs, false, first)?;
            declared_all(alloc, text, env, declarators, &ty, first)
        }
    }
}

#[cycle(judge)]
#[tactic(auto, using(crate::proofs::Roles::judge_rules), unfolding(crate::specs::Types::declared_member))]
fn declared_all(
    alloc: Global,
    text: &Text,
    env: &mut Env,
    nodes: &[Raw],
    ty: &Option<Ty>,
    first: &mut Option<Fault>,
) -> Result<(), AllocError>
    ensures { IfOk result (λ r. Judges (types.declared_all ty.now (map (judged text.now) nodes.now)) env.old env.new first.old first.new r) }
{
    for node in nodes {
        let one = declared(alloc, text, env, node, ty, first)?;
        with_declared(alloc, env, one, first)?;
    }
    Ok(())
}

#[cycle(judge)]
#[tactic(auto, using(crate::proofs::Roles::judge_rules), unfolding(crate::specs::Types::bound_by))]
pub fn bounds_found(
    alloc: Global,
    text: &Text,
    env: &mut Env,
    nodes: &[Raw],
    first: &mut Option<Fault>,
) -> Result<Vec<Bound>, AllocError>
    ensures { IfOk result (λ r. Judges (types.bounds (map (judged text.now) nodes.now)) env.old env.new first.old first.new r.items) }
{
    let mut all = Vec::new(alloc);
    for node in nodes {
        drop(value(alloc, text, env, node, first)?);
        all.push(bound_of(alloc, text, node, first)?)?;
    }
    Ok(all)
}

/// What a declarator says of an object or a member, behind specifiers of this type.
#[cycle(judge)]
#[tactic(auto, using(crate::proofs::Roles::judge_rules), unfolding(crate::specs::Types::declared_by, crate::specs::Judged::declared_of))]
pub fn declared(
    alloc: Global,
    text: &Text,
    env: &mut Env,
    node: &Raw,
    base: &Option<Ty>,
    first: &mut Option<Fault>,
) -> Result<Declared, AllocError>
    ensures { IfOk result (λ r. Judges ((judged text.now node.now).declared base.now) env.old env.new first.old first.new r) }
{
    let bounds = bounds_found(alloc, text, env, node.parts.as_slice(), first)?;
    note_bounds(bounds.as_slice(), first);
    let stars = star_words(alloc, text.source, text.tokens, node.first, node.end)?;
    let typing = declared_ty(alloc, env, base, stars.as_slice(), bounds.as_slice())?;
    let ty = told(span_of(text.tokens, node), typing, first);
    let token = declarator_name(text.tokens, node);
    Ok(Declared {
        name: text.name_at(token),
        at: text.spot(token),
        ty,
    })
}
