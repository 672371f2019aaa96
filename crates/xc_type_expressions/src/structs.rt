//! Structs and their members, by parts that are judged.

ghost use Rattle.std.specs.Prelude.{◌≡◌, IfOk, OnOk};
ghost use Rattle.xc_type_rule.specs.Least.{least_from};
ghost use Rattle.xc_type_scopes.specs.Judge.{Judges};
ghost use Rattle.xc_type_declarators.specs.Declarators.{pointer_typing, object_typing};
ghost use Rattle.xc_type_constants.specs.Pieces.{constant_faults};
ghost use Rattle.xc_type_expressions.specs.Judged.{judged};
ghost use Rattle.xc_type_expressions.specs.Types as spec;

use crate::text::Text;
use crate::types::{Declared, Tagged};
use std::alloc::{AllocError, Global};
use xc_raw::{Raw, Word};
use xc_raw_parts::span_of;
use xc_text_place::Span;
use xc_tree::{Ty, copy_ty};
use xc_type_constants::constant;
use xc_type_declarators::{Bound, Typing, object_typing, pointer_typing, specifier_type};
use xc_type_rule::{Fault, note_name, note_type};
use xc_type_scopes::Env;
use xc_type_structs::Layout;

/// A rule of names is broken by the name that covers these bytes, unless all is fine.
#[tactic(auto, using(xc_type_rule::proofs::Least::least_rules))]
pub fn note_name_unless(fine: bool, span: Span, first: &mut Option<Fault>)
    ensures { first.new ≡ least_from first.old (spec.name_fault_unless fine span) }
{
    if !fine {
        note_name(first, span);
    }
}

fn number_of(tags: &[Tagged]) -> Option<u32>
    ensures { result ≡ spec.number_of tags.now }
{
    match tags {
        [] => None,
        [tag, ..] => Some(tag.number),
    }
}

fn all_fit(tags: &[Tagged]) -> bool
    ensures { result ≡ spec.all_fit tags.now }
{
    for tag in tags {
        if !tag.fits {
            return false;
        }
    }
    true
}

/// The type that specifiers give whose structs are judged.
#[tactic(auto, using(xc_type_rule::proofs::Least::least_rules))]
pub(crate) fn specified_by(
    alloc: Global,
    span: Span,
    words: &[Word],
    tags: &[Tagged],
    outermost: bool,
    first: &mut Option<Fault>,
) -> Result<Option<Ty>, AllocError>
    ensures ty { IfOk result (λ r. r ≡ spec.specifier_type words.now tags.now) }
    ensures first { OnOk result (first.new ≡ least_from first.old (spec.specified_faults outermost span words.now tags.now)) }
{
    let ty = specifier_type(alloc, span, outermost, words, number_of(tags), first)?;
    if !all_fit(tags) {
        note_type(first, span);
    }
    Ok(ty)
}

/// A struct without braces.
#[tactic(auto, using(xc_type_rule::proofs::Least::least_rules))]
pub(crate) fn struct_named(
    alloc: Global,
    env: &mut Env,
    at: Span,
    number: Option<u32>,
    first: &mut Option<Fault>,
) -> Result<Tagged, AllocError>
    ensures part { IfOk result (λ r. r ≡ (spec.struct_named at number env.old).part) }
    ensures env { OnOk result (env.new ≡ (spec.struct_named at number env.old).env) }
    ensures first { OnOk result (first.new ≡ least_from first.old (spec.struct_named at number env.old).faults) }
{
    match number {
        Some(number) => Ok(Tagged { number, fits: true }),
        None => {
            note_name(first, at);
            let number = env.add_struct(alloc)?;
            Ok(Tagged { number, fits: true })
        }
    }
}

/// A member of the struct at work.
#[tactic(auto, using(xc_type_rule::proofs::Least::least_rules))]
pub(crate) fn with_declared(
    alloc: Global,
    env: &mut Env,
    declared: Declared,
    first: &mut Option<Fault>,
) -> Result<(), AllocError>
    ensures { IfOk result (λ r. Judges (spec.with_declared declared) env.old env.new first.old first.new r) }
{
    let Declared { name, at, ty } = declared;
    match name {
        None => {
            drop(ty);
            Ok(())
        }
        Some(name) => {
            note_name_unless(env.layout().is_new(name), at, first);
            env.add_member(alloc, name, ty)
        }
    }
}

fn copy_option(alloc: Global, ty: &Option<Ty>) -> Result<Option<Ty>, AllocError>
    ensures { IfOk result (λ r. r ≡ ty.now) }
{
    match ty {
        None => Ok(None),
        Some(ty) => Ok(Some(copy_ty(alloc, ty)?)),
    }
}

/// The type that a declarator's stars and bounds make of the type of the specifiers before it.
pub(crate) fn declared_ty(
    alloc: Global,
    env: &Env,
    base: &Option<Ty>,
    stars: &[Word],
    bounds: &[Bound],
) -> Result<Typing, AllocError>
    ensures { IfOk result (λ r. r ≡ object_typing env.now.structs.sizes (pointer_typing base.now stars.now) bounds.now) }
{
    let base = copy_option(alloc, base)?;
    let typing = pointer_typing(alloc, base, stars)?;
    object_typing(alloc, env.structs().sizes(), typing, bounds)
}

/// The braces of a new struct of this name begin. The answer has its number, and the layout at work before it.
pub(crate) fn begun(alloc: Global, env: &mut Env, name: u32) -> Result<(u32, Layout), AllocError>
    ensures number { IfOk result (λ r. r.0 ≡ spec.the_next env.old) }
    ensures layout { IfOk result (λ r. r.1 ≡ env.old.layout) }
    ensures begun { OnOk result (env.new ≡ spec.struct_begun name env.old) }
{
    let (number, before) = env.begin_struct(alloc)?;
    env.declare_tag(name, number)?;
    Ok((number, before))
}

/// The bound that an expression gives, which has to be a constant.
#[tactic(auto, using(crate::proofs::Roles::judge_rules))]
pub(crate) fn bound_of(
    alloc: Global,
    text: &Text,
    node: &Raw,
    first: &mut Option<Fault>,
) -> Result<Bound, AllocError>
    ensures bound { IfOk result (λ r. r ≡ spec.bound_of (judged text.now node.now)) }
    ensures first { OnOk result (first.new ≡ least_from first.old (constant_faults (judged text.now node.now).constant)) }
{
    let value = constant(alloc, text.source, text.tokens, text.texts, node, first)?;
    let span = span_of(text.tokens, node);
    Ok(Bound { value, span })
}
