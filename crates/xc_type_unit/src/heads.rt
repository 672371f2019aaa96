//! The declarations of functions.

ghost use Rattle.std.specs.Prelude.{◌≡◌, IfOk, OnOk};
ghost use Rattle.std.specs.Option.{option_copied};
ghost use Rattle.xc_type_names.specs.Scoped.{found_in};
ghost use Rattle.xc_type_rule.specs.Least.{least_from};
ghost use Rattle.xc_raw.specs.declared.tree.Raw.{out-Raw};
ghost use Rattle.xc_type_scopes.specs.Judge.{Judges};
ghost use Rattle.xc_type_unit.specs.Functions as spec;

use crate::parameters::parameters;
use crate::types::{copy_all, copy_known};
use sqlite_items::Items;
use std::alloc::{AllocError, Global};
use xc_hold::{both, kept};
use xc_raw::Raw;
use xc_raw_parts::{callee_name, span_of, star_words};
use xc_text_place::Span;
use xc_tree::Ty;
use xc_type_declarators::{Typing, pointer_typing, result_typing, told};
use xc_type_expressions::{Text, note_name_unless};
use xc_type_names::{Scopes, reserved_of};
use xc_type_rule::{Fault, Thing, note_type, same_ty};
use xc_type_scopes::Env;

/// A function as it is declared: its name, where that stands and where its declarator does, and the types of its
/// parameters and of its result, which are none after a fault.
#[derive(Drop)]
pub struct Head {
    pub name: Option<u32>,
    pub at: Span,
    pub span: Span,
    pub params: Items<Option<Ty>>,
    pub ret: Option<Ty>,
}

/// The number of the name `main`, if the text has it.
pub fn main_of(text: &Text) -> Option<u32>
    ensures { result ≡ spec.main_of text.now }
{
    text.names.number_of(b"main")
}

fn is_main(text: &Text, name: u32) -> bool
    ensures { result ≡ spec.is_main text.now name }
{
    match main_of(text) {
        None => false,
        Some(main) => main == name,
    }
}

fn may_be_same(a: &Option<Ty>, b: &Option<Ty>) -> bool
    ensures { result ≡ spec.may_be_same a.now b.now }
{
    match (a, b) {
        (Some(a), Some(b)) => same_ty(a, b),
        (Some(_), None) => true,
        (None, Some(_)) => true,
        (None, None) => true,
    }
}

#[tactic(auto, using(crate::proofs::Zips::zip_rules))]
fn all_may_be_same(all: &[Option<Ty>], others: &[Option<Ty>]) -> bool
    ensures { result ≡ spec.all_may_be_same all.now others.now }
{
    if all.len() != others.len() {
        return false;
    }
    'types: for (at, ty) in all.iter().enumerate() {
        match others.get(at) {
            None => return false,
            Some(other) => {
                if !may_be_same(ty, other) {
                    return false;
                }
            }
        }
    }
    true
}

fn may_stand_beside(head: &Head, thing: Option<&Thing>) -> bool
    ensures { result ≡ spec.may_stand_beside head.now (option_copied thing.entry) }
{
    match thing {
        None => true,
        Some(
            Thing::Func {
                number: _,
                params,
                ret,
            },
        ) => {
            all_may_be_same(params.as_slice(), head.params.as_slice())
                && may_be_same(ret, &head.ret)
        }
        Some(Thing::Global { .. }) => false,
        Some(Thing::Local { .. }) => false,
    }
}

fn may_be_declared(env: &Env, head: &Head, name: u32) -> bool
    ensures { result ≡ spec.may_be_declared head.now name env.now }
{
    reserved_of(name).is_none() && may_stand_beside(head, env.find_global(name))
}

fn may_be_main(head: &Head) -> bool
    ensures { result ≡ spec.may_be_main head.now }
{
    let is_int = match &head.ret {
        None => true,
        Some(ty) => same_ty(ty, &Ty::Int),
    };
    is_int && head.params.is_empty()
}

#[tactic(auto, using(xc_type_rule::proofs::Least::least_rules))]
fn note_head(text: &Text, env: &Env, head: &Head, name: u32, first: &mut Option<Fault>)
    ensures { first.new ≡ least_from first.old (spec.head_faults text.now head.now name env.now) }
{
    note_name_unless(may_be_declared(env, head, name), head.at, first);
    if is_main(text, name) && !may_be_main(head) {
        note_type(first, head.span);
    }
}

/// The number of the first definition of a name.
pub(crate) fn found_body(bodies: &Scopes<u32>, name: u32) -> Option<u32>
    ensures { result ≡ found_in name bodies.now }
{
    match bodies.find(name) {
        None => None,
        Some(number) => Some(*number),
    }
}

/// The name stands for the function from here on.
#[tactic(auto, using(crate::proofs::Turns::node_rules), unfolding(crate::specs::Functions::named_function))]
pub(crate) fn named_function(
    alloc: Global,
    text: &Text,
    bodies: &Scopes<u32>,
    env: &mut Env,
    head: &Head,
    first: &mut Option<Fault>,
) -> Result<(), AllocError>
    ensures { IfOk result (λ r. Judges (spec.named_function text.now bodies.now head.now head.now.name) env.old env.new first.old first.new r) }
{
    match head.name {
        None => Ok(()),
        Some(name) => {
            note_head(text, env, head, name, first);
            let params = copy_all(alloc, head.params.as_slice());
            let (params, ret) = both(params, copy_known(alloc, &head.ret))?;
            let number = found_body(bodies, name);
            let thing = Thing::Func {
                number,
                params,
                ret,
            };
            env.declare_global(name, thing)
        }
    }
}

fn result_of(
    alloc: Global,
    text: &Text,
    base: Option<Ty>,
    callee: &Raw,
) -> Result<Typing, AllocError>
    ensures { IfOk result (λ r. r ≡ spec.result_of text.now base callee.now) }
{
    let stars = star_words(alloc, text.source, text.tokens, callee.first, callee.end);
    let (stars, base) = kept(stars, base)?;
    let pointed = pointer_typing(alloc, base, stars.as_slice());
    drop(stars);
    Ok(result_typing(pointed?))
}

/// What a function is by its result and its parameters, which are its first objects.
#[tactic(auto, using(crate::proofs::Turns::node_rules), unfolding(crate::specs::Functions::headed))]
pub(crate) fn headed(
    alloc: Global,
    text: &Text,
    env: &mut Env,
    base: Option<Ty>,
    callee: &Raw,
    params: &Raw,
    first: &mut Option<Fault>,
) -> Result<Head, AllocError>
    ensures { IfOk result (λ r. Judges (spec.headed text.now base callee.now params.now) env.old env.new first.old first.new r) }
{
    let params = parameters(alloc, text, env, params.parts.as_slice(), first);
    let (params, base) = kept(params, base)?;
    let span = span_of(text.tokens, callee);
    let (typing, params) = kept(result_of(alloc, text, base, callee), params)?;
    let ret = told(span, typing, first);
    let token = callee_name(text.tokens, callee);
    Ok(Head {
        name: text.name_at(token),
        at: text.spot(token),
        span,
        params,
        ret,
    })
}
