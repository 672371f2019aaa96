//! Declarations in functions.

ghost use Rattle.std.specs.Prelude.{◌≡◌, Some, IfOk, OnOk};
ghost use Rattle.xc_type_scopes.specs.Env.{next_local};
ghost use Rattle.xc_type_scopes.specs.Judge.{Judges};
ghost use Rattle.xc_type_statement_parts.specs.Declarations as spec;

use crate::make::with_one;
use sqlite_items::Items;
use std::alloc::{AllocError, Global};
use xc_hold::{both, kept};
use xc_raw::Raw;
use xc_raw_parts::span_of;
use xc_text_place::Span;
use xc_tree::{Expr, Stmt, StmtKind, Ty, copy_ty};
use xc_type_expressions::{Declared, Text, declared, note_name_unless, specified};
use xc_type_initialisers::local_inits;
use xc_type_names::reserved_of;
use xc_type_rule::{Fault, Thing};
use xc_type_scopes::Env;

fn may_be_declared(env: &Env, name: u32) -> bool
    ensures { result ≡ spec.may_be_declared name env.now }
{
    reserved_of(name).is_none() && env.is_new_own(name)
}

// The number of the object, which has this type.
fn with_object(
    alloc: Global,
    env: &mut Env,
    name: u32,
    at: Span,
    ty: &Ty,
) -> Result<u32, AllocError>
    ensures number { IfOk result (λ r. r ≡ next_local env.old) }
    ensures env { OnOk result (env.new ≡ spec.with_name name at (Some ty.now) env.old) }
{
    let (ty, copy) = both(copy_ty(alloc, ty), copy_ty(alloc, ty))?;
    let (number, ty) = kept(env.add_local(at, copy), ty)?;
    let ty = Some(ty);
    env.declare_own(name, Thing::Local { number, ty })?;
    Ok(number)
}

// The number of the object, none where its type is unknown.
fn with_name(
    alloc: Global,
    env: &mut Env,
    name: u32,
    at: Span,
    ty: &Option<Ty>,
) -> Result<Option<u32>, AllocError>
    ensures number { IfOk result (λ r. r ≡ spec.number_of ty.now env.old) }
    ensures env { OnOk result (env.new ≡ spec.with_name name at ty.now env.old) }
{
    match ty {
        None => {
            env.declare_own(
                name,
                Thing::Local {
                    number: 0,
                    ty: None,
                },
            )?;
            Ok(None)
        }
        Some(ty) => Ok(Some(with_object(alloc, env, name, at, ty)?)),
    }
}

/// An object of the function at work is declared. The answer is its number, none where it has a fault.
#[tactic(auto, using(xc_type_rule::proofs::Least::least_rules), unfolding(crate::specs::Declarations::object_by))]
pub fn declare(
    alloc: Global,
    env: &mut Env,
    declared: &Declared,
    first: &mut Option<Fault>,
) -> Result<Option<u32>, AllocError>
    ensures { IfOk result (λ r. Judges (spec.declared_object declared.now) env.old env.new first.old first.new r) }
{
    match declared.name {
        None => Ok(None),
        Some(name) => {
            note_name_unless(may_be_declared(env, name), declared.at, first);
            with_name(alloc, env, name, declared.at, &declared.ty)
        }
    }
}

#[tactic(auto, using(crate::proofs::Parts::part_rules), unfolding(crate::specs::Declarations::initialised))]
fn initialised(
    alloc: Global,
    text: &Text,
    env: &mut Env,
    nodes: &[Raw],
    ty: Option<Ty>,
    first: &mut Option<Fault>,
) -> Result<Option<Items<(u32, Expr)>>, AllocError>
    ensures { IfOk result (λ r. Judges (spec.initialised text.now ty nodes.now) env.old env.new first.old first.new r) }
{
    match nodes {
        [] => Ok(Some(Items::new(alloc))),
        [node, ..] => local_inits(alloc, text, env, node, ty, first),
    }
}

fn declare_made(span: Span, number: Option<u32>, init: Option<Items<(u32, Expr)>>) -> Option<Stmt>
    ensures { result ≡ spec.declare_made span number init }
{
    match number.zip(init) {
        None => None,
        Some((local, init)) => Some(Stmt {
            span,
            kind: StmtKind::Declare { local, init },
        }),
    }
}

#[tactic(auto, using(crate::proofs::Parts::part_rules), unfolding(crate::specs::Declarations::declares_by))]
fn declares(
    alloc: Global,
    text: &Text,
    env: &mut Env,
    node: &Raw,
    base: &Option<Ty>,
    first: &mut Option<Fault>,
) -> Result<Option<Stmt>, AllocError>
    ensures { IfOk result (λ r. Judges (spec.declares text.now base.now node.now) env.old env.new first.old first.new r) }
{
    match node.parts.as_slice() {
        [] => Ok(None),
        [declarator, rest @ ..] => {
            let one = declared(alloc, text, env, declarator, base, first)?;
            let number = declare(alloc, env, &one, first);
            let Declared { name: _, at: _, ty } = one;
            let (number, ty) = kept(number, ty)?;
            let init = initialised(alloc, text, env, rest, ty, first)?;
            Ok(declare_made(span_of(text.tokens, node), number, init))
        }
    }
}

#[tactic(auto, using(crate::proofs::Parts::part_rules), unfolding(crate::specs::Declarations::declares_all))]
fn declares_all(
    alloc: Global,
    text: &Text,
    env: &mut Env,
    nodes: &[Raw],
    base: &Option<Ty>,
    first: &mut Option<Fault>,
) -> Result<Option<Items<Stmt>>, AllocError>
    ensures { IfOk result (λ r. Judges (spec.declares_all text.now base.now nodes.now) env.old env.new first.old first.new r) }
{
    let mut all = Some(Items::new(alloc));
    'nodes: for node in nodes {
        let made = declares(alloc, text, env, node, base, first)?;
        all = with_one(alloc, all, made)?;
    }
    Ok(all)
}

/// A declaration in a block, or in a `for`: its specifiers and what they declare.
#[tactic(auto, using(crate::proofs::Parts::part_rules), unfolding(crate::specs::Declarations::declaration))]
pub fn declaration(
    alloc: Global,
    text: &Text,
    env: &mut Env,
    nodes: &[Raw],
    first: &mut Option<Fault>,
) -> Result<Option<Items<Stmt>>, AllocError>
    ensures { IfOk result (λ r. Judges (spec.declaration text.now nodes.now) env.old env.new first.old first.new r) }
{
    match nodes {
        [] => Ok(Some(Items::new(alloc))),
        [specs, rest @ ..] => {
            let base = specified(alloc, text, env, specs, false, first)?;
            let all = declares_all(alloc, text, env, rest, &base, first);
            drop(base);
            all
        }
    }
}
