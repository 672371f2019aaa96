//! Definitions of functions.

ghost use Rattle.std.specs.Prelude.{◌≡◌, map, length, IfOk, OnOk};
ghost use Rattle.xc_raw.specs.declared.tree.Raw.{out-Raw};
ghost use Rattle.xc_type_scopes.specs.declared.env.Env.{Env};
ghost use Rattle.xc_type_scopes.specs.Judge.{Judges, and_then};
ghost use Rattle.xc_type_unit.specs.InnerItems.{Does};
ghost use Rattle.xc_type_unit.specs.Functions as spec;

use crate::heads::{Head, headed, named_function};
use crate::scope::FileScope;
use crate::types::copy_known;
use sqlite_items::{Boxed, Items};
use std::alloc::{AllocError, Global};
use xc_hold::{both, kept};
use xc_raw::{Raw, Rule};
use xc_raw_parts::callee_name;
use xc_text_place::Span;
use xc_tree::{Func, Local, Stmt, Ty, copy_ty};
use xc_type_expressions::{Text, note_name_unless, specified};
use xc_type_lowering::lower_stmt;
use xc_type_names::Scopes;
use xc_type_rule::Fault;
use xc_type_scopes::Env;
use xc_type_statement_parts::{Answer, one};
use xc_type_statements::body;

// What a node defines: the number of a name.
#[tactic(auto)]
fn defined(text: &Text, node: &Raw) -> Option<Option<u32>>
    ensures { result ≡ spec.defined text.now node.now }
{
    match node.rule {
        Rule::Function => match node.parts.as_slice() {
            [_, callee, _, _, ..] => Some(text.name_at(callee_name(text.tokens, callee))),
            _ => None,
        },
        _ => None,
    }
}

fn add_body(bodies: &mut Scopes<u32>, name: Option<u32>, number: u32) -> Result<(), AllocError>
    ensures { OnOk result (bodies.new ≡ spec.with_body name number bodies.old) }
{
    match name {
        None => Ok(()),
        Some(name) => {
            if bodies.is_new(name) {
                bodies.declare(name, number)?;
            }
            Ok(())
        }
    }
}

/// The functions that a text defines, by name, each with the number of its first definition. Past 2^32 - 1 definitions
/// the answer is want of memory.
#[tactic(auto, using(crate::proofs::Turns::node_rules), unfolding(crate::specs::Functions::bodies_from))]
pub(crate) fn bodies_of(
    alloc: Global,
    text: &Text,
    nodes: &[Raw],
) -> Result<Scopes<u32>, AllocError>
    ensures { IfOk result (λ r. r ≡ spec.bodies_of text.now nodes.now) }
{
    let mut bodies = Scopes::new(alloc);
    bodies.enter()?;
    let mut number: u32 = 0;
    'nodes: for node in nodes {
        if let Some(name) = defined(text, node) {
            add_body(&mut bodies, name, number)?;
            number = number.checked_add(1).ok_or(AllocError)?;
        }
    }
    Ok(bodies)
}

fn is_first(bodies: &Scopes<u32>, name: Option<u32>, number: u32) -> bool
    ensures { result ≡ spec.is_first bodies.now name number }
{
    match name {
        None => true,
        Some(name) => match bodies.find(name) {
            None => false,
            Some(first) => *first == number,
        },
    }
}

#[tactic(auto, using(crate::proofs::Zips::zip_rules))]
fn locals_of(
    alloc: Global,
    locals: &[(Span, Ty)],
    addressed: &[bool],
) -> Result<Items<Local>, AllocError>
    ensures { IfOk result (λ r. r ≡ spec.locals_of locals.now addressed.now) }
{
    let mut all = Items::new(alloc);
    'locals: for (at, local) in locals.iter().enumerate() {
        match addressed.get(at) {
            None => return Ok(all),
            Some(addressed) => all.push(Local {
                name: local.0,
                ty: copy_ty(alloc, &local.1)?,
                addressed: *addressed,
            })?,
        }
    }
    Ok(all)
}

fn func_of(
    alloc: Global,
    env: &Env,
    head: &Head,
    params: u32,
    made: &Option<Stmt>,
) -> Result<Option<Func>, AllocError>
    ensures { IfOk result (λ r. r ≡ spec.func_of head.now params env.now head.now.ret made.now) }
{
    match (&head.ret, made) {
        (Some(ret), Some(made)) => {
            let body = Boxed::new(alloc, lower_stmt(alloc, env.addressed(), made)?);
            let locals = locals_of(alloc, env.locals(), env.addressed());
            let (locals, body) = both(locals, body)?;
            let (ret, (locals, body)) = kept(copy_ty(alloc, ret), (locals, body))?;
            Ok(Some(Func {
                name: head.at,
                params,
                locals,
                ret,
                body,
            }))
        }
        (Some(_), None) => Ok(None),
        (None, Some(_)) => Ok(None),
        (None, None) => Ok(None),
    }
}

#[tactic(auto, using(crate::proofs::Turns::node_rules), unfolding(crate::specs::Functions::bodied))]
fn bodied(
    alloc: Global,
    text: &Text,
    bodies: &Scopes<u32>,
    number: u32,
    env: &mut Env,
    head: &Head,
    block: &Raw,
    first: &mut Option<Fault>,
) -> Result<Option<Func>, AllocError>
    ensures { IfOk result (λ r. Judges (spec.bodied text.now bodies.now number head.now block.now) env.old env.new first.old first.new r) }
{
    note_name_unless(is_first(bodies, head.name, number), head.at, first);
    let params = env.locals().len();
    if params > u32::MAX as usize {
        return Err(AllocError);
    }
    let answer = Answer::Function(copy_known(alloc, &head.ret)?);
    let made = body(alloc, text, env, block, &answer, false, first);
    drop(answer);
    let made = made?;
    let func = func_of(alloc, env, head, params as u32, &made);
    drop(made);
    func
}

#[tactic(auto, using(crate::proofs::Turns::node_rules), unfolding(crate::specs::Functions::defined_as))]
fn defined_as(
    alloc: Global,
    text: &Text,
    bodies: &Scopes<u32>,
    number: u32,
    env: &mut Env,
    head: &Head,
    nodes: &[Raw],
    first: &mut Option<Fault>,
) -> Result<Option<Items<Func>>, AllocError>
    ensures { IfOk result (λ r. Judges (spec.defined_as text.now bodies.now number head.now nodes.now) env.old env.new first.old first.new r) }
{
    match nodes {
        [] => Ok(Some(Items::new(alloc))),
        [block, ..] => {
            let func = bodied(alloc, text, bodies, number, env, head, block, first)?;
            one(alloc, func)
        }
    }
}

// The name stands for the function from its own body on.
#[tactic(auto, using(crate::proofs::Turns::node_rules))]
fn name_and_define(
    alloc: Global,
    text: &Text,
    bodies: &Scopes<u32>,
    number: u32,
    env: &mut Env,
    head: &Head,
    nodes: &[Raw],
    first: &mut Option<Fault>,
) -> Result<Option<Items<Func>>, AllocError>
    ensures { IfOk result (λ r. Judges (and_then (spec.named_function text.now bodies.now head.now head.now.name) (λ x. spec.defined_as text.now bodies.now number head.now nodes.now)) env.old env.new first.old first.new r) }
{
    named_function(alloc, text, bodies, env, head, first)?;
    defined_as(alloc, text, bodies, number, env, head, nodes, first)
}

#[tactic(auto, using(crate::proofs::Turns::node_rules), unfolding(crate::specs::Functions::inner))]
fn inner(
    alloc: Global,
    text: &Text,
    bodies: &Scopes<u32>,
    number: u32,
    env: &mut Env,
    base: Option<Ty>,
    callee: &Raw,
    params: &Raw,
    nodes: &[Raw],
    first: &mut Option<Fault>,
) -> Result<Option<Items<Func>>, AllocError>
    ensures { IfOk result (λ r. Judges (spec.inner text.now bodies.now number base callee.now params.now nodes.now) env.old env.new first.old first.new r) }
{
    let ((), base) = kept(env.begin_function(alloc), base)?;
    let head = headed(alloc, text, env, base, callee, params, first)?;
    let made = name_and_define(alloc, text, bodies, number, env, &head, nodes, first);
    drop(head);
    let made = made?;
    env.end_function(alloc);
    Ok(made)
}

fn blocks(nodes: &[Raw]) -> u32
    ensures { result ≡ spec.blocks nodes.now }
{
    match nodes {
        [] => 0,
        [_, ..] => 1,
    }
}

/// A function that is declared or defined.
#[tactic(auto, using(crate::proofs::Turns::node_rules), unfolding(crate::specs::Functions::function))]
pub(crate) fn function(
    alloc: Global,
    text: &Text,
    bodies: &Scopes<u32>,
    scope: &mut FileScope,
    nodes: &[Raw],
    first: &mut Option<Fault>,
) -> Result<(), AllocError>
    ensures { OnOk result (Does (spec.function text.now bodies.now nodes.now) scope.old scope.new first.old first.new) }
{
    match nodes {
        [specs, callee, params, rest @ ..] => {
            let base = specified(alloc, text, &mut scope.env, specs, true, first)?;
            let number = scope.defined;
            let env = &mut scope.env;
            let made = inner(
                alloc, text, bodies, number, env, base, callee, params, rest, first,
            )?;
            scope.add_funcs(blocks(rest), made)
        }
        _ => Ok(()),
    }
}
