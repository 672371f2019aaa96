//! Objects at file scope.

ghost use Rattle.std.specs.Prelude.{◌≡◌, map, length, IfOk, OnOk};
ghost use Rattle.xc_raw.specs.declared.tree.Raw.{out-Raw};
ghost use Rattle.xc_type_initialiser_objects.specs.Cells.{started as started_of};
ghost use Rattle.xc_type_scopes.specs.Judge.{Judges};
ghost use Rattle.xc_type_unit.specs.InnerItems.{Does};
ghost use Rattle.xc_type_unit.specs.Globals as spec;

use crate::scope::{FileScope, fits};
use crate::types::copy_known;
use sqlite_items::Items;
use std::alloc::{AllocError, Global};
use xc_hold::kept;
use xc_raw::Raw;
use xc_text_place::Span;
use xc_tree::{Ty, copy_ty};
use xc_type_expressions::{Declared, Text, declared, note_name_unless, specified};
use xc_type_initialiser_objects::{initialised, started};
use xc_type_initialisers::global_inits;
use xc_type_names::reserved_of;
use xc_type_rule::{Fault, Thing};
use xc_type_scopes::Env;

fn may_be_declared(env: &Env, name: u32) -> bool
    ensures { result ≡ spec.may_be_declared name env.now }
{
    reserved_of(name).is_none() && env.is_new_global(name)
}

#[tactic(auto, using(xc_type_rule::proofs::Least::least_rules), unfolding(crate::specs::Globals::named_global))]
fn named_global(
    alloc: Global,
    env: &mut Env,
    number: u32,
    declared: &Declared,
    first: &mut Option<Fault>,
) -> Result<(), AllocError>
    ensures { IfOk result (λ r. Judges (spec.named_global declared.now.at declared.now.ty number declared.now.name) env.old env.new first.old first.new r) }
{
    match declared.name {
        None => Ok(()),
        Some(name) => {
            note_name_unless(may_be_declared(env, name), declared.at, first);
            let ty = copy_known(alloc, &declared.ty)?;
            env.declare_global(name, Thing::Global { number, ty })
        }
    }
}

fn filled(
    alloc: Global,
    fitting: bool,
    words: Option<Items<(u32, u64)>>,
) -> Result<Items<(u64, bool)>, AllocError>
    ensures { IfOk result (λ r. r ≡ spec.cells_if fitting (spec.filled words)) }
{
    match words {
        None => Ok(Items::new(alloc)),
        Some(words) => {
            if !fitting {
                return Ok(Items::new(alloc));
            }
            initialised(alloc, words.as_slice())
        }
    }
}

fn started_if(
    alloc: Global,
    env: &Env,
    fitting: bool,
    ty: &Ty,
) -> Result<Items<(u64, bool)>, AllocError>
    ensures { IfOk result (λ r. r ≡ spec.cells_if fitting (started_of env.now.structs ty.now)) }
{
    if fitting {
        started(alloc, env.structs(), ty)
    } else {
        Ok(Items::new(alloc))
    }
}

#[tactic(auto, using(crate::proofs::Turns::node_rules), unfolding(crate::specs::Globals::begun))]
fn begun(
    alloc: Global,
    text: &Text,
    env: &mut Env,
    fitting: bool,
    ty: &Ty,
    nodes: &[Raw],
    first: &mut Option<Fault>,
) -> Result<Items<(u64, bool)>, AllocError>
    ensures { IfOk result (λ r. Judges (spec.begun text.now fitting ty.now nodes.now) env.old env.new first.old first.new r) }
{
    match nodes {
        [] => started_if(alloc, env, fitting, ty),
        [node, ..] => {
            let ty = copy_ty(alloc, ty)?;
            let words = global_inits(alloc, text, env, node, Some(ty), first)?;
            filled(alloc, fitting, words)
        }
    }
}

#[tactic(auto, using(crate::proofs::Turns::node_rules), unfolding(crate::specs::Globals::begun_unknown))]
fn begun_unknown(
    alloc: Global,
    text: &Text,
    env: &mut Env,
    nodes: &[Raw],
    first: &mut Option<Fault>,
) -> Result<(), AllocError>
    ensures { IfOk result (λ r. Judges (spec.begun_unknown text.now nodes.now) env.old env.new first.old first.new r) }
{
    match nodes {
        [] => Ok(()),
        [node, ..] => {
            // An object of unknown type has no words; only the faults of its initialiser count.
            drop(global_inits(alloc, text, env, node, None, first)?);
            Ok(())
        }
    }
}

#[tactic(auto, using(crate::proofs::Turns::node_rules), unfolding(crate::specs::Globals::begins))]
fn begins(
    alloc: Global,
    text: &Text,
    scope: &mut FileScope,
    at: Span,
    ty: Option<Ty>,
    nodes: &[Raw],
    first: &mut Option<Fault>,
) -> Result<(), AllocError>
    ensures { OnOk result (Does (spec.begins text.now at ty nodes.now) scope.old scope.new first.old first.new) }
{
    match ty {
        None => begun_unknown(alloc, text, &mut scope.env, nodes, first),
        Some(ty) => {
            let fitting = fits(scope.cells_with(&ty));
            let init = begun(alloc, text, &mut scope.env, fitting, &ty, nodes, first);
            let (init, ty) = kept(init, ty)?;
            scope.add_object(at, ty, init)
        }
    }
}

#[tactic(auto, using(crate::proofs::Turns::node_rules), unfolding(crate::specs::Globals::global, crate::specs::Globals::global_by))]
fn global(
    alloc: Global,
    text: &Text,
    scope: &mut FileScope,
    node: &Raw,
    base: &Option<Ty>,
    first: &mut Option<Fault>,
) -> Result<(), AllocError>
    ensures { OnOk result (Does (spec.global text.now base.now node.now) scope.old scope.new first.old first.new) }
{
    match node.parts.as_slice() {
        [] => Ok(()),
        [declarator, rest @ ..] => {
            let number = scope.next_global()?;
            let one = declared(alloc, text, &mut scope.env, declarator, base, first)?;
            let named = named_global(alloc, &mut scope.env, number, &one, first);
            let Declared { name: _, at, ty } = one;
            let ((), ty) = kept(named, ty)?;
            begins(alloc, text, scope, at, ty, rest, first)
        }
    }
}

#[tactic(auto, using(crate::proofs::Turns::turn_rules), unfolding(crate::specs::Globals::globals_by))]
fn globals(
    alloc: Global,
    text: &Text,
    scope: &mut FileScope,
    nodes: &[Raw],
    base: &Option<Ty>,
    first: &mut Option<Fault>,
) -> Result<(), AllocError>
    ensures { OnOk result (Does (spec.globals_by text.now base.now nodes.now) scope.old scope.new first.old first.new) }
{
    'nodes: for node in nodes {
        global(alloc, text, scope, node, base, first)?;
    }
    Ok(())
}

/// A declaration of objects at file scope: its specifiers and what they declare.
#[tactic(auto, using(crate::proofs::Turns::node_rules), unfolding(crate::specs::Globals::declaration))]
pub(crate) fn declaration(
    alloc: Global,
    text: &Text,
    scope: &mut FileScope,
    nodes: &[Raw],
    first: &mut Option<Fault>,
) -> Result<(), AllocError>
    ensures { OnOk result (Does (spec.declaration text.now nodes.now) scope.old scope.new first.old first.new) }
{
    match nodes {
        [] => Ok(()),
        [specs, rest @ ..] => {
            let base = specified(alloc, text, &mut scope.env, specs, true, first)?;
            let done = globals(alloc, text, scope, rest, &base, first);
            drop(base);
            done
        }
    }
}
