//! Pure functions.

ghost use Rattle.std.specs.Prelude.{◌≡◌, IfOk, map};
ghost use Rattle.xc_tree.specs.Lists.{every};
ghost use Rattle.xc_form.specs.Purity.{is_quiet, all_quiet, has_no_address, is_pure, purity};

use crate::effect::{Effect, effects_of};
use sqlite_items::Items;
use std::alloc::{AllocError, Global};
use xc_tree::{Func, Local};

fn is_quiet(done: &[bool], effect: &Effect) -> bool
    ensures { result ≡ is_quiet done.now effect.now }
{
    match effect {
        Effect::Set(_) | Effect::Declare(_) => true,
        Effect::Call(f) => match done.get(*f as usize) {
            Some(pure) => *pure,
            None => false,
        },
        _ => false,
    }
}

#[tactic(auto, using(crate::proofs::Walks::walk_rules))]
fn all_quiet(done: &[bool], effects: &[Effect]) -> bool
    ensures { result ≡ all_quiet done.now effects.now }
{
    for effect in effects {
        if !is_quiet(done, effect) {
            return false;
        }
    }
    true
}

#[tactic(auto, using(crate::proofs::Walks::walk_rules))]
fn have_no_address(locals: &[Local]) -> bool
    ensures { result ≡ every (map has_no_address locals.now) }
{
    for local in locals {
        if local.addressed {
            return false;
        }
    }
    true
}

#[tactic(auto, unfolding(crate::specs::Purity::is_pure))]
fn is_pure(alloc: Global, done: &[bool], func: &Func) -> Result<bool, AllocError>
    ensures { IfOk result (λ r. r ≡ is_pure done.now func.now) }
{
    let effects = effects_of(alloc, func.body.get())?;
    Ok(have_no_address(func.locals.as_slice()) && all_quiet(done, effects.as_slice()))
}

/// Which functions are pure, in the order of their numbers.
#[tactic(auto, using(crate::proofs::Walks::walk_rules))]
pub fn pure_functions(alloc: Global, funcs: &[Func]) -> Result<Items<bool>, AllocError>
    ensures { IfOk result (λ r. r ≡ purity funcs.now) }
{
    let mut done = Vec::new(alloc);
    for func in funcs {
        let pure = is_pure(alloc, done.as_slice(), func)?;
        done.push(pure)?;
    }
    Ok(Items::from_vec(done))
}
