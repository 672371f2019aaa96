//! Concurrent loops.

ghost use Rattle.std.specs.Prelude.{◌≡◌, IsTrue, IfOk};
ghost use Rattle.xc_form.specs.Normal.{is_loop};
ghost use Rattle.xc_form.specs.Concurrency.{declares, is_declared, keeps_inside, all_inside, is_asserted, is_concurrent};

use crate::effect::{Effect, effects_of};
use crate::normal::normal_form;
use bitflags::Flags;
use std::alloc::{AllocError, Global};
use xc_tree::{Local, Marks, Stmt, StmtKind};

fn declares(x: u32, effect: &Effect) -> bool
    ensures { result ≡ declares x effect.now }
{
    match effect {
        Effect::Declare(y) => x == *y,
        _ => false,
    }
}

#[tactic(auto, using(xc_tree::proofs::Lists::list_rules))]
fn is_declared(effects: &[Effect], x: u32) -> bool
    ensures { result ≡ is_declared effects.now x }
{
    for effect in effects {
        if declares(x, effect) {
            return true;
        }
    }
    false
}

fn keeps_inside(effects: &[Effect], effect: &Effect) -> bool
    ensures { result ≡ keeps_inside effects.now effect.now }
{
    match effect {
        Effect::Set(x) => is_declared(effects, *x),
        _ => true,
    }
}

#[tactic(auto, using(crate::proofs::Walks::walk_rules), unfolding(crate::specs::Concurrency::all_inside))]
fn all_inside(effects: &[Effect]) -> bool
    ensures { result ≡ all_inside effects.now }
{
    for effect in effects {
        if !keeps_inside(effects, effect) {
            return false;
        }
    }
    true
}

fn is_asserted(marks: Marks) -> bool
    ensures { result ≡ is_asserted marks }
{
    marks.contains(Marks::PARALLEL) && !marks.contains(Marks::SERIAL)
}

/// Whether the iterations of a loop are threads: it is in normal form under `assert parallel`, and its body assigns no
/// local without address that is declared outside.
pub fn is_concurrent(
    alloc: Global,
    pures: &[bool],
    locals: &[Local],
    s: &Stmt,
) -> Result<bool, AllocError>
    requires { IsTrue (is_loop s.now) }
    ensures { IfOk result (λ r. r ≡ is_concurrent pures.now locals.now s.now) }
{
    let StmtKind::Loop {
        id: _,
        form: _,
        init: _,
        test: _,
        step: _,
        body,
        pragmas,
    } = &s.kind
    else {
        unreachable!()
    };
    if !is_asserted(pragmas.marks) {
        return Ok(false);
    }
    let effects = effects_of(alloc, body.get())?;
    if !all_inside(effects.as_slice()) {
        return Ok(false);
    }
    let form = normal_form(alloc, pures, locals, s)?;
    Ok(form.is_ok())
}
