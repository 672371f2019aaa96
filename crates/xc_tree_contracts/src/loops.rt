ghost use Rattle.std.specs.Prelude.{◌≡◌, IsTrue, IfOk};
ghost use Rattle.xc_form.specs.Normal.{is_loop, normal_form as normal_form_of};
ghost use Rattle.xc_form.specs.Concurrency.{is_concurrent as is_concurrent_by};
ghost use Rattle.xc_form.specs.Purity.{purity};
ghost use Rattle.xc_form.specs.Effects.{stmt_effects};
ghost use Rattle.xc_form_stable.specs.Stable.{first_unstable as first_unstable_by};

use sqlite_items::Items;
use std::alloc::{AllocError, Global};
use xc_form::{Effect, Header, effects_of, is_concurrent, normal_form, pure_functions};
use xc_form_stable::{Breach, first_unstable};
use xc_tree::{Func, Local, NotNormal, Stmt};

pub fn normal(
    alloc: Global,
    pures: &[bool],
    locals: &[Local],
    s: &Stmt,
) -> Result<Result<Header, NotNormal>, AllocError>
    requires { IsTrue (is_loop s.now) }
    ensures { IfOk result (λ r. r ≡ normal_form_of pures.now locals.now s.now) }
{
    normal_form(alloc, pures, locals, s)
}

pub fn concurrent(
    alloc: Global,
    pures: &[bool],
    locals: &[Local],
    s: &Stmt,
) -> Result<bool, AllocError>
    requires { IsTrue (is_loop s.now) }
    ensures { IfOk result (λ r. r ≡ is_concurrent_by pures.now locals.now s.now) }
{
    is_concurrent(alloc, pures, locals, s)
}

pub fn pures(alloc: Global, funcs: &[Func]) -> Result<Items<bool>, AllocError>
    ensures { IfOk result (λ r. r ≡ purity funcs.now) }
{
    pure_functions(alloc, funcs)
}

pub fn effects(alloc: Global, s: &Stmt) -> Result<Items<Effect>, AllocError>
    ensures { IfOk result (λ r. r ≡ stmt_effects s.now) }
{
    effects_of(alloc, s)
}

pub fn unstable(
    alloc: Global,
    pures: &[bool],
    locals: &[Local],
    s: &Stmt,
) -> Result<Option<Breach>, AllocError>
    requires { IsTrue (is_loop s.now) }
    ensures { IfOk result (λ r. r ≡ first_unstable_by pures.now locals.now s.now) }
{
    first_unstable(alloc, pures, locals, s)
}
