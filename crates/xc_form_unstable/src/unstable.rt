//! Its first breach.

ghost use Rattle.std.specs.Prelude.{◌≡◌, IfOk};
ghost use Rattle.xc_form_unstable.specs.Unstable.{span_of, unstable_at};

use crate::loops::loop_in;
use std::alloc::{AllocError, Global};
use xc_form::pure_functions;
use xc_form_stable::{Breach, first_unstable as first_breach};
use xc_text_place::Span;
use xc_tree::{LoopId, Tree};

fn span_of(breach: Option<Breach>) -> Option<Span>
    ensures { result ≡ span_of breach }
{
    match breach {
        None => None,
        Some(breach) => Some(breach.at),
    }
}

/// Where the loop with this number first breaks a rule of stable loops; `None` where it is stable, and where there is no
/// such loop.
pub fn first_unstable(alloc: Global, tree: &Tree, id: LoopId) -> Result<Option<Span>, AllocError>
    ensures { IfOk result (λ r. r ≡ unstable_at tree.now id) }
{
    let pures = pure_functions(alloc, tree.funcs.as_slice())?;
    for func in tree.funcs.as_slice() {
        if let Some(s) = loop_in(func.body.get(), id) {
            let breach = first_breach(alloc, pures.as_slice(), func.locals.as_slice(), s)?;
            return Ok(span_of(breach));
        }
    }
    Ok(None)
}
