//! Arguments against parameters.

ghost use Rattle.std.specs.Prelude.{◌≡◌, IfOk, slice_get, option_and_then};
ghost use Rattle.std.specs.Option.{option_copied};
ghost use Rattle.xc_type_rule_calls.specs.Arguments as spec;
ghost use Rattle.xc_type_rule_calls.specs.InnerArguments as inner_spec;

use sqlite_items::Items;
use std::alloc::{AllocError, Global};
use xc_tree::{Expr, Ty};
use xc_type_rule::{Found, Known, base_of, given, may_be_plain, may_fit};

pub(crate) fn ruled(keeps: bool, known: Known) -> Option<Known>
    ensures { result ≡ spec.ruled keeps known }
{
    if keeps {
        Some(known)
    } else {
        drop(known);
        None
    }
}

pub(crate) fn given_by(alloc: Global, to: Option<&Ty>, value: Found) -> Result<Found, AllocError>
    ensures { IfOk result (λ r. r ≡ spec.given_by (option_copied to.entry) value) }
{
    match to {
        None => Ok(value),
        Some(ty) => given(alloc, ty, value),
    }
}

fn held_by(param: &Option<Ty>) -> Option<&Ty>
    ensures { option_copied result ≡ spec.held_by param.now }
{
    match param {
        None => None,
        Some(ty) => base_of(ty),
    }
}

fn held_at(params: &[Option<Ty>], place: usize) -> Option<&Ty>
    ensures { option_copied result ≡ option_and_then spec.held_by (slice_get params.now place) }
{
    match params.get(place) {
        None => None,
        Some(param) => held_by(param),
    }
}

#[tactic(auto, using(crate::proofs::Passing::given_rules))]
pub(crate) fn given_to(
    alloc: Global,
    params: &[Option<Ty>],
    args: Vec<Found>,
) -> Result<Vec<Found>, AllocError>
    ensures { IfOk result (λ r. r.items ≡ spec.given_to params.now args.items) }
{
    let mut all = Vec::new(alloc);
    for arg in args {
        let arg = given_by(alloc, held_at(params, all.len()), arg)?;
        all.push(arg)?;
    }
    Ok(all)
}

fn may_pass(param: &Option<Ty>, arg: &Known) -> bool
    ensures { result ≡ spec.may_pass param.now arg.now }
{
    match param {
        None => may_be_plain(arg),
        Some(ty) => match base_of(ty) {
            None => false,
            Some(held) => may_fit(held, arg),
        },
    }
}

#[tactic(auto, using(crate::proofs::Passing::fit_rules))]
pub(crate) fn all_fit(params: &[Option<Ty>], args: &[Found]) -> bool
    ensures { result ≡ spec.all_fit params.now args.now }
{
    if params.len() != args.len() {
        return false;
    }
    for i in 0..params.len() {
        if !may_pass(&params[i], &args[i].known) {
            return false;
        }
    }
    true
}

#[tactic(auto, unfolding(xc_type_rule::specs::Making::both))]
fn one_more(made: Option<Items<Expr>>, e: Option<Expr>) -> Result<Option<Items<Expr>>, AllocError>
    ensures { IfOk result (λ r. r ≡ inner_spec.one_more made e) }
{
    match (made, e) {
        (Some(made), Some(e)) => {
            let mut made = made;
            made.push(e)?;
            Ok(Some(made))
        }
        (None, None) => Ok(None),
        (None, Some(e)) => {
            drop(e);
            Ok(None)
        }
        (Some(_), None) => Ok(None),
    }
}

#[tactic(auto, using(crate::proofs::Passing::made_rules))]
pub(crate) fn all_made(alloc: Global, args: Vec<Found>) -> Result<Option<Items<Expr>>, AllocError>
    ensures { IfOk result (λ r. r ≡ spec.all_made args.items) }
{
    let mut made = Some(Items::new(alloc));
    for arg in args {
        let Found { known, made: e } = arg;
        drop(known);
        made = one_more(made, e)?;
    }
    Ok(made)
}
