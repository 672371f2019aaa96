//! What initialisers give.

ghost use Rattle.std.specs.Prelude.{◌≡◌, cond, IfOk, OnOk};
ghost use Rattle.std.specs.Option.{option_copied};
ghost use Rattle.xc_type_rule.specs.Least.{least_from, fault_unless};
ghost use Rattle.xc_type_initialiser_objects.specs.Inits as spec;

use sqlite_items::Items;
use std::alloc::{AllocError, Global};
use xc_text_place::Span;
use xc_tree::{Expr, Ty};
use xc_type_rule::{Fault, Found, base_of, given, may_be_plain, may_fit, note_type};

/// What initialisers give: the expressions that are made with their offsets, in the order of the text, and whether none
/// was left out because of a fault.
#[derive(Drop)]
pub struct Inits {
    pub made: Items<(u32, Expr)>,
    pub whole: bool,
}

impl Inits {
    /// Nothing.
    pub fn new(alloc: Global) -> Inits
        ensures { result ≡ spec.nothing }
    {
        Inits {
            made: Items::new(alloc),
            whole: true,
        }
    }

    /// One more, at this offset, if it is made.
    pub fn add(&mut self, off: u32, made: Option<Expr>) -> Result<(), AllocError>
        ensures { OnOk result (self.new ≡ spec.and_also self.old (spec.one_init off made)) }
    {
        match made {
            None => {
                self.whole = false;
                Ok(())
            }
            Some(e) => Ok(self.made.push((off, e))?),
        }
    }

    /// All of them, if each was made.
    pub fn if_whole(self) -> Option<Items<(u32, Expr)>>
        ensures { result ≡ spec.if_whole self }
    {
        let Inits { made, whole } = self;
        if whole { Some(made) } else { None }
    }
}

/// A rule of types is broken by what covers these bytes, unless it is kept.
#[tactic(auto, using(xc_type_rule::proofs::Least::least_rules))]
pub fn note_type_unless(kept: bool, span: Span, first: &mut Option<Fault>)
    ensures { first.new ≡ least_from first.old (fault_unless kept span) }
{
    if !kept {
        note_type(first, span);
    }
}

fn made_if(fits: bool, made: Option<Expr>) -> Option<Expr>
    ensures { result ≡ cond fits made None }
{
    if fits {
        made
    } else {
        drop(made);
        None
    }
}

#[tactic(auto, using(xc_type_rule::proofs::Least::least_rules))]
fn base_made(
    alloc: Global,
    span: Span,
    base: Option<&Ty>,
    value: Found,
    first: &mut Option<Fault>,
) -> Result<Option<Expr>, AllocError>
    ensures part { IfOk result (λ r. r ≡ spec.base_made (option_copied base.entry) value) }
    ensures first { OnOk result (first.new ≡ least_from first.old (spec.base_faults span (option_copied base.entry) value)) }
{
    match base {
        None => {
            drop(value);
            note_type(first, span);
            Ok(None)
        }
        Some(ty) => {
            let Found { known, made } = given(alloc, ty, value)?;
            let fits = may_fit(ty, &known);
            drop(known);
            note_type_unless(fits, span, first);
            Ok(made_if(fits, made))
        }
    }
}

/// What an expression gives an object of this type that it initialises. `span` covers the expression.
#[tactic(auto, using(xc_type_rule::proofs::Least::least_rules), unfolding(crate::specs::Inits::value_made, crate::specs::Inits::value_faults))]
pub fn value_made(
    alloc: Global,
    span: Span,
    ty: &Option<Ty>,
    value: Found,
    first: &mut Option<Fault>,
) -> Result<Option<Expr>, AllocError>
    ensures part { IfOk result (λ r. r ≡ spec.value_made ty.now value) }
    ensures first { OnOk result (first.new ≡ least_from first.old (spec.value_faults span ty.now value)) }
{
    match ty {
        None => {
            note_type_unless(may_be_plain(&value.known), span, first);
            drop(value);
            Ok(None)
        }
        Some(ty) => base_made(alloc, span, base_of(ty), value, first),
    }
}
