//! The places of `future` statements, and what their bodies copy.

ghost use Rattle.std.specs.Prelude.{◌≡◌, IfOk};
ghost use Rattle.xc_type_scopes.specs.Judge.{Judges};
ghost use Rattle.xc_type_statement_parts.specs.Futures as spec;

use crate::answer::Answer;
use crate::declarations::declare;
use crate::make::with_one;
use sqlite_items::Items;
use std::alloc::{AllocError, Global};
use xc_hold::{both, kept};
use xc_raw::{Access, Raw};
use xc_raw_parts::{PlaceStep, captured_names, place_steps, spot};
use xc_text_place::Span;
use xc_tree::{Capture, Expr, Ty, copy_expr, copy_ty};
use xc_type_expressions::{Declared, Text, arrowed, dotted, named, value};
use xc_type_rule::{Fault, Found, Known, is_plain, note_lost, note_type, rvalue, unknown_place};
use xc_type_rule_places::index;
use xc_type_scopes::Env;

/// A variable that a body copies: the copy, whose type is none after a fault, and its first value.
#[derive(Drop)]
pub struct Copied {
    pub declared: Declared,
    pub from: Option<Expr>,
}

// Places.

/// Where a step of a place stands: what covers the place with the step, and what covers the place before it.
#[derive(Clone, Copy)]
struct Stretch {
    whole: Span,
    before: Span,
}

fn up_to(a: Span, b: Span) -> Span
    ensures { result ≡ spec.up_to a b }
{
    Span {
        start: a.start,
        end: b.end,
    }
}

#[tactic(auto, using(crate::proofs::Parts::part_rules), unfolding(crate::specs::Futures::element))]
fn element(
    alloc: Global,
    text: &Text,
    env: &mut Env,
    node: &Raw,
    stretch: Stretch,
    base: Found,
    first: &mut Option<Fault>,
) -> Result<Found, AllocError>
    ensures { IfOk result (λ r. Judges (spec.element text.now stretch.whole stretch.before base node.now) env.old env.new first.old first.new r) }
{
    let Stretch { whole, before } = stretch;
    let (v, base) = kept(value(alloc, text, env, node, first), base)?;
    index(alloc, env.structs().sizes(), whole, before, base, v, first)
}

/// A part of a place as a value.
#[tactic(auto, using(crate::proofs::Parts::part_rules))]
fn as_value(
    alloc: Global,
    env: &Env,
    at: Span,
    part: Found,
    first: &mut Option<Fault>,
) -> Result<Found, AllocError>
    ensures { IfOk result (λ r. Judges (spec.as_value at part) env.now env.now first.old first.new r) }
{
    note_lost(at, &part.known, first);
    rvalue(alloc, env.structs().sizes(), at, part)
}

#[tactic(auto, using(crate::proofs::Parts::part_rules), unfolding(crate::specs::Futures::member))]
fn member(
    alloc: Global,
    text: &Text,
    env: &Env,
    stretch: Stretch,
    base: Found,
    access: Access,
    name: usize,
    first: &mut Option<Fault>,
) -> Result<Found, AllocError>
    ensures { IfOk result (λ r. Judges (spec.member text.now stretch.whole stretch.before base access name) env.now env.now first.old first.new r) }
{
    let Stretch { whole, before } = stretch;
    let (named_at, number) = (spot(text.tokens, name), text.name_of(name));
    match access {
        Access::Dot => dotted(alloc, env, whole, named_at, number, base, first),
        Access::Arrow => {
            let p = as_value(alloc, env, before, base, first)?;
            arrowed(alloc, env, whole, named_at, number, p, first)
        }
    }
}

#[tactic(auto, using(crate::proofs::Parts::part_rules), unfolding(crate::specs::Futures::reached))]
fn reached(
    alloc: Global,
    text: &Text,
    env: &mut Env,
    nodes: &[Raw],
    at: Span,
    base: Found,
    steps: &[PlaceStep],
    first: &mut Option<Fault>,
) -> Result<Found, AllocError>
    ensures { IfOk result (λ r. Judges (spec.reached text.now at base steps.now nodes.now) env.old env.new first.old first.new r) }
{
    let mut found = base;
    let mut at = at;
    let mut rest = nodes;
    'steps: for step in steps {
        match *step {
            PlaceStep::Index => match rest {
                [] => {
                    drop(found);
                    return Ok(unknown_place());
                }
                [node, more @ ..] => {
                    let whole = up_to(at, spot(text.tokens, node.end as usize));
                    let stretch = Stretch { whole, before: at };
                    found = element(alloc, text, env, node, stretch, found, first)?;
                    at = whole;
                    rest = more;
                }
            },
            PlaceStep::Member { access, name } => {
                let whole = up_to(at, spot(text.tokens, name));
                let stretch = Stretch { whole, before: at };
                found = member(alloc, text, env, stretch, found, access, name, first)?;
                at = whole;
            }
        }
    }
    Ok(found)
}

#[tactic(auto, using(crate::proofs::Parts::part_rules), unfolding(crate::specs::Futures::placed))]
fn placed(
    alloc: Global,
    text: &Text,
    env: &mut Env,
    node: &Raw,
    first: &mut Option<Fault>,
) -> Result<Found, AllocError>
    ensures { IfOk result (λ r. Judges (spec.placed text.now node.now) env.old env.new first.old first.new r) }
{
    let token = node.first as usize;
    let at = spot(text.tokens, token);
    let steps = place_steps(alloc, text.source, text.tokens, node)?;
    let base = named(alloc, env, at, text.name_of(token), first)?;
    reached(
        alloc,
        text,
        env,
        node.parts.as_slice(),
        at,
        base,
        steps.as_slice(),
        first,
    )
}

/// The type that a `future` object waits for.
fn waits_for(alloc: Global, place: &Known) -> Result<Option<Ty>, AllocError>
    ensures { IfOk result (λ r. r ≡ spec.waits_for place.now) }
{
    match place {
        Known::Place {
            ty: Ty::Future(of),
            ..
        } => Ok(Some(copy_ty(alloc, of.get())?)),
        _ => Ok(None),
    }
}

fn may_be_future(place: &Known) -> bool
    ensures { result ≡ spec.may_be_future place.now }
{
    match place {
        Known::Unknown { .. } => true,
        Known::Value(_) => false,
        Known::Place { ty, within: _ } => matches!(ty, Ty::Future(_)),
    }
}

/// The place of a `future` statement that `span` covers, and what its body leaves there.
#[tactic(auto, using(crate::proofs::Parts::part_rules), unfolding(crate::specs::Futures::awaited))]
pub fn awaited(
    alloc: Global,
    text: &Text,
    env: &mut Env,
    node: &Raw,
    span: Span,
    first: &mut Option<Fault>,
) -> Result<(Option<Expr>, Answer), AllocError>
    ensures { IfOk result (λ r. Judges (spec.awaited text.now span node.now) env.old env.new first.old first.new r) }
{
    let Found { known, made } = placed(alloc, text, env, node, first)?;
    if !may_be_future(&known) {
        note_type(first, span);
    }
    let ty = waits_for(alloc, &known);
    drop(known);
    let (ty, made) = kept(ty, made)?;
    Ok((made, Answer::Future(ty)))
}

// Copies.

fn variable_ty(alloc: Global, known: &Known) -> Result<Option<Ty>, AllocError>
    ensures { IfOk result (λ r. r ≡ spec.variable_ty known.now) }
{
    match known {
        Known::Place { ty, within: _ } if is_plain(ty) => Ok(Some(copy_ty(alloc, ty)?)),
        _ => Ok(None),
    }
}

fn may_be_variable(known: &Known) -> bool
    ensures { result ≡ spec.may_be_variable known.now }
{
    match known {
        Known::Unknown { .. } => true,
        Known::Value(_) => false,
        Known::Place { ty, within: _ } => is_plain(ty),
    }
}

#[tactic(auto, using(crate::proofs::Parts::part_rules), unfolding(crate::specs::Futures::copy_of))]
fn copy_of(
    alloc: Global,
    text: &Text,
    env: &Env,
    token: usize,
    first: &mut Option<Fault>,
) -> Result<Copied, AllocError>
    ensures { IfOk result (λ r. Judges (spec.copy_of text.now token) env.now env.now first.old first.new r) }
{
    let (at, name) = (spot(text.tokens, token), text.name_of(token));
    let variable = named(alloc, env, at, name, first)?;
    let ty = variable_ty(alloc, &variable.known);
    let fine = may_be_variable(&variable.known);
    let (v, ty) = both(as_value(alloc, env, at, variable, first), ty)?;
    if !fine {
        note_type(first, at);
    }
    let Found { known, made } = v;
    drop(known);
    Ok(Copied {
        declared: Declared { name, at, ty },
        from: made,
    })
}

#[tactic(auto, using(crate::proofs::Parts::part_rules), unfolding(crate::specs::Futures::copies))]
fn copies(
    alloc: Global,
    text: &Text,
    env: &Env,
    tokens: &[usize],
    first: &mut Option<Fault>,
) -> Result<Items<Copied>, AllocError>
    ensures { IfOk result (λ r. Judges (spec.copies text.now tokens.now) env.now env.now first.old first.new r) }
{
    let mut all = Items::new(alloc);
    'tokens: for token in tokens {
        all.push(copy_of(alloc, text, env, *token, first)?)?;
    }
    Ok(all)
}

/// What the body of a `future` statement copies.
pub fn captured(
    alloc: Global,
    text: &Text,
    env: &Env,
    node: &Raw,
    first: &mut Option<Fault>,
) -> Result<Items<Copied>, AllocError>
    ensures { IfOk result (λ r. Judges (spec.captured text.now node.now) env.now env.now first.old first.new r) }
{
    let names = captured_names(alloc, text.tokens, node)?;
    copies(alloc, text, env, names.as_slice(), first)
}

fn copy_made(alloc: Global, made: &Option<Expr>) -> Result<Option<Expr>, AllocError>
    ensures { IfOk result (λ r. r ≡ made.now) }
{
    match made {
        None => Ok(None),
        Some(e) => Ok(Some(copy_expr(alloc, e)?)),
    }
}

fn capture_made(number: Option<u32>, from: Option<Expr>) -> Option<Capture>
    ensures { result ≡ spec.capture_made number from }
{
    match number.zip(from) {
        None => None,
        Some((local, from)) => Some(Capture { from, local }),
    }
}

fn capture(
    alloc: Global,
    env: &mut Env,
    copy: &Copied,
    first: &mut Option<Fault>,
) -> Result<Option<Capture>, AllocError>
    ensures { IfOk result (λ r. Judges (spec.capture copy.now) env.old env.new first.old first.new r) }
{
    let number = declare(alloc, env, &copy.declared, first)?;
    let from = copy_made(alloc, &copy.from)?;
    Ok(capture_made(number, from))
}

/// The copies are declared in the body.
#[tactic(auto, using(crate::proofs::Parts::part_rules), unfolding(crate::specs::Futures::copied))]
pub fn declared_copies(
    alloc: Global,
    env: &mut Env,
    copies: &[Copied],
    first: &mut Option<Fault>,
) -> Result<Option<Items<Capture>>, AllocError>
    ensures { IfOk result (λ r. Judges (spec.copied copies.now) env.old env.new first.old first.new r) }
{
    let mut all = Some(Items::new(alloc));
    'copies: for copy in copies {
        let made = capture(alloc, env, copy, first)?;
        all = with_one(alloc, all, made)?;
    }
    Ok(all)
}
